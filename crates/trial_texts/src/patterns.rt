//! What read tokens hold, and which patterns they are of.

ghost use Rattle.std.specs.Prelude.{◌<◌, length};

use crate::tokens::{add_name, add_place};
use sq_lexer::{Fault, Phase, Sign, Token, tokens};
use sq_patterns::{Pattern, Tokens, fits, number_at, numeral_at, place_at, syntax_fault, word_at};
use std::alloc::{AllocError, Global};
use std::fmt::Write;

const PATTERNS: [Pattern; 22] = [
    Pattern::Machine,
    Pattern::Level,
    Pattern::Levels,
    Pattern::Node,
    Pattern::Capacity,
    Pattern::Children,
    Pattern::Mapping,
    Pattern::Entry,
    Pattern::Instance,
    Pattern::Tunable,
    Pattern::Call,
    Pattern::Spread,
    Pattern::Cyclic,
    Pattern::Blocked,
    Pattern::Inner,
    Pattern::Leaf,
    Pattern::AnyWord,
    Pattern::AnyNumber,
    Pattern::Exactly(1),
    Pattern::Exactly(2),
    Pattern::Sign(Sign::Arrow),
    Pattern::End,
];

// Of the text `level a 2`, all but the last.
const HEAD: [Pattern; 3] = [Pattern::Level, Pattern::AnyWord, Pattern::Exactly(1)];

pub fn add(alloc: Global, text: &[u8], out: &mut String) -> Result<(), AllocError> {
    let Ok(list) = tokens(alloc, Phase::Machine, text) else {
        return out.push_str(" none");
    };
    let list = list.as_slice();
    add_front(list, &PATTERNS, out)?;
    add_front(list, &HEAD, out)?;
    for at in 0..list.len() {
        out.push_str("\n ")?;
        add_content(alloc, list, at, out)?;
        add_fitting(&list[at], out)?;
    }
    Ok(())
}

// How many tokens are left with the first that is of another pattern, or behind all, and whether the next is `level`.
fn add_front(list: &[Token], patterns: &[Pattern], out: &mut String) -> Result<(), AllocError> {
    let mut rest = Tokens::new(list);
    let error = rest.all(patterns).err();
    let left = rest.len();
    let is_level = rest.sees(Pattern::Level);
    write!(out, "\n  {error:?}, {left} left, level: {is_level}")
}

fn add_content(alloc: Global, list: &[Token], at: usize, out: &mut String) -> Result<(), AllocError>
    requires { at < length list.now }
{
    add_place(place_at(list, at), out)?;
    let word = word_at(alloc, list, at)?;
    out.push_str(": word ")?;
    add_name(&word.name, out)?;
    add_place(word.place, out)?;
    add_number(list, at, out)?;
    let fault = syntax_fault(alloc, Phase::Mapping, list, list.len() - at);
    add_fault(&fault, out)
}

fn add_number(list: &[Token], at: usize, out: &mut String) -> Result<(), AllocError> {
    let number = number_at(list, at);
    let numeral = numeral_at(list, at);
    let value = numeral.value;
    write!(out, ", number {number}, numeral {value}")?;
    add_place(numeral.place, out)
}

fn add_fault(fault: &Fault, out: &mut String) -> Result<(), AllocError> {
    let Fault { phase, code, .. } = fault;
    write!(out, ", fault {phase:?} {code:?}")?;
    add_place(fault.place_or_none(), out)
}

fn add_fitting(token: &Token, out: &mut String) -> Result<(), AllocError> {
    out.push_str(", fits")?;
    for pattern in PATTERNS {
        if fits(pattern, &token.kind) {
            write!(out, " {pattern:?}")?;
        }
    }
    Ok(())
}
