//! Reading the tokens of a cost file.

ghost use Rattle.std.specs.Prelude.{IfOk};
ghost use Rattle.sq_text.specs.Answers.{IfRefused};
ghost use Rattle.sq_lexer.specs.Tokens.{HasEnd};
ghost use Rattle.sq_patterns.specs.Reading.{Reads};
ghost use Rattle.sq_costs.specs.Grammar.{IsText};
ghost use Rattle.sq_costs.specs.Files.{IsSyntaxFault};
ghost use Rattle.sq_costs.specs.Reading as spec;

use crate::text::{CostText, EntryText};
use sq_lexer::{Sign, Token};
use sq_patterns::{Pattern, ReadError, Tokens, numeral_at, place_at, syntax_fault, word_at};
use sq_text::{Phase, Stop};
use sqlite_items::Items;
use std::alloc::Global;

const HEAD: [Pattern; 3] = [
    Pattern::Cost,
    Pattern::Exactly(1),
    Pattern::Sign(Sign::Semi),
];

const ENTRY: [Pattern; 13] = [
    Pattern::Level,
    Pattern::AnyWord,
    Pattern::Sign(Sign::BraceOpen),
    Pattern::Row,
    Pattern::AnyNumber,
    Pattern::Sign(Sign::Semi),
    Pattern::Byte,
    Pattern::AnyNumber,
    Pattern::Sign(Sign::Semi),
    Pattern::Leaf,
    Pattern::AnyNumber,
    Pattern::Sign(Sign::Semi),
    Pattern::Sign(Sign::BraceClose),
];

fn entry(alloc: Global, tokens: &mut Tokens<'_>) -> Result<EntryText, ReadError>
    ensures { Reads (spec.entry tokens.old) result tokens.new }
{
    let read = tokens.all(&ENTRY)?;
    let name = word_at(alloc, read, 1)?;
    let row = numeral_at(read, 4);
    let byte = numeral_at(read, 7);
    let leaf = numeral_at(read, 10);
    Ok(EntryText {
        name,
        row,
        byte,
        leaf,
    })
}

// The first entry, and those up to the end.
#[tactic(auto, unfolding(crate::specs::Reading::entries_from, sq_patterns::specs::Reading::until))]
fn entries_from(
    alloc: Global,
    tokens: &mut Tokens<'_>,
    first: EntryText,
) -> Result<Items<EntryText>, ReadError>
    ensures { Reads (spec.entries_from first tokens.old) result tokens.new }
{
    let mut found = Items::new(alloc);
    found.push(first)?;
    for _turn in 0..tokens.len() {
        if tokens.sees(Pattern::End) {
            return Ok(found);
        }
        let next = entry(alloc, tokens)?;
        found.push(next)?;
    }
    Ok(found)
}

#[tactic(auto, unfolding(crate::specs::Reading::cost))]
fn cost(alloc: Global, tokens: &mut Tokens<'_>) -> Result<CostText, ReadError>
    ensures { Reads (spec.cost tokens.old) result tokens.new }
{
    let _head = tokens.all(&HEAD)?;
    let first = entry(alloc, tokens)?;
    let entries = entries_from(alloc, tokens, first)?;
    let read = tokens.all(&[Pattern::End])?;
    let end = place_at(read, 0);
    if tokens.len() > 0 {
        return Err(ReadError::Syntax(tokens.len()));
    }
    Ok(CostText { entries, end })
}

/// What the tokens write, or the first token with which no text of the grammar begins.
pub fn parse(alloc: Global, tokens: &[Token]) -> Result<CostText, Stop>
    requires { HasEnd tokens.now }
    ensures found { IfOk result (λ text. IsText tokens.now text) }
    ensures refused { IfRefused result (λ f. IsSyntaxFault tokens.now f) }
{
    let mut rest = Tokens::new(tokens);
    match cost(alloc, &mut rest) {
        Ok(found) => Ok(found),
        Err(ReadError::NoMemory) => Err(Stop::NoMemory),
        Err(ReadError::Syntax(left)) => {
            let fault = syntax_fault(alloc, Phase::Cost, tokens, left);
            Err(Stop::Refused(fault))
        }
    }
}
