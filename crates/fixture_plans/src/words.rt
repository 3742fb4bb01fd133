//! Memories, buffers, numbers and terms in words.

use sq_ir::{
    Action, Buffer, BufferIds, Buffers, Draft, Num, Numbers, Nums, PlanNode, PlanNodes, Slot, Term,
    Terms,
};
use sq_num::{Elem, RedOp};
use sq_text::{Name, SpreadRule};
use sqlite_items::{Boxed as Box, Items};
use std::alloc::{AllocError, Global};
use std::mem::replace;

pub(crate) fn whole(word: &str) -> u64 {
    word.parse::<u64>().unwrap_or(0)
}

fn signed(word: &str) -> i64 {
    word.parse::<i64>().unwrap_or(0)
}

pub(crate) fn small(word: &str) -> u32 {
    word.parse::<u32>().unwrap_or(0)
}

pub(crate) fn word_at(text: &str, place: usize) -> &str {
    text.split_whitespace().nth(place).unwrap_or("")
}

pub(crate) fn rule_of(word: &str) -> SpreadRule {
    match word {
        "cyclic" => SpreadRule::Cyclic,
        _ => SpreadRule::Blocked,
    }
}

// The part of a word at a place, parted by colons.
fn part_at(word: &str, place: usize) -> &str {
    word.split(':').nth(place).unwrap_or("")
}

// `1:16:2` is a memory of level 1, of 16 bytes, with two children, of which the first has that number.
fn memory(word: &str, next: u32) -> PlanNode {
    let children = small(part_at(word, 2));
    PlanNode {
        level: small(part_at(word, 0)),
        capacity: whole(part_at(word, 1)),
        first_child: if children == 0 { 0 } else { next },
        children,
    }
}

/// Memories, level by level: `0:32:2 1:16:0 1:8:0` is a root of 32 bytes with two children, of 16 and 8 bytes.
pub fn memories(alloc: Global, text: &str) -> Result<PlanNodes, AllocError> {
    let mut nodes = Items::new(alloc);
    let mut next: u32 = 1;
    for word in text.split_whitespace() {
        let node = memory(word, next);
        next = next.saturating_add(node.children);
        nodes.push(node)?;
    }
    Ok(nodes)
}

// Buffers by their numbers: `0,2`.
fn ids(alloc: Global, text: &str) -> Result<BufferIds, AllocError> {
    let mut list = Items::new(alloc);
    for word in text.split(',') {
        if let Ok(id) = word.parse::<u32>() {
            list.push(id)?;
        }
    }
    Ok(list)
}

// `1:8:t:A` is a buffer of level 1, of 8 bytes, for the array A of the instance t.
fn buffer(alloc: Global, word: &str) -> Result<Buffer, AllocError> {
    let instance = Name::new(alloc, part_at(word, 2).as_bytes())?;
    let array = Name::new(alloc, part_at(word, 3).as_bytes())?;
    Ok(Buffer {
        level: small(part_at(word, 0)),
        size: whole(part_at(word, 1)),
        instance,
        array,
    })
}

fn buffers_of(alloc: Global, text: &str) -> Result<Buffers, AllocError> {
    let mut list = Items::new(alloc);
    for word in text.split_whitespace() {
        list.push(buffer(alloc, word)?)?;
    }
    Ok(list)
}

// The last number.
fn last_number(numbers: &mut Nums) -> Num {
    match numbers.pop() {
        Some(number) => number,
        None => Num::Const(0),
    }
}

// The items of a list, parted by `;`.
fn list(alloc: Global, text: &str) -> Result<Numbers, AllocError> {
    let mut items = Vec::new(alloc);
    for word in text.split(';') {
        items.push(signed(word))?;
    }
    Numbers::new(alloc, items)
}

// The item of a list at the last number.
fn pick(alloc: Global, text: &str, numbers: &mut Nums) -> Result<Num, AllocError> {
    let list = list(alloc, text)?;
    Num::pick(alloc, list, last_number(numbers))
}

// An operator between the last two numbers.
fn operation(alloc: Global, sign: &str, numbers: &mut Nums) -> Result<Num, AllocError> {
    let b = last_number(numbers);
    let a = last_number(numbers);
    match sign {
        "+" => Num::sum(alloc, a, b),
        "-" => Num::difference(alloc, a, b),
        "*" => Num::product(alloc, a, b),
        "/" => Num::quotient(alloc, a, b),
        "%" => Num::remainder(alloc, a, b),
        _ => Num::lesser(alloc, a, b),
    }
}

// One word of a number more.
fn number_of(alloc: Global, word: &str, numbers: &mut Nums) -> Result<Num, AllocError> {
    if let Some(text) = word.strip_prefix("@") {
        return pick(alloc, text, numbers);
    }
    if let Some(depth) = word.strip_prefix("i") {
        return Ok(Num::Index(small(depth)));
    }
    match word {
        "c" => Ok(Num::Children),
        "+" | "-" | "*" | "/" | "%" | "<" => operation(alloc, word, numbers),
        _ => Ok(Num::Const(signed(word))),
    }
}

/// A number by words, parted by commas, each operator behind its numbers: `c` is the number of children, `i` the number
/// of the iteration, `i1` that of the loop round it, `<` the lesser one, and `@5;-7` the item of that list at the number
/// before it. So `i,c,%` and `i,c,*,4,/` are the children to which the two rules send an iteration, the second of 4.
pub(crate) fn number(alloc: Global, text: &str) -> Result<Num, AllocError> {
    let mut numbers = Items::new(alloc);
    for word in text.split(',') {
        let number = number_of(alloc, word, &mut numbers)?;
        numbers.push(number)?;
    }
    Ok(last_number(&mut numbers))
}

fn slot(buffer: &str) -> Slot {
    Slot {
        buffer: small(buffer),
        at: Num::Const(0),
    }
}

// `copy:0:1:8` copies 8 bytes from buffer 0 to buffer 1, `add:1:0:2` adds 2 ints, and `fill:0` fills one.
fn action(alloc: Global, word: &str) -> Action {
    let first = part_at(word, 1);
    let second = part_at(word, 2);
    let count = small(part_at(word, 3));
    match part_at(word, 0) {
        "copy" => Action::CopyRow {
            from: slot(first),
            to: slot(second),
            bytes: count,
        },
        "add" => Action::AccRow {
            op: RedOp::Add,
            elem: Elem::Int,
            from: slot(first),
            to: slot(second),
            count,
        },
        "fill" => Action::FillRow {
            to: slot(first),
            elem: Elem::Int,
            count: 1,
            value: 0,
        },
        _ => Action::Leaf {
            code: 0,
            views: Items::new(alloc),
            path: Items::new(alloc),
        },
    }
}

// The last term.
fn last(terms: &mut Terms) -> Term {
    match terms.pop() {
        Some(term) => term,
        None => Term::Skip,
    }
}

// The last term in a scope, at a child if one is named.
fn scope(alloc: Global, child: &str, named: &str, terms: &mut Terms) -> Result<Term, AllocError> {
    let buffers = ids(alloc, named)?;
    let body = Box::new(alloc, last(terms))?;
    let child = match child {
        "" => None,
        _ => Some(number(alloc, child)?),
    };
    Ok(Term::Within {
        child,
        buffers,
        body,
    })
}

// The last term in a loop.
fn turns(alloc: Global, count: &str, terms: &mut Terms) -> Result<Term, AllocError> {
    let body = Box::new(alloc, last(terms))?;
    let count = number(alloc, count)?;
    Ok(Term::Loop { count, body })
}

// The last term, spread over the children by a rule.
fn spread(alloc: Global, rule: &str, count: &str, terms: &mut Terms) -> Result<Term, AllocError> {
    let body = Box::new(alloc, last(terms))?;
    let count = number(alloc, count)?;
    Ok(Term::Spread {
        count,
        rule: rule_of(rule),
        body,
    })
}

// All terms as the arms of one.
fn choice(alloc: Global, pick: &str, terms: &mut Terms) -> Result<Term, AllocError> {
    let pick = number(alloc, pick)?;
    let arms = replace(terms, Items::new(alloc));
    Ok(Term::Case { pick, arms })
}

// One word more.
fn add_word(alloc: Global, word: &str, terms: &mut Terms) -> Result<(), AllocError> {
    let name = part_at(word, 0);
    let first = part_at(word, 1);
    let term = match name {
        "skip" => Term::Skip,
        "seq" => Term::Seq(replace(terms, Items::new(alloc))),
        "par" => Term::Par(replace(terms, Items::new(alloc))),
        "in" => scope(alloc, "", first, terms)?,
        "at" => scope(alloc, first, part_at(word, 2), terms)?,
        "case" => choice(alloc, first, terms)?,
        "loop" => turns(alloc, first, terms)?,
        "cyclic" | "blocked" => spread(alloc, name, first, terms)?,
        _ => Term::Act(action(alloc, word)),
    };
    terms.push(term)
}

fn add_words(alloc: Global, text: &str, terms: &mut Terms) -> Result<(), AllocError> {
    for word in text.split_whitespace() {
        add_word(alloc, word, terms)?;
    }
    Ok(())
}

// The words, and those behind a bar as often as stands there.
fn term_of(alloc: Global, text: &str) -> Result<Term, AllocError> {
    let mut terms = Items::new(alloc);
    let (first, more) = text.split_once('|').unwrap_or((text, ""));
    add_words(alloc, first, &mut terms)?;
    let (times, round) = more.split_once(':').unwrap_or((more, ""));
    for _ in 0..small(times) {
        add_words(alloc, round, &mut terms)?;
    }
    Ok(last(&mut terms))
}

/// A draft of buffers, of which some are the entry's, and a term in words, from the inside out. `skip` and the words of
/// actions begin a term; `in:0,1` puts the last one into a scope of the buffers 0 and 1, `at:2:3` into one of buffer 3
/// at child 2; `loop:4`, `cyclic:4` and `blocked:4` repeat it; `seq`, `par` and `case:i` make one of all. So
/// `skip in:0 skip in:1 case:i loop:2` is a loop with two arms, and `skip|64:in:0 loop:2` has 64 scopes within one
/// another, each in a loop.
pub fn draft(alloc: Global, buffers: &str, entry: &str, term: &str) -> Result<Draft, AllocError> {
    let buffers = buffers_of(alloc, buffers)?;
    let entry = ids(alloc, entry)?;
    let term = term_of(alloc, term)?;
    Ok(Draft {
        term,
        buffers,
        leaves: Items::new(alloc),
        entry,
        notes: Items::new(alloc),
    })
}
