//! Terms.

ghost use Rattle.std.specs.Prelude.{◌≡◌, ℕ, [], ◌<◌, Err};
ghost use Rattle.sq_planread.specs.Reading as spec;
ghost use Rattle.sq_planread.specs.Reading.{Reads};

use crate::cursor::Cursor;
use crate::events::event_at;
use crate::pieces::list;
use sq_lexer::Sign;
use sq_plantext::{TermText, TermTexts};
use sq_reader::ParseError;
use sq_text::Place;
use sqlite_items::{Boxed as Box, Items};
use std::alloc::Global;

// A term at one level less; where none is left none is read.
#[cycle(terms)]
#[tactic(auto, using(crate::proofs::Steps::inner_none, crate::proofs::Steps::inner_some))]
fn inner(alloc: Global, tokens: &mut Cursor<'_>, depth: usize) -> Result<TermText, ParseError>
    ensures { Reads (spec.inner depth tokens.old) result tokens.new }
{
    if depth == 0 {
        return Err(tokens.refuse());
    }
    term(alloc, tokens, depth - 1)
}

// Up to a closing brace.
#[cycle(terms)]
#[tactic(auto, unfolding(crate::specs::Reading::many_after, crate::specs::Reading::many_from))]
fn terms(alloc: Global, tokens: &mut Cursor<'_>, depth: usize) -> Result<TermTexts, ParseError>
    ensures { Reads (spec.many_after spec.goes_on (spec.inner depth) [] tokens.old) result tokens.new }
{
    let mut found = Items::new(alloc);
    for _turn in 0..tokens.left() {
        if tokens.sees_sign(Sign::BraceClose) {
            return Ok(found);
        }
        let next = inner(alloc, tokens, depth)?;
        found.push(next)?;
    }
    Ok(found)
}

// Between braces.
#[cycle(terms)]
#[tactic(auto, unfolding(crate::specs::Reading::parts, crate::specs::Reading::terms_to))]
fn parts(alloc: Global, tokens: &mut Cursor<'_>, depth: usize) -> Result<TermTexts, ParseError>
    ensures { Reads (spec.parts depth (spec.inner depth) tokens.old) result tokens.new }
{
    tokens.open(Sign::BraceOpen, depth)?;
    let all = terms(alloc, tokens, depth)?;
    tokens.sign(Sign::BraceClose)?;
    Ok(all)
}

// One alone between braces, of which the first is read.
#[cycle(terms)]
#[tactic(auto, unfolding(crate::specs::Reading::term_to))]
fn only(alloc: Global, tokens: &mut Cursor<'_>, depth: usize) -> Result<TermText, ParseError>
    ensures { Reads (spec.term_to (spec.inner depth) tokens.old) result tokens.new }
{
    let body = inner(alloc, tokens, depth)?;
    tokens.sign(Sign::BraceClose)?;
    Ok(body)
}

// A scope, after its word.
#[cycle(terms)]
#[tactic(auto, unfolding(crate::specs::Reading::scope))]
fn scope(
    alloc: Global,
    tokens: &mut Cursor<'_>,
    depth: usize,
    place: Place,
) -> Result<TermText, ParseError>
    ensures { Reads (spec.scope depth place (spec.inner depth) tokens.old) result tokens.new }
{
    let node = tokens.natural()?;
    let buffers = list(alloc, tokens, depth)?;
    tokens.open(Sign::BraceOpen, depth)?;
    let body = only(alloc, tokens, depth)?;
    let body = Box::new(alloc, body)?;
    Ok(TermText::At {
        place,
        node,
        buffers,
        body,
    })
}

/// A term, with so many levels of nesting at most.
#[cycle(terms)]
#[tactic(auto, using(crate::proofs::Steps::term_is))]
pub fn term(alloc: Global, tokens: &mut Cursor<'_>, depth: usize) -> Result<TermText, ParseError>
    ensures { Reads (spec.term depth tokens.old) result tokens.new }
{
    let place = tokens.place();
    if tokens.sees_word(b"seq") {
        tokens.take();
        let all = parts(alloc, tokens, depth)?;
        return Ok(TermText::Seq(all));
    }
    if tokens.sees_word(b"par") {
        tokens.take();
        let all = parts(alloc, tokens, depth)?;
        return Ok(TermText::Par(all));
    }
    if tokens.sees_word(b"at") {
        tokens.take();
        return scope(alloc, tokens, depth, place);
    }
    event_at(alloc, tokens, depth, place)
}
