//! Events, views and slots.

ghost use Rattle.std.specs.Prelude.{◌≡◌, ℕ};
ghost use Rattle.sq_lexer.specs.declared.token.Sign.TheVariants as g;
ghost use Rattle.sq_planread.specs.Reading as spec;
ghost use Rattle.sq_planread.specs.Reading.{Reads};

use crate::cursor::Cursor;
use crate::pieces::{Piece, list, separated, value};
use sq_lexer::Sign;
use sq_plantext::{EventText, SlotText, TermText, ViewText};
use sq_reader::ParseError;
use sq_text::Place;
use std::alloc::Global;

#[tactic(auto, unfolding(crate::specs::Reading::slot))]
fn slot(tokens: &mut Cursor<'_>) -> Result<SlotText, ParseError>
    ensures { Reads (spec.slot tokens.old) result tokens.new }
{
    let buffer = tokens.natural()?;
    tokens.sign(Sign::Plus)?;
    let at = tokens.natural()?;
    Ok(SlotText { buffer, at })
}

/// An array that a leaf works on.
struct OneView;

impl Piece for OneView {
    type Tree = ViewText;

    ghost reader = { spec.view };

    fn read(alloc: Global, tokens: &mut Cursor<'_>, depth: usize) -> Result<ViewText, ParseError> {
        view(alloc, tokens, depth)
    }
}

#[tactic(auto, unfolding(crate::specs::Reading::view))]
fn view(alloc: Global, tokens: &mut Cursor<'_>, depth: usize) -> Result<ViewText, ParseError>
    ensures { Reads (spec.view depth tokens.old) result tokens.new }
{
    let slot = slot(tokens)?;
    let elem = tokens.elem()?;
    let extents = list(alloc, tokens, depth)?;
    let strides = list(alloc, tokens, depth)?;
    Ok(ViewText {
        slot,
        elem,
        extents,
        strides,
    })
}

// After the word `copy`, and likewise below.
#[tactic(auto, unfolding(crate::specs::Reading::copy))]
fn copy(tokens: &mut Cursor<'_>) -> Result<EventText, ParseError>
    ensures { Reads (spec.copy tokens.old) result tokens.new }
{
    let from = slot(tokens)?;
    let to = slot(tokens)?;
    let bytes = tokens.natural()?;
    Ok(EventText::Copy { from, to, bytes })
}

#[tactic(auto, unfolding(crate::specs::Reading::fill))]
fn fill(tokens: &mut Cursor<'_>) -> Result<EventText, ParseError>
    ensures { Reads (spec.fill tokens.old) result tokens.new }
{
    let to = slot(tokens)?;
    let elem = tokens.elem()?;
    let count = tokens.natural()?;
    let value = value(tokens)?;
    Ok(EventText::Fill {
        to,
        elem,
        count,
        value,
    })
}

#[tactic(auto, unfolding(crate::specs::Reading::acc))]
fn acc(tokens: &mut Cursor<'_>) -> Result<EventText, ParseError>
    ensures { Reads (spec.acc tokens.old) result tokens.new }
{
    let op = tokens.operator()?;
    let elem = tokens.elem()?;
    let from = slot(tokens)?;
    let to = slot(tokens)?;
    let count = tokens.natural()?;
    Ok(EventText::Acc {
        op,
        elem,
        from,
        to,
        count,
    })
}

#[tactic(auto, unfolding(crate::specs::Reading::run))]
fn run(alloc: Global, tokens: &mut Cursor<'_>, depth: usize) -> Result<EventText, ParseError>
    ensures { Reads (spec.run depth tokens.old) result tokens.new }
{
    let leaf = tokens.natural()?;
    let inside = tokens.open(Sign::ParenOpen, depth)?;
    let views = separated::<OneView>(alloc, tokens, inside, Sign::ParenClose)?;
    tokens.sign(Sign::ParenClose)?;
    let path = list(alloc, tokens, depth)?;
    Ok(EventText::Run { leaf, views, path })
}

fn event(alloc: Global, tokens: &mut Cursor<'_>, depth: usize) -> Result<EventText, ParseError>
    ensures { Reads (spec.event depth tokens.old) result tokens.new }
{
    if tokens.sees_word(b"copy") {
        tokens.take();
        return copy(tokens);
    }
    if tokens.sees_word(b"fill") {
        tokens.take();
        return fill(tokens);
    }
    if tokens.sees_word(b"acc") {
        tokens.take();
        return acc(tokens);
    }
    if tokens.sees_word(b"run") {
        tokens.take();
        return run(alloc, tokens, depth);
    }
    Err(tokens.refuse())
}

/// An event at this place, with its `;`.
#[tactic(auto, unfolding(crate::specs::Reading::event_at))]
pub fn event_at(
    alloc: Global,
    tokens: &mut Cursor<'_>,
    depth: usize,
    place: Place,
) -> Result<TermText, ParseError>
    ensures { Reads (spec.event_at depth place tokens.old) result tokens.new }
{
    let event = event(alloc, tokens, depth)?;
    tokens.sign(Sign::Semi)?;
    Ok(TermText::Act { place, event })
}
