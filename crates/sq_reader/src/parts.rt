//! Parts of a program that stand in lists.

ghost use Rattle.std.specs.Prelude.{◌≡◌, ℕ, Bool, [], ◌∷◌, IfOk};
ghost use Rattle.sq_ast.specs.declared.class.Class.{Class};
ghost use Rattle.sq_ast.specs.Symbols.{symbols};
ghost use Rattle.sq_reader.specs.Reading as spec;
ghost use Rattle.sq_reader.specs.Reading.{Parser, Reads};

use crate::class::same;
use crate::error::ParseError;
use crate::tokens::Tokens;
use sq_ast::Class;
use sq_lexer::Sign;
use sqlite_items::Items;
use std::alloc::{AllocError, Global};
use std::marker::PhantomData;

/// A part of a program, by its name. Its parser takes the number of levels of nesting that are left.
pub trait Part {
    type Tree: Drop;

    ghost parser: { ℕ → Parser Self.Tree };

    fn read(alloc: Global, tokens: &mut Tokens<'_>, depth: usize) -> Result<Self::Tree, ParseError>
        ensures { Reads (parser depth (symbols tokens.old)) result tokens.new };
}

/// A part that its first token tells from what may stand in its place.
pub trait Leading: Part {
    ghost leads: { Class → Bool };

    fn leads(class: Class) -> bool
        ensures { result ≡ leads class };
}

/// A comma, and the part.
pub struct AfterComma<P> {
    part: PhantomData<P>,
}

impl<P: Part> Part for AfterComma<P> {
    type Tree = P::Tree;

    ghost parser = { λ n. spec.after_comma (P.parser n) };

    fn read(alloc: Global, tokens: &mut Tokens<'_>, depth: usize) -> Result<P::Tree, ParseError> {
        tokens.take();
        P::read(alloc, tokens, depth)
    }
}

impl<P: Part> Leading for AfterComma<P> {
    ghost leads = { spec.is_comma };

    fn leads(class: Class) -> bool {
        same(class, Class::Sign(Sign::Comma))
    }
}

/// The parts that stand next, at most so many, after those that are found.
#[tactic(auto, unfolding(crate::specs::Reading::many_from))]
pub fn some_more<P: Leading>(
    alloc: Global,
    tokens: &mut Tokens<'_>,
    depth: usize,
    most: usize,
    before: Items<P::Tree>,
) -> Result<Items<P::Tree>, ParseError>
    ensures { Reads (spec.many_from P.leads (P.Part.parser depth) most before (symbols tokens.old)) result tokens.new }
{
    let mut found = before;
    for _turn in 0..most {
        if !P::leads(tokens.peek()) {
            return Ok(found);
        }
        let next = P::read(alloc, tokens, depth)?;
        found.push(next)?;
    }
    Ok(found)
}

/// All parts that stand next, after those that are found.
#[tactic(auto, unfolding(crate::specs::Reading::many_after))]
pub fn more<P: Leading>(
    alloc: Global,
    tokens: &mut Tokens<'_>,
    depth: usize,
    before: Items<P::Tree>,
) -> Result<Items<P::Tree>, ParseError>
    ensures { Reads (spec.many_after P.leads (P.Part.parser depth) before (symbols tokens.old)) result tokens.new }
{
    let most = tokens.left();
    some_more::<P>(alloc, tokens, depth, most, before)
}

/// One or more between `(` and `)`, with commas.
#[tactic(auto, unfolding(crate::specs::Reading::listed))]
pub fn listed<P: Part>(
    alloc: Global,
    tokens: &mut Tokens<'_>,
    depth: usize,
) -> Result<Items<P::Tree>, ParseError>
    ensures { Reads (spec.listed P.parser depth (symbols tokens.old)) result tokens.new }
{
    let inside = tokens.open(Class::Sign(Sign::ParenOpen), depth)?;
    let first = P::read(alloc, tokens, inside)?;
    let all = more::<AfterComma<P>>(alloc, tokens, inside, one(alloc, first)?)?;
    tokens.expect(Class::Sign(Sign::ParenClose))?;
    Ok(all)
}

/// One alone.
pub fn one<T: Drop>(alloc: Global, item: T) -> Result<Items<T>, AllocError>
    ensures { IfOk result (λ items. items ≡ item ∷ []) }
{
    let mut items = Items::new(alloc);
    items.push(item)?;
    Ok(items)
}
