//! Statements of inner tasks. `depth` says how many levels of nesting are left.

ghost use Rattle.std.specs.Prelude.{◌≡◌, [], ◌∷◌};
ghost use Rattle.sq_text.specs.declared.place.Place.{Place};
ghost use Rattle.sq_ast.specs.Symbols.{symbols};
ghost use Rattle.sq_ast.specs.Grammar as grammar;
ghost use Rattle.sq_reader.specs.Reading as spec;
ghost use Rattle.sq_reader.specs.Reading.{Reads};

use crate::error::ParseError;
use crate::expr::{expr, indices, use_of};
use crate::parts::{Part, listed, one};
use crate::tables::{begins_stmt, map_of, reduction_op};
use crate::tokens::Tokens;
use sq_ast::{ArgUse, Call, Class, Keyword, MapKind, Range, Stmt, Stmts};
use sq_lexer::Sign;
use sq_text::{Place, Word};
use sqlite_items::Items;
use std::alloc::Global;

#[tactic(auto, unfolding(crate::specs::Reading::argument))]
fn argument(alloc: Global, tokens: &mut Tokens<'_>, depth: usize) -> Result<ArgUse, ParseError>
    ensures { Reads (spec.argument depth (symbols tokens.old)) result tokens.new }
{
    let array = tokens.word(alloc)?;
    let index = indices(alloc, tokens, true, depth)?;
    Ok(use_of(array, index))
}

/// An argument of a call.
pub struct CallArgument;

impl Part for CallArgument {
    type Tree = ArgUse;

    ghost parser = { spec.argument };

    fn read(alloc: Global, tokens: &mut Tokens<'_>, depth: usize) -> Result<ArgUse, ParseError> {
        argument(alloc, tokens, depth)
    }
}

#[tactic(auto, unfolding(crate::specs::Reading::call))]
fn call(alloc: Global, tokens: &mut Tokens<'_>, depth: usize) -> Result<Call, ParseError>
    ensures { Reads (spec.call depth (symbols tokens.old)) result tokens.new }
{
    let Word { place, name } = tokens.word(alloc)?;
    let args = listed::<CallArgument>(alloc, tokens, depth)?;
    Ok(Call {
        place,
        task: name,
        args,
    })
}

#[tactic(auto, unfolding(crate::specs::Reading::range))]
fn range(alloc: Global, tokens: &mut Tokens<'_>, depth: usize) -> Result<Range, ParseError>
    ensures { Reads (spec.range depth (symbols tokens.old)) result tokens.new }
{
    tokens.expect(Class::Key(Keyword::Int))?;
    let variable = tokens.word(alloc)?;
    bound(alloc, tokens, depth, variable)
}

// After a range's variable.
#[tactic(auto, unfolding(crate::specs::Reading::bound))]
fn bound(
    alloc: Global,
    tokens: &mut Tokens<'_>,
    depth: usize,
    variable: Word,
) -> Result<Range, ParseError>
    ensures { Reads (spec.bound depth variable (symbols tokens.old)) result tokens.new }
{
    tokens.expect(Class::Sign(Sign::Set))?;
    tokens.zero()?;
    tokens.expect(Class::Key(Keyword::To))?;
    let bound = expr(alloc, tokens, true, depth)?;
    let Word { place, name } = variable;
    Ok(Range { place, name, bound })
}

/// A range of a map.
pub struct MapRange;

impl Part for MapRange {
    type Tree = Range;

    ghost parser = { spec.range };

    fn read(alloc: Global, tokens: &mut Tokens<'_>, depth: usize) -> Result<Range, ParseError> {
        range(alloc, tokens, depth)
    }
}

// The operator and the array of a reduction, after its open bracket.
#[tactic(auto, unfolding(crate::specs::Reading::reducer))]
fn reducer(alloc: Global, tokens: &mut Tokens<'_>) -> Result<MapKind, ParseError>
    ensures { Reads (spec.reducer (symbols tokens.old)) result tokens.new }
{
    let op = reduction_op(tokens)?;
    tokens.expect(Class::Sign(Sign::Comma))?;
    let array = tokens.word(alloc)?;
    tokens.expect(Class::Sign(Sign::ParenClose))?;
    Ok(MapKind::Reduce { op, array })
}

#[tactic(auto, unfolding(crate::specs::Reading::reduced))]
fn reduced(alloc: Global, tokens: &mut Tokens<'_>, depth: usize) -> Result<MapKind, ParseError>
    ensures { Reads (spec.reduced depth (symbols tokens.old)) result tokens.new }
{
    tokens.expect(Class::Key(Keyword::Reduce))?;
    tokens.open(Class::Sign(Sign::ParenOpen), depth)?;
    reducer(alloc, tokens)
}

// The one call of a reduction, in its braces.
#[tactic(auto, unfolding(crate::specs::Reading::only_call))]
fn only_call(alloc: Global, tokens: &mut Tokens<'_>, depth: usize) -> Result<Call, ParseError>
    ensures { Reads (spec.only_call depth (symbols tokens.old)) result tokens.new }
{
    let inside = tokens.open(Class::Sign(Sign::BraceOpen), depth)?;
    let only = call(alloc, tokens, inside)?;
    tokens.expect(Class::Sign(Sign::Semi))?;
    tokens.expect(Class::Sign(Sign::BraceClose))?;
    Ok(only)
}

// After the word `mapreduce`, which stands at the place.
#[tactic(auto, unfolding(crate::specs::Reading::reduction))]
fn reduction(
    alloc: Global,
    tokens: &mut Tokens<'_>,
    depth: usize,
    place: Place,
) -> Result<Stmt, ParseError>
    ensures { Reads (spec.reduction depth place (symbols tokens.old)) result tokens.new }
{
    let ranges = listed::<MapRange>(alloc, tokens, depth)?;
    let kind = reduced(alloc, tokens, depth)?;
    let only = only_call(alloc, tokens, depth)?;
    let body = one(alloc, Stmt::Call(only))?;
    Ok(Stmt::Map {
        place,
        kind,
        ranges,
        body,
    })
}

#[tactic(auto, unfolding(crate::specs::Reading::call_stmt))]
fn call_stmt(alloc: Global, tokens: &mut Tokens<'_>, depth: usize) -> Result<Stmt, ParseError>
    ensures { Reads (spec.call_stmt depth (symbols tokens.old)) result tokens.new }
{
    let call = call(alloc, tokens, depth)?;
    tokens.expect(Class::Sign(Sign::Semi))?;
    Ok(Stmt::Call(call))
}

/// Any number of statements.
#[cycle(stmt)]
#[tactic(auto, unfolding(crate::specs::Reading::many_after, crate::specs::Reading::many_from))]
pub fn stmts(alloc: Global, tokens: &mut Tokens<'_>, depth: usize) -> Result<Stmts, ParseError>
    ensures { Reads (spec.many_after spec.begins_stmt (spec.stmt depth) [] (symbols tokens.old)) result tokens.new }
{
    let mut found = Items::new(alloc);
    for _turn in 0..tokens.left() {
        if !begins_stmt(tokens.peek()) {
            return Ok(found);
        }
        let first = stmt(alloc, tokens, depth)?;
        found.push(first)?;
    }
    Ok(found)
}

#[cycle(stmt)]
#[tactic(auto, using(crate::proofs::Steps::stmt_is))]
fn stmt(alloc: Global, tokens: &mut Tokens<'_>, depth: usize) -> Result<Stmt, ParseError>
    ensures { Reads (spec.stmt depth (symbols tokens.old)) result tokens.new }
{
    let place = tokens.place();
    if let Some(kind) = map_of(tokens.peek()) {
        tokens.take();
        return map_over(alloc, tokens, depth, place, kind);
    }
    if tokens.sees(Class::Key(Keyword::Mapreduce)) {
        tokens.take();
        return reduction(alloc, tokens, depth, place);
    }
    call_stmt(alloc, tokens, depth)
}

// After the word that begins a map, which stands at the place.
#[cycle(stmt)]
#[tactic(auto, unfolding(crate::specs::Reading::map_over))]
fn map_over(
    alloc: Global,
    tokens: &mut Tokens<'_>,
    depth: usize,
    place: Place,
    kind: MapKind,
) -> Result<Stmt, ParseError>
    ensures { Reads (spec.map_over depth (spec.block depth) place kind (symbols tokens.old)) result tokens.new }
{
    let ranges = listed::<MapRange>(alloc, tokens, depth)?;
    let body = block(alloc, tokens, depth)?;
    Ok(Stmt::Map {
        place,
        kind,
        ranges,
        body,
    })
}

// Statements between braces.
#[cycle(stmt)]
#[tactic(auto, using(crate::proofs::Steps::block_opens))]
fn block(alloc: Global, tokens: &mut Tokens<'_>, depth: usize) -> Result<Stmts, ParseError>
    ensures { Reads (spec.block depth (symbols tokens.old)) result tokens.new }
{
    let inside = tokens.open(Class::Sign(Sign::BraceOpen), depth)?;
    let found = stmts(alloc, tokens, inside)?;
    tokens.expect(Class::Sign(Sign::BraceClose))?;
    Ok(found)
}
