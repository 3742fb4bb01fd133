//! Statements of leaf tasks. `depth` says how many levels of nesting are left.

ghost use Rattle.std.specs.Prelude.{◌≡◌, false, [], ◌∷◌, Err};
ghost use Rattle.sq_text.specs.declared.place.Place.{Place};
ghost use Rattle.sq_ast.specs.Symbols.{symbols};
ghost use Rattle.sq_reader.specs.Reading as spec;
ghost use Rattle.sq_reader.specs.Reading.{Reads};

use crate::error::ParseError;
use crate::expr::{ElementIndex, between, expr, index, use_of};
use crate::parts::{more, one};
use crate::tables::{assign_op, begins_leaf_stmt};
use crate::tokens::Tokens;
use sq_ast::{ArgUse, Class, Expr, Keyword, LeafStmt, LeafStmts};
use sq_lexer::Sign;
use sq_text::{Place, Word};
use sqlite_items::Items;
use std::alloc::Global;

// After the element that is assigned.
#[tactic(auto, unfolding(crate::specs::Reading::assigned))]
fn assigned(
    alloc: Global,
    tokens: &mut Tokens<'_>,
    depth: usize,
    target: ArgUse,
) -> Result<LeafStmt, ParseError>
    ensures { Reads (spec.assigned depth target (symbols tokens.old)) result tokens.new }
{
    let op = assign_op(tokens)?;
    let value = expr(alloc, tokens, false, depth)?;
    tokens.expect(Class::Sign(Sign::Semi))?;
    Ok(LeafStmt::Assign { target, op, value })
}

#[tactic(auto, unfolding(crate::specs::Reading::assignment))]
fn assignment(alloc: Global, tokens: &mut Tokens<'_>, depth: usize) -> Result<LeafStmt, ParseError>
    ensures { Reads (spec.assignment depth (symbols tokens.old)) result tokens.new }
{
    let array = tokens.word(alloc)?;
    let first = index(alloc, tokens, false, depth)?;
    let all = more::<ElementIndex>(alloc, tokens, depth, one(alloc, first)?)?;
    assigned(alloc, tokens, depth, use_of(array, all))
}

// A name and an expression, each after a token.
#[tactic(auto, unfolding(crate::specs::Reading::named))]
fn named(
    alloc: Global,
    tokens: &mut Tokens<'_>,
    before: Class,
    between: Class,
    depth: usize,
) -> Result<(Word, Expr), ParseError>
    ensures { Reads (spec.named before between depth (symbols tokens.old)) result tokens.new }
{
    tokens.expect(before)?;
    let name = tokens.word(alloc)?;
    tokens.expect(between)?;
    let value = expr(alloc, tokens, false, depth)?;
    Ok((name, value))
}

// The end of a loop's head.
#[tactic(auto, unfolding(crate::specs::Reading::stepped))]
fn stepped(alloc: Global, tokens: &mut Tokens<'_>) -> Result<Word, ParseError>
    ensures { Reads (spec.stepped (symbols tokens.old)) result tokens.new }
{
    tokens.expect(Class::Sign(Sign::Semi))?;
    let counter = tokens.word(alloc)?;
    tokens.expect(Class::Sign(Sign::PlusPlus))?;
    tokens.expect(Class::Sign(Sign::ParenClose))?;
    Ok(counter)
}

/// Any number of statements.
#[cycle(leaf)]
#[tactic(auto, unfolding(crate::specs::Reading::many_after, crate::specs::Reading::many_from))]
pub fn leaf_stmts(
    alloc: Global,
    tokens: &mut Tokens<'_>,
    depth: usize,
) -> Result<LeafStmts, ParseError>
    ensures { Reads (spec.many_after spec.begins_leaf_stmt (spec.leaf_stmt depth) [] (symbols tokens.old)) result
        tokens.new }
{
    let mut found = Items::new(alloc);
    for _turn in 0..tokens.left() {
        if !begins_leaf_stmt(tokens.peek()) {
            return Ok(found);
        }
        let first = leaf_stmt(alloc, tokens, depth)?;
        found.push(first)?;
    }
    Ok(found)
}

#[cycle(leaf)]
#[tactic(auto, using(crate::proofs::Steps::leaf_stmt_is))]
fn leaf_stmt(alloc: Global, tokens: &mut Tokens<'_>, depth: usize) -> Result<LeafStmt, ParseError>
    ensures { Reads (spec.leaf_stmt depth (symbols tokens.old)) result tokens.new }
{
    let place = tokens.place();
    if tokens.sees(Class::Key(Keyword::If)) {
        tokens.take();
        return choice(alloc, tokens, depth, place);
    }
    if tokens.sees(Class::Key(Keyword::For)) {
        tokens.take();
        let inside = tokens.open(Class::Sign(Sign::ParenOpen), depth)?;
        return counted(alloc, tokens, inside, depth);
    }
    assignment(alloc, tokens, depth)
}

// After the `if`, which stands at the place.
#[cycle(leaf)]
#[tactic(auto, unfolding(crate::specs::Reading::choice))]
fn choice(
    alloc: Global,
    tokens: &mut Tokens<'_>,
    depth: usize,
    place: Place,
) -> Result<LeafStmt, ParseError>
    ensures { Reads (spec.choice depth (spec.body depth) place (symbols tokens.old)) result tokens.new }
{
    let test = between(
        alloc,
        tokens,
        false,
        depth,
        Sign::ParenOpen,
        Sign::ParenClose,
    )?;
    let yes = body(alloc, tokens, depth)?;
    let other = otherwise(alloc, tokens, depth)?;
    Ok(LeafStmt::If {
        place,
        test,
        yes,
        other,
    })
}

#[cycle(leaf)]
#[tactic(auto, unfolding(crate::specs::Reading::otherwise))]
fn otherwise(alloc: Global, tokens: &mut Tokens<'_>, depth: usize) -> Result<LeafStmts, ParseError>
    ensures { Reads (spec.otherwise (spec.body depth) (symbols tokens.old)) result tokens.new }
{
    if !tokens.sees(Class::Key(Keyword::Else)) {
        return Ok(Items::new(alloc));
    }
    tokens.take();
    body(alloc, tokens, depth)
}

// After the open bracket of a loop; its head is read at one depth and its body at the other.
#[cycle(leaf)]
#[tactic(auto, unfolding(crate::specs::Reading::counted))]
fn counted(
    alloc: Global,
    tokens: &mut Tokens<'_>,
    inside: usize,
    depth: usize,
) -> Result<LeafStmt, ParseError>
    ensures { Reads (spec.counted inside (spec.body depth) (symbols tokens.old)) result tokens.new }
{
    let (counter, first) = named(
        alloc,
        tokens,
        Class::Key(Keyword::Int),
        Class::Sign(Sign::Set),
        inside,
    )?;
    let (tested, bound) = named(
        alloc,
        tokens,
        Class::Sign(Sign::Semi),
        Class::Sign(Sign::Less),
        inside,
    )?;
    let stepped = stepped(alloc, tokens)?;
    let body = body(alloc, tokens, depth)?;
    Ok(LeafStmt::For {
        counter,
        first,
        tested,
        bound,
        stepped,
        body,
    })
}

// Why no body is read where no level is left.
fn no_body(tokens: &Tokens<'_>) -> ParseError
    ensures { spec.no_body (symbols tokens.now) ≡ Err result }
{
    if tokens.sees(Class::Sign(Sign::BraceOpen)) || begins_leaf_stmt(tokens.peek()) {
        tokens.too_deep()
    } else {
        tokens.refuse()
    }
}

#[cycle(leaf)]
#[tactic(auto, using(crate::proofs::Steps::body_shallow, crate::proofs::Steps::body_deep))]
fn body(alloc: Global, tokens: &mut Tokens<'_>, depth: usize) -> Result<LeafStmts, ParseError>
    ensures { Reads (spec.body depth (symbols tokens.old)) result tokens.new }
{
    if depth == 0 {
        return Err(no_body(tokens));
    }
    if tokens.sees(Class::Sign(Sign::BraceOpen)) {
        braced(alloc, tokens, depth - 1)
    } else {
        bare(alloc, tokens, depth - 1)
    }
}

// Statements between braces, of which the first is there.
#[cycle(leaf)]
fn braced(alloc: Global, tokens: &mut Tokens<'_>, depth: usize) -> Result<LeafStmts, ParseError>
    ensures { Reads (spec.leaf_block depth (symbols tokens.old)) result tokens.new }
{
    tokens.expect(Class::Sign(Sign::BraceOpen))?;
    let found = leaf_stmts(alloc, tokens, depth)?;
    tokens.expect(Class::Sign(Sign::BraceClose))?;
    Ok(found)
}

// One statement without braces.
#[cycle(leaf)]
fn bare(alloc: Global, tokens: &mut Tokens<'_>, depth: usize) -> Result<LeafStmts, ParseError>
    ensures { Reads (spec.bare (spec.leaf_stmt depth) (symbols tokens.old)) result tokens.new }
{
    let only = leaf_stmt(alloc, tokens, depth)?;
    Ok(one(alloc, only)?)
}
