//! Expressions and constants. `depth` says how many levels of nesting are left.

ghost use Rattle.std.specs.Prelude.{◌≡◌, true, false, IfOk, List, [], ◌∷◌};
ghost use Rattle.sq_text.specs.declared.place.Place.{Place};
ghost use Rattle.sq_ast.specs.Symbols.{symbols};
ghost use Rattle.sq_ast.specs.Grammar as grammar;
ghost use Rattle.sq_reader.specs.Reading as spec;
ghost use Rattle.sq_reader.specs.Reading.{Reads};

use crate::class::same;
use crate::error::ParseError;
use crate::parts::{Leading, Part};
use crate::start::Start;
use crate::tables::{levels, operator, prefix, start_of};
use crate::tokens::Tokens;
use sq_ast::{ArgUse, Class, Expr, Exprs, Link, Links, UnOp};
use sq_lexer::Sign;
use sq_text::Word;
use sqlite_items::{Boxed as Box, Items};
use std::alloc::{AllocError, Global};

pub fn use_of(array: Word, index: Exprs) -> ArgUse
    ensures { result ≡ grammar.use_of array index }
{
    let Word { place, name } = array;
    ArgUse { place, name, index }
}

fn chain_of(alloc: Global, first: Expr, rest: Links) -> Result<Expr, AllocError>
    ensures { IfOk result (λ e. e ≡ grammar.chain_of first rest) }
{
    if rest.is_empty() {
        Ok(first)
    } else {
        Ok(Expr::Chain {
            first: Box::new(alloc, first)?,
            rest,
        })
    }
}

fn element(word: Word, index: Exprs) -> Expr
    ensures { result ≡ grammar.element word index }
{
    if index.is_empty() {
        Expr::Name(word)
    } else {
        Expr::Element(use_of(word, index))
    }
}

/// An expression, or a constant if the flag is set.
#[cycle(expr)]
pub fn expr(
    alloc: Global,
    tokens: &mut Tokens<'_>,
    constant: bool,
    depth: usize,
) -> Result<Expr, ParseError>
    ensures { Reads (spec.expr constant depth (symbols tokens.old)) result tokens.new }
{
    level(alloc, tokens, constant, depth, levels(constant))
}

// So many levels of operators above an operand.
#[cycle(expr)]
#[tactic(auto, unfolding(crate::specs::Reading::level))]
fn level(
    alloc: Global,
    tokens: &mut Tokens<'_>,
    constant: bool,
    depth: usize,
    level: usize,
) -> Result<Expr, ParseError>
    ensures { Reads (spec.level (spec.operand constant depth) level (symbols tokens.old)) result tokens.new }
{
    if level == 0 {
        return operand(alloc, tokens, constant, depth);
    }
    let first = self::level(alloc, tokens, constant, depth, level - 1)?;
    let rest = links(alloc, tokens, constant, depth, level - 1)?;
    Ok(chain_of(alloc, first, rest)?)
}

#[cycle(expr)]
#[tactic(auto, unfolding(crate::specs::Reading::many_after, crate::specs::Reading::many_from))]
fn links(
    alloc: Global,
    tokens: &mut Tokens<'_>,
    constant: bool,
    depth: usize,
    level: usize,
) -> Result<Links, ParseError>
    ensures { Reads (spec.many_after (spec.is_operator level) (spec.link level
        (spec.level (spec.operand constant depth) level)) [] (symbols tokens.old)) result tokens.new }
{
    let mut found = Items::new(alloc);
    for _turn in 0..tokens.left() {
        if operator(level, tokens.peek()).is_none() {
            return Ok(found);
        }
        let link = link(alloc, tokens, constant, depth, level)?;
        found.push(link)?;
    }
    Ok(found)
}

// An operator of the level, and its right side.
#[cycle(expr)]
#[tactic(auto, unfolding(crate::specs::Reading::link))]
fn link(
    alloc: Global,
    tokens: &mut Tokens<'_>,
    constant: bool,
    depth: usize,
    level: usize,
) -> Result<Link, ParseError>
    ensures { Reads (spec.link level (spec.level (spec.operand constant depth) level) (symbols tokens.old)) result
        tokens.new }
{
    let place = tokens.place();
    let Some(op) = operator(level, tokens.peek()) else {
        return Err(tokens.refuse());
    };
    tokens.take();
    let right = self::level(alloc, tokens, constant, depth, level)?;
    Ok(Link { place, op, right })
}

#[cycle(expr)]
#[tactic(auto, using(crate::proofs::Steps::operand_is))]
fn operand(
    alloc: Global,
    tokens: &mut Tokens<'_>,
    constant: bool,
    depth: usize,
) -> Result<Expr, ParseError>
    ensures { Reads (spec.operand constant depth (symbols tokens.old)) result tokens.new }
{
    match prefix(constant, tokens.peek()) {
        Some(op) => unary(alloc, tokens, constant, depth, op),
        None => primary(alloc, tokens, constant, depth),
    }
}

#[cycle(expr)]
fn unary(
    alloc: Global,
    tokens: &mut Tokens<'_>,
    constant: bool,
    depth: usize,
    op: UnOp,
) -> Result<Expr, ParseError>
    ensures { Reads (spec.unary (spec.negated constant depth) op (symbols tokens.old)) result tokens.new }
{
    let place = tokens.place();
    let inner = negated(alloc, tokens, constant, depth)?;
    Ok(Expr::Unary {
        place,
        op,
        inner: Box::new(alloc, inner)?,
    })
}

#[cycle(expr)]
fn primary(
    alloc: Global,
    tokens: &mut Tokens<'_>,
    constant: bool,
    depth: usize,
) -> Result<Expr, ParseError>
    ensures { Reads (spec.primary constant depth (spec.inner constant depth) (spec.inside constant depth)
        (symbols tokens.old)) result tokens.new }
{
    match start_of(constant, tokens.peek()) {
        Start::Number => {
            let number = tokens.number();
            tokens.take();
            Ok(Expr::Number(number))
        }
        Start::Name => Ok(Expr::Name(tokens.word(alloc)?)),
        Start::Element => {
            let word = tokens.word(alloc)?;
            let index = indices(alloc, tokens, constant, depth)?;
            Ok(element(word, index))
        }
        Start::Brackets => between(
            alloc,
            tokens,
            constant,
            depth,
            Sign::ParenOpen,
            Sign::ParenClose,
        ),
        Start::Length => {
            tokens.take();
            length(alloc, tokens, depth)
        }
        Start::Least => {
            tokens.take();
            least(alloc, tokens, constant, depth)
        }
        Start::Most => {
            tokens.take();
            most(alloc, tokens, constant, depth)
        }
        Start::Other => Err(tokens.refuse()),
    }
}

#[cycle(expr)]
#[tactic(auto, unfolding(crate::specs::Reading::negated))]
fn negated(
    alloc: Global,
    tokens: &mut Tokens<'_>,
    constant: bool,
    depth: usize,
) -> Result<Expr, ParseError>
    ensures { Reads (spec.negated constant depth (symbols tokens.old)) result tokens.new }
{
    if depth == 0 {
        return Err(tokens.too_deep());
    }
    tokens.take();
    operand(alloc, tokens, constant, depth - 1)
}

// One level deeper, from the token that opens it.
#[cycle(expr)]
#[tactic(auto, unfolding(crate::specs::Reading::inner))]
fn inner(
    alloc: Global,
    tokens: &mut Tokens<'_>,
    constant: bool,
    depth: usize,
) -> Result<Expr, ParseError>
    ensures { Reads (spec.inner constant depth (symbols tokens.old)) result tokens.new }
{
    if depth == 0 {
        return Err(tokens.too_deep());
    }
    tokens.take();
    expr(alloc, tokens, constant, depth - 1)
}

// One level deeper, inside brackets that are open already.
#[cycle(expr)]
#[tactic(auto, unfolding(crate::specs::Reading::inside))]
fn inside(
    alloc: Global,
    tokens: &mut Tokens<'_>,
    constant: bool,
    depth: usize,
) -> Result<Expr, ParseError>
    ensures { Reads (spec.inside constant depth (symbols tokens.old)) result tokens.new }
{
    if depth == 0 {
        return Err(tokens.refuse());
    }
    expr(alloc, tokens, constant, depth - 1)
}

/// An expression between two signs, of which the first opens a level.
#[cycle(expr)]
pub fn between(
    alloc: Global,
    tokens: &mut Tokens<'_>,
    constant: bool,
    depth: usize,
    opening: Sign,
    closing: Sign,
) -> Result<Expr, ParseError>
    ensures { Reads (spec.between (spec.inner constant depth) (Class.Sign opening) (Class.Sign closing)
        (symbols tokens.old)) result tokens.new }
{
    if !tokens.sees(Class::Sign(opening)) {
        return Err(tokens.refuse());
    }
    let found = inner(alloc, tokens, constant, depth)?;
    tokens.expect(Class::Sign(closing))?;
    Ok(found)
}

/// An index of an array or a block set.
#[cycle(expr)]
pub fn index(
    alloc: Global,
    tokens: &mut Tokens<'_>,
    constant: bool,
    depth: usize,
) -> Result<Expr, ParseError>
    ensures { Reads (spec.index (spec.inner constant depth) (symbols tokens.old)) result tokens.new }
{
    between(
        alloc,
        tokens,
        constant,
        depth,
        Sign::BracketOpen,
        Sign::BracketClose,
    )
}

/// Any number of indices.
#[cycle(expr)]
#[tactic(auto, unfolding(crate::specs::Reading::many_after, crate::specs::Reading::many_from))]
pub fn indices(
    alloc: Global,
    tokens: &mut Tokens<'_>,
    constant: bool,
    depth: usize,
) -> Result<Exprs, ParseError>
    ensures { Reads (spec.indices (spec.inner constant depth) [] (symbols tokens.old)) result tokens.new }
{
    let mut found = Items::new(alloc);
    for _turn in 0..tokens.left() {
        if !tokens.sees(Class::Sign(Sign::BracketOpen)) {
            return Ok(found);
        }
        let index = index(alloc, tokens, constant, depth)?;
        found.push(index)?;
    }
    Ok(found)
}

// After the word `len`.
#[tactic(auto, unfolding(crate::specs::Reading::length_of))]
fn length(alloc: Global, tokens: &mut Tokens<'_>, depth: usize) -> Result<Expr, ParseError>
    ensures { Reads (spec.length_of depth (symbols tokens.old)) result tokens.new }
{
    tokens.open(Class::Sign(Sign::ParenOpen), depth)?;
    let list = tokens.word(alloc)?;
    tokens.expect(Class::Sign(Sign::ParenClose))?;
    Ok(Expr::Len(list))
}

// After the word `min`.
#[cycle(expr)]
fn least(
    alloc: Global,
    tokens: &mut Tokens<'_>,
    constant: bool,
    depth: usize,
) -> Result<Expr, ParseError>
    ensures { Reads (spec.least (spec.inner constant depth) (spec.inside constant depth) (symbols tokens.old)) result
        tokens.new }
{
    let (first, second) = pair(alloc, tokens, constant, depth)?;
    Ok(Expr::Least(Box::new(alloc, first)?, Box::new(alloc, second)?))
}

// After the word `max`.
#[cycle(expr)]
fn most(
    alloc: Global,
    tokens: &mut Tokens<'_>,
    constant: bool,
    depth: usize,
) -> Result<Expr, ParseError>
    ensures { Reads (spec.most (spec.inner constant depth) (spec.inside constant depth) (symbols tokens.old)) result
        tokens.new }
{
    let (first, second) = pair(alloc, tokens, constant, depth)?;
    Ok(Expr::Most(Box::new(alloc, first)?, Box::new(alloc, second)?))
}

// Two expressions between brackets.
#[cycle(expr)]
#[tactic(auto, unfolding(crate::specs::Reading::pair))]
fn pair(
    alloc: Global,
    tokens: &mut Tokens<'_>,
    constant: bool,
    depth: usize,
) -> Result<(Expr, Expr), ParseError>
    ensures { Reads (spec.pair (spec.inner constant depth) (spec.inside constant depth) (symbols tokens.old)) result
        tokens.new }
{
    if !tokens.sees(Class::Sign(Sign::ParenOpen)) {
        return Err(tokens.refuse());
    }
    let first = inner(alloc, tokens, constant, depth)?;
    tokens.expect(Class::Sign(Sign::Comma))?;
    let second = inside(alloc, tokens, constant, depth)?;
    tokens.expect(Class::Sign(Sign::ParenClose))?;
    Ok((first, second))
}

/// An index of an element of an array.
pub struct ElementIndex;

impl Part for ElementIndex {
    type Tree = Expr;

    ghost parser = { λ n. spec.index (spec.inner false n) };

    fn read(alloc: Global, tokens: &mut Tokens<'_>, depth: usize) -> Result<Expr, ParseError> {
        index(alloc, tokens, false, depth)
    }
}

impl Leading for ElementIndex {
    ghost leads = { spec.is_bracket };

    fn leads(class: Class) -> bool {
        same(class, Class::Sign(Sign::BracketOpen))
    }
}

/// A constant between `[` and `]`.
pub struct Dimension;

impl Part for Dimension {
    type Tree = Expr;

    ghost parser = { λ n. spec.index (spec.inner true n) };

    fn read(alloc: Global, tokens: &mut Tokens<'_>, depth: usize) -> Result<Expr, ParseError> {
        index(alloc, tokens, true, depth)
    }
}

impl Leading for Dimension {
    ghost leads = { spec.is_bracket };

    fn leads(class: Class) -> bool {
        same(class, Class::Sign(Sign::BracketOpen))
    }
}
