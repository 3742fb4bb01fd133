//! Parameters, declarations, tasks and programs. `depth` says how many levels of nesting are left.

ghost use Rattle.std.specs.Prelude.{◌≡◌, true, [], ◌∷◌};
ghost use Rattle.sq_ast.specs.Symbols.{symbols};
ghost use Rattle.sq_ast.specs.Grammar as grammar;
ghost use Rattle.sq_reader.specs.Reading as spec;
ghost use Rattle.sq_reader.specs.Reading.{Reads};

use crate::class::same;
use crate::error::ParseError;
use crate::expr::{Dimension, expr, index};
use crate::leaf::leaf_stmts;
use crate::parts::{AfterComma, Leading, Part, listed, more, one, some_more};
use crate::stmt::stmts;
use crate::tables::{begins_decl, begins_task, elem, mode};
use crate::tokens::Tokens;
use sq_ast::{
    Body, Class, Decl, Decls, Expr, Exprs, Extent, Extents, Keyword, Param, Params, Program,
    Variant, VariantKind,
};
use sq_lexer::Sign;
use sq_text::Word;
use sqlite_items::Items;
use std::alloc::Global;

// How many extents or dimensions may follow the first.
const MORE_DIMENSIONS: usize = 2;

// ---- parameters

#[tactic(auto, unfolding(crate::specs::Reading::extent))]
fn extent(alloc: Global, tokens: &mut Tokens<'_>, depth: usize) -> Result<Extent, ParseError>
    ensures { Reads (spec.extent depth (symbols tokens.old)) result tokens.new }
{
    tokens.open(Class::Sign(Sign::BracketOpen), depth)?;
    let extent = tokens.extent(alloc)?;
    tokens.expect(Class::Sign(Sign::BracketClose))?;
    Ok(extent)
}

#[tactic(auto, unfolding(crate::specs::Reading::extents))]
fn extents(alloc: Global, tokens: &mut Tokens<'_>, depth: usize) -> Result<Extents, ParseError>
    ensures { Reads (spec.extents depth (symbols tokens.old)) result tokens.new }
{
    let first = extent(alloc, tokens, depth)?;
    some_more::<ArrayExtent>(alloc, tokens, depth, MORE_DIMENSIONS, one(alloc, first)?)
}

/// An extent of a parameter.
struct ArrayExtent;

impl Part for ArrayExtent {
    type Tree = Extent;

    ghost parser = { spec.extent };

    fn read(alloc: Global, tokens: &mut Tokens<'_>, depth: usize) -> Result<Extent, ParseError> {
        extent(alloc, tokens, depth)
    }
}

impl Leading for ArrayExtent {
    ghost leads = { spec.is_bracket };

    fn leads(class: Class) -> bool {
        same(class, Class::Sign(Sign::BracketOpen))
    }
}

#[tactic(auto, unfolding(crate::specs::Reading::param))]
fn param(alloc: Global, tokens: &mut Tokens<'_>, depth: usize) -> Result<Param, ParseError>
    ensures { Reads (spec.param depth (symbols tokens.old)) result tokens.new }
{
    let mode = mode(tokens)?;
    let elem = elem(tokens)?;
    let Word { place, name } = tokens.word(alloc)?;
    let extents = extents(alloc, tokens, depth)?;
    Ok(Param {
        place,
        mode,
        elem,
        name,
        extents,
    })
}

/// A parameter of a task.
struct TaskParam;

impl Part for TaskParam {
    type Tree = Param;

    ghost parser = { spec.param };

    fn read(alloc: Global, tokens: &mut Tokens<'_>, depth: usize) -> Result<Param, ParseError> {
        param(alloc, tokens, depth)
    }
}

// ---- declarations

#[tactic(auto, unfolding(crate::specs::Reading::tunable))]
fn tunable(alloc: Global, tokens: &mut Tokens<'_>) -> Result<Decl, ParseError>
    ensures { Reads (spec.tunable (symbols tokens.old)) result tokens.new }
{
    let Word { place, name } = tokens.word(alloc)?;
    Ok(Decl::Tunable(place, name))
}

// The other names of a declaration of tunable numbers.
#[tactic(auto, unfolding(crate::specs::Reading::tunables))]
fn tunables(alloc: Global, tokens: &mut Tokens<'_>, first: Word) -> Result<Decls, ParseError>
    ensures { Reads (spec.tunables first (symbols tokens.old)) result tokens.new }
{
    let Word { place, name } = first;
    let first = one(alloc, Decl::Tunable(place, name))?;
    let all = more::<AfterComma<TunableName>>(alloc, tokens, 0, first)?;
    tokens.expect(Class::Sign(Sign::Semi))?;
    Ok(all)
}

/// A name of a declaration of tunable numbers.
struct TunableName;

impl Part for TunableName {
    type Tree = Decl;

    ghost parser = { λ _. spec.tunable };

    fn read(alloc: Global, tokens: &mut Tokens<'_>, _depth: usize) -> Result<Decl, ParseError> {
        tunable(alloc, tokens)
    }
}

#[tactic(auto, unfolding(crate::specs::Reading::tunable_list))]
fn tunable_list(
    alloc: Global,
    tokens: &mut Tokens<'_>,
    depth: usize,
    list: Word,
) -> Result<Decls, ParseError>
    ensures { Reads (spec.tunable_list depth list (symbols tokens.old)) result tokens.new }
{
    tokens.open(Class::Sign(Sign::BracketOpen), depth)?;
    tokens.expect(Class::Sign(Sign::BracketClose))?;
    tokens.expect(Class::Sign(Sign::Semi))?;
    let Word { place, name } = list;
    Ok(one(alloc, Decl::List(place, name))?)
}

// After the word `tunable`.
#[tactic(auto, unfolding(crate::specs::Reading::tunable_decl))]
fn tunable_decl(
    alloc: Global,
    tokens: &mut Tokens<'_>,
    is_inner: bool,
    depth: usize,
) -> Result<Decls, ParseError>
    ensures { Reads (spec.tunable_decl is_inner depth (symbols tokens.old)) result tokens.new }
{
    tokens.expect(Class::Key(Keyword::Int))?;
    let name = tokens.word(alloc)?;
    if is_inner && tokens.sees(Class::Sign(Sign::BracketOpen)) {
        tunable_list(alloc, tokens, depth, name)
    } else {
        tunables(alloc, tokens, name)
    }
}

#[tactic(auto, unfolding(crate::specs::Reading::dims))]
fn dims(alloc: Global, tokens: &mut Tokens<'_>, depth: usize) -> Result<Exprs, ParseError>
    ensures { Reads (spec.dims depth (symbols tokens.old)) result tokens.new }
{
    let first = index(alloc, tokens, true, depth)?;
    some_more::<Dimension>(alloc, tokens, depth, MORE_DIMENSIONS, one(alloc, first)?)
}

// After the word `local`.
#[tactic(auto, unfolding(crate::specs::Reading::local))]
fn local(alloc: Global, tokens: &mut Tokens<'_>, depth: usize) -> Result<Decls, ParseError>
    ensures { Reads (spec.local depth (symbols tokens.old)) result tokens.new }
{
    let elem = elem(tokens)?;
    let Word { place, name } = tokens.word(alloc)?;
    let extents = dims(alloc, tokens, depth)?;
    tokens.expect(Class::Sign(Sign::Semi))?;
    let local = Decl::Local {
        place,
        elem,
        name,
        extents,
    };
    Ok(one(alloc, local)?)
}

#[tactic(auto, unfolding(crate::specs::Reading::sizes))]
fn sizes(alloc: Global, tokens: &mut Tokens<'_>, depth: usize) -> Result<Exprs, ParseError>
    ensures { Reads (spec.sizes depth (symbols tokens.old)) result tokens.new }
{
    let first = expr(alloc, tokens, true, depth)?;
    more::<AfterComma<BlockSize>>(alloc, tokens, depth, one(alloc, first)?)
}

/// A size of a block set's blocks.
struct BlockSize;

impl Part for BlockSize {
    type Tree = Expr;

    ghost parser = { spec.expr true };

    fn read(alloc: Global, tokens: &mut Tokens<'_>, depth: usize) -> Result<Expr, ParseError> {
        expr(alloc, tokens, true, depth)
    }
}

// After the open bracket of `rchop`.
#[tactic(auto, unfolding(crate::specs::Reading::rchop))]
fn rchop(
    alloc: Global,
    tokens: &mut Tokens<'_>,
    depth: usize,
    set: Word,
) -> Result<Decls, ParseError>
    ensures { Reads (spec.rchop depth set (symbols tokens.old)) result tokens.new }
{
    let array = tokens.word(alloc)?;
    tokens.expect(Class::Sign(Sign::Comma))?;
    let sizes = sizes(alloc, tokens, depth)?;
    tokens.expect(Class::Sign(Sign::ParenClose))?;
    let Word { place, name } = set;
    let rchop = Decl::Rchop {
        place,
        name,
        array,
        sizes,
    };
    Ok(one(alloc, rchop)?)
}

#[tactic(auto, unfolding(crate::specs::Reading::comma_word))]
fn comma_word(alloc: Global, tokens: &mut Tokens<'_>) -> Result<Word, ParseError>
    ensures { Reads (spec.comma_word (symbols tokens.old)) result tokens.new }
{
    tokens.expect(Class::Sign(Sign::Comma))?;
    tokens.word(alloc)
}

// After the open bracket of `ichop`.
#[tactic(auto, unfolding(crate::specs::Reading::ichop))]
fn ichop(alloc: Global, tokens: &mut Tokens<'_>, set: Word) -> Result<Decls, ParseError>
    ensures { Reads (spec.ichop set (symbols tokens.old)) result tokens.new }
{
    let array = tokens.word(alloc)?;
    let starts = comma_word(alloc, tokens)?;
    let ends = comma_word(alloc, tokens)?;
    tokens.expect(Class::Sign(Sign::ParenClose))?;
    let Word { place, name } = set;
    let ichop = Decl::Ichop {
        place,
        name,
        array,
        starts,
        ends,
    };
    Ok(one(alloc, ichop)?)
}

// How a block set is cut.
#[tactic(auto, unfolding(crate::specs::Reading::chop))]
fn chop(
    alloc: Global,
    tokens: &mut Tokens<'_>,
    depth: usize,
    set: Word,
) -> Result<Decls, ParseError>
    ensures { Reads (spec.chop depth set (symbols tokens.old)) result tokens.new }
{
    if tokens.sees(Class::Key(Keyword::Rchop)) {
        tokens.take();
        let inside = tokens.open(Class::Sign(Sign::ParenOpen), depth)?;
        return rchop(alloc, tokens, inside, set);
    }
    if tokens.sees(Class::Key(Keyword::Ichop)) {
        tokens.take();
        tokens.open(Class::Sign(Sign::ParenOpen), depth)?;
        return ichop(alloc, tokens, set);
    }
    Err(tokens.refuse())
}

// After the word `blkset`.
#[tactic(auto, unfolding(crate::specs::Reading::blkset))]
fn blkset(alloc: Global, tokens: &mut Tokens<'_>, depth: usize) -> Result<Decls, ParseError>
    ensures { Reads (spec.blkset depth (symbols tokens.old)) result tokens.new }
{
    let set = tokens.word(alloc)?;
    tokens.expect(Class::Sign(Sign::Set))?;
    let sets = chop(alloc, tokens, depth, set)?;
    tokens.expect(Class::Sign(Sign::Semi))?;
    Ok(sets)
}

// A declaration of an inner task or a leaf task, which may declare several names.
#[tactic(auto, unfolding(crate::specs::Reading::decl))]
fn decl(
    alloc: Global,
    tokens: &mut Tokens<'_>,
    is_inner: bool,
    depth: usize,
) -> Result<Decls, ParseError>
    ensures { Reads (spec.decl is_inner depth (symbols tokens.old)) result tokens.new }
{
    if tokens.sees(Class::Key(Keyword::Tunable)) {
        tokens.take();
        return tunable_decl(alloc, tokens, is_inner, depth);
    }
    if tokens.sees(Class::Key(Keyword::Local)) {
        tokens.take();
        return local(alloc, tokens, depth);
    }
    if is_inner && tokens.sees(Class::Key(Keyword::Blkset)) {
        tokens.take();
        return blkset(alloc, tokens, depth);
    }
    Err(tokens.refuse())
}

#[tactic(auto, unfolding(crate::specs::Reading::decls, crate::specs::Reading::joined_from))]
fn decls(
    alloc: Global,
    tokens: &mut Tokens<'_>,
    is_inner: bool,
    depth: usize,
) -> Result<Decls, ParseError>
    ensures { Reads (spec.decls is_inner depth (symbols tokens.old)) result tokens.new }
{
    let mut found = Items::new(alloc);
    for _turn in 0..tokens.left() {
        if !begins_decl(is_inner, tokens.peek()) {
            return Ok(found);
        }
        let next = decl(alloc, tokens, is_inner, depth)?;
        found.append(next)?;
    }
    Ok(found)
}

// ---- tasks

// After the parameters of an inner task and its open brace.
#[tactic(auto, unfolding(crate::specs::Reading::inner_rest))]
fn inner_rest(
    alloc: Global,
    tokens: &mut Tokens<'_>,
    depth: usize,
    task: Word,
    params: Params,
) -> Result<Variant, ParseError>
    ensures { Reads (spec.inner_rest depth task params (symbols tokens.old)) result tokens.new }
{
    let decls = decls(alloc, tokens, true, depth)?;
    let body = stmts(alloc, tokens, depth)?;
    tokens.expect(Class::Sign(Sign::BraceClose))?;
    Ok(variant_of(task, VariantKind::Inner, params, decls, Body::Inner(body)))
}

// After the word `inner`.
#[tactic(auto, unfolding(crate::specs::Reading::inner_task))]
fn inner_task(
    alloc: Global,
    tokens: &mut Tokens<'_>,
    depth: usize,
    task: Word,
) -> Result<Variant, ParseError>
    ensures { Reads (spec.inner_task depth task (symbols tokens.old)) result tokens.new }
{
    let params = listed::<TaskParam>(alloc, tokens, depth)?;
    let inside = tokens.open(Class::Sign(Sign::BraceOpen), depth)?;
    inner_rest(alloc, tokens, inside, task, params)
}

// After the parameters of a leaf task and its open brace.
#[tactic(auto, unfolding(crate::specs::Reading::leaf_rest))]
fn leaf_rest(
    alloc: Global,
    tokens: &mut Tokens<'_>,
    depth: usize,
    task: Word,
    params: Params,
) -> Result<Variant, ParseError>
    ensures { Reads (spec.leaf_rest depth task params (symbols tokens.old)) result tokens.new }
{
    let decls = decls(alloc, tokens, false, depth)?;
    let body = leaf_stmts(alloc, tokens, depth)?;
    tokens.expect(Class::Sign(Sign::BraceClose))?;
    Ok(variant_of(task, VariantKind::Leaf, params, decls, Body::Leaf(body)))
}

// After the word `leaf`.
#[tactic(auto, unfolding(crate::specs::Reading::leaf_task))]
fn leaf_task(
    alloc: Global,
    tokens: &mut Tokens<'_>,
    depth: usize,
    task: Word,
) -> Result<Variant, ParseError>
    ensures { Reads (spec.leaf_task depth task (symbols tokens.old)) result tokens.new }
{
    let params = listed::<TaskParam>(alloc, tokens, depth)?;
    let inside = tokens.open(Class::Sign(Sign::BraceOpen), depth)?;
    leaf_rest(alloc, tokens, inside, task, params)
}

fn variant_of(task: Word, kind: VariantKind, params: Params, decls: Decls, body: Body) -> Variant
    ensures { result ≡ record {
      place = task.place;
      task = task.name;
      kind = kind;
      params = params;
      decls = decls;
      body
          = body;
    } }
{
    let Word { place, name } = task;
    Variant {
        place,
        task: name,
        kind,
        params,
        decls,
        body,
    }
}

// After a task's name.
#[tactic(auto, unfolding(crate::specs::Reading::variant))]
fn variant(
    alloc: Global,
    tokens: &mut Tokens<'_>,
    depth: usize,
    task: Word,
) -> Result<Variant, ParseError>
    ensures { Reads (spec.variant depth task (symbols tokens.old)) result tokens.new }
{
    if tokens.sees(Class::Key(Keyword::Inner)) {
        tokens.take();
        return inner_task(alloc, tokens, depth, task);
    }
    if tokens.sees(Class::Key(Keyword::Leaf)) {
        tokens.take();
        return leaf_task(alloc, tokens, depth, task);
    }
    Err(tokens.refuse())
}

// From the word `task` on.
#[tactic(auto, unfolding(crate::specs::Reading::task_named))]
fn task_named(alloc: Global, tokens: &mut Tokens<'_>, depth: usize) -> Result<Variant, ParseError>
    ensures { Reads (spec.task_named depth (symbols tokens.old)) result tokens.new }
{
    tokens.expect(Class::Key(Keyword::Task))?;
    let task = tokens.word(alloc)?;
    tokens.expect(Class::Sign(Sign::Path))?;
    variant(alloc, tokens, depth, task)
}

#[tactic(auto, unfolding(crate::specs::Reading::task))]
fn task(alloc: Global, tokens: &mut Tokens<'_>, depth: usize) -> Result<Variant, ParseError>
    ensures { Reads (spec.task depth (symbols tokens.old)) result tokens.new }
{
    if tokens.sees(Class::Key(Keyword::Void)) {
        tokens.take();
    }
    task_named(alloc, tokens, depth)
}

// From the word `task` on.
#[tactic(auto, unfolding(crate::specs::Reading::leaf_named))]
fn leaf_named(alloc: Global, tokens: &mut Tokens<'_>, depth: usize) -> Result<Variant, ParseError>
    ensures { Reads (spec.leaf_named depth (symbols tokens.old)) result tokens.new }
{
    tokens.expect(Class::Key(Keyword::Task))?;
    let task = tokens.word(alloc)?;
    tokens.expect(Class::Sign(Sign::Path))?;
    tokens.expect(Class::Key(Keyword::Leaf))?;
    leaf_task(alloc, tokens, depth, task)
}

/// A leaf variant, with so many levels of nesting at most.
#[tactic(auto, unfolding(crate::specs::Reading::leaf))]
pub fn read_leaf(
    alloc: Global,
    tokens: &mut Tokens<'_>,
    depth: usize,
) -> Result<Variant, ParseError>
    ensures { Reads (spec.leaf depth (symbols tokens.old)) result tokens.new }
{
    if tokens.sees(Class::Key(Keyword::Void)) {
        tokens.take();
    }
    leaf_named(alloc, tokens, depth)
}

/// A variant of a task.
struct TaskVariant;

impl Part for TaskVariant {
    type Tree = Variant;

    ghost parser = { spec.task };

    fn read(alloc: Global, tokens: &mut Tokens<'_>, depth: usize) -> Result<Variant, ParseError> {
        task(alloc, tokens, depth)
    }
}

impl Leading for TaskVariant {
    ghost leads = { spec.begins_task };

    fn leads(class: Class) -> bool {
        begins_task(class)
    }
}

/// A whole program, with so many levels of nesting at most.
#[tactic(auto, unfolding(crate::specs::Reading::program))]
pub fn read_program(
    alloc: Global,
    tokens: &mut Tokens<'_>,
    depth: usize,
) -> Result<Program, ParseError>
    ensures { Reads (spec.program depth (symbols tokens.old)) result tokens.new }
{
    let tasks = more::<TaskVariant>(alloc, tokens, depth, Items::new(alloc))?;
    tokens.expect(Class::End)?;
    if tokens.left() == 0 {
        Ok(Program { tasks })
    } else {
        Err(tokens.refuse())
    }
}
