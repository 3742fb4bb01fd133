//! The arguments of a call.

ghost use Rattle.std.specs.Prelude.{◌≡◌, ◌≤◌, ◌∷◌, Some, None, option_map, OnOk, IfOk};
ghost use Rattle.std.specs.Option.{option_copied};
ghost use Rattle.sq_forms.specs.Faults.{Gives};
ghost use Rattle.sq_forms.specs.Steps as steps;
ghost use Rattle.sq_forms.specs.Args as spec;

use crate::faults::{refusal_named, refusal_of_constant};
use crate::known::Known;
use crate::walk::Walk;
use sq_ast::{ArgUse, Expr, Mode, Param};
use sq_blocks::views::Rect;
use sq_blocks::{Argument, Bindings, Env, block_of, cval, whole};
use sq_text::{Code, Name, Place, Stop};
use sqlite_items::{Items, at};
use std::alloc::Global;

/// A block of an array of the form.
#[derive(Drop)]
pub struct Block {
    pub array: u32,
    pub rect: Rect,
}

pub fn worth(alloc: Global, env: &Env<'_>, e: &Expr) -> Result<i64, Stop>
    ensures { Gives result (spec.worth_of e.now env.now.numbers.now env.now.lists.now) }
{
    match cval(e, env) {
        Ok(n) => Ok(n),
        Err(bad) => Err(refusal_of_constant(alloc, bad)),
    }
}

/// The worths of all, or the first fault.
pub fn worths(alloc: Global, env: &Env<'_>, list: &[Expr]) -> Result<Items<i64>, Stop>
    ensures { Gives result (spec.worths list.now env.now.numbers.now env.now.lists.now) }
{
    let mut numbers = Items::new(alloc);
    for e in list {
        numbers.push(worth(alloc, env, e)?)?;
    }
    Ok(numbers)
}

// All of an array.
fn whole_array(known: &Known, name: &Name) -> Option<Block>
    ensures { result ≡ spec.whole_array (spec.names_of known.now) name.now }
{
    let array = known.arrays.get(name)?;
    let rect = whole(&array.extents)?;
    Some(Block {
        array: array.number,
        rect,
    })
}

fn block_in(known: &Known, name: &Name, index: &[i64]) -> Option<Block>
    ensures { result ≡ spec.block_in (spec.names_of known.now) name.now index.now }
{
    let blocks = known.blocks.get(name)?;
    match block_of(&blocks.chop, index) {
        Ok(rect) => Some(Block {
            array: blocks.array,
            rect,
        }),
        Err(_) => None,
    }
}

fn block_or_fault(alloc: Global, a: &ArgUse, block: Option<Block>) -> Result<Block, Stop>
    ensures { Gives result (spec.block_or_fault a.now block) }
{
    match block {
        Some(block) => Ok(block),
        None => Err(refusal_named(alloc, Code::BlockIndex, a.place, &a.name)),
    }
}

fn block_used(alloc: Global, known: &Known, numbers: &Bindings, a: &ArgUse) -> Result<Block, Stop>
    ensures { Gives result (spec.block (spec.names_of known.now) numbers.now a.now) }
{
    let list = a.index.as_slice();
    if list.is_empty() {
        return block_or_fault(alloc, a, whole_array(known, &a.name));
    }
    let env = Env {
        numbers,
        lists: &known.lists,
    };
    let index = worths(alloc, &env, list)?;
    block_or_fault(alloc, a, block_in(known, &a.name, index.as_slice()))
}

fn mode_of(param: Option<&Param>) -> Mode
    ensures { result ≡ spec.mode_of (option_copied param.entry) }
{
    match param {
        Some(param) => param.mode,
        None => Mode::Input,
    }
}

fn is_reduced(reduced: Option<&Name>, a: &ArgUse) -> bool
    ensures { result ≡ spec.is_reduced (option_copied reduced.entry) a.now }
{
    match reduced {
        Some(name) => *name == a.name,
        None => false,
    }
}

pub fn examine(
    alloc: Global,
    known: &Known,
    numbers: &Bindings,
    reduced: Option<&Name>,
    param: Option<&Param>,
    a: &ArgUse,
) -> Result<Argument, Stop>
    ensures { Gives result (spec.argument (spec.names_of known.now) numbers.now (option_copied reduced.entry)
        (option_copied param.entry) a.now) }
{
    let block = block_used(alloc, known, numbers, a)?;
    Ok(Argument {
        mode: mode_of(param),
        is_reduced: is_reduced(reduced, a),
        array: block.array,
        rect: block.rect,
    })
}

// A use of the outermost map, where there is one.
fn count_use(alloc: Global, walk: &mut Walk, outer: Option<Place>) -> Result<(), Stop>
    ensures steps { steps.Walks result (steps.state_of walk.old) (steps.state_of walk.new) (spec.use_step outer) }
    ensures left { OnOk result (walk.new.left ≤ walk.old.left) }
{
    match outer {
        Some(place) => walk.count(alloc, place),
        None => Ok(()),
    }
}

/// The arguments of a call, examined from left to right.
pub fn args(
    alloc: Global,
    walk: &mut Walk,
    outer: Option<Place>,
    known: &Known,
    numbers: &Bindings,
    reduced: Option<&Name>,
    params: &[Param],
    list: &[ArgUse],
) -> Result<Items<Argument>, Stop>
    ensures steps { steps.Walks result (steps.state_of walk.old) (steps.state_of walk.new)
        (spec.args_steps outer (spec.names_of known.now) numbers.now
        (option_copied reduced.entry) params.now 0 list.now) }
    ensures list { IfOk result (λ xs. xs ≡ spec.arguments (spec.names_of known.now) numbers.now
        (option_copied reduced.entry) params.now 0 list.now) }
    ensures left { OnOk result (walk.new.left ≤ walk.old.left) }
{
    let mut out = Items::new(alloc);
    for (i, a) in list.iter().enumerate() {
        count_use(alloc, walk, outer)?;
        out.push(examine(alloc, known, numbers, reduced, at(params, i), a)?)?;
    }
    Ok(out)
}
