//! Plans of one action, again and again, on one memory with one buffer.

ghost use Rattle.std.specs.Prelude.{◌≡◌, ◌+◌, ◌<◌, ◌≤◌, ◌^◌, ◌∷◌, [], pos, IfOk};
ghost use Rattle.sq_ir.specs.Plans.{IsGood};
ghost use Rattle.sq_ir.specs.DraftLeaves.{shapes_of, leaves_of};
ghost use Rattle.sq_ir.specs.Examples.{buffer};
ghost use Rattle.sq_ir.specs.declared.num.Num.TheVariants as num;
ghost use Rattle.sq_ir.specs.declared.term.Term.TheVariants as term;
ghost use Rattle.fixture_plans.specs.Turns as spec;

use crate::lanes::slot;
use crate::stored::{on_one_memory, one_leaf, planned, shared};
use sq_ir::{Action, Leaf, LeafView, LeafViews, Leaves, Num, Plan, Term};
use sq_num::Elem;
use sq_rect::Dims;
use sqlite_items::{Boxed as Box, Items};
use std::alloc::{AllocError, Global};
use std::rc::Rc;

// So many times so many times the action. What is in a box is let go in one call, where something fails.
fn repeated(
    alloc: Global,
    size: u64,
    leaves: Leaves,
    outer: u32,
    inner: u64,
    action: Action,
) -> Result<Plan, AllocError>
    requires { inner < 2 ^ 63 }
    ensures { IfOk result (λ p. p ≡ spec.turns size leaves outer inner action) }
{
    let act = Box::new(alloc, Term::Act(action))?;
    let turns = Term::Loop {
        count: Num::Const(inner as i64),
        body: act,
    };
    let body = Box::new(alloc, turns)?;
    let stored = on_one_memory(alloc, size)?;
    let term = Term::Loop {
        count: Num::Const(i64::from(outer)),
        body,
    };
    Ok(planned(alloc, stored, leaves, term))
}

fn no_leaves(alloc: Global) -> Leaves
    ensures { result ≡ [] }
{
    Items::new(alloc)
}

fn fill(count: u32) -> Action
    ensures { result ≡ spec.fill count }
{
    Action::FillRow {
        to: slot(0, Num::Const(0)),
        elem: Elem::Byte,
        count,
        value: 7,
    }
}

fn copy(bytes: u32) -> Action
    ensures { result ≡ spec.copy bytes }
{
    Action::CopyRow {
        from: slot(0, Num::Const(0)),
        to: slot(0, Num::Const(i64::from(bytes))),
        bytes,
    }
}

/// So many times so many times a fill of the first bytes, on a memory of that size.
pub fn fills(
    alloc: Global,
    size: u64,
    outer: u32,
    inner: u64,
    count: u32,
) -> Result<Rc<Plan>, AllocError>
    requires { (count ≤ size) × (size ≤ 2 ^ 30) × (inner < 2 ^ 63) }
    ensures { IfOk result (λ p. IsGood (leaves_of p.value.draft) p.value) }
{
    let turns = repeated(alloc, size, no_leaves(alloc), outer, inner, fill(count))?;
    let plan = shared(alloc, turns)?;
    Ok(plan)
}

/// So many times so many times a copy of the first bytes to those behind them, on a memory of that size.
pub fn copies(
    alloc: Global,
    size: u64,
    outer: u32,
    inner: u64,
    bytes: u32,
) -> Result<Rc<Plan>, AllocError>
    requires { (bytes + bytes ≤ size) × (size ≤ 2 ^ 30) × (inner < 2 ^ 63) }
    ensures { IfOk result (λ p. IsGood (leaves_of p.value.draft) p.value) }
{
    let turns = repeated(alloc, size, no_leaves(alloc), outer, inner, copy(bytes))?;
    let plan = shared(alloc, turns)?;
    Ok(plan)
}

// A square of 4 by 4 ints.
fn square(at: u32) -> LeafView
    ensures { result ≡ spec.square at }
{
    let mut extents = Dims::new(4);
    extents.push(4);
    let mut strides = Dims::new(4);
    strides.push(1);
    LeafView {
        slot: slot(0, Num::Const(i64::from(at))),
        elem: Elem::Int,
        extents,
        strides,
    }
}

fn squares(alloc: Global) -> Result<LeafViews, AllocError>
    ensures { IfOk result (λ vs. vs ≡ spec.square 0 ∷ spec.square 64 ∷ spec.square 128 ∷ []) }
{
    let views = vec![in alloc; square(0), square(64), square(128)]?;
    Ok(Items::from_vec(views))
}

fn product(alloc: Global) -> Result<Action, AllocError>
    ensures { IfOk result (λ a. a ≡ spec.product) }
{
    let views = squares(alloc)?;
    Ok(Action::Leaf {
        code: 0,
        views,
        path: Items::new(alloc),
    })
}

/// So many times so many times a leaf call over three arrays of 4 by 4 ints, which stand one behind the other.
pub fn products(alloc: Global, outer: u32, inner: u64, leaf: Leaf) -> Result<Rc<Plan>, AllocError>
    requires { (shapes_of leaf.code ≡ spec.squares) × (inner < 2 ^ 63) }
    ensures { IfOk result (λ p. IsGood (leaves_of p.value.draft) p.value) }
{
    let leaves = one_leaf(alloc, leaf)?;
    let action = product(alloc)?;
    let turns = repeated(alloc, 192, leaves, outer, inner, action)?;
    let plan = shared(alloc, turns)?;
    Ok(plan)
}
