//! Contexts: in an iteration of a map, in a callee, at a child.

ghost use Rattle.std.specs.Prelude.{◌≡◌, ◌++◌, ◌∷◌, [], IfOk, OnOk, map};
ghost use Rattle.sq_ir.specs.Lifting.{lift};
ghost use Rattle.sq_ir.specs.declared.num.Num.TheVariants as num;
ghost use Rattle.sq_term.specs.Placed.Tables as tables;
ghost use Rattle.sq_term.specs.Terms as terms;

use crate::numbers::start_table;
use crate::places::{copy_nums, copy_view, copy_views, lift_nums, lift_views, push_locals};
use sq_ir::{LeafView, LeafViews, Num, Nums, Shape};
use sq_term::{Context, Move};
use sq_text::SpreadRule;
use sqlite_items::Items;
use std::alloc::{AllocError, Global};

/// The locals of a form.
#[derive(Clone, Copy)]
pub struct LocalArrays<'a> {
    pub shapes: &'a [Shape],
    pub buffers: &'a [u32],
}

fn ordinal_in(alloc: Global, starts: &[usize], ordinal: &Num) -> Result<Num, AllocError>
    ensures { IfOk result (λ n. n ≡ num.Add (num.Pick (terms.numbers starts.now) (lift 1 ordinal.now)) (num.Index 0)) }
{
    let table = start_table(alloc, starts)?;
    let lifted = ordinal.lifted(alloc, 1)?;
    let start = Num::pick(alloc, table, lifted)?;
    Num::sum(alloc, start, Num::Index(0))
}

/// A child under one loop more.
pub fn lift_child(alloc: Global, child: &Option<Num>) -> Result<Option<Num>, AllocError>
    ensures { IfOk result (λ o. o ≡ terms.lift_child child.now) }
{
    match child {
        None => Ok(None),
        Some(k) => {
            let lifted = k.lifted(alloc, 1)?;
            Ok(Some(lifted))
        }
    }
}

fn blocked_child(alloc: Global, count: &Num) -> Result<Num, AllocError>
    ensures { IfOk result (λ n. n ≡ num.Div (num.Mul (num.Index 0) num.Children) (lift 1 count.now)) }
{
    let lifted = count.lifted(alloc, 1)?;
    match Num::product(alloc, Num::Index(0), Num::Children) {
        Err(end) => {
            drop(lifted);
            Err(end)
        }
        Ok(product) => Num::quotient(alloc, product, lifted),
    }
}

fn child_in(
    alloc: Global,
    spread: Option<SpreadRule>,
    count: &Num,
    child: &Option<Num>,
) -> Result<Option<Num>, AllocError>
    ensures { IfOk result (λ o. o ≡ terms.child_in spread count.now child.now) }
{
    match spread {
        None => lift_child(alloc, child),
        Some(SpreadRule::Cyclic) => {
            let child = Num::remainder(alloc, Num::Index(0), Num::Children)?;
            Ok(Some(child))
        }
        Some(SpreadRule::Blocked) => {
            let child = blocked_child(alloc, count)?;
            Ok(Some(child))
        }
    }
}

fn path_in(alloc: Global, path: &[Num]) -> Result<Nums, AllocError>
    ensures { IfOk result (λ ns. ns ≡ map (lift 1) path.now ++ num.Index 0 ∷ []) }
{
    let mut out = lift_nums(alloc, path)?;
    out.push(Num::Index(0))?;
    Ok(out)
}

// The iterations round a statement in a map, and where its arrays stand.
fn lists_in(
    alloc: Global,
    path: &[Num],
    views: &[LeafView],
) -> Result<(Nums, LeafViews), AllocError>
    ensures { IfOk result (λ p. p ≡ (map (lift 1) path.now ++ num.Index 0 ∷ [], map terms.lift_view views.now)) }
{
    let path = path_in(alloc, path)?;
    let views = lift_views(alloc, views)?;
    Ok((path, views))
}

// How often it was begun, and the child that lower calls go to.
fn numbers_in(
    alloc: Global,
    spread: Option<SpreadRule>,
    count: &Num,
    starts: &[usize],
    c: &Context,
) -> Result<(Num, Option<Num>), AllocError>
    ensures { IfOk result (λ p. p ≡ (
      num.Add (num.Pick (terms.numbers starts.now) (lift 1 c.now.ordinal)) (num.Index 0),
      terms.child_in spread count.now c.now.child,
    )) }
{
    let child = child_in(alloc, spread, count, &c.child)?;
    match ordinal_in(alloc, starts, &c.ordinal) {
        Err(end) => {
            drop(child);
            Err(end)
        }
        Ok(ordinal) => Ok((ordinal, child)),
    }
}

/// The context in an iteration of a map.
pub fn in_map(
    alloc: Global,
    spread: Option<SpreadRule>,
    count: &Num,
    starts: &[usize],
    c: &Context,
) -> Result<Context, AllocError>
    ensures { IfOk result (λ x. x ≡ terms.in_map spread count.now starts.now c.now) }
{
    let (path, views) = lists_in(alloc, c.path.as_slice(), c.views.as_slice())?;
    let (ordinal, child) = numbers_in(alloc, spread, count, starts, c)?;
    Ok(Context {
        ordinal,
        child,
        path,
        views,
    })
}

fn push_own(alloc: Global, out: &mut LeafViews, ms: &[Move]) -> Result<(), AllocError>
    ensures { OnOk result (out.new ≡ out.old ++ map (λ m. m.own) ms.now) }
{
    for m in ms {
        let view = copy_view(alloc, &m.own)?;
        out.push(view)?;
    }
    Ok(())
}

fn callee_views(
    alloc: Global,
    ms: &[Move],
    locals: &LocalArrays<'_>,
) -> Result<LeafViews, AllocError>
    ensures { IfOk result (λ vs. vs ≡ map (λ m. m.own) ms.now
        ++ map terms.local_view (tables.placed_locals locals.now.shapes.now locals.now.buffers.now)) }
{
    let mut views = Items::new(alloc);
    push_own(alloc, &mut views, ms)?;
    push_locals(&mut views, locals.shapes, locals.buffers)?;
    Ok(views)
}

/// The context in a callee with these locals.
pub fn in_callee(
    alloc: Global,
    c: &Context,
    ms: &[Move],
    locals: &LocalArrays<'_>,
) -> Result<Context, AllocError>
    ensures { IfOk result (λ x. x ≡ terms.in_callee c.now ms.now
        (tables.placed_locals locals.now.shapes.now locals.now.buffers.now)) }
{
    let path = copy_nums(alloc, c.path.as_slice())?;
    let views = callee_views(alloc, ms, locals)?;
    Ok(Context {
        ordinal: Num::Const(0),
        child: Some(Num::Const(0)),
        path,
        views,
    })
}

/// The child that a call goes to.
pub fn call_child(alloc: Global, lower: bool, c: &Context) -> Result<Option<Num>, AllocError>
    ensures { IfOk result (λ o. o ≡ terms.call_child lower c.now) }
{
    if !lower {
        return Ok(None);
    }
    match &c.child {
        None => Ok(None),
        Some(k) => {
            let child = k.copy(alloc)?;
            Ok(Some(child))
        }
    }
}

/// The same iterations, and the same views.
pub fn copy_lists(
    alloc: Global,
    path: &[Num],
    views: &[LeafView],
) -> Result<(Nums, LeafViews), AllocError>
    ensures { IfOk result (λ p. p ≡ (path.now, views.now)) }
{
    let path = copy_nums(alloc, path)?;
    let views = copy_views(alloc, views)?;
    Ok((path, views))
}

/// The same context at the child that lower calls go to.
pub fn at_child_already(alloc: Global, c: &Context) -> Result<Context, AllocError>
    ensures { IfOk result (λ d. d ≡ terms.at_child_already c.now) }
{
    let (path, views) = copy_lists(alloc, c.path.as_slice(), c.views.as_slice())?;
    let ordinal = c.ordinal.copy(alloc)?;
    Ok(Context {
        ordinal,
        child: None,
        path,
        views,
    })
}
