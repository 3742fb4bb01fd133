//! Whether names below a bound may lack room, by a sweep over the bytes of their buffers.

ghost use Rattle.std.specs.Prelude.{◌≡◌, ◌≤◌, ◌+◌, ◌*◌, min, map, [], ◌∷◌, false, IfOk};
ghost use Rattle.sq_ir.specs.Plans.{setting_of};
ghost use Rattle.sq_rooms.specs.Reaches as spec;
ghost use Rattle.sq_rooms.specs.Bounds.{NoneBelow};

use crate::bound::{Bound, is_below};
use crate::named::Named;
use crate::room::{offset_of, passes, size_of};
use sq_ir::Plan;
use sq_plan_check::{Reach, Row, candidates};
use sqlite_items::Items;
use std::alloc::{AllocError, Global};

// The last key of a node that a byte may have. What ends there has one key more.
const LAST: u64 = 4_294_967_294;

fn at_most(at: u64, most: u64) -> u64
    ensures is { result ≡ min at most }
    ensures below { result ≤ most }
{
    at.min(most)
}

/// The number of a node and a number of 32 bits.
pub(crate) fn key_of(node: u32, at: u64) -> u64
    requires { at ≤ 4294967295 }
    ensures { result ≡ node * 4294967296 + at }
{
    u64::from(node) * 4_294_967_296 + at
}

// The bytes of a name's buffer.
fn reach_of(plan: &Plan, name: Named) -> Reach
    ensures { result ≡ spec.reach_of (setting_of plan.now) name }
{
    let from = at_most(offset_of(plan, name.buffer), LAST);
    let size = at_most(size_of(plan, name.buffer), LAST + 1);
    let end = at_most(from + size, LAST + 1);
    Reach {
        lo: key_of(name.node, from),
        hi: key_of(name.node, end),
        color: name.buffer,
    }
}

// A list of one reach.
fn one(alloc: Global, reach: Reach) -> Result<Items<Reach>, AllocError>
    ensures { IfOk result (λ reaches. reaches ≡ reach ∷ []) }
{
    let mut reaches = Items::new(alloc);
    reaches.push(reach)?;
    Ok(reaches)
}

// What a name reaches.
fn reaches_of(
    alloc: Global,
    plan: &Plan,
    name: Named,
    bound: Bound,
) -> Result<Items<Reach>, AllocError>
    ensures { IfOk result (λ reaches. reaches ≡ spec.reaches_of (setting_of plan.now) bound name) }
{
    if is_below(name, bound) && 0 < size_of(plan, name.buffer) {
        one(alloc, reach_of(plan, name))
    } else {
        Ok(Items::new(alloc))
    }
}

fn row_of(alloc: Global, plan: &Plan, name: Named, bound: Bound) -> Result<Row, AllocError>
    ensures { IfOk result (λ row. row ≡ spec.row_of (setting_of plan.now) bound name) }
{
    let reaches = reaches_of(alloc, plan, name, bound)?;
    Ok(Row {
        first: name.first,
        end: name.end,
        reaches,
    })
}

// A row for each name.
fn rows_of(
    alloc: Global,
    plan: &Plan,
    names: &[Named],
    bound: Bound,
) -> Result<Items<Row>, AllocError>
    ensures { IfOk result (λ rows. rows ≡ map (spec.row_of (setting_of plan.now) bound) names.now) }
{
    let mut rows = Items::new(alloc);
    for name in names {
        let row = row_of(alloc, plan, *name, bound)?;
        rows.push(row)?;
    }
    Ok(rows)
}

fn any(marks: &[bool]) -> bool
    ensures { result ≡ spec.any marks.now }
{
    for mark in marks {
        if *mark {
            return true;
        }
    }
    false
}

fn passes_below(plan: &Plan, name: Named, bound: Bound) -> bool
    ensures { result ≡ spec.passes_below (setting_of plan.now) bound name }
{
    is_below(name, bound) && passes(plan, name.node, name.buffer)
}

// Whether a name below the bound is of a buffer that passes the capacity.
fn any_passes(plan: &Plan, names: &[Named], bound: Bound) -> bool
    ensures { result ≡ spec.any (map (spec.passes_below (setting_of plan.now) bound) names.now) }
{
    for name in names {
        if passes_below(plan, *name, bound) {
            return true;
        }
    }
    false
}

/// Whether buffers of names below the bound may lack room. Where not, none does.
pub(crate) fn may_lack(
    alloc: Global,
    plan: &Plan,
    names: &[Named],
    bound: Bound,
) -> Result<bool, AllocError>
    ensures { IfOk result (λ found. found ≡ false → NoneBelow (setting_of plan.now) names.now bound) }
{
    if any_passes(plan, names, bound) {
        return Ok(true);
    }
    let rows = rows_of(alloc, plan, names, bound)?;
    let marks = candidates(alloc, rows.as_slice())?;
    Ok(any(&marks))
}
