//! A bound below which no buffers lack room.

ghost use Rattle.std.specs.Prelude.{IfOk};
ghost use Rattle.sq_ir.specs.Plans.{setting_of};
ghost use Rattle.sq_rooms.specs.Bounds.{NoneBelow};

use crate::bound::Bound;
use crate::named::Named;
use crate::rows::{key_of, may_lack};
use sq_ir::Plan;
use std::alloc::{AllocError, Global};

// The nodes and buffers of names, in order. Which bounds are tried comes of them, and nothing else.
fn keys_of(alloc: Global, names: &[Named]) -> Result<Vec<u64>, AllocError> {
    let mut keys = Vec::new(alloc);
    for name in names {
        keys.push(key_of(name.node, u64::from(name.buffer)))?;
    }
    keys.sort()?;
    keys.dedup();
    Ok(keys)
}

fn bound_of(key: u64) -> Bound {
    Bound {
        node: (key / 4_294_967_296) as u32,
        buffer: key % 4_294_967_296,
    }
}

// The last of these bounds that is found to be clear, by halves.
fn last_clear(
    alloc: Global,
    plan: &Plan,
    names: &[Named],
    keys: &[u64],
) -> Result<Bound, AllocError>
    ensures { IfOk result (NoneBelow (setting_of plan.now) names.now) }
{
    let mut clear = Bound { node: 0, buffer: 0 };
    let mut low = 0;
    let mut high = keys.len();
    while low < high {
        let middle = low + (high - low) / 2;
        let bound = bound_of(keys[middle]);
        if may_lack(alloc, plan, names, bound)? {
            high = middle;
            continue;
        }
        clear = bound;
        low = middle + 1;
    }
    Ok(clear)
}

/// A bound below which no buffers lack room: behind all names, if there are none, and else at the first that do.
pub(crate) fn clear_to(alloc: Global, plan: &Plan, names: &[Named]) -> Result<Bound, AllocError>
    ensures { IfOk result (NoneBelow (setting_of plan.now) names.now) }
{
    let end = Bound {
        node: u32::MAX,
        buffer: u64::MAX,
    };
    if !may_lack(alloc, plan, names, end)? {
        return Ok(end);
    }
    let keys = keys_of(alloc, names)?;
    last_clear(alloc, plan, names, &keys)
}
