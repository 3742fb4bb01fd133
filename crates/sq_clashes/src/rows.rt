//! The rows of a plan's events.

ghost use Rattle.std.specs.Prelude.{◌≡◌, ◌<◌, ◌≤◌, length, slice_get, IfOk};
ghost use Rattle.sq_touches.specs.Acts.{AreNear};
ghost use Rattle.sq_plan_check.specs.Pairs.{AllNear};
ghost use Rattle.sq_clashes.specs.Reached.{IsRowOf, AreRows};

use crate::color::own_color;
use crate::reaches::{put_path, put_touches};
use sq_plan_check::{Entry, Row};
use sq_touches::Act;
use sqlite_items::Items;
use std::alloc::{AllocError, Global};

// About so many reaches there may be in all.
const MOST_REACHES: u64 = 1 << 21;

// How many reaches a touch may have. What comes of it is how many events are compared, and nothing else.
fn most_of(acts: &[Act]) -> u64 {
    let mut touches: u64 = 0;
    for act in acts {
        touches = touches.saturating_add(act.touches.len() as u64);
    }
    MOST_REACHES / touches.max(1)
}

// The row of an event.
fn row_of(alloc: Global, entry: &Entry, act: &Act, own: u32, most: u64) -> Result<Row, AllocError>
    requires { AreNear act.now.touches }
    ensures { IfOk result (λ row. IsRowOf own entry.now act.now row) }
{
    let mut reaches = Items::new(alloc);
    put_touches(&mut reaches, act.touches.as_slice(), own, most)?;
    put_path(&mut reaches, &act.path, own)?;
    let (first, end) = (entry.second, entry.second);
    Ok(Row {
        first,
        end,
        reaches,
    })
}

/// The rows of events, one for each.
pub(crate) fn rows_of(
    alloc: Global,
    entries: &[Entry],
    acts: &[Act],
) -> Result<Items<Row>, AllocError>
    requires few { length entries.now ≤ 65536 }
    requires all { length acts.now ≡ length entries.now }
    requires near { AllNear acts.now }
    ensures { IfOk result (λ rows. AreRows entries.now acts.now rows) }
{
    let most = most_of(acts);
    let mut rows = Items::new(alloc);
    for i in 0..entries.len() {
        let row = row_of(alloc, &entries[i], &acts[i], own_color(i), most)?;
        rows.push(row)?;
    }
    Ok(rows)
}
