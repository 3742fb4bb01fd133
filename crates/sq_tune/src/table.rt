//! The table of all choices.

ghost use Rattle.std.specs.Prelude.{◌≡◌, ◌<◌, ◌≤◌, ℕ, IfOk, OnOk, length};
ghost use Rattle.sq_mapping.specs.Sound.{Sound};
ghost use Rattle.sq_mapfile.specs.Choices.{most_choices};
ghost use Rattle.sq_mapfile.specs.Made.{mapping_of};
ghost use Rattle.sq_tune.specs.Best.{IsBest};
ghost use Rattle.sq_tune.specs.Rows.{IsTable};

use crate::best::best;
use crate::planner::Planner;
use crate::row::{RowEnd, Table};
use sq_mapfile::Choices;
use sqlite_items::Items;
use std::alloc::{AllocError, Global};

// The row of a choice.
fn row<P: Planner>(
    alloc: Global,
    planner: &mut P,
    choices: &Choices,
    n: u32,
) -> Result<RowEnd, AllocError>
    requires below { n < choices.now.number }
    requires sound { Sound (P.program planner.old) (P.machine planner.old).levels (mapping_of choices.now n) }
    ensures row { IfOk result (λ row. P.IsRow (P.program planner.old) (P.machine planner.old)
        (mapping_of choices.now n) row) }
    ensures program { P.program planner.new ≡ P.program planner.old }
    ensures machine { P.machine planner.new ≡ P.machine planner.old }
{
    let mapping = choices.mapping(alloc, n)?;
    planner.row(alloc, &mapping)
}

// The number of the best row, where there are no more rows than choices.
fn best_of(rows: &[RowEnd]) -> Option<u32>
    requires { length rows.now ≤ most_choices }
    ensures { IsBest rows.now result }
{
    match best(rows) {
        None => None,
        Some(at) => Some(at as u32),
    }
}

/// The row of each choice, by the planner, and the best of them: it is accepted, no choice that is accepted has less
/// traffic, and it is the first of these. None exactly where all choices are refused.
pub fn tune<P: Planner>(
    alloc: Global,
    planner: &mut P,
    choices: &Choices,
) -> Result<Table, AllocError>
    requires { (n : ℕ) → n < choices.now.number → Sound (P.program planner.old) (P.machine planner.old).levels
        (mapping_of choices.now n) }
    ensures table { IfOk result (λ table. IsTable (P.IsRow (P.program planner.old) (P.machine planner.old)) choices.now
        table) }
    ensures program { P.program planner.new ≡ P.program planner.old }
    ensures machine { P.machine planner.new ≡ P.machine planner.old }
{
    let count = choices.count();
    let mut rows = Items::new(alloc);
    for n in 0..count {
        let next = row(alloc, planner, choices, n)?;
        rows.push(next)?;
    }
    let best = best_of(rows.as_slice());
    Ok(Table { rows, best })
}
