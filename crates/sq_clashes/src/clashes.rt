//! The first flaw of a plan's events.

ghost use Rattle.std.specs.Prelude.{◌≡◌, IfOk};
ghost use Rattle.sq_ir.specs.DraftLeaves.{leaves_of};
ghost use Rattle.sq_ir.specs.Plans.{IsWellFormed};
ghost use Rattle.sq_clashes.specs.Reached.{MayBeCompared, IsFirstOf};
ghost use Rattle.sq_clashes.specs.EventFlaws.{AreSmall, flaw_of, IsFirstEventFlaw};

use crate::rows::rows_of;
use sq_ir::Plan;
use sq_leaf::Trap;
use sq_plan_check::{Entry, Flaw, Pair, acts_of, entries_of, first_clash};
use std::alloc::{AllocError, Global};

// The first two events that clash.
fn first_pair(alloc: Global, plan: &Plan, entries: &[Entry]) -> Result<Option<Pair>, AllocError>
    requires { MayBeCompared entries.now }
    ensures { IfOk result (λ found. IsFirstOf plan.now entries.now found) }
{
    let acts = acts_of(alloc, plan, entries)?;
    let acts = acts.as_slice();
    let rows = rows_of(alloc, entries, acts)?;
    first_clash(alloc, rows.as_slice(), acts)
}

// Two events that clash as a flaw.
fn flaw_of(pair: Option<Pair>) -> Option<Flaw>
    requires { AreSmall pair }
    ensures { result ≡ flaw_of pair }
{
    match pair {
        None => None,
        Some(Pair { earlier, later }) => {
            let (earlier, later) = (earlier as u32, later as u32);
            Some(Flaw::Clash { earlier, later })
        }
    }
}

/// The first flaw of a plan's events: that they are more than 65,536, or else the two that clash of which the later one
/// is the least, and then the earlier one. None where no two clash.
pub fn first_event_flaw(alloc: Global, plan: &Plan) -> Result<Option<Flaw>, AllocError>
    requires { IsWellFormed (leaves_of plan.now.draft) plan.now }
    ensures { IfOk result (λ found. IsFirstEventFlaw (leaves_of plan.now.draft) plan.now found) }
{
    let Some(entries) = entries_of::<Trap>(alloc, plan)? else {
        return Ok(Some(Flaw::TooManyEvents));
    };
    let pair = first_pair(alloc, plan, entries.as_slice())?;
    Ok(flaw_of(pair))
}
