//! Whether a plan may be run in every order.

ghost use Rattle.std.specs.Prelude.{◌≡◌, true, Some, None, IfOk, OnOk};
ghost use Rattle.sq_text.specs.Answers.{Answers};
ghost use Rattle.sq_ir.specs.DraftLeaves.{leaves_of};
ghost use Rattle.sq_ir.specs.Plans.{IsGood, IsWellFormed};
ghost use Rattle.sq_check_laws.specs.First.{IsFirstFlaw};
ghost use Rattle.sq_rooms.specs.Terms.{is_flat};
ghost use Rattle.sq_checker.specs.Flaws as spec;
ghost use Rattle.sq_checker.specs.Flaws.{FlawFault, IsRefusedFor};

use crate::fault::fault_of;
use sq_check_laws::Flaw;
use sq_check_laws::laws::{first_flaws_are_one, flawless_plans_are_good};
use sq_clashes::first_event_flaw;
use sq_ir::Plan;
use sq_leaf::Trap;
use sq_planfile::PlanFile;
use sq_rooms::{Lack, first_lack};
use sq_text::Stop;
use std::alloc::{AllocError, Global};

// Buffers that lack room as a flaw.
fn flaw_of(lack: Option<Lack>) -> Option<Flaw>
    ensures { result ≡ spec.flaw_of lack }
{
    match lack {
        None => None,
        Some(
            Lack {
                node,
                earlier,
                later,
            },
        ) => Some(Flaw::NoRoom {
            node,
            earlier,
            later,
        }),
    }
}

// The first flaw of a plan.
fn first_flaw(alloc: Global, plan: &Plan) -> Result<Option<Flaw>, AllocError>
    requires well_formed { IsWellFormed (leaves_of plan.now.draft) plan.now }
    requires flat { is_flat plan.now.draft.term ≡ true }
    ensures { IfOk result (λ found. IsFirstFlaw (leaves_of plan.now.draft) plan.now found) }
{
    match first_event_flaw(alloc, plan)? {
        Some(flaw) => Ok(Some(flaw)),
        None => {
            let lack = first_lack(alloc, plan)?;
            Ok(flaw_of(lack))
        }
    }
}

// How the checker ends with a flaw.
fn refused(alloc: Global, flaw: Flaw) -> Stop
    ensures { IsRefusedFor flaw result }
{
    match fault_of(alloc, flaw) {
        Ok(fault) => Stop::Refused(fault),
        Err(AllocError) => Stop::NoMemory,
    }
}

/// Ok where the plan of a file that was read has at most 65,536 events, of which no two that aren't ordered depend on one
/// another, and buffers that lie below their nodes' capacities and share no byte with others that live at one time. So
/// every order of its events has one result.
///
/// Refused with the first flaw: `LimitEvents`; `Clash` with the numbers of two events, the later one the least; or `Space`
/// with a node and two buffers, the node the least, then the later buffer.
pub fn check_plan(alloc: Global, file: &PlanFile) -> Result<(), Stop>
    requires well_formed { IsWellFormed (leaves_of file.now.plan.draft) file.now.plan }
    requires flat { is_flat file.now.plan.draft.term ≡ true }
    // Ok exactly where there is no flaw; else the first.
    ensures answers { Answers (FlawFault file.now.plan) result }
    ensures good { OnOk result (IsGood (leaves_of file.now.plan.draft) file.now.plan) }
{
    first_flaws_are_one::<Trap>();
    flawless_plans_are_good::<Trap>();
    match first_flaw(alloc, file.plan()) {
        Ok(None) => Ok(()),
        Ok(Some(flaw)) => Err(refused(alloc, flaw)),
        Err(AllocError) => Err(Stop::NoMemory),
    }
}
