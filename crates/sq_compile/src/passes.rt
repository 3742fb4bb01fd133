//! Compiling: what is chosen, the draft under it, and then the places of buffers.

ghost use Rattle.std.specs.Prelude.{◌≡◌, IfOk, IfErr};
ghost use Rattle.sq_machfile.specs.Machines.{WithinLimits};
ghost use Rattle.sq_pass_laws.specs.Pipe.Greedy.{overlapped};
ghost use Rattle.sq_pass_laws.specs.Pipe.Notes.{notes_of};
ghost use Rattle.sq_plan_good.specs.Homes.Drafts.{IsDraftOf};
ghost use Rattle.sq_plan_good.specs.DraftLaws.Choosing.{AreMemories};
ghost use Rattle.sq_plan_good.specs.Good.{HasNoRace};
ghost use Rattle.sq_plan_good.specs.Planned.{memories_of, IsPlacedFor};
ghost use Rattle.sq_compile.specs.Capacity.{NoneLacks};
ghost use Rattle.sq_compile.specs.Compiled.{IsPlanOf, IsRefusedFor};

use crate::fitting::overlaps_have_room;
use crate::memories::plan_nodes;
use sq_ir::{Draft, Plan, PlanNodes};
use sq_pass_laws::{
    choices_are_hoisted, hoisted_overlap_nothing, overlaps_fit, overlaps_hold,
    overlaps_may_be_chosen,
};
use sq_passes::{draft_of, overlapped};
use sq_plan_good::sq_draft_laws::laws::resolved_programs_were_walked;
use sq_plan_good::{
    needs_are_small, needs_are_sums, placed_plans_are_good, placed_plans_stand_by_forms,
    placing_succeeds, sums_are_needs,
};
use sq_spec::Resolved;
use sq_store::{StoreFault, place};
use std::alloc::{AllocError, Global};

// The draft under what all passes choose: the one that is built.
fn passed(alloc: Global, r: &Resolved<'_>) -> Result<Draft, AllocError>
    ensures its { IfOk result (λ d. IsDraftOf r.now (overlapped r.now) d) }
    ensures notes { IfOk result (λ d. d.notes ≡ notes_of r.now) }
{
    let chosen = overlapped(alloc, r)?;
    let made = draft_of(alloc, r, chosen)?;
    Ok(made)
}

// The memories of the program's machine.
fn memories(alloc: Global, r: &Resolved<'_>) -> Result<PlanNodes, AllocError>
    ensures nodes { IfOk result (λ nodes. nodes ≡ memories_of r.now) }
    ensures memories { IfOk result (λ nodes. AreMemories r.now.machine.now.levels nodes) }
    ensures limits { WithinLimits r.now.machine.now }
{
    plan_nodes(alloc, r.machine())
}

// The program's draft in these memories.
fn placed(
    alloc: Global,
    r: &Resolved<'_>,
    draft: Draft,
    nodes: PlanNodes,
) -> Result<Plan, StoreFault>
    requires its { IsDraftOf r.now (overlapped r.now) draft }
    requires notes { draft.notes ≡ notes_of r.now }
    requires nodes { nodes ≡ memories_of r.now }
    requires memories { AreMemories r.now.machine.now.levels nodes }
    requires limits { WithinLimits r.now.machine.now }
    ensures good { IfOk result (λ p. HasNoRace r.now → IsPlanOf r.now p) }
    ensures placed { IfOk result (λ p. IsPlacedFor r.now p) }
    ensures fits { IfOk result (λ p. NoneLacks r.now) }
    ensures over { IfErr result (λ fault. IsRefusedFor r.now fault) }
{
    resolved_programs_were_walked();
    choices_are_hoisted();
    hoisted_overlap_nothing();
    overlaps_may_be_chosen();
    overlaps_hold();
    overlaps_fit();
    overlaps_have_room();
    placing_succeeds();
    placed_plans_are_good();
    placed_plans_stand_by_forms();
    needs_are_sums();
    sums_are_needs();
    needs_are_small();
    place(alloc, draft, nodes)
}

/// The plan of a program on its machine: the draft under what all passes choose, with its notes, in the machine's
/// memories, its buffers stacked. Without a race it is good for the program: well formed, with unordered events
/// independent, room for its live buffers in each state, a run under picks 0 that ends from every input as the program
/// means, and one leaf call for each of the program's. Refused exactly where the forms that run at a node need more bytes
/// there than it has.
pub fn compile(alloc: Global, r: &Resolved<'_>) -> Result<Plan, StoreFault>
    ensures good { IfOk result (λ p. HasNoRace r.now → IsPlanOf r.now p) }
    ensures placed { IfOk result (λ p. IsPlacedFor r.now p) }
    ensures fits { IfOk result (λ p. NoneLacks r.now) }
    ensures over { IfErr result (λ fault. IsRefusedFor r.now fault) }
{
    match memories(alloc, r) {
        Err(_) => Err(StoreFault::NoMemory),
        Ok(nodes) => match passed(alloc, r) {
            Err(_) => Err(StoreFault::NoMemory),
            Ok(draft) => placed(alloc, r, draft, nodes),
        },
    }
}
