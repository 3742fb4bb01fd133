//! The events of a whole plan.

ghost use Rattle.std.specs.Prelude.{◌≡◌, [], IfOk};
ghost use Rattle.sq_ir.specs.Events.{Leaves};
ghost use Rattle.sq_ir.specs.Plans.{IsWellFormed};
ghost use Rattle.sq_ir.specs.Tree.{waiting};
ghost use Rattle.sq_sched.specs.Words.{fans_of};
ghost use Rattle.sq_sched.specs.Shapes.{written};
ghost use Rattle.sq_sched.specs.Forms.{plan_form};
ghost use Rattle.sq_plan_check.specs.Walked.{few, numbered, seen_entries};
ghost use Rattle.sq_plan_check.specs.Entered.{AreOfPlan};

use crate::count::count;
use crate::entry::Entries;
use crate::walk::walk;
use sq_ir::Plan;
use sq_sched::{Chain, Env, fans_of};
use sqlite_items::Items;
use std::alloc::{AllocError, Global};

// How many events a plan has, if they aren't too many.
fn count_plan(plan: &Plan, fans: &[u32]) -> Option<u32>
    requires { fans.now ≡ fans_of plan.now.nodes }
    ensures { result ≡ few (waiting (written (plan_form plan.now))) }
{
    let top = Chain::Root;
    let nodes = Chain::Link(0, &top);
    let env = Env {
        plan,
        turns: &top,
        nodes: &nodes,
        fans,
    };
    count(&plan.draft.term, &env)
}

// The events of a plan.
fn walk_plan(alloc: Global, plan: &Plan, fans: &[u32]) -> Result<Entries, AllocError>
    requires { fans.now ≡ fans_of plan.now.nodes }
    ensures { IfOk result (λ entries. seen_entries entries ≡ numbered 0 (written (plan_form plan.now))) }
{
    let top = Chain::Root;
    let nodes = Chain::Link(0, &top);
    let env = Env {
        plan,
        turns: &top,
        nodes: &nodes,
        fans,
    };
    let mut entries = Items::new(alloc);
    walk(alloc, &plan.draft.term, &env, 0, &mut entries)?;
    Ok(entries)
}

/// The events of a plan from left to right, each with its number in the second order; none where the plan has more than
/// 65,536 of them.
pub fn entries_of<C>(alloc: Global, plan: &Plan) -> Result<Option<Entries>, AllocError>
    requires { (leaves : Leaves C) × IsWellFormed leaves plan.now }
    ensures { IfOk result (λ found. AreOfPlan plan.now found) }
{
    let fans = fans_of(plan.nodes.as_slice(), alloc)?;
    let fans = fans.as_slice();
    match count_plan(plan, fans) {
        None => Ok(None),
        Some(_) => {
            let entries = walk_plan(alloc, plan, fans)?;
            Ok(Some(entries))
        }
    }
}
