//! What the events of a plan touch, event by event.

ghost use Rattle.std.specs.Prelude.{IfOk};
ghost use Rattle.sq_plan_check.specs.Acted.{AllHaveViews, AreActs};

use crate::act::act_in;
use crate::entry::Entry;
use sq_ir::Plan;
use sq_touches::Act;
use sqlite_items::Items;
use std::alloc::{AllocError, Global};

/// What events of a plan touch, one act for each.
pub fn acts_of(alloc: Global, plan: &Plan, entries: &[Entry]) -> Result<Items<Act>, AllocError>
    requires { AllHaveViews entries.now }
    ensures { IfOk result (λ acts. AreActs plan.now entries.now acts) }
{
    let mut acts = Items::new(alloc);
    for entry in entries {
        let act = act_in(alloc, plan, &entry.deed)?;
        acts.push(act)?;
    }
    Ok(acts)
}
