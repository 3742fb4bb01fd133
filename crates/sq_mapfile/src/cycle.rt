//! The first call on a cycle of calls.

ghost use Rattle.std.specs.Prelude.{◌≡◌, OnOk, option_map};
ghost use Rattle.std.specs.Option.{option_copied};
ghost use Rattle.sq_text.specs.First.{HoldsIn};
ghost use Rattle.sq_mapfile.specs.Cycles.{IsOnCycle, calls_among, cycle_at};
ghost use Rattle.sq_mapfile.specs.Walk.{Joins, joined};

use crate::calls::{Call, CallList};
use crate::graph::Graph;
use crate::ranks::Ranked;
use crate::table::InstanceTable;
use sq_text::{Code, FirstFault, Phase};
use std::alloc::{AllocError, Global};

fn note_call(found: &mut FirstFault, call: Option<&Call<'_>>) -> Result<(), AllocError>
    requires { found.old.phase ≡ Phase.Mapping }
    ensures { OnOk result (found.new ≡ joined found.old (option_map cycle_at (option_copied call.entry))) }
{
    match call {
        None => Ok(()),
        Some(call) => {
            found.note_word(Code::Cycle, call.name, true)?;
            Ok(())
        }
    }
}

/// The first call that lies on a cycle of calls.
pub fn note_cycle(
    alloc: Global,
    found: &mut FirstFault,
    table: &InstanceTable<'_>,
) -> Result<(), AllocError>
    requires { found.old.phase ≡ Phase.Mapping }
    ensures { OnOk result (Joins (HoldsIn (IsOnCycle (calls_among table.now.instances.now))
        (calls_among table.now.instances.now)) found.old found.new) }
{
    let list = CallList::new(alloc, table)?;
    let graph = Graph::new(alloc, &list)?;
    let ranked = Ranked::new(alloc, graph)?;
    let call = ranked.first_on_cycle(alloc)?;
    note_call(found, call)?;
    Ok(())
}
