//! The phase cost: what the words' file says that events weigh.
ghost use Rattle.std.specs.Prelude.{◌≡◌};
ghost use Rattle.sq_driver.specs.Chosen.{ReadsCosts};
ghost use Rattle.sq_driver.specs.Ends.{ending, FileCauses};

use crate::outside::end::End;
use crate::phases::sources::read_fitting;
use sq_costs::{Costs, read_cost};
use sq_machfile::Machine;
use sq_port::Files;
use sq_text::{Phase, Stop};
use std::alloc::Global;

/// Reads the costs of the machine's levels.
pub fn read_costs<'a, F: Files>(
    alloc: Global,
    files: &mut F,
    name: &'a str,
    machine: &Machine,
) -> Result<Costs, End<'a>>
    ensures content { F.content files.new ≡ F.content files.old }
    ensures told { ReadsCosts machine.now.levels (F.content files.old) name.now result }
    ensures cause { FileCauses (F.faults files.old) (F.faults files.new) (F.misses files.old) (F.misses files.new)
        (ending result) }
{
    let text = match read_fitting(alloc, files, name, Phase::Cost) {
        Ok(text) => text,
        Err(end) => return Err(end),
    };
    match read_cost(alloc, text.as_slice(), machine) {
        Ok(costs) => Ok(costs),
        Err(Stop::Refused(fault)) => Err(End::Refused(fault)),
        Err(Stop::NoMemory) => Err(End::NoMemory),
    }
}
