//! The phase of plan files of `exec`: the plan that a file says, with its arrays.
ghost use Rattle.std.specs.Prelude.{◌≡◌, IfOk};
ghost use Rattle.sq_driver.specs.Chosen.{ReadsFile};
ghost use Rattle.sq_driver.specs.Ends.{ending, FileCauses};
ghost use Rattle.sq_driver.specs.Running.{MayRun};
ghost use Rattle.sq_driver.specs.Steps.{ReadsFitting};

use crate::outside::end::End;
use crate::phases::tree::too_long;
use sq_checker::read_checked;
use sq_launch::laws::sound_files_have_room;
use sq_planfile::PlanFile;
use sq_port::{Bytes, Files, ReadEnd, read_whole};
use sq_text::limits::PLAN_BYTES;
use sq_text::{Phase, Stop};
use std::alloc::Global;

/// Reads a plan file, and checks its plan.
pub fn read_file<'a, F: Files>(
    alloc: Global,
    files: &mut F,
    name: &'a str,
) -> Result<PlanFile, End<'a>>
    ensures content { F.content files.new ≡ F.content files.old }
    ensures told { ReadsFile (F.content files.old) name.now result }
    ensures may { IfOk result (λ file. MayRun file) }
    ensures cause { FileCauses (F.faults files.old) (F.faults files.new) (F.misses files.old) (F.misses files.new)
        (ending result) }
{
    sound_files_have_room();
    let text = match read_text(alloc, files, name) {
        Ok(text) => text,
        Err(end) => return Err(end),
    };
    match read_checked(alloc, text.as_slice()) {
        Ok(file) => Ok(file),
        Err(Stop::Refused(fault)) => Err(End::Refused(fault)),
        Err(Stop::NoMemory) => Err(End::NoMemory),
    }
}

// The text of a plan file, where it isn't too long.
fn read_text<'a, F: Files>(alloc: Global, files: &mut F, name: &'a str) -> Result<Bytes, End<'a>>
    ensures content { F.content files.new ≡ F.content files.old }
    ensures told { ReadsFitting Phase.Plan (F.content files.old) name.now result }
    ensures cause { FileCauses (F.faults files.old) (F.faults files.new) (F.misses files.old) (F.misses files.new)
        (ending result) }
{
    match read_whole(alloc, files, name, PLAN_BYTES as u64) {
        Ok(text) => Ok(text),
        Err(ReadEnd::Failed) => Err(End::FileFault(name)),
        Err(ReadEnd::Absent) => Err(End::Absent(name)),
        Err(ReadEnd::TooLong) => Err(End::Refused(too_long(alloc, Phase::Plan))),
        Err(ReadEnd::NoMemory) => Err(End::NoMemory),
    }
}
