//! Plan files that are read and checked.

ghost use Rattle.std.specs.Prelude.{◌≡◌, IfOk};
ghost use Rattle.sq_text.specs.Answers.{Answers};
ghost use Rattle.sq_planfile.specs.File.{PlanFile as File};
ghost use Rattle.sq_planfile.specs.Faults.{Means};
ghost use Rattle.sq_checker.specs.Laws.{FileFault, IsChecked};

use crate::check::check_plan;
use sq_planfile::PlanFile;
use sq_planfile::laws::sound_lines_are_plans;
use sq_planload::read_plan;
use sq_text::Stop;
use std::alloc::Global;

/// The plan file that a text stands for, where every order of its plan's events has one result; or its first fault.
pub fn read_checked(alloc: Global, text: &[u8]) -> Result<PlanFile, Stop>
    // Ok exactly where no fault holds; else the first one.
    ensures answers { Answers (FileFault text.now) result }
    ensures found { IfOk result (λ f. IsChecked text.now f) }
    // A text stands for one file at most.
    ensures only { (f : File) → Means text.now f → IfOk result (λ g. g ≡ f) }
{
    sound_lines_are_plans();
    let file = match read_plan(alloc, text) {
        Ok(file) => file,
        Err(stop) => return Err(stop),
    };
    match check_plan(alloc, &file) {
        Ok(()) => Ok(file),
        Err(stop) => Err(stop),
    }
}
