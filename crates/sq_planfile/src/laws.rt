//! What follows of the definitions of plan files.

ghost use Rattle.sq_text.specs.declared.fault.Fault.{Fault};
ghost use Rattle.sq_ir.specs.DraftLeaves.{leaves_of};
ghost use Rattle.sq_ir.specs.Plans.{IsWellFormed};
ghost use Rattle.sq_plantext.specs.declared.text.PlanText.{PlanText};
ghost use Rattle.sq_planfile.specs.File.{PlanFile};
ghost use Rattle.sq_planfile.specs.Files.{draft_of, plan_of};
ghost use Rattle.sq_planfile.specs.Sound.{IsSound};
ghost use Rattle.sq_planfile.specs.Faults.{LineFault};
ghost use Rattle.sq_planfile.specs.Joined.{ReadsBack, StaysWritten};

/// The plan of sound lines is well formed, and sound lines have no fault.
pub fn sound_lines_are_plans()
    ensures well_formed { (x : PlanText) → IsSound x → IsWellFormed (leaves_of (draft_of x)) (plan_of x) }
    ensures faultless { (x : PlanText) (f : Fault) → IsSound x → LineFault x f → ⊥ }
{}

/// A file that was read is written out as its lines were, joined and without places; and what any file is written out
/// as stays when it is read and written out again.
#[tactic(auto, using(crate::proofs::Again::reads_back, crate::proofs::Stays::written_again))]
pub fn files_are_written_as_they_were_read()
    ensures back { (x : PlanText) → ReadsBack x }
    ensures stays { (f : PlanFile) → StaysWritten f }
{}
