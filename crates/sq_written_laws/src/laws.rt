//! What holds of the plan of the lines that a file is written out as.

ghost use Rattle.sq_written_laws.specs.Alike.{AlikeRunAlike};
ghost use Rattle.sq_written_laws.specs.Again.{WrittenAreSame, WrittenRunSo, WrittenAreSound};
ghost use Rattle.sq_written_laws.specs.Again.{WrittenAreGood};
ghost use Rattle.sq_written_laws.specs.Moved.{MovedEndAlike};
ghost use Rattle.sq_written_laws.specs.Places.{LeavesMeanTheSame};

/// Trees that are the same but for how their parts are grouped have the same events ready after the same turns, and the
/// same scopes open.
pub fn alike_trees_run_alike<Event, Scope>()
    ensures { AlikeRunAlike Event Scope }
{}

/// What a file is written out as stands for its plan, but for how the events are grouped, and runs as the plan does.
pub fn written_plans_are_the_same()
    ensures same { WrittenAreSame }
    ensures runs { WrittenRunSo }
{}

/// Where the lines of its leaves, buffers and arrays are sound, so are those of its events; and its plan is good again.
pub fn written_plans_stay_good()
    ensures sound { WrittenAreSound }
    ensures good { WrittenAreGood }
{}

/// What a leaf means doesn't depend on the places of its text, but for the place of a trap.
pub fn leaves_mean_the_same()
    ensures { LeavesMeanTheSame }
{}

/// So a run of a plan whose leaves' texts stand elsewhere ends alike, whatever its events.
pub fn moved_leaves_end_alike()
    ensures { MovedEndAlike }
{}
