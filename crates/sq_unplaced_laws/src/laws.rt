//! What holds of lines that differ in their places alone.

ghost use Rattle.sq_unplaced_laws.specs.Laws.{SameAreSound, SameAreMoved, MovedAreGood};

/// Whether lines are sound doesn't depend on their places.
pub fn same_lines_are_sound()
    ensures { SameAreSound }
{}

/// They stand for one plan, but for the places of its leaves' texts, and whether it is good doesn't depend on these.
pub fn same_lines_are_one_plan()
    ensures moved { SameAreMoved }
    ensures good { MovedAreGood }
{}
