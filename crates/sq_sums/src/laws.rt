//! What saves the walk over each iteration, and what sums over events ask of a plan.

ghost use Rattle.sq_sums.specs.Laws.{ClosedPartsStandAlone, WellFormedIsTolled};

/// The scopes of a part that names no loop outside, and what is open in them, are the same under any iterations round
/// it.
pub fn closed_parts_stand_alone()
    ensures { ClosedPartsStandAlone }
{}

/// All that `traffic` and `event_counts` ask holds of a well formed plan.
pub fn well_formed_plans_are_summed<C>()
    ensures { WellFormedIsTolled C }
{}
