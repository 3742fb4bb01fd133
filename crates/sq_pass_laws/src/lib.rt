//! What the passes choose may be chosen: what leaves a loop is the same in all of it, apart from the other arguments, and
//! the loops that were taken may overlap their transfers.
#![tactic(auto)]

ghost use Rattle.sq_pass_laws.specs.HoistLaws.{TablesHaveTimes, ChoicesAreHoisted, HoistedOverlapNothing, ChoicesHold};
ghost use Rattle.sq_pass_laws.specs.PipeLaws.{OverlapsMayBeChosen, OverlapsHold, OverlapsFit};

/// The tables of a program's forms have a row for each time that a statement is begun.
pub fn tables_have_times()
    ensures { TablesHaveTimes }
{}

/// What leaves loops isn't in place, and leaves plain loops that stand round its call, which has one form.
pub fn choices_are_hoisted()
    ensures { ChoicesAreHoisted }
{}

/// No loop overlaps its transfers.
pub fn hoisted_overlap_nothing()
    ensures { HoistedOverlapNothing }
{}

/// It has the same block in all calls that the outermost loop begins which it leaves, apart from other arguments.
pub fn choices_hold()
    ensures { ChoicesHold }
{}

/// A loop that overlaps its transfers is one of a lower call that has one form, alone in it, and nothing in place.
pub fn overlaps_may_be_chosen()
    ensures { OverlapsMayBeChosen }
{}

/// What leaves loops has the same block in all calls of each, beside those that overlap their transfers too.
pub fn overlaps_hold()
    ensures { OverlapsHold }
{}

/// Its arguments have two buffers or leave loops, and what an iteration writes is clear of the next two.
pub fn overlaps_fit()
    ensures { OverlapsFit }
{}
