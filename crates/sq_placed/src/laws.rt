//! What the placed source means.

ghost use Rattle.sq_placed.specs.Laws.{PlacedIsWork};
ghost use Rattle.sq_placed.specs.SameWorks.{SameWorksMean, SameWorksRace};

/// Its places forgotten, what is placed does what the tables of forms do, in all iterations that there are.
pub fn placed_is_work()
    ensures { PlacedIsWork }
{}

/// Works that are the same in all iterations that there are mean the same.
pub fn same_works_mean()
    ensures { SameWorksMean }
{}

/// And where one of them has no races the other has none.
pub fn same_works_race()
    ensures { SameWorksRace }
{}
