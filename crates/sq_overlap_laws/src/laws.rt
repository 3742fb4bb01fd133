//! What is true of marks, of room, and of the loops that are taken.

ghost use Rattle.sq_overlap_laws.specs.Marks.{FormsAreCalled, FormsRunSomewhere, MarksAreRuns};
ghost use Rattle.sq_overlap_laws.specs.Marks.{RoomIsLeast, ChildrenAreMost};
ghost use Rattle.sq_overlap_laws.specs.Plans.{SumsAreTakenNeeds};
ghost use Rattle.sq_overlap_laws.specs.Taken.{TakenNeedIsOne, TakenExactly, LoopsAreTakenInTurn, TakenAreOne};

/// Each form but the entry is called, and so each runs at some node.
pub fn forms_run()
    ensures called { FormsAreCalled }
    ensures run { FormsRunSomewhere }
{}

/// Forms are marked just at the nodes at which they run; and their room, and how many children these have, is theirs.
pub fn marks_are_runs()
    ensures marks { MarksAreRuns }
    ensures room { RoomIsLeast }
    ensures children { ChildrenAreMost }
{}

/// There is room for loops exactly where no node needs more than it has, its forms' buffers doubled where loops are
/// taken.
pub fn room_is_exact()
    ensures one { TakenNeedIsOne }
    ensures exact { TakenExactly }
{}

/// A loop is taken exactly where there is room for it and those before it.
pub fn loops_are_taken_in_turn()
    ensures turn { LoopsAreTakenInTurn }
    ensures one { TakenAreOne }
{}

/// What the nodes need for the program's draft is just that: no loop was taken without room, and none has more than it
/// needs.
pub fn sums_are_taken_needs()
    ensures { SumsAreTakenNeeds }
{}
