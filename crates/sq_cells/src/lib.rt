//! The compiled tree of a work: its meaning and its independence; and trees of plans that do what such trees do.
#![tactic(auto)]

ghost use Rattle.sq_cells.specs.Correct.{LoweredFollows, LoweredIndependent};
ghost use Rattle.sq_cells.specs.Fits.{LoweredFit};
ghost use Rattle.sq_cells.specs.Laws.{AlikeEndAlike, AlikeCountAlike, AlikeAreSafe};
ghost use Rattle.sq_cells.specs.Leaves.{LeavesAreCalls, LeavesPlaced, LeafPathsApart};

/// The compiled tree, run leftmost first, means what the source means.
pub fn lowered_follows()
    ensures { LoweredFollows }
{}

/// Its unordered events are independent.
pub fn lowered_independent()
    ensures { LoweredIndependent }
{}

/// It has one leaf event for each leaf call of the source and no other, with the call's path.
pub fn leaves_are_calls()
    ensures { LeavesAreCalls }
{}

/// Each leaf event stands at the node of such a call, with all of its arrays.
pub fn leaves_placed()
    ensures { LeavesPlaced }
{}

/// Its unordered leaf events have different paths.
pub fn leaf_paths_apart()
    ensures { LeafPathsApart }
{}

/// Its events may be performed row by row.
pub fn lowered_fit()
    ensures { LoweredFit }
{}

/// A tree of a plan that is like a tree over cells ends as that does.
pub fn alike_trees_end_alike()
    ensures { AlikeEndAlike }
{}

/// It has as many leaf events of each number and path.
pub fn alike_trees_count_alike()
    ensures { AlikeCountAlike }
{}

/// Where that tree's unordered events are independent, so are those of the plan, and its events may be performed.
pub fn alike_trees_are_safe()
    ensures { AlikeAreSafe }
{}
