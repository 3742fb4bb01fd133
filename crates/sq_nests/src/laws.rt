//! What nested sums are, and what stacked buffers give.

ghost use Rattle.sq_nests.specs.Laws.{SumIsExact, NeedIsSum, ScopesAreAside};
ghost use Rattle.sq_nests.specs.Doubled.{TwinsWeighTwice, SecondLiesBehind, ScopeLeavesLoop};
ghost use Rattle.sq_nests.specs.Drafts.{LaidHaveRoom};

/// No chain of scopes at a node is greater than the node's sum, and one is as great. Scopes of the tree of events that
/// stand within one another are scopes of the term written out.
pub fn sums_are_exact()
    ensures exact { SumIsExact }
    ensures need { NeedIsSum }
{}

/// Where buffers are laid one behind the other, those of inner scopes behind those of the scopes round them, they have
/// room in each state, if no node's sum exceeds its capacity.
pub fn laid_buffers_have_room()
    ensures { LaidHaveRoom }
{}

/// Scopes at different children of one node never have one node.
pub fn children_are_aside()
    ensures { ScopesAreAside }
{}

/// Of a scope with two sets of buffers for the same arrays both sets count in a node's sum, and the first alone in the
/// need that is reported; the second lies behind the first. A scope that leaves a loop needs no more.
pub fn two_sets_stand_behind_one_another()
    ensures weigh { TwinsWeighTwice }
    ensures lie { SecondLiesBehind }
    ensures leave { ScopeLeavesLoop }
{}
