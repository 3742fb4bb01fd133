//! What holds of plans in which no flaw is found, and of what the checker goes by.

ghost use Rattle.sq_check_laws.specs.Orders.{UnorderedAreInverted, ClashesAreListed};
ghost use Rattle.sq_check_laws.specs.PlanLaws.{TreesAreTrimmed, TreesAreFresh, FlawlessAreGood};
ghost use Rattle.sq_check_laws.specs.PlanLaws.{FirstFlawsAreOne, IndependentByTouches};

/// The tree of a plan is its whole tree without the empty parts.
pub fn trees_are_trimmed()
    ensures trimmed { TreesAreTrimmed }
    ensures fresh { TreesAreFresh }
{}

/// A well formed plan in which no events clash and all buffers have room is good.
pub fn flawless_plans_are_good<Cause>()
    ensures { FlawlessAreGood Cause }
{}

/// A plan has one first flaw, or none.
pub fn first_flaws_are_one<Cause>()
    ensures { FirstFlawsAreOne Cause }
{}

/// Events are independent exactly where they get along at each byte that both touch, and no two leaf calls have one
/// path.
pub fn touches_tell_independence<Cause>()
    ensures { IndependentByTouches Cause }
{}

/// Two events are unordered exactly where the second order has them the other way round, so that events clash exactly
/// where they do in the list of events with their second numbers.
pub fn two_orders_tell_clashes<Event, Scope, Cause>()
    ensures inverted { UnorderedAreInverted Event Scope }
    ensures listed { ClashesAreListed Cause }
{}
