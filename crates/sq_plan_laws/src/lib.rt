//! The placed source on bytes, the plan of a placed source, which follows it, and what room in each state gives.
#![tactic(auto)]

ghost use Rattle.sq_plan_laws.specs.Around.{ScopesOpen};
ghost use Rattle.sq_plan_laws.specs.Entry.{PlansFollow, PlansAreSafe};
ghost use Rattle.sq_plan_laws.specs.Law.{LeavesStayInside, LeavesAreCoded};
ghost use Rattle.sq_plan_laws.specs.Laws.{TreesAreLike};
ghost use Rattle.sq_plan_laws.specs.LeafCalls.{PlansCount};
ghost use Rattle.sq_plan_laws.specs.PlacedEntry.{MeansOnBytes, PlacedFollows, PlacedIsIndependent};
ghost use Rattle.sq_plan_laws.specs.Room.{PlansInside};
ghost use Rattle.sq_plan_laws.specs.Rooms.{RoomIsStowed};

/// A placed source means on bytes what it means on the numbers that they stand for.
pub fn means_on_bytes()
    ensures { MeansOnBytes }
{}

/// Its compiled tree, run leftmost first, ends as the source means.
pub fn placed_follows()
    ensures { PlacedFollows }
{}

/// Its unordered events are independent.
pub fn placed_is_independent()
    ensures { PlacedIsIndependent }
{}

/// A leaf depends on the elements inside its arrays alone.
pub fn leaves_stay_inside()
    ensures { LeavesStayInside }
{}

/// A leaf of a plan does on bytes what it means on numbers.
pub fn leaves_are_coded()
    ensures { LeavesAreCoded }
{}

/// The tree of a placed source is like the tree over cells of its work on bytes.
pub fn trees_are_like()
    ensures { TreesAreLike }
{}

/// The plan of a placed source ends, by its form, as the source means on the numbers in the entry's buffers.
pub fn plans_follow()
    ensures { PlansFollow }
{}

/// Its unordered events are independent, and its events may be performed.
pub fn plans_are_safe()
    ensures { PlansAreSafe }
{}

/// It has one leaf event for each leaf call of the source and no other, with its number and path.
pub fn plans_count()
    ensures { PlansCount }
{}

/// Where its buffers lie inside their nodes, so do the rows and views of its events.
pub fn plans_inside()
    ensures { PlansInside }
{}

/// All scopes round an event are open together in some state.
pub fn scopes_open<Event, Scope>()
    ensures { ScopesOpen Event Scope }
{}

/// The buffers stand as the meaning asks, and lie inside their nodes.
pub fn room_is_stowed()
    ensures { RoomIsStowed }
{}
