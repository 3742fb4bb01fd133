//! What holds of the runs of a plan under every order of picks, and which small plans are good.

ghost use Rattle.sq_ir.specs.Tree.{Tree, IsNormal};
ghost use Rattle.sq_ir.specs.Unordered.{IsFresh};
ghost use Rattle.sq_ir.specs.Closed.{AreReached};
ghost use Rattle.sq_ir.specs.Ready.{AreNumbered};
ghost use Rattle.sq_ir.specs.Events.{Leaves};
ghost use Rattle.sq_ir.specs.LeafRuns.{RunsAreEvents, RunsKeepOthers, CallsCanBeRun};
ghost use Rattle.sq_ir.specs.NumberLaws.{LiftedHaveValues, DependOnLoops, KeepInScopes, IgnoreOffsets};
ghost use Rattle.sq_ir.specs.RunSteps.{FinishOne, TrapOne, WaitLess, GrowAtTheEnd, PerformAll};
ghost use Rattle.sq_ir.specs.StateLaws.{HoldsWhereOpen, HaveRoomWhereOpen, UnorderedByForm, IndependentByForm};
ghost use Rattle.sq_ir.specs.Plans.{IsGood};
ghost use Rattle.sq_ir.specs.Examples.{doubling, CallsALeaf, OnlyClashes, OnlyTooLong, OnlyOverlaps, OnlyDivides};
ghost use Rattle.sq_ir.specs.Orders.{EndsByForm, EndsAsFirst, EachOnce, HasFirst, HoldsInRuns, ApartCommute};
ghost use Rattle.sq_ir.specs.EventOrders.{AreLocal, AreReorderable, EndAlike};
ghost use Rattle.sq_ir.specs.PlanLaws.{HaveOneResult, EndByForm, HaveRuns, PerformOnce, StayInside, KeepRoom};
ghost use Rattle.sq_ir.specs.PlanLaws.{HaveRoomAlways};

/// The events of a tree that have a number are those that wait while no event that isn't finished is before them; each
/// has one number, and they are numbered from left to right.
pub fn ready_events_are_numbered<Event, Scope>()
    ensures { (t : Tree Event Scope) → AreNumbered t }
{}

/// Whichever events of a plan are finished, if with each of them those before it are: some turns lead there, in each of
/// which a ready event finishes. So what is asked of every state that turns reach is asked of all these.
pub fn closed_sets_are_reached<Event, Scope>()
    ensures { (t : Tree Event Scope) → IsNormal t → IsFresh t → AreReached t }
{}

/// Of a plan whose unordered events may be performed in either order, each run that is over ends with the trap of the
/// run under picks 0, or with none and then with the same bytes. There is such a run, and no run performs an event
/// twice. Events, scopes, addresses and causes of traps are of any types, and events have any meaning that keeps to
/// their footprints.
pub fn every_order_ends_as_the_first<Event, Scope, Address, Cause>()
    ensures by_form { EndsByForm Event Scope Address Cause }
    ensures as_first { EndsAsFirst Event Scope Address Cause }
    ensures once { EachOnce Event Scope Address Cause }
    ensures first { HasFirst Event Scope Address Cause }
    ensures states { HoldsInRuns Event Scope Address Cause }
    ensures apart { ApartCommute Event Address Cause }
{}

/// The events of plans keep to their footprints, whatever the leaves do. Where any two unordered events of a plan are
/// independent they may be performed in either order, so all of its runs have one result.
pub fn independent_events_have_one_result<Cause>()
    ensures local { AreLocal Cause }
    ensures reorderable { AreReorderable Cause }
    ensures result { EndAlike Cause }
{}

/// Each run of a good plan ends with the trap of the run under picks 0, or with none and then with the same bytes in
/// every node, whatever the leaves do; there is such a run, and no event is performed twice. In every state of a run
/// each event lies inside its nodes, and the live buffers of one node lie below its capacity and share no byte.
pub fn good_plans_have_one_result<Cause>()
    ensures result { HaveOneResult Cause }
    ensures by_form { EndByForm Cause }
    ensures runs { HaveRuns Cause }
    ensures once { PerformOnce Cause }
    ensures inside { StayInside Cause }
    ensures room { KeepRoom Cause }
    ensures states { HaveRoomAlways Cause }
{}

/// A plan for two children is good, and so is one that calls a leaf. Four plans differ from the first in one thing, and
/// each breaks one part of being good and keeps the others: two events clash, a buffer passes its node's capacity, two
/// live buffers share bytes, a number has no value.
pub fn each_part_of_good_is_asked<Cause>()
    ensures good { (leaves : Leaves Cause) → IsGood leaves doubling }
    ensures leaf { CallsALeaf Cause }
    ensures clash { OnlyClashes Cause }
    ensures capacity { OnlyTooLong Cause }
    ensures overlap { OnlyOverlaps Cause }
    ensures value { OnlyDivides Cause }
{}

/// A number that is lifted by one loop has under that loop the value that it had outside; it has one, and is a count,
/// where it had one and was a count.
pub fn lifted_numbers_keep_their_values()
    ensures { LiftedHaveValues }
{}

/// A number has one value wherever the same loops stand round it. Where it names the children of the node in force,
/// this
/// node has to have as many; a number that doesn't keeps its value in the body of a scope. Offsets of buffers change no
/// number.
pub fn numbers_depend_on_loops()
    ensures loops { DependOnLoops }
    ensures scopes { KeepInScopes }
    ensures offsets { IgnoreOffsets }
{}

/// A leaf call of a well formed plan names a leaf of its draft, whose code can run over the node's bytes; and what that
/// run does to them is what the event does. Whether it traps or not, it changes no byte outside the views that it
/// writes.
pub fn runs_of_leaves_are_their_events()
    ensures can { CallsCanBeRun }
    ensures alike { RunsAreEvents }
    ensures others { RunsKeepOthers }
{}

/// A ready event that is finished is left out of the plan, and nothing else; one that has trapped stays stuck, and all
/// else stays as it was.
pub fn an_event_ends_alone<Event, Scope>()
    ensures finishes { FinishOne Event Scope }
    ensures traps { TrapOne Event Scope }
{}

/// A run may go on by one event at its end, and after each event one event less waits. A run that is over without a
/// trap
/// has performed all events, each once.
pub fn runs_go_on<Event, Scope, Address, Cause>()
    ensures end { GrowAtTheEnd Event Scope Address Cause }
    ensures less { WaitLess Event Scope }
    ensures all { PerformAll Event Scope Address Cause }
{}

/// What holds of all scopes that may be open together, by the form of a plan, holds in each of its states; and what is
/// asked of unordered events by their places may be asked by the form of the plan.
pub fn states_are_shown_by_form<Event, Scope, Cause>()
    ensures opened { HoldsWhereOpen Event Scope }
    ensures room { HaveRoomWhereOpen }
    ensures unordered { UnorderedByForm Event Scope }
    ensures independent { IndependentByForm Cause }
{}
