//! What the plan of a program does on a bank is what the program means on arrays.
#![tactic(auto)]

ghost use Rattle.sq_meant.specs.Laws.{PlacesFit, BanksHavePlaces, InputsAreHeld, RunsEndAsMeant};
ghost use Rattle.sq_meant.specs.Traffic.{RunsCarryTheTraffic};

use sq_ir::laws::good_plans_have_one_result;
use sq_leaf::Trap;
use sq_plan_good::sq_draft_laws::laws::resolved_programs_were_walked;
use sq_plan_good::sq_draft_laws::{drafts_own_their_buffers, entries_are_whole};
use sq_tree::laws::runs_carry_what_the_plan_does;

/// The plan of a program has a place in the root for each of the entry's arrays, and no two share a byte.
pub fn places_fit()
    ensures plan { PlacesFit }
    ensures bank { BanksHavePlaces }
{
    resolved_programs_were_walked();
    entries_are_whole();
    drafts_own_their_buffers();
}

/// Arrays that the root holds at their places are what a run begins with.
pub fn inputs_are_held()
    ensures { InputsAreHeld }
{
    resolved_programs_were_walked();
}

/// Whatever the order, a run of a good plan that is done has left in the root the arrays that the program means, at
/// their places; and one that trapped tells the program's first trap, with its path.
pub fn runs_end_as_meant()
    ensures { RunsEndAsMeant }
{
    resolved_programs_were_walked();
    entries_are_whole();
    drafts_own_their_buffers();
    good_plans_have_one_result::<Trap>();
}

/// A run that is done has carried over each edge, and performed of each kind of event, what the sums over its plan say.
pub fn runs_carry_the_traffic()
    ensures { RunsCarryTheTraffic }
{
    runs_carry_what_the_plan_does();
}
