//! What is true of the nodes that need more than they have, and of what the passes give.

ghost use Rattle.sq_compile.specs.Capacity.{LacksAreOne, FirstLacksAreOne, FirstLackIsOne};
ghost use Rattle.sq_compile.specs.Compiled.{PlansAreOne};
ghost use Rattle.sq_compile.specs.Passes.{EachPassIsGood};

use sq_pass_laws::{
    choices_are_hoisted, choices_hold, hoisted_overlap_nothing, overlaps_fit, overlaps_hold,
    overlaps_may_be_chosen,
};
use sq_plan_good::plans_with_room_are_good;
use sq_plan_good::sq_draft_laws::laws::resolved_programs_were_walked;
use sq_plan_good::sq_program_laws::{unheld_fits, unpiped_fits};

/// Only the program, the mapping, the machine and the forms matter; and of them one node is told, with one need.
pub fn lacks_are_one()
    ensures lacks { LacksAreOne }
    ensures firsts { FirstLacksAreOne }
    ensures one { FirstLackIsOne }
{}

/// Only the program, the mapping, the machine and the forms matter, and of them the plan is one.
pub fn plans_are_one()
    ensures { PlansAreOne }
{}

/// A plan of the draft of any pass that has room for its live buffers in each state is good for the program.
pub fn each_pass_is_good()
    ensures { EachPassIsGood }
{
    resolved_programs_were_walked();
    unheld_fits();
    unpiped_fits();
    choices_are_hoisted();
    choices_hold();
    hoisted_overlap_nothing();
    overlaps_may_be_chosen();
    overlaps_hold();
    overlaps_fit();
    plans_with_room_are_good();
}
