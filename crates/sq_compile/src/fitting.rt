//! Room for loops that overlap their transfers.

ghost use Rattle.sq_compile.specs.Room.{OverlapsHaveRoom};

use sq_pass_laws::{choices_are_hoisted, hoisted_overlap_nothing, overlaps_may_be_chosen};
use sq_plan_good::sq_draft_laws::laws::{bodies_are_tables, none_overlaps};
use sq_plan_good::{calls_are_listed, ends_are_tops, loops_are_busy, sums_fit};
use sq_spec::callers_come_first;
use sq_spec_laws::laws::needs_are_sound;

/// Where loops were taken all nodes have room, with their transfers overlapping and without.
pub(crate) fn overlaps_have_room()
    ensures { OverlapsHaveRoom }
{
    callers_come_first();
    needs_are_sound();
    bodies_are_tables();
    none_overlaps();
    choices_are_hoisted();
    hoisted_overlap_nothing();
    overlaps_may_be_chosen();
    calls_are_listed();
    ends_are_tops();
    loops_are_busy();
    sums_fit();
}
