//! The plan of a program's draft is good for the program; and what nodes need: by the forms that run at them, and by
//! the scopes of a draft.
#![tactic(auto)]

ghost use Rattle.sq_plan_good.specs.Good.{DraftsCanBePlaced, WithRoomAreGood, PlacedAreGood, PlacedStandByForms};
ghost use Rattle.sq_plan_good.specs.Listed.{CallsAreListed};
ghost use Rattle.sq_plan_good.specs.Loops.{SumsAreOfLoops};
ghost use Rattle.sq_plan_good.specs.Needed.{NeedsAreSums, SumsAreNeeds, NeedsAreSmall};
ghost use Rattle.sq_plan_good.specs.Room.{SumsFit, LoopsAreBusy, CallsBring, EndsAreTops};
ghost use Rattle.sq_plan_good.specs.Sums.{SumsAreOfCalls};

pub use sq_draft_laws;
use sq_draft_laws::laws::{
    bodies_are_tables, buffers_have_their_levels, chosen_forms_stand, leaves_are_short,
    leaves_of_drafts_stand, placed_is_program, resolved_programs_were_walked,
    terms_are_those_of_entries,
};
use sq_draft_laws::sq_plan_laws::{plans_are_safe, plans_count, plans_inside, room_is_stowed};
pub use sq_draft_laws::sq_program_laws;
use sq_draft_laws::sq_program_laws::{
    calls_are_of_tables, entries_are_plans, entries_follow, entries_sit, plans_are_written,
    programs_fit,
};
use sq_draft_laws::{
    drafts_are_roomy, drafts_are_stacked_by_forms, drafts_are_tabled, drafts_begin_at_root,
    drafts_can_be_placed, drafts_own_their_buffers, entries_are_whole, forms_are_near,
    homes_fit_forms, lanes_are_there, leaves_are_at_levels, memories_are_machines, paths_are_short,
    plans_are_well_formed,
};
use sq_placed::laws::{same_works_mean, same_works_race};
use sq_spec::meaning::{tables_are_free_of_races, tables_mean_the_program};
use sq_store::laws::the_walk_lays_buffers;
use sq_work::laws::race_free_maps_are_serial;

/// What stands within one another at a node of a draft are the buffers of calls within one another, and of the loops
/// round them that overlap their transfers.
pub fn sums_are_of_loops()
    ensures { SumsAreOfLoops }
{}

/// Where no loop does, they are those of calls.
pub fn sums_are_of_calls()
    ensures { SumsAreOfCalls }
{}

/// The calls that a form's tables begin are those that are listed for the nodes at which its callees run.
pub fn calls_are_listed()
    ensures { CallsAreListed }
{}

/// What a node needs by the forms that run at it is what it needs by the scopes of a draft.
pub fn needs_are_sums()
    ensures { NeedsAreSums }
{}

/// What a node needs by the scopes of a draft is what it needs by the forms that run at it.
pub fn sums_are_needs()
    ensures { SumsAreNeeds }
{}

/// No node needs more than 2^48 bytes.
pub fn needs_are_small()
    ensures { NeedsAreSmall }
{}

/// A node has room for what stands there where it has room for each form that runs at it.
pub fn sums_fit()
    ensures { SumsFit }
{}

/// A call brings no more than all buffers of its form.
pub fn calls_bring()
    ensures { CallsBring }
{}

/// Where each form's buffers end, they stand so far at its nodes.
pub fn ends_are_tops()
    ensures { EndsAreTops }
{}

/// Loops that overlap their transfers have iterations for their nodes where their tables say so.
pub fn loops_are_busy()
    ensures { LoopsAreBusy }
{}

/// A draft of a program can be placed.
pub fn placing_succeeds()
    ensures { DraftsCanBePlaced }
{
    resolved_programs_were_walked();
    drafts_can_be_placed();
}

/// Where the program has no race, a plan of such a draft that has room for its live buffers is good for it, wherever
/// they stand.
pub fn plans_with_room_are_good()
    ensures { WithRoomAreGood }
{
    resolved_programs_were_walked();
    drafts_begin_at_root();
    drafts_are_tabled();
    drafts_can_be_placed();
    buffers_have_their_levels();
    bodies_are_tables();
    placed_is_program();
    chosen_forms_stand();
    same_works_mean();
    same_works_race();
    terms_are_those_of_entries();
    homes_fit_forms();
    entries_are_whole();
    drafts_are_roomy();
    drafts_own_their_buffers();
    memories_are_machines();
    lanes_are_there();
    leaves_of_drafts_stand();
    leaves_are_short();
    programs_fit();
    entries_sit();
    entries_are_plans();
    entries_follow();
    calls_are_of_tables();
    plans_are_written();
    room_is_stowed();
    plans_are_safe();
    plans_inside();
    plans_count();
    forms_are_near();
    paths_are_short();
    plans_are_well_formed();
    leaves_are_at_levels();
    race_free_maps_are_serial();
    tables_mean_the_program();
    tables_are_free_of_races();
}

/// So the one whose buffers are stacked is.
pub fn placed_plans_are_good()
    ensures { PlacedAreGood }
{
    plans_with_room_are_good();
    the_walk_lays_buffers();
}

/// Its buffers stand by forms: at each level those of the form that is called behind those of the forms round it.
pub fn placed_plans_stand_by_forms()
    ensures { PlacedStandByForms }
{
    resolved_programs_were_walked();
    drafts_are_stacked_by_forms();
    the_walk_lays_buffers();
}
