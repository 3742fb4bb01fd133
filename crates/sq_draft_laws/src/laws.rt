//! What is true of resolved programs and of their drafts, their homes and buffers.

ghost use Rattle.sq_draft_laws.specs.Choosing.{ChosenStand, NonePipes};
ghost use Rattle.sq_draft_laws.specs.Given.{FormsStand, ProgramsDescend, HomesAreLeveled};
ghost use Rattle.sq_draft_laws.specs.Leaves.{LeavesOfDraftsStand};
ghost use Rattle.sq_draft_laws.specs.Memories.{NodesAreMemories};
ghost use Rattle.sq_draft_laws.specs.Opened.{WalkedIsThere};
ghost use Rattle.sq_draft_laws.specs.Programs.{BodiesAreTables, PlacedIsProgram, TermIsEntrys};
ghost use Rattle.sq_draft_laws.specs.Short.{LeavesAreShort};

use sq_form_laws::laws::forms_are_those_found;
use sq_leaf::laws::{arrays_in_line_can_be_run_over, leaf_variants_may_be_compiled};
use sq_placed::laws::placed_is_work;
use sq_spec::laws::entry_is_first;

/// The buffers of a form stand one behind the other in the list of buffers, and its homes name them.
pub fn forms_have_their_buffers()
    ensures { FormsStand }
{}

/// The calls of each form go to its own level or the next one, as they say.
pub fn calls_descend()
    ensures { ProgramsDescend }
{
    forms_are_those_found();
}

/// Each buffer has the level of its form, and so have its calls.
pub fn buffers_have_their_levels()
    ensures { HomesAreLeveled }
{
    calls_descend();
}

/// The bodies that a draft is made of are those of the program's forms.
pub fn bodies_are_tables()
    ensures { BodiesAreTables }
{
    forms_are_those_found();
}

/// What is placed for a draft does what the program's call of its entry does, its places forgotten.
pub fn placed_is_program()
    ensures { PlacedIsProgram }
{
    placed_is_work();
    forms_are_those_found();
    entry_is_first();
}

/// The term of a draft is that of its entry, in the words of terms.
pub fn terms_are_those_of_entries()
    ensures { TermIsEntrys }
{}

/// A form's buffers are those of one set, or of two where the loop that calls it overlaps its transfers.
pub fn chosen_forms_stand()
    ensures { ChosenStand }
{}

/// Where no loop was chosen to overlap its transfers, none does by the homes of forms.
pub fn none_overlaps()
    ensures { NonePipes }
{}

/// The nodes of a machine within the limits are the memories of a plan.
pub fn nodes_are_memories()
    ensures { NodesAreMemories }
{}

/// The forms of a resolved program are those that the walk over it gives.
pub fn resolved_programs_were_walked()
    ensures { WalkedIsThere }
{}

/// Each leaf of a draft stands under the number that the homes of its form give, and does on bytes what it means.
pub fn leaves_of_drafts_stand()
    ensures { LeavesOfDraftsStand }
{
    bodies_are_tables();
    leaf_variants_may_be_compiled();
    arrays_in_line_can_be_run_over();
}

/// Round each form stand the maps of its caller and those round its call, at most 64; and leaves have few arrays.
pub fn leaves_are_short()
    ensures { LeavesAreShort }
{
    bodies_are_tables();
}
