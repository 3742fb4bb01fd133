//! What is true of the drafts of a program that was resolved, and of the machine that they are placed on: their homes,
//! bodies and buffers meet what the laws of plans ask, and each array has buffers of its own; the draft can be placed;
//! and the term of a program's entry, as a plan, is well formed: what its actions name is in scope, and each event may
//! be performed.
#![tactic(auto)]

ghost use Rattle.sq_draft_laws.specs.AtLevels.{LeavesAreAtLevels};
ghost use Rattle.sq_draft_laws.specs.Drafts.{DraftsAreTabled, DraftsAreRoomy};
ghost use Rattle.sq_draft_laws.specs.HomesFit.{HomesFitForms, HomesAreHeldInside, EntriesAreWhole, EntriesHaveBuffers};
ghost use Rattle.sq_draft_laws.specs.Lanes.{MachinesAreMachines, LanesAreThere};
ghost use Rattle.sq_draft_laws.specs.Laws.{SlotsAreInScope, FormsAreNear, PathsAreShort, PlansAreWellFormed};
ghost use Rattle.sq_draft_laws.specs.Levels.{LevelsAreThere, DraftsBeginAtRoot};
ghost use Rattle.sq_draft_laws.specs.Numbers.{BuffersAreNumbered};
ghost use Rattle.sq_draft_laws.specs.Owned.{DraftsOwn};
ghost use Rattle.sq_draft_laws.specs.Placeable.{DraftsArePlaceable, DraftsAreStackedByForms};

pub mod laws;

pub use sq_program_laws;
pub use sq_program_laws::sq_plan_laws;

/// Each form has a home for each of its parameters, in place only where it was found so, and a buffer for each local.
pub fn homes_fit_forms()
    ensures { HomesFitForms }
{}

/// What leaves loops are arguments of calls that are all that stands in these loops.
pub fn homes_are_held_inside()
    ensures { HomesAreHeldInside }
{}

/// The entry is called with its arrays, whole.
pub fn entries_are_whole()
    ensures { EntriesAreWhole }
{}

/// Each of its parameters has a buffer of its own.
pub fn entries_have_buffers()
    ensures { EntriesHaveBuffers }
{}

/// Each form has a level of the machine.
pub fn levels_are_there()
    ensures { LevelsAreThere }
{}

/// The entry and the first buffer are of the root's level.
pub fn drafts_begin_at_root()
    ensures { DraftsBeginAtRoot }
{}

/// The tables of forms are as a built term asks, and buffers that scopes name are there.
pub fn drafts_are_tabled()
    ensures { DraftsAreTabled }
{}

/// Arrays fit into the buffers of their homes, and blocks lie inside arrays.
pub fn drafts_are_roomy()
    ensures { DraftsAreRoomy }
{}

/// The buffers of a draft are numbered form by form, and each form but the entry has one caller, which stands before
/// it.
pub fn buffers_are_numbered()
    ensures { BuffersAreNumbered }
{}

/// Each array of a draft has a buffer of its own that it fits into, or stands in its caller's array.
pub fn drafts_own_their_buffers()
    ensures { DraftsOwn }
{}

/// The memories of a machine are nodes as a built term asks.
pub fn memories_are_machines()
    ensures { MachinesAreMachines }
{}

/// Each iteration of a draft's spread maps has a child.
pub fn lanes_are_there()
    ensures { LanesAreThere }
{}

/// A draft can be placed.
pub fn drafts_can_be_placed()
    ensures { DraftsArePlaceable }
{}

/// Its buffers stand behind one another by forms: at each level those of the form that is called behind those of the
/// forms round it.
pub fn drafts_are_stacked_by_forms()
    ensures { DraftsAreStackedByForms }
{}

/// The buffers that the entry's actions name are in scope, and those of a leaf's views have the level of its node.
pub fn slots_are_in_scope()
    ensures { SlotsAreInScope }
{}

/// In tables that fit no lower call has a parameter in the caller's array.
pub fn forms_are_near()
    ensures { FormsAreNear }
{}

/// The paths of a plan's leaf calls have at most 64 numbers of 32 bits.
pub fn paths_are_short()
    ensures { PathsAreShort }
{}

/// Where its events may run, lie inside their nodes and have such paths, the entry's term is well formed.
pub fn plans_are_well_formed()
    ensures { PlansAreWellFormed }
{}

/// Each leaf event calls a form that is a leaf, at a node of the form's level.
pub fn leaves_are_at_levels()
    ensures { LeavesAreAtLevels }
{}
