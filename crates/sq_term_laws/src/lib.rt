//! The term of forms is well formed: its numbers, scopes and rows, as the tables of forms give them.
#![tactic(auto)]

ghost use Rattle.sq_term_laws.specs.Begun.{TablesAreBegun};
ghost use Rattle.sq_term_laws.specs.Few.{RunsAreFew};
ghost use Rattle.sq_term_laws.specs.Laws.{TermIsFine, EntryIsFine, TermIsRoomy, EntryIsRoomy};
ghost use Rattle.sq_term_laws.specs.Lower.{LowerStandAbove};
ghost use Rattle.sq_term_laws.specs.Programs.{ProgramsAreTabled};

pub mod laws;

/// The numbers that the term of a form needs have their values, its counts and children are there, and so are the
/// buffers that its scopes name.
pub fn term_is_fine()
    ensures { TermIsFine }
{}

/// And those of the entry.
pub fn entry_is_fine()
    ensures { EntryIsFine }
{}

/// The numbers of its actions have their values too, and its rows and views lie inside their buffers.
pub fn term_is_roomy()
    ensures { TermIsRoomy }
{}

/// And those of the entry.
pub fn entry_is_roomy()
    ensures { EntryIsRoomy }
{}

/// Where an instance serves each call and no map's body is begun too often, the tables are as asked.
pub fn tables_are_begun()
    ensures { TablesAreBegun }
{}

/// Where the walk of a form goes through, no map's body is begun more often than an outermost map may have uses.
pub fn runs_are_few()
    ensures { RunsAreFew }
{}

/// Of a program without a fault, under a mapping that was read with it, the tables of all forms are as asked.
pub fn programs_are_tabled()
    ensures { ProgramsAreTabled }
{}

/// A lower call in them stands above the last level, whether it is begun or not.
pub fn lower_stand_above()
    ensures { LowerStandAbove }
{}
