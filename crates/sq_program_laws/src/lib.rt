//! The tables of a program's forms fit what plans ask; what is placed of them, and the plan of a program's entry, from
//! any bytes, with its leaf calls.
#![tactic(auto)]

ghost use Rattle.sq_program_laws.specs.Rows.{TablesFit};
ghost use Rattle.sq_program_laws.specs.Facts.{FactsFit};
ghost use Rattle.sq_program_laws.specs.Held.{UnheldFits};
ghost use Rattle.sq_program_laws.specs.Piped.{UnpipedFits, PipesFitStand};
ghost use Rattle.sq_program_laws.specs.Laws.{ProgramsFit, ArraysAreSized};
ghost use Rattle.sq_program_laws.specs.Entry.{EntriesFollow, EntriesSit, EntriesArePlans};
ghost use Rattle.sq_program_laws.specs.LeafCalls.{CallsAreOfTables};
ghost use Rattle.sq_program_laws.specs.Written.{PlansAreWritten};

pub use sq_plan_laws;

/// A row of a call's table fits, where its facts are known.
pub fn facts_fit()
    ensures { FactsFit }
{}

/// What is placed of tables that fit fits.
pub fn tables_fit()
    ensures { TablesFit }
{}

/// Where no argument leaves a loop, nothing is asked of loops.
pub fn unheld_fits()
    ensures { UnheldFits }
{}

/// Where no loop overlaps its transfers, nothing is asked of that.
pub fn unpiped_fits()
    ensures { UnpipedFits }
{}

/// The placed source and its term stand for tables whose loops may overlap their transfers.
pub fn pipes_fit_stand()
    ensures { PipesFitStand }
{}

/// Of a program without a fault, under a mapping that was read with it, the tables of all forms fit, wherever their
/// arrays stand, if the arguments that leave loops may do so, and the loops that overlap their transfers too.
pub fn programs_fit()
    ensures { ProgramsFit }
{}

/// The arrays of its forms have one to three dimensions, of which none is empty, and not too many elements.
pub fn arrays_are_sized()
    ensures { ArraysAreSized }
{}

/// Whatever bytes there are, those of arrays that are only written included, the run of the plan ends as the source
/// means on the arrays that are read.
pub fn entries_follow()
    ensures { EntriesFollow }
{}

/// What is placed of tables has their leaf calls, each with the code of its form and its path.
pub fn calls_are_of_tables()
    ensures { CallsAreOfTables }
{}

/// What is placed of a program's entry sits as its tree needs, where the tables of forms fit.
pub fn entries_sit()
    ensures { EntriesSit }
{}

/// What is placed of a program's entry is a plan, where the tables of forms fit, no race is in it, and its buffers
/// stand apart.
pub fn entries_are_plans()
    ensures { EntriesArePlans }
{}

/// It is the term of the entry written out, with the entry's buffers in scope round it.
pub fn plans_are_written()
    ensures { PlansAreWritten }
{}
