//! What the tables of forms mean.

ghost use Rattle.sq_spec.specs.StatementsWork.{TablesMeanStatements};
ghost use Rattle.sq_spec.specs.Numbered.{TablesMeanProgram, TablesAreRaceFree};

/// The tables of a form's statements mean what the statements mean.
pub fn tables_mean_the_statements()
    ensures { TablesMeanStatements }
{}

/// Without a race the tables of a program's forms mean what the program means, with the iterations of all maps one
/// after another.
#[tactic(auto, using(crate::proofs::NumberedForms::tables_mean_program))]
pub fn tables_mean_the_program()
    ensures { TablesMeanProgram }
{}

/// Where a program has no race, its forms have none by their tables.
#[tactic(auto, using(crate::proofs::NumberedForms::tables_are_race_free))]
pub fn tables_are_free_of_races()
    ensures { TablesAreRaceFree }
{}
