//! What follows for the forms of a program and their tables.

ghost use Rattle.sq_spec_laws.specs.Named.{DeclaredNamesStand, VariablesStand, StandingNamesServe};
ghost use Rattle.sq_spec_laws.specs.Needs.{NeedIsOne, NoFormNoNeed, EntryIsAtRoot, FormsRunAtTheirLevel};
ghost use Rattle.sq_spec_laws.specs.Needs.{CallsAreThoseReached};
ghost use Rattle.sq_spec_laws.specs.Filled.{ServedAreFull, TablesAreFull};
ghost use Rattle.sq_spec_laws.specs.Summing.{SumsAreWhole, SumsAreAlone};
ghost use Rattle.sq_spec_laws.specs.TableRows.{RowsAreReached};
ghost use Rattle.sq_spec_laws.specs.ReachedFacts.{ReachedLieInside, FlagsAreOfText};
ghost use Rattle.sq_spec_laws.specs.Ones.{ReductionsAreOfOne};
ghost use Rattle.sq_spec_laws.specs.Typed.{ArgumentsHaveTypes, WritesArePermitted};
ghost use Rattle.sq_spec_laws.specs.Fuel.{FormsBehindAreEnough};

/// Each name that is known at a place of a program without a fault stands for something there: behind the declarations
/// of a form, and in each iteration of a map.
pub fn known_names_stand()
    ensures declared { DeclaredNamesStand }
    ensures variables { VariablesStand }
    ensures serve { StandingNamesServe }
{}

/// A node needs one number of bytes, which is 0 where no form runs; the entry runs at the root alone; and each form
/// runs at nodes of its level. The calls by which that is said are those that the walk reached.
pub fn needs_are_sound()
    ensures one { NeedIsOne }
    ensures none { NoFormNoNeed }
    ensures root { EntryIsAtRoot }
    ensures levels { FormsRunAtTheirLevel }
    ensures calls { CallsAreThoseReached }
{}

/// Under a program without a fault each argument of a reached call has the element type and the mode of its parameter,
/// and those that are written are of arrays that may be written.
pub fn arguments_are_typed()
    ensures types { ArgumentsHaveTypes }
    ensures writes { WritesArePermitted }
{}

/// Each call of a form's tables has a row for each time that it is begun.
pub fn tables_are_filled()
    ensures served { ServedAreFull }
    ensures forms { TablesAreFull }
{}

/// Each row of a form's tables is a call that the walk reached, with its arguments, and the form that it names is the
/// callee.
#[tactic(auto, using(crate::proofs::TableRowsHold::rows_are_reached))]
pub fn rows_are_calls()
    ensures { RowsAreReached }
{}

/// The call of a `mapreduce` has the array that is reduced into as one argument, whole and for an `inout` parameter,
/// and
/// no other argument is what is reduced into, nor of that array.
pub fn sums_are_of_whole_arrays()
    ensures whole { SumsAreWhole }
    ensures alone { SumsAreAlone }
{}

/// Each argument of a reached call lies inside its array, and the text says which of them are what is reduced into.
pub fn reached_calls_fit()
    ensures inside { ReachedLieInside }
    ensures flags { FlagsAreOfText }
{}

/// Each `mapreduce` of a form's tables has one call as its body.
pub fn reductions_have_one_call()
    ensures { ReductionsAreOfOne }
{}

/// The work of a form doesn't change where more forms may be called within one another than there are behind it.
pub fn forms_behind_are_enough()
    ensures { FormsBehindAreEnough }
{}
