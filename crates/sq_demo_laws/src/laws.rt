//! What is true of the demo's texts.

ghost use Rattle.sq_machfile.specs.Machines.{WithinLimits};
ghost use Rattle.sq_demo_laws.specs.Machine.{demo_hierarchy};
ghost use Rattle.sq_demo_laws.specs.Laws.{OneMachine, MachineIsFaultless, OneMapping, MappingIsFaultless};
ghost use Rattle.sq_demo_laws.specs.Laws.{MappingIsSound, ProgramIsFaultless, ProgramResolves, NodesHaveEnough};
ghost use Rattle.sq_demo_laws.specs.Laws.{ProgramIsTrapless, OneTree, ProgramHasNoFault, ProgramIsRead, FormsAreFree};
ghost use Rattle.sq_demo_laws.specs.Laws.{DataIsRead, DemoLaws};

use sq_arrays::laws::written_arrays_read_back;
use sq_lexer::laws::each_text_has_tokens_or_breaks;
use sq_parser::laws::tokens_are_a_program_or_have_a_fault;
use sq_spec_laws::laws::needs_are_sound;

/// The machine's text stands for no other machine, and has no fault.
pub fn the_machine_is_read()
    ensures one { OneMachine }
    ensures faultless { MachineIsFaultless }
{
    each_text_has_tokens_or_breaks();
}

/// The mapping's text stands for no other mapping, and has no fault for the program and the machine.
pub fn the_mapping_is_read()
    ensures one { OneMapping }
    ensures faultless { MappingIsFaultless }
    ensures sound { MappingIsSound }
{
    each_text_has_tokens_or_breaks();
}

/// The program's text stands for no other program, and has no fault.
pub fn the_program_is_read()
    ensures one { OneTree }
    ensures tokens { ProgramHasNoFault }
    ensures read { ProgramIsRead }
{
    each_text_has_tokens_or_breaks();
    tokens_are_a_program_or_have_a_fault();
}

/// The program has no fault of names, kinds or parameters.
pub fn the_program_is_faultless()
    ensures { ProgramIsFaultless }
{}

/// The walk over the forms of the program goes through.
pub fn the_forms_are_found()
    ensures { ProgramResolves }
{}

/// No node of the machine has less than the forms need there.
pub fn nodes_have_enough()
    ensures { WithinLimits demo_hierarchy → NodesHaveEnough }
{
    needs_are_sound();
}

/// The program doesn't trap.
pub fn the_program_is_trapless()
    ensures { ProgramIsTrapless }
{}

/// No two accesses of the forms race.
pub fn the_forms_are_free_of_races()
    ensures { FormsAreFree }
{}

/// The data of a number is the text of its arrays.
pub fn the_data_is_read()
    ensures { DataIsRead }
{
    written_arrays_read_back();
}

/// No phase of the demo has a fault, and its program doesn't trap.
pub fn the_demo_is_accepted()
    ensures { DemoLaws }
{
    the_program_is_read();
    the_program_is_faultless();
    the_machine_is_read();
    the_mapping_is_read();
    the_forms_are_found();
    the_forms_are_free_of_races();
    nodes_have_enough();
    the_data_is_read();
    the_program_is_trapless();
}
