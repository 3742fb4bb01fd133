//! What holds of the texts of programs, machines and mappings.

ghost use Rattle.sq_source_laws.specs.One.{ProgramsAreOne, MachinesAreOne, MappingsAreOne};
ghost use Rattle.sq_source_laws.specs.First.{MachinesFailOnce, MappingsFailOnce};

use sq_lexer::laws::each_text_has_tokens_or_breaks;

/// A text stands for one program, one machine within the limits and one mapping.
pub fn texts_stand_for_one()
    ensures programs { ProgramsAreOne }
    ensures machines { MachinesAreOne }
    ensures mappings { MappingsAreOne }
{
    each_text_has_tokens_or_breaks();
}

/// The first fault of a text of a machine or a mapping is one.
pub fn first_faults_are_one()
    ensures machines { MachinesFailOnce }
    ensures mappings { MappingsFailOnce }
{
    each_text_has_tokens_or_breaks();
}
