//! The phase that reads a program.
ghost use Rattle.std.specs.Prelude.{◌≡◌, IfOk};
ghost use Rattle.sq_text.specs.Answers.{Gives, IfRefused, Refuses};
ghost use Rattle.sq_text.specs.declared.fault.Fault.{Fault};
ghost use Rattle.sq_ast.specs.declared.program.Program.{Program};
ghost use Rattle.sq_ast.specs.Given.{IsGiven};
ghost use Rattle.sq_driver.specs.Programs.{IsProgramText, ProgramFault, too_long_fault};
ghost use Rattle.sq_driver.specs.Ends.{ending, FileCauses};
ghost use Rattle.sq_driver.specs.Steps.{ReadsTree};

use crate::outside::end::End;
use sq_ast::Program;
use sq_lexer::tokens;
use sq_parser::parse_program;
use sq_port::{Files, ReadEnd, read_whole};
use sq_text::limits::TEXT_BYTES;
use sq_text::{Args, Code, Fault, Phase, Stop};
use std::alloc::Global;

/// The most bytes of a program, machine or mapping file.
pub const MOST_BYTES: u64 = TEXT_BYTES as u64;

pub fn read_tree<'a, F: Files>(
    alloc: Global,
    files: &mut F,
    name: &'a str,
) -> Result<Program, End<'a>>
    ensures content { F.content files.new ≡ F.content files.old }
    ensures told { ReadsTree (F.content files.old) name.now result }
    ensures given { IfOk result (λ p. IsGiven p) }
    ensures cause { FileCauses (F.faults files.old) (F.faults files.new) (F.misses files.old) (F.misses files.new)
        (ending result) }
{
    let text = match read_whole(alloc, files, name, MOST_BYTES) {
        Ok(text) => text,
        Err(ReadEnd::Failed) => return Err(End::FileFault(name)),
        Err(ReadEnd::Absent) => return Err(End::Absent(name)),
        Err(ReadEnd::TooLong) => return Err(End::Refused(too_long(alloc, Phase::Program))),
        Err(ReadEnd::NoMemory) => return Err(End::NoMemory),
    };
    match tree_of(alloc, text.as_slice()) {
        Ok(program) => Ok(program),
        Err(Stop::Refused(fault)) => Err(End::Refused(fault)),
        Err(Stop::NoMemory) => Err(End::NoMemory),
    }
}

/// The fault of a text that is too long for the phase.
pub fn too_long(alloc: Global, phase: Phase) -> Fault
    ensures { result ≡ too_long_fault phase }
{
    Fault {
        phase,
        code: Code::LimitFile,
        place: None,
        args: Args::new(alloc),
    }
}

// The program that the text is, and else its first fault.
fn tree_of(alloc: Global, text: &[u8]) -> Result<Program, Stop>
    ensures found { IfOk result (λ p. IsProgramText text.now p) }
    ensures given { IfOk result (λ p. IsGiven p) }
    ensures only { (p : Program) → IsProgramText text.now p → Gives result p }
    ensures refused { IfRefused result (λ f. ProgramFault text.now f) }
    ensures refuses { (f : Fault) → ProgramFault text.now f → Refuses result f }
{
    let list = match tokens(alloc, Phase::Program, text) {
        Ok(list) => list,
        Err(stop) => return Err(stop),
    };
    parse_program(alloc, &list)
}
