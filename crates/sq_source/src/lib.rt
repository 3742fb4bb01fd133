//! From the text of a program to the program, within every rule of its tokens, its grammar and its names.
#![tactic(auto)]

ghost use Rattle.std.specs.Prelude.{IfOk};
ghost use Rattle.sq_text.specs.Answers.{IfRefused};
ghost use Rattle.sq_source.specs.Sources.{IsFault, IsReadFrom};

use sq_lexer::tokens;
use sq_parser::parse_program;
use sq_text::{Phase, Stop};
use sq_types::{Typed, check};
use std::alloc::Global;

/// The program that a text is, where it breaks no rule; else its first fault, of the tokens before the grammar, and of
/// that before names.
pub fn read_program(alloc: Global, text: &[u8]) -> Result<Typed, Stop>
    ensures found { IfOk result (λ program. IsReadFrom text.now program) }
    ensures refused { IfRefused result (λ its. IsFault text.now its) }
{
    let list = match tokens(alloc, Phase::Program, text) {
        Ok(list) => list,
        Err(stop) => return Err(stop),
    };
    let program = match parse_program(alloc, &list) {
        Ok(program) => program,
        Err(stop) => return Err(stop),
    };
    check(alloc, program)
}
