//! Reading a whole program.

ghost use Rattle.std.specs.Prelude.{◌≡◌, IfOk};
ghost use Rattle.sq_text.specs.Answers.{Gives, IfRefused, Refuses};
ghost use Rattle.sq_text.specs.declared.fault.Fault.{Fault};
ghost use Rattle.sq_lexer.specs.Tokens.{HasEnd};
ghost use Rattle.sq_ast.specs.declared.program.Program.{Program};
ghost use Rattle.sq_parser.specs.Programs as programs;

use sq_ast::{MOST_LEVELS, Program};
use sq_lexer::{Token, TokenList};
use sq_reader::{ParseError, Tokens, read_program};
use sq_text::{Code, Fault, Phase, Stop};
use sqlite_items::Items;
use std::alloc::Global;

// The fault with this code, at the place of the token from which on so many are left.
fn refused(alloc: Global, tokens: &[Token], code: Code, left: usize) -> Stop
    ensures { result ≡ programs.refused tokens.now code left }
{
    let place = match tokens.get(tokens.len().saturating_sub(left)) {
        Some(token) => Some(token.place),
        None => None,
    };
    Stop::Refused(Fault {
        phase: Phase::Program,
        code,
        place,
        args: Items::new(alloc),
    })
}

fn stop_of(alloc: Global, tokens: &[Token], error: ParseError) -> Stop
    ensures { result ≡ programs.stop_of tokens.now error }
{
    match error {
        ParseError::OutOfMemory => Stop::NoMemory,
        ParseError::Syntax(left) => refused(alloc, tokens, Code::Syntax, left),
        ParseError::TooDeep(left) => refused(alloc, tokens, Code::TooDeep, left),
    }
}

/// The program that the tokens of a program file stand for.
///
/// Refused with `Syntax` at the first token with which no program begins, or with `TooDeep` at the first that is
/// allowed there and opens the 65th level of nesting. Each open bracket or brace, each unary operator whose operand
/// isn't ended, and each body without braces is a level.
pub fn parse_program(alloc: Global, tokens: &TokenList) -> Result<Program, Stop>
    requires { HasEnd tokens.now }
    // The tokens stand for what is found.
    ensures found { IfOk result (λ p. programs.IsProgram tokens.now p) }
    // They stand for nothing else, and what they stand for is found.
    ensures only { (p : Program) → programs.IsProgram tokens.now p → Gives result p }
    // Otherwise their one fault is told.
    ensures refused { IfRefused result (λ f. programs.HasFault tokens.now f) }
    ensures refuses { (f : Fault) → programs.HasFault tokens.now f → Refuses result f }
{
    let list = tokens.as_slice();
    let mut rest = Tokens::new(list);
    match read_program(alloc, &mut rest, MOST_LEVELS) {
        Ok(found) => Ok(found),
        Err(error) => Err(stop_of(alloc, list, error)),
    }
}
