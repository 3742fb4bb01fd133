//! Reading a whole plan file.

ghost use Rattle.std.specs.Prelude.{◌≡◌, IfOk};
ghost use Rattle.sq_text.specs.Answers.{Gives, IfRefused, Refuses};
ghost use Rattle.sq_text.specs.declared.fault.Fault.{Fault};
ghost use Rattle.sq_lexer.specs.Tokens.{HasEnd};
ghost use Rattle.sq_plantext.specs.declared.text.PlanText.{PlanText};
ghost use Rattle.sq_plantext.specs.Faults.{SyntaxFault};
ghost use Rattle.sq_plantext.specs.Grammar.{StandsFor, most_levels};
ghost use Rattle.sq_planread.specs.Parsing as parsing;

use crate::cursor::Cursor;
use crate::file::plan;
use sq_lexer::{Token, TokenList};
use sq_plantext::{PLAN_LEVELS, PlanText};
use sq_reader::ParseError;
use sq_text::{Code, Fault, Phase, Stop};
use sqlite_items::Items;
use std::alloc::Global;

// The fault with this code, at the place of the token from which on so many are left.
fn refused(alloc: Global, tokens: &[Token], code: Code, left: usize) -> Stop
    ensures { result ≡ parsing.refused tokens.now code left }
{
    let place = match tokens.get(tokens.len().saturating_sub(left)) {
        Some(token) => Some(token.place),
        None => None,
    };
    Stop::Refused(Fault {
        phase: Phase::Plan,
        code,
        place,
        args: Items::new(alloc),
    })
}

fn stop_of(alloc: Global, tokens: &[Token], error: ParseError) -> Stop
    ensures { result ≡ parsing.stop_of tokens.now error }
{
    match error {
        ParseError::OutOfMemory => Stop::NoMemory,
        ParseError::Syntax(left) => refused(alloc, tokens, Code::Syntax, left),
        ParseError::TooDeep(left) => refused(alloc, tokens, Code::TooDeep, left),
    }
}

/// The lines that the tokens of a plan file stand for.
///
/// Refused with `Syntax` at the first token with which no plan file begins, or with `TooDeep` at the first that is
/// allowed there and opens the 1,025th level of nesting, or the 65th of a leaf's task.
pub fn parse_plan(alloc: Global, tokens: &TokenList) -> Result<PlanText, Stop>
    requires { HasEnd tokens.now }
    // The tokens stand for what is found.
    ensures found { IfOk result (λ x. StandsFor most_levels tokens.now x) }
    // They stand for nothing else, and what they stand for is found.
    ensures only { (x : PlanText) → StandsFor most_levels tokens.now x → Gives result x }
    // Otherwise their one fault is told.
    ensures refused { IfRefused result (λ f. SyntaxFault tokens.now f) }
    ensures refuses { (f : Fault) → SyntaxFault tokens.now f → Refuses result f }
{
    let list = tokens.as_slice();
    let mut rest = Cursor::new(list);
    match plan(alloc, &mut rest, PLAN_LEVELS) {
        Ok(found) => Ok(found),
        Err(error) => Err(stop_of(alloc, list, error)),
    }
}
