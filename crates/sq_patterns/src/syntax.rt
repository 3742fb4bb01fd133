//! Faults of syntax.

ghost use Rattle.std.specs.Prelude.{◌≡◌, ◌-◌, Some, length, slice_get};
ghost use Rattle.sq_lexer.specs.Faults.{fault};
ghost use Rattle.sq_patterns.specs.Reading.{place_in};

use crate::contents::place_at;
use sq_lexer::{Code, Fault, Phase, Token};
use sqlite_items::Items;
use std::alloc::Global;

/// The fault of syntax at the token with which so many are left.
pub fn syntax_fault(alloc: Global, phase: Phase, tokens: &[Token], left: usize) -> Fault
    ensures { result ≡ fault phase Code.Syntax (Some (place_in (slice_get tokens.now (length tokens.now - left)))) }
{
    let index = tokens.len().saturating_sub(left);
    Fault {
        phase,
        code: Code::Syntax,
        place: Some(place_at(tokens, index)),
        args: Items::new(alloc),
    }
}
