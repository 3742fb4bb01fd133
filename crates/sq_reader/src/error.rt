//! Why tokens have no tree, before its place is known.

use std::alloc::AllocError;

/// The number says how many tokens are left, with the one at fault.
#[derive(Clone, Copy, Debug, PartialEq, Eq)]
pub enum ParseError {
    OutOfMemory,
    Syntax(usize),
    TooDeep(usize),
}

impl From<AllocError> for ParseError {
    ghost use Rattle.std.specs.Prelude.{◌≡◌};
    ghost use Rattle.sq_reader.specs.declared.error.ParseError.TheVariants.{OutOfMemory};

    ghost from_gives = { λ _ e. e ≡ OutOfMemory };

    fn from(_error: AllocError) -> ParseError {
        ParseError::OutOfMemory
    }
}
