//! Tokens of given patterns: the base of the readers of flat files.
#![tactic(auto)]

mod contents;
mod cursor;
mod pattern;
mod syntax;

pub use contents::{number_at, numeral_at, place_at, word_at};
pub use cursor::{ReadError, Tokens};
pub use pattern::{Pattern, fits};
pub use syntax::syntax_fault;
