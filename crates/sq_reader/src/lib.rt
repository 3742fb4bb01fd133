//! Reads a program from its tokens, as a function on lists of symbols says, and what is proved of that function: it
//! gives just what the grammar derives, and stops at the first token that is at fault.
#![tactic(auto)]

mod class;
mod error;
mod expr;
mod leaf;
mod parts;
mod program;
mod start;
mod stmt;
mod tables;
mod tokens;

pub use class::class_of;
pub use error::ParseError;
pub use program::{read_leaf, read_program};
pub use tables::{elem_of, mode_of, reduction_of};
pub use tokens::Tokens;
