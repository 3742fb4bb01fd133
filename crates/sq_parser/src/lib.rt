//! The parser of programs.
#![tactic(auto)]

pub mod laws;
mod parse;

pub use parse::parse_program;
