//! Reading the tokens of a plan file.
#![tactic(auto)]

mod cursor;
mod events;
mod file;
pub mod laws;
mod lines;
mod parse;
mod pieces;
mod terms;

pub use parse::parse_plan;
