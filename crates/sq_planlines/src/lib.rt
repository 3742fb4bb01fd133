//! From the lines of a plan file to the plan that they stand for.
#![tactic(auto)]

mod event;
mod file;
mod lines;
mod terms;
mod words;

pub use file::file_of;
