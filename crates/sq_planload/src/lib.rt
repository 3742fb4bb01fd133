//! From the text of a plan file to the plan, and to the arrays that it works on.
#![tactic(auto)]

mod file;

pub use file::read_plan;
