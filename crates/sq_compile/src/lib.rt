//! From a resolved program to its plan.
#![tactic(auto)]

mod fitting;
pub mod laws;
mod memories;
mod passes;

pub use memories::plan_nodes;
pub use passes::compile;
