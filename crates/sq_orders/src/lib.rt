//! The order of a run, as its words ask for it.
#![tactic(auto)]

mod order;

pub use order::Chosen;
