//! What walks over the parts of a plan go by: which of them can have an event, and which iterations there are.
#![tactic(auto)]

mod action;
mod course;

pub use action::acts;
pub use course::{loop_of, spread_of};
