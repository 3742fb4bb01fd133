//! Running a plan on the arrays of an entry: what a run needs, taken before a bank is opened, where the arrays stand in
//! the root's memory, and the texts of those that are written.
#![tactic(auto)]

mod launch;
pub mod laws;
mod places;
mod texts;

pub use launch::{Launch, args_at, prepared};
pub use texts::write_arrays;
