//! The passes, each from a resolved program to its draft.
#![tactic(auto)]

mod choices;
mod passes;

pub use passes::{drop_copies, hoist, lower, overlap_transfers};
pub use sq_homes::draft_of;
pub use sq_pipe::{hoisted, overlapped};
