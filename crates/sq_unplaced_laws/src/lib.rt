//! No code: lines of plan files that differ in their places alone are sound alike, and their plans are good alike.
#![tactic(auto)]

pub mod laws;

pub use sq_written_laws;
