//! No code: the text that the lines of a plan file are laid out as stands for these lines again.
#![tactic(auto)]

pub mod laws;

pub use sq_unplaced_laws;
pub use sq_unplaced_laws::sq_written_laws;
