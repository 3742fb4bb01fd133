//! Runs of leaf code over the bytes of one memory: values (`run`), statements (`act`), and the call (`leaf`).
//!
//! Loops (`loops`) run turn after turn, and by blocks of turns where sq_turns knows what these do.
#![tactic(auto)]

mod act;
mod leaf;
mod loops;
mod run;
mod spot;

pub use leaf::run_leaf;
