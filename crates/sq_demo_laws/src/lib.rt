//! What is true of the demo's texts.
#![tactic(auto)]

pub mod laws;
