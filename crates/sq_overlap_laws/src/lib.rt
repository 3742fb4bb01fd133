//! No code: which loops overlap their transfers, by what the nodes need at which forms run.
#![tactic(auto)]

pub mod laws;
