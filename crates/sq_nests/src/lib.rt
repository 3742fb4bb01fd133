//! The scopes of terms: how they stand within one another, and what holds of buffers that are stacked in them.
#![tactic(auto)]

pub mod laws;
