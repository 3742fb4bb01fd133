//! The flaws of plans that were written out, which of them is the first, and what holds of plans without one.
#![tactic(auto)]

mod flaw;
pub mod laws;

pub use flaw::Flaw;
