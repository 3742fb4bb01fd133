//! Numbers of terms, evaluated where they stand.
#![tactic(auto)]

pub mod laws;
mod value;
pub mod words;

pub use value::{Env, Turns, count_of, value_of};
