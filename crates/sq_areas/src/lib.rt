//! Where the bytes of strided views stand, and whether two views share one.
#![tactic(auto)]

mod areas;
pub mod laws;
mod residues;
mod view;

pub use areas::{Area, Step};
