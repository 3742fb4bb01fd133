//! Arrays in the root's memory of a bank: data is read into them, and their bytes are lent.
#![tactic(auto)]

pub mod laws;
mod place;
mod root;

pub use place::Place;
pub use root::{part_of, read_root};
