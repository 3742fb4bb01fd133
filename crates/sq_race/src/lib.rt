//! Which accesses of a form race.
#![tactic(auto)]

mod block;
mod cells;
mod forms;
pub mod laws;
mod layers;
mod map;
mod marks;
mod order;
mod pairs;
mod plain;
mod race;
mod recent;
mod table;
mod taken;

pub use race::{Race, first_race};
