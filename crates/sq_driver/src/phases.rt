//! What commands share: their phases, from the texts of files to a bank that is open.

pub mod capacity;
pub mod costs;
pub mod entry;
pub mod filed;
pub mod order;
pub mod passes;
pub mod planning;
pub mod plans;
pub mod race;
pub mod running;
pub mod sources;
pub mod tree;
