//! Machine files: the levels and nodes of a memory hierarchy.
#![tactic(auto)]

mod even;
pub mod laws;
mod level;
mod levels;
mod limits;
mod machine;
mod names;
mod nested;
mod node;
mod reading;
mod text;
mod tree;
mod uneven;

pub use level::Level;
pub use machine::{Machine, read_machine};
pub use node::Node;
