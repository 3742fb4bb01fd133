//! The heads of plan files: whether the nodes, leaves, buffers and arrays of a file that was read are sound, and the
//! first fault of them.
#![tactic(auto)]

mod arrays;
mod buffers;
mod extents;
mod heads;
pub mod laws;
mod leaves;
mod names;
mod nodes;
mod tasks;

pub use heads::compile_heads;
