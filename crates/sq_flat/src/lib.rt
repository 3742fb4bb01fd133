//! The source on one flat memory: forms run over the memories of their arrays.
#![tactic(auto)]

mod arrays;
mod block;
mod codes;
mod entry;
mod eval;
mod flat;
mod form;
pub mod laws;
mod memory;
mod ready;

pub use arrays::Arrays;
pub use flat::{FlatEnd, Trapped, eval_flat};
