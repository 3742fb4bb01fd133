//! Places for the buffers of a draft.
#![tactic(auto)]

mod ends;
mod fitting;
pub mod laws;
mod stack;

pub use ends::greatest_end;
pub use fitting::{StoreFault, place};
pub use stack::offsets_of;
