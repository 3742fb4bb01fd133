//! What each command does, from its words to its answer: its phases in their order, up to the first that stops it.
#![tactic(auto)]

mod commands;
mod outside;
mod phases;
mod top;

pub use outside::end::put_usage;
pub use outside::status::Status;
pub use top::sq_top;
