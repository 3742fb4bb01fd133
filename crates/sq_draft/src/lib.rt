//! From what forms do to the term of a draft.
#![tactic(auto)]

mod args;
mod build;
mod entry;
mod forms;
mod held;
mod moves;
mod parts;
mod pipes;
mod transfers;

pub use entry::draft_term;
pub use sq_tables::{Home, Homes, any_lower, any_same};
