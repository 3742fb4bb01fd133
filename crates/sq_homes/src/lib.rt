//! From what is chosen for the forms of a program to the homes of their arrays, and to its draft.
#![tactic(auto)]

mod buffers;
mod draft;
mod entry;
mod homes;
pub mod laws;
mod names;
mod order;

pub use draft::{draft_of, drop_draft};
pub use sq_chosen::{Choice, Chosen};
