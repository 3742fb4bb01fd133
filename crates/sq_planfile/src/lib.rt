//! Plan files: a plan written out as lines, and what lines stand for a plan.
#![tactic(auto)]

mod acts;
mod collect;
mod count;
mod course;
mod depth;
mod entry;
mod event;
mod file;
mod heads;
pub mod laws;
mod left;
mod lines;
mod write;

pub use entry::{EntryArray, EntryArrays, entry_arrays};
pub use file::PlanFile;
pub use write::plan_text;
