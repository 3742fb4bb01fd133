//! The texts that commands write but the arrays: the report of a plan on a machine, and the lines of faults and traps.
#![tactic(auto)]

mod adding;
mod answers;
mod buffers;
mod demo;
mod edges;
pub mod laws;
mod levels;
mod nodes;
mod notes;
mod report;
mod totals;
mod trap;

pub use answers::{put_fault, put_named, put_trap};
pub use demo::{DemoInput, demo_elements, demo_fill, demo_texts, put_demo};
pub use report::put_plan;
pub use sq_store;
pub use totals::{Totals, totals_of};
pub use trap::{Trap, trap_at};
