//! The heaviest chain of a plan's events, each before the next one.
#![tactic(auto)]

mod acts;
mod chain;
mod course;
mod heft;
pub mod laws;
mod spans;
mod walk;
mod weights;

pub use spans::{Link, Links, Span, heaviest_chain};
pub use sq_costs::{Cost, Costs, read_cost};
pub use weights::weight;
