//! Sums over a term written out, without writing it out: of buffers whose scopes stand within one another, for each
//! node; of what events carry over an edge, and of the events of a kind.
#![tactic(auto)]

mod edges;
mod fans;
mod flow;
pub mod laws;
mod marks;
mod region;
mod route;
mod scale;
mod stand;
mod sums;
mod tally;
mod toll;
mod walk;

pub use edges::{event_counts, traffic};
pub use region::names_no_loop_outside;
pub use sums::{needs, nested_sums};
pub use walk::Sums;
