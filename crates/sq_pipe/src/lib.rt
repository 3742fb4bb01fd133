//! Which loops overlap their transfers with work.
#![tactic(auto)]

mod ahead;
mod candidate;
mod choices;
mod fitting;
mod greedy;
mod loops;
mod marks;
mod notes;
mod overlapping;
mod reach;
mod room;
mod sizes;

pub use candidate::Candidate;
pub use overlapping::overlapped;
pub use sq_hoist::hoisted;
