//! No code: a plan that is written out and read again is the same plan but for how its events are grouped, runs as it did
//! and stays good; what a leaf means, places aside.
#![tactic(auto)]

pub mod laws;
