//! No code: what a good plan is written as is a plan file without faults, and runs as the plan.
#![tactic(auto)]

pub mod laws;
