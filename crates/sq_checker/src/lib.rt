//! The checker of plan files: a plan that it accepts has one result under every order, inside all capacities.
#![tactic(auto)]

mod check;
mod fault;
mod read;

pub use check::check_plan;
pub use read::read_checked;
