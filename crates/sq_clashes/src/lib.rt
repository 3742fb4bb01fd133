//! The flaws of a plan's events: too many of them, or two that clash, of which the first are found in near linear time.
#![tactic(auto)]

mod clashes;
mod color;
mod key;
mod reaches;
mod rows;

pub use clashes::first_event_flaw;
pub use sq_plan_check::Flaw;
