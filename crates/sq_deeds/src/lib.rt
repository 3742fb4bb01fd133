//! Deeds: the micro-operations of a block of turns of a loop, and what performs them.
//!
//! A deed is what one statement of a loop's body does at each turn, with all that it needs known before the first of
//! them: an element that goes up by a step, and the number that is put there, from a line of numbers or made from an
//! element as the turn meets it. Nothing here knows a statement, a view or a trap.
#![tactic(auto)]

mod carry;
mod chain;
mod choose;
mod deeds;
mod elements;
mod forward;
mod pairs;
pub mod perform;
mod puts;
mod reach;
mod rise;
mod tested;
mod turn;

pub use deeds::{Carried, Deed, LINKS, Link, Numbers, Put, Value};
pub use elements::{load, store};
pub use puts::{assigned, put_all};
pub use rise::{Rise, rise_of};
