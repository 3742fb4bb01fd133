//! Order lists: which of the ready events is performed next, as numbers in a file.
#![tactic(auto)]

mod picks;

pub use picks::read_picks;
