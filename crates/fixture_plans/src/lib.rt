//! Drafts in words and plans made by hand, and what is told of them, for the program that writes it and for measurements.
#![tactic(auto)]

mod banks;
mod controls;
mod drafts;
mod lanes;
mod leaf;
mod mixed;
mod numbers;
mod runs;
mod stored;
mod turns;
mod words;

pub use banks::{tell_logged, tell_run};
pub use controls::{filling, tell_steps};
pub use drafts::tell_draft;
pub use lanes::three_lanes;
pub use leaf::{int_leaf, square_leaf};
pub use numbers::tell_number;
pub use runs::{Ran, run_on};
pub use turns::{copies, fills, products};
pub use words::{draft, memories};
