//! What events touch, and which two events depend on one another.
#![tactic(auto)]

mod act;
pub mod laws;
mod put;
mod touch;

pub use act::Act;
pub use put::{put_views, row};
pub use sq_areas::{Area, Step};
pub use touch::{Touch, Touches, Way};
