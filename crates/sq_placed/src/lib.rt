//! The source with the place of each array: its work, and the tree of events that it stands for.
#![tactic(auto)]

mod home;
pub mod laws;

pub use home::{Home, Homes};
pub use sq_spec::FormBody;
