//! What is true of the forms of a program without a fault, and of their tables: what a compiler over them stands on.
#![tactic(auto)]

pub mod laws;

pub use sq_forms::Instance;
pub use sq_spec::{Body, FormBody, Resolved};
