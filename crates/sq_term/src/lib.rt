//! The term of a placed source, with its loops kept, and why its tree is that of the placed source.
#![tactic(auto)]

mod context;
pub mod laws;

pub use context::{Context, Lane, Move};
pub use sq_placed::{FormBody, Home, Homes};

/// What contexts are made of.
pub mod parts {
    pub use sq_ir::{LeafView, Numbers};
}
