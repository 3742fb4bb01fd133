//! What a program means: its work, with every constant known, on the arrays of one flat memory.
#![tactic(auto)]

pub mod laws;
mod reduction;

pub use reduction::Reduction;
pub use sq_leaf::laws::leaf_variants_may_be_compiled;
pub use sq_leaf::{Dims, LeafCode, Shape, Typed, compile_leaf};
