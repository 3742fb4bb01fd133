//! Reductions.

use sq_num::{Elem, RedOp};

/// By which operator a `mapreduce` reduces, and into which array of its form.
#[derive(Clone, Copy, Debug, PartialEq, Eq)]
pub struct Reduction {
    pub op: RedOp,
    /// The type of the array's elements.
    pub elem: Elem,
    /// Of the form's arrays, in text order: parameters, and then locals.
    pub array: u32,
}
