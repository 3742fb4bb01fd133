//! No code: the leaf calls that a program's tables count are those of its source; the leaf events of a good plan are
//! these, and each runs the leaf of its form.
#![tactic(auto)]

pub mod laws;
