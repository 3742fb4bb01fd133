//! No code: the maps of a program that was read stand at their places in the order of the text.
#![tactic(auto)]

pub mod laws;
