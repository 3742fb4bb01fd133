//! No code: a text stands for one program, one machine, one mapping; a machine's and a mapping's first fault is one.
#![tactic(auto)]

pub mod laws;
