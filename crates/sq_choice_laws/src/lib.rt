//! No code: what may be chosen is chosen. An argument leaves the outermost loop that it may leave, the candidates are all
//! loops that may overlap their transfers, and the notes are those of the choices, in the order of the text.
#![tactic(auto)]

pub mod laws;
