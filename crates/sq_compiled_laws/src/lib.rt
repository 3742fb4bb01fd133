//! No code: the plan file of a program's plan has sound lines, which can be read; read again it has no fault, and runs as
//! the program.
#![tactic(auto)]

pub mod laws;

pub use sq_meant;
