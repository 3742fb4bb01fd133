//! The commands, one file each.

pub mod check;
pub mod compile;
pub mod demo;
pub mod eval;
pub mod exec;
pub mod fmt;
pub mod plan;
pub mod run;
pub mod span;
pub mod tune;
