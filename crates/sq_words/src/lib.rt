//! The command lines of the tool.
#![tactic(auto)]

mod options;
mod seeds;
mod words;

pub use options::Way;
pub use words::{
    Check, Command, Compile, Demo, Eval, Exec, Fmt, Kind, Plan, Run, Span, Tune, parse,
};
