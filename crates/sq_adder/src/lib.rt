//! A sink that adds up the numbers of the text that it is given, and keeps nothing of it.
#![tactic(auto)]

mod adding;
mod sum_sink;

pub use sum_sink::SumSink;
