//! What stands in place of the files of a command that has none: the texts of the demo, and its data.
#![tactic(auto)]

mod data;
mod files;

pub use files::DemoFiles;
