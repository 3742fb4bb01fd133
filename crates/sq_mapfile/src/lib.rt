//! Mapping files: which variant of which task runs at which level, with its tunables and calls.
#![tactic(auto)]

mod alternatives;
mod calls;
mod choices;
mod components;
mod cycle;
mod digits;
mod entry;
mod given;
mod graph;
mod instances;
mod items;
pub mod laws;
mod parts;
mod ranks;
mod reader;
mod reading;
mod required;
mod resolve;
mod rules;
mod scope;
mod table;
mod tasks;
mod text;
mod tunings;
mod walk;

pub use choices::Choices;
pub use digits::Digits;
pub use reader::{read_choices, read_mapping};
pub use text::Alternatives;
pub use tunings::{Ways, digits_past};
