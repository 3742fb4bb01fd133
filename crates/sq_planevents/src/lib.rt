//! The events and scopes of a plan file: whether they are as a well formed plan asks, and which bad one is the first.
#![tactic(auto)]

mod call;
mod event;
mod lines;
mod rows;
mod scopes;
mod shapes;
mod standing;
mod twice;
mod views;
mod walk;

pub use walk::first_bad_event;
