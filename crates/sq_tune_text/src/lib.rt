//! What is told of the choices of a mapping: the traffic of a plan, and the text of a table.
#![tactic(auto)]

mod adding;
mod settings;
mod table;
mod traffic;

pub use table::put_table;
pub use traffic::plan_traffic;
