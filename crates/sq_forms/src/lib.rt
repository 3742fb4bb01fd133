//! The forms of a program under its mapping: which instance runs with which extents, and what it accesses.
#![tactic(auto)]

pub mod args;
pub mod call;
pub mod decls;
mod faults;
mod form;
mod forms;
mod known;
pub mod ranges;
mod stmt;
mod tables;
pub mod tally;
mod walk;
mod world;

pub use form::{Caller, Form, Found, Key, LocalArray, Use};
pub use forms::{Resolving, entry_params, resolve_forms};
pub use known::{Array, Blocks, Known};
pub use sq_mapping::{Instance, Machine, Mapping, Node};
pub use stmt::reduced_by;
pub use tables::{RoutesByTask, SettingsByName, Variants};
pub use walk::Walk;
pub use world::{Callee, Frame, callee_of};
