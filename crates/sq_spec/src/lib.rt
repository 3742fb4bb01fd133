//! A program with its forms under a mapping: what each form does, and what the program means.
#![tactic(auto)]

mod bodies;
mod body;
pub mod laws;
pub mod meaning;
mod resolved;
mod spreads;
mod statement;

pub use body::{Body, FormBody};
pub use resolved::{Resolved, resolve};
pub use spreads::{any_lower, any_same, is_spread};
pub use sq_form_laws::laws::{callers_come_first, forms_are_those_found};
pub use sq_form_laws::{Argument, Form, Instance, is_written};
pub use statement::{CallInstance, LoopKind, Statement};
