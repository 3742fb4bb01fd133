//! What is chosen for the forms of a program, what is known of these by their numbers, and which of their arrays have
//! buffers.
#![tactic(auto)]

mod arrays;
mod choice;
mod forms;

pub use arrays::{array_size, flag_at, is_moved, number_at};
pub use choice::{Choice, Chosen, choice_at};
pub use forms::{drop_body, form_number, instance_at, level_at, name_at, rule_at};
pub use sq_spec_laws::{Body, FormBody, Instance, Resolved};
