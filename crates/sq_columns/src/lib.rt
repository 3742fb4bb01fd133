//! What the turns of a loop compute, an operator at a time, as columns of numbers.
#![tactic(auto)]

mod indices;
mod line;
mod loads;
pub mod numbers;
mod operators;

pub use indices::{along_line, is_inside_line};
pub use line::{Line, TURNS};
pub use loads::{load_line, times_elements};
pub use operators::{binary_line, least_line, most_line, unary_line};
