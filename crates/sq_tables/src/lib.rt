//! What the tables of a form say of its calls and its loops.
#![tactic(auto)]

mod blocks;
mod cases;
mod leaving;
mod loops;
mod pipes;
mod tables;

pub use blocks::held_offsets;
pub use cases::{Arm, Arms, arms_of, picks};
pub use leaving::{Left, home_at, leaving_args};
pub use loops::{loops_in, op_of, rows_in, spread_of};
pub use pipes::{Pipe, pipe_of};
pub use sq_spec::{any_lower, any_same};
pub use sq_term::{Context, Home, Homes, Lane, Move};
pub use tables::{CallTable, table_of, tables_of};
