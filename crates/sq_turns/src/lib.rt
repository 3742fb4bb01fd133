//! Turns of a loop of leaf code, run together where what they do is known before the first of them.
//!
//! `try_turns` is the one way in: it runs a block of turns, or answers false and has changed nothing. It looks at what a
//! loop's body computes as lines of numbers, one for each turn, and at where it writes; what is then performed are puts
//! of lines, or deeds (sq_deeds). The rest tells which loops are worth it.
#![tactic(auto)]

mod block;
mod blocks;
mod frame;
mod history;
mod lines;
mod outlook;
mod plan;
mod setting;
mod values;
mod works;

pub use blocks::try_turns;
pub use frame::Frame;
pub use history::{FEW, Memo};
pub use lines::COLUMN;
pub use sq_columns::numbers::{binary, unary};
pub use sq_deeds::{assigned, load, store};
pub use works::may_plan;
