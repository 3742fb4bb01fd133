//! Terms and plans, the trees of events that they stand for, their runs, and what holds of every order.
#![tactic(auto)]

pub mod laws;
mod num;
mod numbers;
mod plan;
mod term;
mod traffic;

pub use num::Num;
pub use numbers::Numbers;
pub use plan::{
    Buffer, Buffers, Draft, Leaf, Leaves, Note, Notes, Offsets, Plan, PlanNode, PlanNodes,
};
pub use sq_leaf::{Argument, Dims, Shape, Trap, TrapKind, whole};
pub use term::{Action, BufferIds, LeafView, LeafViews, Nums, Slot, Term, Terms};
pub use traffic::{Carried, EventCounts};
