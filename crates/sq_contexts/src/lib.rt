//! Where a part of a form's term stands, and where its arrays do.
#![tactic(auto)]

mod context;
mod entry;
mod lanes;
mod numbers;
mod places;

pub use context::{LocalArrays, at_child_already, call_child, copy_lists, in_callee, in_map};
pub use entry::entry_context;
pub use lanes::{at_iteration, iteration, lane_at, lift_context, lift_lane, whole_lane};
pub use numbers::{count_num, pick_at, signed, start_table};
pub use places::{block_view, buffer_view, own_view, push_local_buffers};
