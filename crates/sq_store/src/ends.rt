//! Where the buffers of a placed level end.

ghost use Rattle.std.specs.Prelude.{◌≡◌, ◌+◌, ◌<◌, length, get_or};
ghost use Rattle.sq_store.specs.Ends as ends;
ghost use Rattle.sq_store.specs.Ends.{end_at, greatest_end_of};

use crate::stack::capped_sum;
use sq_ir::{Buffer, Plan};

// The offset of a buffer; 0 where it has none.
#[tactic(auto, using(crate::proofs::Lists::past))]
fn offset_at(offsets: &[u64], b: usize) -> u64
    ensures { result ≡ get_or offsets.now b 0 }
{
    if b < offsets.len() { offsets[b] } else { 0 }
}

// The end of a buffer of the level; of another it is 0.
fn end_at(buffers: &[Buffer], offsets: &[u64], level: u32, b: usize) -> u64
    ensures { result ≡ end_at buffers.now offsets.now level b }
{
    match sqlite_items::at(buffers, b) {
        None => 0,
        Some(buffer) => {
            if buffer.level == level {
                capped_sum(offset_at(offsets, b), buffer.size)
            } else {
                0
            }
        }
    }
}

/// The greatest end of a buffer of a level, in bytes; 0 where the level has none.
pub fn greatest_end(plan: &Plan, level: u32) -> u64
    ensures { result ≡ ends.greatest_end plan.now level }
{
    let buffers = plan.draft.buffers.as_slice();
    let offsets = plan.offsets.as_slice();
    let mut greatest = 0;
    for b in 0..buffers.len() {
        let end = end_at(buffers, offsets, level, b);
        if greatest < end {
            greatest = end;
        }
    }
    greatest
}
