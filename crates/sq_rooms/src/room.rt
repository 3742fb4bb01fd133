//! Which buffers share a byte, and which pass a capacity.

ghost use Rattle.std.specs.Prelude.{◌≡◌};
ghost use Rattle.sq_ir.specs.Plans.{setting_of};
ghost use Rattle.sq_rooms.specs.Room as spec;

use sq_ir::Plan;

/// The offset of a buffer.
#[tactic(auto, using(crate::proofs::Places::past))]
pub(crate) fn offset_of(plan: &Plan, buffer: u32) -> u64
    ensures { result ≡ (setting_of plan.now).offset buffer }
{
    let offsets = plan.offsets.as_slice();
    let buffer = buffer as usize;
    if buffer < offsets.len() {
        offsets[buffer]
    } else {
        0
    }
}

/// The size of a buffer.
pub(crate) fn size_of(plan: &Plan, buffer: u32) -> u64
    ensures { result ≡ (setting_of plan.now).size buffer }
{
    match plan.draft.buffers.get(buffer as usize) {
        Some(buffer) => buffer.size,
        None => 0,
    }
}

// The capacity of a node.
#[tactic(auto, using(crate::proofs::Places::past))]
fn capacity_of(plan: &Plan, node: u32) -> u64
    ensures { result ≡ (setting_of plan.now).capacity node }
{
    let nodes = plan.nodes.as_slice();
    let node = node as usize;
    if node < nodes.len() {
        nodes[node].capacity
    } else {
        0
    }
}

fn is_in(at: u64, from: u64, size: u64) -> bool
    ensures { result ≡ spec.is_in at from size }
{
    from <= at && at - from < size
}

fn overlap(from: u64, size: u64, other: u64, more: u64) -> bool
    ensures { result ≡ spec.overlap from size other more }
{
    (0 < more && is_in(other, from, size)) || (0 < size && is_in(from, other, more))
}

fn is_past(capacity: u64, from: u64, size: u64) -> bool
    ensures { result ≡ spec.is_past capacity from size }
{
    capacity < from || capacity - from < size
}

/// Whether two buffers share a byte.
pub(crate) fn share(plan: &Plan, buffer: u32, other: u32) -> bool
    ensures { result ≡ spec.shares (setting_of plan.now) buffer other }
{
    let (from, size) = (offset_of(plan, buffer), size_of(plan, buffer));
    overlap(from, size, offset_of(plan, other), size_of(plan, other))
}

/// Whether a buffer passes the capacity of a node.
pub(crate) fn passes(plan: &Plan, node: u32, buffer: u32) -> bool
    ensures { result ≡ spec.passes (setting_of plan.now) node buffer }
{
    is_past(
        capacity_of(plan, node),
        offset_of(plan, buffer),
        size_of(plan, buffer),
    )
}
