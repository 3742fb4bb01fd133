//! What forms need, and what their nodes have.

/// Of a form: the bytes of its buffers, those that it has twice where the loop that calls it overlaps its transfers, and
/// the least capacity of the nodes at which it runs.
#[derive(Clone, Copy, Debug)]
pub struct Room {
    pub own: u64,
    pub more: u64,
    pub room: u64,
}
