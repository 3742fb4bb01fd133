//! Places in the root's memory.

/// Where an array stands in the root's memory: its first byte and how many bytes it has.
#[derive(Clone, Copy)]
pub struct Place {
    pub at: usize,
    pub size: usize,
}
