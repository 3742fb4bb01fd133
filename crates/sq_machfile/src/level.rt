//! Levels of nodes.

use sq_text::Name;

/// A level of nodes.
#[derive(Debug, Drop)]
pub struct Level {
    pub name: Name,
    /// The least capacity of its nodes, in bytes, at most 2^30.
    pub capacity: u64,
    /// The greatest number of children of its nodes: 1 to 64, and 0 at the last level.
    pub children: u32,
}
