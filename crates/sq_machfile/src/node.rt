//! Nodes of a machine.

use sq_text::Name;

/// A node: one memory, and its place among the others.
#[derive(Debug, Drop)]
pub struct Node {
    /// Its name in a file of version 2.
    pub name: Option<Name>,
    /// 0 for the root.
    pub level: u32,
    /// In bytes, at most 2^30.
    pub capacity: u64,
    /// The index of its first child among the nodes of the machine; 0 where it has none.
    pub first_child: u32,
    /// 1 to 64, and 0 at the last level.
    pub children: u32,
}
