//! The limits that more than one crate keeps to.

/// Bytes of a program, a machine, a mapping or a cost file.
pub const TEXT_BYTES: usize = 1_048_576;

/// Bytes of a plan file.
pub const PLAN_BYTES: usize = 16_777_216;

/// Bytes of a data file or an order list.
pub const DATA_BYTES: usize = 268_435_456;

/// Nodes of a machine.
pub const NODES: usize = 4096;

/// Bytes of a node.
pub const NODE_BYTES: u64 = 1 << 30;
