//! What the lines of a plan file say of nodes and buffers.

ghost use Rattle.std.specs.Prelude.{◌≡◌};
ghost use Rattle.sq_ir.specs.Plans.{node_at};
ghost use Rattle.sq_planfile.specs.Files.{node_of, nodes_of};
ghost use Rattle.sq_planevents.specs.Lines as spec;

use crate::shapes::LeafShapes;
use sq_plantext::{NodeLine, PlanText};
use std::alloc::Global;

/// The lines of a plan file, and what its leaves' arrays are.
#[derive(Clone, Copy)]
pub(crate) struct Lines<'a> {
    pub alloc: Global,
    pub text: &'a PlanText,
    pub leaves: &'a [LeafShapes],
}

/// Where a buffer is.
#[derive(Clone, Copy, Debug, PartialEq, Eq)]
pub(crate) struct Room {
    pub level: u64,
    pub offset: u64,
    pub size: u64,
}

impl Lines<'_> {
    /// Where a buffer is; one that isn't there is empty.
    pub fn room(&self, buffer: u64) -> Room
        ensures { result ≡ spec.room_of self.now.text.now buffer }
    {
        match self.text.buffers.get(buffer as usize) {
            Some(line) => Room {
                level: line.level,
                offset: line.offset,
                size: line.size,
            },
            None => Room {
                level: 0,
                offset: 0,
                size: 0,
            },
        }
    }

    /// Whether a buffer is there and has this level.
    pub fn is_at(&self, level: u128, buffer: u64) -> bool
        ensures { result ≡ spec.is_at self.now.text.now level buffer }
    {
        match self.text.buffers.get(buffer as usize) {
            Some(line) => u128::from(line.level) == level,
            None => false,
        }
    }

    /// A node; one that isn't there has no bytes and no children.
    pub fn node(&self, node: u64) -> NodeLine
        ensures { node_of result ≡ node_at (nodes_of self.now.text.now) node }
    {
        match self.text.nodes.get(node as usize) {
            Some(line) => *line,
            None => NodeLine {
                level: 0,
                capacity: 0,
                first_child: 0,
                children: 0,
            },
        }
    }
}
