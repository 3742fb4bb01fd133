//! Where a part of a plan file's term stands.

ghost use Rattle.std.specs.Prelude.{◌≡◌, ◌++◌, [], map, OnOk, IfOk, length, take};
ghost use Rattle.sq_planevents.specs.Standing as spec;
ghost use Rattle.sq_planevents.specs.Scoped as scoped;

use crate::lines::Lines;
use crate::scopes::Scopes;
use sq_plantext::ArrayLine;
use sqlite_items::Items;
use std::alloc::{AllocError, Global};

/// The nodes in force below the root, outermost first, and the buffers in scope.
#[derive(Drop)]
pub(crate) struct Standing {
    pub nodes: Items<u64>,
    pub scopes: Scopes,
}

// Buffers come into scope.
fn enter_buffers(buffers: &[u64], scopes: &mut Scopes) -> Result<(), AllocError>
    ensures { OnOk result (scopes.new ≡ scopes.old ++ buffers.now) }
{
    for buffer in buffers {
        scopes.enter(*buffer)?;
    }
    Ok(())
}

// The arrays' buffers come into scope.
fn enter_arrays(arrays: &[ArrayLine], scopes: &mut Scopes) -> Result<(), AllocError>
    ensures { OnOk result (scopes.new ≡ scopes.old ++ map (λ a. a.buffer) arrays.now) }
{
    for array in arrays {
        scopes.enter(array.buffer)?;
    }
    Ok(())
}

// All but the first so many nodes are no longer in force.
#[tactic(auto, using(crate::proofs::Dropped::all_dropped))]
fn leave_nodes(nodes: &mut Items<u64>, depth: usize)
    ensures { nodes.new ≡ take depth nodes.old }
{
    for _left in depth..nodes.len() {
        let _ = nodes.pop();
    }
}

impl Standing {
    /// At the root, where the arrays' buffers are in scope.
    pub fn at_root(
        alloc: Global,
        buffers: usize,
        arrays: &[ArrayLine],
    ) -> Result<Standing, AllocError>
        ensures { IfOk result (λ at. at ≡ record { nodes = []; scopes = map (λ a. a.buffer) arrays.now }) }
    {
        let mut scopes = Scopes::new(alloc, buffers)?;
        enter_arrays(arrays, &mut scopes)?;
        Ok(Standing {
            nodes: Items::new(alloc),
            scopes,
        })
    }

    /// The node in force at a level.
    pub fn node_in(&self, level: u64) -> u64
        ensures { result ≡ spec.node_in self.now.nodes level }
    {
        if level == 0 {
            return 0;
        }
        let nodes = self.nodes.as_slice();
        nodes.get((level - 1) as usize).copied().unwrap_or(0)
    }

    /// The level of the node in force.
    pub fn level(&self) -> u64
        ensures { result ≡ length self.now.nodes }
    {
        self.nodes.len() as u64
    }

    /// The node in force.
    pub fn here(&self) -> u64
        ensures { result ≡ spec.node_here self.now.nodes }
    {
        self.node_in(self.level())
    }

    /// Out of a scope that began behind so many nodes and so many names.
    pub fn leave(&mut self, depth: usize, count: usize)
        ensures { self.new ≡ record { nodes = take depth self.old.nodes; scopes = take count self.old.scopes } }
    {
        leave_nodes(&mut self.nodes, depth);
        self.scopes.leave(count);
    }
}

impl Lines<'_> {
    // Whether a node is a child of another.
    fn is_child(&self, here: u64, node: u64) -> bool
        ensures { result ≡ scoped.is_child self.now.text.now here node }
    {
        let line = self.node(here);
        line.first_child <= node && node - line.first_child < line.children
    }

    // The level of a scope's node.
    fn level_within(&self, at: &Standing, node: u64) -> u128
        ensures { result ≡ scoped.level_within at.now.nodes node }
    {
        let level = u128::from(at.level());
        if node == at.here() { level } else { level + 1 }
    }

    // Whether buffers are there and have this level.
    fn are_at(&self, level: u128, buffers: &[u64]) -> bool
        ensures { result ≡ scoped.are_at self.now.text.now level buffers.now }
    {
        for buffer in buffers {
            if !self.is_at(level, *buffer) {
                return false;
            }
        }
        true
    }

    /// Whether the node of a scope is the one in force or a child of it, and its buffers are there, at its level.
    pub fn is_scope(&self, at: &Standing, node: u64, buffers: &[u64]) -> bool
        ensures { result ≡ scoped.is_scope self.now.text.now at.now.nodes node buffers.now }
    {
        (node == at.here() || self.is_child(at.here(), node))
            && self.are_at(self.level_within(at, node), buffers)
    }

    // The node of a scope comes in force. One that is no child of the node in force counts as a child all the same.
    fn enter_node(&self, node: u64, at: &mut Standing) -> Result<(), AllocError>
        ensures { OnOk result (at.new ≡ record {
          nodes = scoped.inside_nodes self.now.text.now at.old.nodes node;
          scopes
              = at.old.scopes;
        }) }
    {
        let here = at.here();
        if node == here {
            return Ok(());
        }
        let first = self.node(here).first_child;
        let child = if node < first { first } else { node };
        at.nodes.push(child)
    }

    /// Into a scope.
    pub fn enter(&self, node: u64, buffers: &[u64], at: &mut Standing) -> Result<(), AllocError>
        ensures { OnOk result (at.new ≡ record {
          nodes = scoped.inside_nodes self.now.text.now at.old.nodes node;
          scopes
              = at.old.scopes ++ buffers.now;
        }) }
    {
        self.enter_node(node, at)?;
        enter_buffers(buffers, &mut at.scopes)
    }
}
