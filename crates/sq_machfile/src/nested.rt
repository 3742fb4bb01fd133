//! How many nodes stand in each node.

ghost use Rattle.std.specs.Prelude.{◌≡◌, ℕ, suc, IfOk, OnOk, get_or};
ghost use Rattle.sq_machfile.specs.Nesting as spec;
ghost use Rattle.sq_machfile.specs.Nesting.{siblings_behind};

use crate::text::NodeText;
use sq_text::{Numeral, Word};
use sqlite_items::Items;
use std::alloc::{AllocError, Global};

/// A node of a text, with the number of the nodes that stand right in it.
#[derive(Debug, Drop)]
pub struct Nested {
    pub depth: usize,
    pub name: Word,
    pub capacity: Numeral,
    pub children: u64,
}

// Of each depth the number of nodes up to the first that is less deep, when a node of this depth stands before them.
fn count(counts: &mut Vec<u64>, depth: usize) -> Result<(), AllocError>
    ensures { OnOk result ((d : ℕ) → get_or counts.new.items d 0 ≡ siblings_behind depth d (get_or counts.old.items d 0)) }
{
    let count = counts.get(depth).copied().unwrap_or(0);
    let more = count.checked_add(1).ok_or(AllocError)?;
    counts.resize(depth, 0)?;
    counts.push(more)?;
    Ok(())
}

/// The nodes, each with the number of its children.
pub fn with_children(alloc: Global, nodes: Items<NodeText>) -> Result<Items<Nested>, AllocError>
    ensures { IfOk result (λ all. all ≡ spec.nested nodes) }
{
    let mut nodes = nodes;
    let mut counts = Vec::new(alloc);
    let mut found = Vec::new(alloc);
    for _turn in 0..nodes.len() {
        if let Some(node) = nodes.pop() {
            let depth = node.depth;
            let children = children_at(&counts, depth)?;
            found.push(Nested {
                depth,
                name: node.name,
                capacity: node.capacity,
                children,
            })?;
            count(&mut counts, depth)?;
        }
    }
    found.reverse();
    Ok(Items::from_vec(found))
}

// The number of nodes that are one deeper.
fn children_at(counts: &[u64], depth: usize) -> Result<u64, AllocError>
    ensures { IfOk result (λ n. n ≡ get_or counts.now (suc depth) 0) }
{
    let deeper = depth.checked_add(1).ok_or(AllocError)?;
    Ok(counts.get(deeper).copied().unwrap_or(0))
}
