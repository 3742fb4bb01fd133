//! Whether the nodes of a plan file are those of a machine.

ghost use Rattle.std.specs.Prelude.{◌≡◌, ◌^◌, length, option_map};
ghost use Rattle.std.specs.List.{list_all};
ghost use Rattle.sq_planheads.specs.Nodes as spec;

use sq_plantext::NodeLine;

const MOST_NODES: usize = 4096;

const MOST_LEVELS: u64 = 8;

const MOST_CHILDREN: u64 = 64;

/// The most bytes of a node.
const MOST_BYTES: u64 = 1 << 30;

/// The most bytes of all nodes together.
const MOST_BYTES_OF_ALL: u64 = 1 << 31;

fn deeper(level: u64, node: &NodeLine) -> u64
    ensures { result ≡ spec.deeper level node.now }
{
    if level < node.level {
        node.level
    } else {
        level
    }
}

/// The deepest level of the nodes.
pub(crate) fn deepest(nodes: &[NodeLine]) -> u64
    ensures { result ≡ spec.deepest 0 nodes.now }
{
    let mut level = 0;
    for node in nodes {
        level = deeper(level, node);
    }
    level
}

// Whether a node is within the limits, and has children where it is above the last level.
fn is_node(last: u64, node: &NodeLine) -> bool
    ensures { result ≡ spec.is_node last node.now }
{
    let is_small = node.capacity <= MOST_BYTES && node.children <= MOST_CHILDREN;
    is_small
        && if node.level == last {
            node.children == 0
        } else {
            node.children != 0
        }
}

fn are_small(last: u64, nodes: &[NodeLine]) -> bool
    ensures { result ≡ list_all (spec.is_node last) nodes.now }
{
    nodes.iter().all(|node| is_node(last, node))
}

fn is_below(node: &NodeLine, child: &NodeLine) -> bool
    ensures { result ≡ spec.is_below node.now child.now }
{
    node.level < child.level && child.level - node.level == 1
}

fn are_children(node: &NodeLine, children: &[NodeLine]) -> bool
    ensures { result ≡ list_all (spec.is_below node.now) children.now }
{
    children.iter().all(|child| is_below(node, child))
}

// What is left behind the children of a node, where these stand first.
fn past_children<'a>(node: &NodeLine, left: &'a [NodeLine]) -> Option<&'a [NodeLine]>
    ensures { option_map (λ rest. rest.now) result ≡ spec.past_children node.now left.now }
{
    if (left.len() as u64) < node.children {
        return None;
    }
    let (children, rest) = left.split_at(node.children as usize);
    if are_children(node, children) {
        Some(rest)
    } else {
        None
    }
}

// Whether the first child of a node is said to have this index.
fn begins_at(index: usize, node: &NodeLine) -> bool
    ensures { result ≡ spec.begins_at index node.now }
{
    let first = if node.children == 0 { 0 } else { index as u64 };
    node.first_child == first
}

// Whether the nodes are in turn the parents of those that are left.
fn are_parents(mut left: &[NodeLine], nodes: &[NodeLine]) -> bool
    ensures { result ≡ spec.are_parents (length nodes.now) left.now nodes.now }
{
    for node in nodes {
        if !begins_at(nodes.len().saturating_sub(left.len()), node) {
            return false;
        }
        let Some(rest) = past_children(node, left) else {
            return false;
        };
        left = rest;
    }
    left.is_empty()
}

// Whether they stand level by level, and in each level from the left.
fn are_arranged(nodes: &[NodeLine]) -> bool
    ensures { result ≡ spec.are_arranged nodes.now }
{
    match nodes.split_first() {
        None => false,
        Some((root, later)) => root.level == 0 && are_parents(later, nodes),
    }
}

// Whether all nodes together aren't too large.
fn has_room(nodes: &[NodeLine]) -> bool
    ensures { result ≡ spec.has_room (2 ^ 31) nodes.now }
{
    let mut left = MOST_BYTES_OF_ALL;
    for node in nodes {
        if left < node.capacity {
            return false;
        }
        left -= node.capacity;
    }
    true
}

/// Whether the nodes, of which this level is the deepest, are those of a machine.
pub(crate) fn are_nodes(last: u64, nodes: &[NodeLine]) -> bool
    ensures { result ≡ spec.are_nodes last nodes.now }
{
    nodes.len() <= MOST_NODES
        && last < MOST_LEVELS
        && are_small(last, nodes)
        && are_arranged(nodes)
        && has_room(nodes)
}
