//! The nodes of a machine, level by level from the left.

ghost use Rattle.std.specs.Prelude.{◌≡◌, ◌+◌, ◌<◌, ◌≤◌, ◌^◌, [], ◌∷◌, IfOk, OnOk, length, replicate};
ghost use Rattle.sq_text.specs.Limits.{most_levels, most_nodes};
ghost use Rattle.sq_machfile.specs.Nodes.{total, children_of, linked};
ghost use Rattle.sq_machfile.specs.Machines.{even_node, even_nodes, node_of, nodes_of_depth, by_level};
ghost use Rattle.sq_machfile.specs.Tallies.{Adds};

use crate::level::Level;
use crate::nested::Nested;
use crate::node::Node;
use sqlite_items::Items;
use std::alloc::{AllocError, Global};

/// Nodes that are put one behind another, and where the children of the next one begin.
#[derive(Drop)]
pub struct Tree {
    pub nodes: Items<Node>,
    pub next: u32,
}

impl Tree {
    fn new(alloc: Global) -> Tree
        ensures nodes { result.nodes ≡ [] }
        ensures next { result.next ≡ 1 }
    {
        Tree {
            nodes: Items::new(alloc),
            next: 1,
        }
    }

    // Puts a node at the end.
    fn add(&mut self, node: Node) -> Result<(), AllocError>
        requires { self.old.next + node.children < 2 ^ 32 }
        ensures added { OnOk result (Adds self.old self.new (node ∷ [])) }
        ensures next { OnOk result (self.new.next ≡ self.old.next + node.children) }
    {
        let next = self.next + node.children;
        let first_child = if node.children == 0 { 0 } else { self.next };
        self.nodes.push(Node {
            name: node.name,
            level: node.level,
            capacity: node.capacity,
            first_child,
            children: node.children,
        })?;
        self.next = next;
        Ok(())
    }

    // Puts the nodes of a level, which are all alike.
    fn add_even(&mut self, index: u32, level: &Level, width: u32) -> Result<(), AllocError>
        requires { self.old.next + total children_of (replicate width (even_node index level.now)) < 2 ^ 32 }
        ensures added { OnOk result (Adds self.old self.new (replicate width (even_node index level.now))) }
        ensures next { OnOk result (self.new.next ≡ self.old.next + total children_of (replicate width (even_node index level.now))) }
    {
        for _made in 0..width {
            self.add(Node {
                name: None,
                level: index,
                capacity: level.capacity,
                first_child: 0,
                children: level.children,
            })?;
        }
        Ok(())
    }

    // Puts a node of a text.
    fn add_node(&mut self, alloc: Global, level: u32, node: &Nested) -> Result<(), AllocError>
        requires room { self.old.next + node.now.children < 2 ^ 32 }
        requires level { level ≡ node.now.depth }
        ensures added { OnOk result (Adds self.old self.new (node_of node.now ∷ [])) }
        ensures next { OnOk result (self.new.next ≡ self.old.next + node.now.children) }
    {
        let name = node.name.name.copy(alloc)?;
        self.add(Node {
            name: Some(name),
            level,
            capacity: node.capacity.value,
            first_child: 0,
            children: node.children as u32,
        })?;
        Ok(())
    }

    // Puts the nodes of one depth.
    fn add_depth(&mut self, alloc: Global, level: u32, nodes: &[Nested]) -> Result<(), AllocError>
        requires { self.old.next + total children_of (nodes_of_depth level nodes.now) < 2 ^ 32 }
        ensures added { OnOk result (Adds self.old self.new (nodes_of_depth level nodes.now)) }
        ensures next { OnOk result (self.new.next ≡ self.old.next + total children_of (nodes_of_depth level nodes.now)) }
    {
        for node in nodes {
            if node.depth == level as usize {
                self.add_node(alloc, level, node)?;
            }
        }
        Ok(())
    }
}

/// The nodes of levels in each of which all nodes are alike.
pub fn even_nodes(alloc: Global, levels: &[Level]) -> Result<Items<Node>, AllocError>
    requires few { length levels.now ≤ most_levels }
    requires children { total children_of (even_nodes 0 1 levels.now) ≤ most_nodes }
    ensures { IfOk result (λ nodes. nodes ≡ linked 1 (even_nodes 0 1 levels.now)) }
{
    let mut tree = Tree::new(alloc);
    let mut width: u32 = 1;
    let mut index: u32 = 0;
    for level in levels {
        tree.add_even(index, level, width)?;
        width *= level.children;
        index += 1;
    }
    Ok(tree.nodes)
}

/// The nodes of a text by their depths, for so many levels.
pub fn uneven_nodes(alloc: Global, levels: u32, nodes: &[Nested]) -> Result<Items<Node>, AllocError>
    requires { total children_of (by_level 0 levels nodes.now) ≤ most_nodes }
    ensures { IfOk result (λ found. found ≡ linked 1 (by_level 0 levels nodes.now)) }
{
    let mut tree = Tree::new(alloc);
    for level in 0..levels {
        tree.add_depth(alloc, level, nodes)?;
    }
    Ok(tree.nodes)
}
