//! The levels of a machine.

ghost use Rattle.std.specs.Prelude.{◌≡◌, ◌<◌, ◌^◌, IfOk, length, map};
ghost use Rattle.sq_machfile.specs.Nodes.{at_level, capacity_of, children_of};
ghost use Rattle.sq_machfile.specs.Machines.{least, greatest, level_with, levels_of, named_levels};
ghost use Rattle.sq_machfile.specs.Tallies.{FewChildren};

use crate::level::Level;
use crate::node::Node;
use crate::text::{LevelText, LevelsText};
use sq_text::Word;
use sqlite_items::Items;
use std::alloc::{AllocError, Global};

/// How many of the nodes are of the level.
pub fn count_nodes(nodes: &[Node], level: usize) -> u32
    requires { length nodes.now < 2 ^ 32 }
    ensures { result ≡ length (at_level nodes.now level) }
{
    let mut count: u32 = 0;
    for node in nodes {
        if node.level as usize == level {
            count += 1;
        }
    }
    count
}

fn level_with(alloc: Global, text: &LevelText, children: u32) -> Result<Level, AllocError>
    ensures { IfOk result (λ level. level ≡ level_with text.now children) }
{
    let name = text.name.name.copy(alloc)?;
    Ok(Level {
        name,
        capacity: text.capacity.value,
        children,
    })
}

/// The levels of a text of version 1.
pub fn even_levels(alloc: Global, text: &LevelsText) -> Result<Items<Level>, AllocError>
    requires { FewChildren text.now.below }
    ensures { IfOk result (λ levels. levels ≡ levels_of text.now) }
{
    let mut levels = Items::new(alloc);
    let mut above = &text.root;
    for below in text.below.as_slice() {
        let level = level_with(alloc, above, below.children.value as u32)?;
        levels.push(level)?;
        above = &below.level;
    }
    let last = level_with(alloc, above, 0)?;
    levels.push(last)?;
    Ok(levels)
}

// The least capacity of the nodes of the level.
fn least_capacity(nodes: &[Node], level: u32) -> u64
    ensures { result ≡ least (map capacity_of (at_level nodes.now level)) }
{
    let mut least: Option<u64> = None;
    for node in nodes {
        if node.level == level {
            least = Some(match least {
                None => node.capacity,
                Some(least) => least.min(node.capacity),
            });
        }
    }
    least.unwrap_or(0)
}

// The greatest number of children of the nodes of the level.
fn most_children(nodes: &[Node], level: u32) -> u32
    ensures { result ≡ greatest (map children_of (at_level nodes.now level)) }
{
    let mut most: u32 = 0;
    for node in nodes {
        if node.level == level {
            most = most.max(node.children);
        }
    }
    most
}

/// The levels of these names, whose nodes these are.
pub fn uneven_levels(
    alloc: Global,
    nodes: &[Node],
    names: &[Word],
) -> Result<Items<Level>, AllocError>
    requires { length names.now < 2 ^ 32 }
    ensures { IfOk result (λ levels. levels ≡ named_levels 0 nodes.now names.now) }
{
    let mut levels = Items::new(alloc);
    let mut index: u32 = 0;
    for name in names {
        levels.push(Level {
            name: name.name.copy(alloc)?,
            capacity: least_capacity(nodes, index),
            children: most_children(nodes, index),
        })?;
        index += 1;
    }
    Ok(levels)
}
