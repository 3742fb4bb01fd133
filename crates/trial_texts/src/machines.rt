//! Machines: their levels, and the first of their nodes.

use crate::tokens::add_name;
use sq_machfile::{Level, Machine, Node, read_machine};
use std::alloc::{AllocError, Global};
use std::fmt::Write;

const MOST_NODES: usize = 8;

pub fn add(alloc: Global, text: &[u8], out: &mut String) -> Result<(), AllocError> {
    match read_machine(alloc, text) {
        Ok(machine) => {
            add_levels(&machine, out)?;
            add_nodes(machine.tree(), out)
        }
        Err(_) => out.push_str(" none"),
    }
}

fn add_levels(machine: &Machine, out: &mut String) -> Result<(), AllocError> {
    let levels = machine.levels();
    for (i, level) in levels.iter().enumerate() {
        if i < levels.len() {
            add_level(level, machine.nodes(i), out)?;
        }
    }
    Ok(())
}

fn add_level(level: &Level, nodes: u32, out: &mut String) -> Result<(), AllocError> {
    out.push_str("\n  level ")?;
    add_name(&level.name, out)?;
    let Level {
        capacity,
        children,
        ..
    } = level;
    write!(
        out,
        ": nodes {nodes}, bytes {capacity}, children {children}"
    )
}

fn add_nodes(nodes: &[Node], out: &mut String) -> Result<(), AllocError> {
    if nodes.len() > MOST_NODES {
        return Ok(());
    }
    for node in nodes {
        out.push_str("\n  node ")?;
        match &node.name {
            Some(name) => add_name(name, out)?,
            None => out.push_str("-")?,
        }
        add_node(node, out)?;
    }
    Ok(())
}

fn add_node(node: &Node, out: &mut String) -> Result<(), AllocError> {
    let Node {
        level,
        capacity,
        first_child,
        children,
        ..
    } = node;
    write!(
        out,
        ": level {level}, bytes {capacity}, children {children} from {first_child} on"
    )
}
