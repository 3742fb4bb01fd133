//! The names of a plan's scopes, by a walk over its term.

ghost use Rattle.std.specs.Prelude.{◌≡◌, ◌++◌, map, IfOk, OnOk};
ghost use Rattle.sq_rooms.specs.Terms as spec;
ghost use Rattle.sq_rooms.specs.Names.{names_at};
ghost use Rattle.sq_rooms.specs.Lists.{joined};

use crate::inside::inside;
use crate::named::{Named, Names, behind};
use sq_ir::{Plan, PlanNode, Term};
use sqlite_items::Items;
use std::alloc::{AllocError, Global};

// The names of one scope.
fn put_names(
    node: u32,
    buffers: &[u32],
    first: u32,
    end: u32,
    names: &mut Names,
) -> Result<(), AllocError>
    ensures { OnOk result (names.new ≡ names.old ++ names_at node first end buffers.now) }
{
    for buffer in buffers {
        let buffer = *buffer;
        names.push(Named {
            node,
            buffer,
            first,
            end,
        })?;
    }
    Ok(())
}

// The lists behind others, the last one first.
fn join(lists: Items<Names>, names: &mut Names) -> Result<(), AllocError>
    ensures { OnOk result (names.new ≡ names.old ++ joined lists) }
{
    let mut left = lists;
    while let Some(list) = left.pop() {
        names.append(list)?;
    }
    Ok(())
}

// Puts the names of a part behind others.
#[cycle(walking)]
fn walk(
    alloc: Global,
    nodes: &[PlanNode],
    term: &Term,
    node: u32,
    first: u32,
    names: &mut Names,
) -> Result<(), AllocError>
    ensures { OnOk result (names.new ≡ names.old ++ spec.part nodes.now term.now node first) }
{
    match term {
        Term::Skip => Ok(()),
        Term::Act(_) => Ok(()),
        Term::Seq(parts) => walk_parts(alloc, nodes, parts.as_slice(), node, first, names),
        Term::Par(parts) => walk_beside(alloc, nodes, parts.as_slice(), node, first, names),
        Term::Loop { count: _, body: _ } => Ok(()),
        Term::Spread {
            count: _,
            rule: _,
            body: _,
        } => Ok(()),
        Term::Case { pick: _, arms: _ } => Ok(()),
        Term::Within {
            child,
            buffers,
            body,
        } => {
            let node = inside(nodes, node, child)?;
            let buffers = buffers.as_slice();
            walk_scope(alloc, nodes, node, buffers, body.get(), first, names)
        }
    }
}

// A scope at a node, behind what stands in it.
#[cycle(walking)]
fn walk_scope(
    alloc: Global,
    nodes: &[PlanNode],
    node: u32,
    buffers: &[u32],
    body: &Term,
    first: u32,
    names: &mut Names,
) -> Result<(), AllocError>
    ensures { OnOk result (names.new ≡ names.old ++ spec.scoped node buffers.now first (spec.part nodes.now body.now
        node first)) }
{
    let from = names.len();
    walk(alloc, nodes, body, node, first, names)?;
    let inner = behind(first, names.len() - from)?;
    let end = behind(inner, buffers.len())?;
    put_names(node, buffers, first, end, names)
}

// Parts in turn: each has the numbers behind those of the parts before it.
#[cycle(walking)]
fn walk_parts(
    alloc: Global,
    nodes: &[PlanNode],
    parts: &[Term],
    node: u32,
    first: u32,
    names: &mut Names,
) -> Result<(), AllocError>
    ensures { OnOk result (names.new ≡ names.old ++ spec.in_turn (map (spec.part nodes.now) parts.now) node first) }
{
    let mut next = first;
    for part in parts {
        let from = names.len();
        walk(alloc, nodes, part, node, next, names)?;
        next = behind(next, names.len() - from)?;
    }
    Ok(())
}

// Parts beside one another: each has the numbers behind those of the parts after it.
#[cycle(walking)]
fn walk_beside(
    alloc: Global,
    nodes: &[PlanNode],
    parts: &[Term],
    node: u32,
    first: u32,
    names: &mut Names,
) -> Result<(), AllocError>
    ensures { OnOk result (names.new ≡ names.old ++ spec.beside (map (spec.part nodes.now) parts.now) node first) }
{
    let lists = walk_back(alloc, nodes, parts, node, first)?;
    join(lists, names)
}

// The names of parts beside one another, from the last part to the first.
#[cycle(walking)]
fn walk_back(
    alloc: Global,
    nodes: &[PlanNode],
    parts: &[Term],
    node: u32,
    first: u32,
) -> Result<Items<Names>, AllocError>
    ensures { IfOk result (λ lists. joined lists ≡ spec.beside (map (spec.part nodes.now) parts.now) node first) }
{
    let mut lists = Items::new(alloc);
    let mut next = first;
    let mut i = parts.len();
    while i > 0 {
        i -= 1;
        let mut list = Items::new(alloc);
        walk(alloc, nodes, &parts[i], node, next, &mut list)?;
        next = behind(next, list.len())?;
        lists.push(list)?;
    }
    Ok(lists)
}

/// What the scopes of a plan name. Those of a loop or of a choice are left out.
pub(crate) fn names_of(alloc: Global, plan: &Plan) -> Result<Names, AllocError>
    ensures { IfOk result (λ names. names ≡ spec.plan_names plan.now) }
{
    let mut names = Items::new(alloc);
    let nodes = plan.nodes.as_slice();
    let entry = plan.draft.entry.as_slice();
    walk_scope(alloc, nodes, 0, entry, &plan.draft.term, 0, &mut names)?;
    Ok(names)
}
