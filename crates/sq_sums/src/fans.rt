//! How many children the nodes of each level have, where all nodes of a level have equally many.

ghost use Rattle.std.specs.Prelude.{◌≡◌, get_or, [], IfOk, OnOk};
ghost use Rattle.sq_sums.specs.Fans.{with_fan, fans_past, fans_inside, are_even};

use sq_ir::{Num, PlanNode};
use sqlite_items::Items;
use std::alloc::{AllocError, Global};

/// How many children are told of a level.
#[tactic(auto, using(crate::proofs::Lists::past))]
pub(crate) fn fan_at(fans: &[u32], level: u32) -> u32
    ensures { result ≡ get_or fans.now level 0 }
{
    let level = level as usize;
    if level < fans.len() { fans[level] } else { 0 }
}

// The first node of a level tells of it.
fn tell(node: PlanNode, fans: &mut Items<u32>) -> Result<(), AllocError>
    ensures { OnOk result (fans.new ≡ with_fan node fans.old) }
{
    if node.level as usize == fans.len() {
        fans.push(node.children)?;
    }
    Ok(())
}

/// The number of children of the first node of each level, from the root's on.
pub(crate) fn fans_of(alloc: Global, nodes: &[PlanNode]) -> Result<Items<u32>, AllocError>
    ensures { IfOk result (λ fs. fs ≡ fans_past nodes.now []) }
{
    let mut fans = Items::new(alloc);
    for node in nodes {
        tell(*node, &mut fans)?;
    }
    Ok(fans)
}

/// Whether each node has as many children as are told of its level.
pub(crate) fn are_even(nodes: &[PlanNode], fans: &[u32]) -> bool
    ensures { result ≡ are_even nodes.now fans.now }
{
    for node in nodes {
        if fan_at(fans, node.level) != node.children {
            return false;
        }
    }
    true
}

/// What is told inside a scope: at a child of the levels from the next one on.
pub(crate) fn fans_inside<'a>(fans: &'a [u32], child: &Option<Num>) -> &'a [u32]
    ensures { result.now ≡ fans_inside child.now fans.now }
{
    match child {
        None => fans,
        Some(_) => match fans {
            [] => fans,
            [_, below @ ..] => below,
        },
    }
}
