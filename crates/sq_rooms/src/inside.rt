//! The node of a scope's body.

ghost use Rattle.std.specs.Prelude.{◌≡◌, IfOk};
ghost use Rattle.sq_ir.specs.Plans.{node_at};
ghost use Rattle.sq_rooms.specs.Terms as spec;

use crate::named::behind;
use sq_ir::{Num, PlanNode};
use std::alloc::AllocError;

// A number that isn't negative; a negative one is 0.
fn natural(number: i64) -> u64
    ensures { result ≡ spec.natural number }
{
    if number < 0 { 0 } else { number as u64 }
}

// A number that is written out.
fn constant(number: &Num) -> u64
    ensures { result ≡ spec.constant number.now }
{
    match number {
        Num::Const(k) => natural(*k),
        Num::Index(_) => 0,
        Num::Add(_, _) => 0,
        Num::Sub(_, _) => 0,
        Num::Mul(_, _) => 0,
        Num::Div(_, _) => 0,
        Num::Rem(_, _) => 0,
        Num::Min(_, _) => 0,
        Num::Pick(_, _) => 0,
        Num::Children => 0,
    }
}

// The first child of a node.
#[tactic(auto, using(crate::proofs::Places::past))]
fn first_child(nodes: &[PlanNode], node: u32) -> u32
    ensures { result ≡ (node_at nodes.now node).first_child }
{
    let node = node as usize;
    if node < nodes.len() {
        nodes[node].first_child
    } else {
        0
    }
}

/// The node of a scope's body. One without a number of 32 bits is want of memory.
pub(crate) fn inside(nodes: &[PlanNode], node: u32, child: &Option<Num>) -> Result<u32, AllocError>
    ensures { IfOk result (λ n. n ≡ spec.inside nodes.now node child.now) }
{
    match child {
        None => Ok(node),
        Some(child) => behind(first_child(nodes, node), constant(child) as usize),
    }
}
