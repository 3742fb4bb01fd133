//! Places for the buffers of a draft.

ghost use Rattle.std.specs.Prelude.{◌≡◌, ◌<◌, ◌^◌, length, IfErr, IfOk};
ghost use Rattle.sq_store.specs.declared.fitting.StoreFault.TheVariants.{Capacity};
ghost use Rattle.sq_nests.specs.Drafts.{IsPlaceable};
ghost use Rattle.sq_store.specs.Place.{excess, keep, or_worse, lack_at, worst_of, IsPlaced, IsRefusal, IsRoomFor};

use crate::stack::offsets_of;
use sq_ir::{Draft, Offsets, Plan, PlanNode, PlanNodes};
use sq_sums::{Sums, nested_sums};
use std::alloc::Global;

/// Why a draft has no place: a node needs more than its capacity, or memory was wanting.
#[derive(Clone, Copy, Debug, Drop, PartialEq, Eq)]
pub enum StoreFault {
    Capacity { node: u32, need: u64, capacity: u64 },
    NoMemory,
}

/// A node that needs more than its capacity.
#[derive(Clone, Copy, Drop)]
pub(crate) struct Lack {
    pub(crate) node: usize,
    pub(crate) level: u32,
    pub(crate) need: u64,
    pub(crate) capacity: u64,
}

fn excess_of(lack: Lack) -> u64
    ensures { result ≡ excess lack }
{
    lack.need.saturating_sub(lack.capacity)
}

// Of two lacks that of the lesser level, there the greater one, and of equal ones the old one.
fn keep(old: Option<Lack>, new: Lack) -> Option<Lack>
    ensures { result ≡ keep old new }
{
    match old {
        None => Some(new),
        Some(lack) => {
            if new.level < lack.level
                || (new.level == lack.level && excess_of(lack) < excess_of(new))
            {
                Some(new)
            } else {
                Some(lack)
            }
        }
    }
}

// What a node lacks, if anything.
fn lack_at(nodes: &[PlanNode], sums: &Sums, i: usize) -> Option<Lack>
    requires there { i < length nodes.now }
    requires sums { length sums.now ≡ length nodes.now }
    ensures { result ≡ lack_at nodes.now sums.now i }
{
    let node = nodes[i];
    let need = sums.as_slice()[i];
    if node.capacity < need {
        Some(Lack {
            node: i,
            level: node.level,
            need,
            capacity: node.capacity,
        })
    } else {
        None
    }
}

// One node more.
fn worse(old: Option<Lack>, nodes: &[PlanNode], sums: &Sums, i: usize) -> Option<Lack>
    requires there { i < length nodes.now }
    requires sums { length sums.now ≡ length nodes.now }
    ensures { result ≡ or_worse old (lack_at nodes.now sums.now i) }
{
    match lack_at(nodes, sums, i) {
        None => old,
        Some(lack) => keep(old, lack),
    }
}

// The lack that counts, if there is one.
fn worst_of(nodes: &[PlanNode], sums: &Sums) -> Option<Lack>
    requires { length sums.now ≡ length nodes.now }
    ensures { result ≡ worst_of nodes.now sums.now (length nodes.now) }
{
    let mut worst = None;
    for i in 0..nodes.len() {
        worst = worse(worst, nodes, sums, i);
    }
    worst
}

// The number of a node; of a machine each fits.
fn node_number(node: usize) -> u32
    ensures { node < 2 ^ 32 → result ≡ node }
{
    if node < 4_294_967_296 { node as u32 } else { 0 }
}

// The refusal of a lack.
fn refusal(lack: Lack) -> StoreFault
    ensures { lack.node < 2 ^ 32 → result ≡ Capacity lack.node lack.need lack.capacity }
{
    StoreFault::Capacity {
        node: node_number(lack.node),
        need: lack.need,
        capacity: lack.capacity,
    }
}

// The offsets of a draft's buffers, or why they have none.
fn room_for(alloc: Global, d: &Draft, nodes: &PlanNodes) -> Result<Offsets, StoreFault>
    ensures room { IfOk result (λ offsets. IsPlaceable d.now nodes.now → IsRoomFor d.now nodes.now offsets) }
    ensures over { IfErr result (λ fault. IsPlaceable d.now nodes.now → IsRefusal d.now nodes.now fault) }
{
    match nested_sums(alloc, d, nodes) {
        Err(_) => Err(StoreFault::NoMemory),
        Ok(sums) => match worst_of(nodes.as_slice(), &sums) {
            Some(lack) => Err(refusal(lack)),
            None => match offsets_of(alloc, d) {
                Err(_) => Err(StoreFault::NoMemory),
                Ok(offsets) => Ok(offsets),
            },
        },
    }
}

/// The plan of a draft on these memories: the buffers of each level lie one behind the other, those of inner scopes
/// behind those of the scopes round them. Refused exactly where the greatest sum of the sizes of buffers whose scopes
/// stand within one another at a node exceeds the node's capacity: in the first level that has such a node, that with
/// the greatest excess, the first of these. In each state of the plan, whether or not a run reaches it, the live
/// buffers of a node share no byte and lie below its capacity. What it tells is asked of drafts whose numbers have
/// their values and whose scopes stand as those of a compiled program do.
pub fn place(alloc: Global, d: Draft, nodes: PlanNodes) -> Result<Plan, StoreFault>
    ensures placed { IfOk result (λ plan. IsPlaceable d nodes → IsPlaced d nodes plan) }
    ensures over { IfErr result (λ fault. IsPlaceable d nodes → IsRefusal d nodes fault) }
{
    match room_for(alloc, &d, &nodes) {
        Err(fault) => {
            drop(d);
            Err(fault)
        }
        Ok(offsets) => Ok(Plan {
            draft: d,
            offsets,
            nodes,
        }),
    }
}
