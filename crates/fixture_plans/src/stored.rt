//! What a plan has beside its term and its leaves.

ghost use Rattle.std.specs.Prelude.{◌≡◌, ◌∷◌, [], IfOk};
ghost use Rattle.sq_ir.specs.Examples as examples;
ghost use Rattle.fixture_plans.specs.Turns.{memory};

use sq_ir::{
    Buffer, BufferIds, Buffers, Draft, Leaf, Leaves, Offsets, Plan, PlanNode, PlanNodes, Term,
};
use sq_text::Name;
use sqlite_items::Items;
use std::alloc::{AllocError, Global};
use std::rc::Rc;

/// Buffers without names, of which the first is the entry's, each from the first byte on, and memories.
#[derive(Drop)]
pub(crate) struct Stored {
    pub(crate) buffers: Buffers,
    pub(crate) entry: BufferIds,
    pub(crate) offsets: Offsets,
    pub(crate) nodes: PlanNodes,
}

fn buffer(alloc: Global, level: u32, size: u64) -> Result<Buffer, AllocError>
    ensures { IfOk result (λ b. b ≡ examples.buffer level size) }
{
    let instance = Name::new(alloc, b"")?;
    let array = Name::new(alloc, b"")?;
    Ok(Buffer {
        level,
        size,
        instance,
        array,
    })
}

fn node(level: u32, capacity: u64, first_child: u32, children: u32) -> PlanNode
    ensures { result ≡ record { level = level; capacity = capacity; first_child = first_child; children = children } }
{
    PlanNode {
        level,
        capacity,
        first_child,
        children,
    }
}

/// One buffer, which is all of one memory.
pub(crate) fn on_one_memory(alloc: Global, size: u64) -> Result<Stored, AllocError>
    ensures { IfOk result (λ r. r ≡ record {
      buffers = examples.buffer 0 size ∷ [];
      entry = 0 ∷ [];
      offsets = 0 ∷ [];
      nodes = memory size;
    }) }
{
    let mut buffers = Items::new(alloc);
    buffers.push(buffer(alloc, 0, size)?)?;
    Ok(Stored {
        buffers,
        entry: Items::from_slice(alloc, &[0])?,
        offsets: Items::from_slice(alloc, &[0])?,
        nodes: Items::from_slice(alloc, &[node(0, size, 0, 0)])?,
    })
}

/// A buffer of 16 bytes at a root with two children, and one of 8 bytes at each child.
pub(crate) fn on_a_family(alloc: Global) -> Result<Stored, AllocError>
    ensures { IfOk result (λ r. r ≡ record {
      buffers = examples.buffer 0 16 ∷ examples.buffer 1 8 ∷ [];
      entry = 0 ∷ [];
      offsets = 0 ∷ 0 ∷ [];
      nodes = examples.nodes;
    }) }
{
    let mut buffers = Items::new(alloc);
    buffers.push(buffer(alloc, 0, 16)?)?;
    buffers.push(buffer(alloc, 1, 8)?)?;
    Ok(Stored {
        buffers,
        entry: Items::from_slice(alloc, &[0])?,
        offsets: Items::from_slice(alloc, &[0, 0])?,
        nodes: Items::from_slice(
            alloc,
            &[node(0, 16, 1, 2), node(1, 16, 0, 0), node(1, 16, 0, 0)],
        )?,
    })
}

/// The plan of a term. Nothing fails here, so that no term has to be let go.
pub(crate) fn planned(alloc: Global, stored: Stored, leaves: Leaves, term: Term) -> Plan
    ensures { result ≡ record {
      draft = record { term = term; buffers = stored.buffers; leaves = leaves; entry = stored.entry; notes = [] };
      offsets = stored.offsets;
      nodes = stored.nodes;
    } }
{
    let Stored {
        buffers,
        entry,
        offsets,
        nodes,
    } = stored;
    Plan {
        draft: Draft {
            term,
            buffers,
            leaves,
            entry,
            notes: Items::new(alloc),
        },
        offsets,
        nodes,
    }
}

pub(crate) fn one_leaf(alloc: Global, leaf: Leaf) -> Result<Leaves, AllocError>
    ensures { IfOk result (λ ls. ls ≡ leaf ∷ []) }
{
    Ok(Items::from_vec(vec![in alloc; leaf]?))
}

/// By `?`, which lets a plan that it can't share go in one call.
pub(crate) fn shared(alloc: Global, plan: Plan) -> Result<Rc<Plan>, AllocError>
    ensures { IfOk result (λ p. p.value ≡ plan) }
{
    let plan = Rc::new(alloc, plan)?;
    Ok(plan)
}
