//! Nodes, buffers and arrays.

ghost use Rattle.std.specs.Prelude.{◌≡◌, map, IfOk};
ghost use Rattle.sq_planlines.specs.Narrow as narrow;

use crate::words::{dims_of, word};
use sq_ir::{Buffer, BufferIds, Buffers, Offsets, PlanNode, PlanNodes};
use sq_planfile::{EntryArray, EntryArrays};
use sq_plantext::{ArrayLine, BufferLine, NodeLine};
use sqlite_items::Items;
use std::alloc::{AllocError, Global};

fn node_of(line: &NodeLine) -> PlanNode
    ensures { result ≡ narrow.node_of line.now }
{
    PlanNode {
        level: word(line.level),
        capacity: line.capacity,
        first_child: word(line.first_child),
        children: word(line.children),
    }
}

/// The memories.
pub fn nodes_of(alloc: Global, lines: &[NodeLine]) -> Result<PlanNodes, AllocError>
    ensures { IfOk result (λ ns. ns ≡ map narrow.node_of lines.now) }
{
    let mut nodes = Items::new(alloc);
    for line in lines {
        nodes.push(node_of(line))?;
    }
    Ok(nodes)
}

fn buffer_of(alloc: Global, line: &BufferLine) -> Result<Buffer, AllocError>
    ensures { IfOk result (λ b. b ≡ narrow.buffer_of line.now) }
{
    let instance = line.instance.copy(alloc)?;
    let array = line.array.copy(alloc)?;
    Ok(Buffer {
        level: word(line.level),
        size: line.size,
        instance,
        array,
    })
}

/// The buffers, without their offsets.
pub fn buffers_of(alloc: Global, lines: &[BufferLine]) -> Result<Buffers, AllocError>
    ensures { IfOk result (λ bs. bs ≡ map narrow.buffer_of lines.now) }
{
    let mut buffers = Items::new(alloc);
    for line in lines {
        let buffer = buffer_of(alloc, line)?;
        buffers.push(buffer)?;
    }
    Ok(buffers)
}

/// The offsets of buffers.
pub fn offsets_of(alloc: Global, lines: &[BufferLine]) -> Result<Offsets, AllocError>
    ensures { IfOk result (λ os. os ≡ map (λ b. b.offset) lines.now) }
{
    let mut offsets = Items::new(alloc);
    for line in lines {
        offsets.push(line.offset)?;
    }
    Ok(offsets)
}

fn array_of(alloc: Global, line: &ArrayLine) -> Result<EntryArray, AllocError>
    ensures { IfOk result (λ a. a ≡ narrow.array_of line.now) }
{
    let name = line.name.name.copy(alloc)?;
    Ok(EntryArray {
        mode: line.mode,
        elem: line.elem,
        name,
        extents: dims_of(line.extents.as_slice()),
        buffer: word(line.buffer),
    })
}

/// The arrays of the entry.
pub fn arrays_of(alloc: Global, lines: &[ArrayLine]) -> Result<EntryArrays, AllocError>
    ensures { IfOk result (λ xs. xs ≡ map narrow.array_of lines.now) }
{
    let mut arrays = Items::new(alloc);
    for line in lines {
        let array = array_of(alloc, line)?;
        arrays.push(array)?;
    }
    Ok(arrays)
}

/// The buffers of the entry's arrays.
pub fn entry_of(alloc: Global, lines: &[ArrayLine]) -> Result<BufferIds, AllocError>
    ensures { IfOk result (λ bs. bs ≡ map (λ a. narrow.word a.buffer) lines.now) }
{
    let mut entry = Items::new(alloc);
    for line in lines {
        entry.push(word(line.buffer))?;
    }
    Ok(entry)
}
