//! The lines of a plan file.

ghost use Rattle.std.specs.Prelude.{◌≡◌, ◌++◌, [], codes, get_or, map, IfOk, OnOk};
ghost use Rattle.sq_ast.specs.Canonical.{Adds, all_of};
ghost use Rattle.sq_ast.specs.Unplaced.{nowhere};
ghost use Rattle.sq_plantext.specs.Grammar.{buffer_line};
ghost use Rattle.sq_plantext.specs.Layout.{spell_node, spell_buffer, spell_leaf, spell_array, spell_term};
ghost use Rattle.sq_planfile.specs.Written as written;
ghost use Rattle.sq_planfile.specs.Written.{line_of, buffer_lines, text_of, array_of};

use crate::entry::EntryArray;
use crate::event::naturals;
use crate::file::PlanFile;
use crate::heads::bindings_of;
use sq_ast::print::Part;
use sq_ir::{Buffer, Draft, Leaf, Plan, PlanNode};
use sq_plantext::{ArrayLine, BufferLine, NodeLine, TermText, put_head, put_leaf, put_term};
use sq_text::{Place, Word};
use std::alloc::{AllocError, Global};

// No place.
fn nowhere() -> Place
    ensures { result ≡ nowhere }
{
    Place { line: 0, col: 0 }
}

// ---- nodes

fn line_of(node: PlanNode) -> NodeLine
    ensures { result ≡ line_of node }
{
    NodeLine {
        level: u64::from(node.level),
        capacity: node.capacity,
        first_child: u64::from(node.first_child),
        children: u64::from(node.children),
    }
}

fn put_nodes(out: &mut Vec<u8>, nodes: &[PlanNode]) -> Result<(), AllocError>
    ensures { OnOk result (Adds out.old.items out.new.items (all_of (map spell_node (map line_of nodes.now)))) }
{
    for node in nodes {
        line_of(*node).put(out)?;
    }
    Ok(())
}

// ---- buffers

#[tactic(auto, using(sq_sched::proofs::Lists::past))]
fn offset_at(offsets: &[u64], n: usize) -> u64
    ensures { result ≡ get_or offsets.now n 0 }
{
    if n < offsets.len() { offsets[n] } else { 0 }
}

fn buffer_line(alloc: Global, buffer: &Buffer, offset: u64) -> Result<BufferLine, AllocError>
    ensures { IfOk result (λ l. l ≡ buffer_line nowhere buffer.now.level offset buffer.now.size buffer.now.instance
        buffer.now.array) }
{
    let instance = buffer.instance.copy(alloc)?;
    let array = buffer.array.copy(alloc)?;
    Ok(BufferLine {
        place: nowhere(),
        level: u64::from(buffer.level),
        offset,
        size: buffer.size,
        instance,
        array,
    })
}

fn put_buffer(
    alloc: Global,
    out: &mut Vec<u8>,
    buffer: &Buffer,
    offset: u64,
) -> Result<(), AllocError>
    ensures { OnOk result (Adds out.old.items out.new.items (spell_buffer (buffer_line nowhere buffer.now.level offset
        buffer.now.size buffer.now.instance buffer.now.array))) }
{
    let line = buffer_line(alloc, buffer, offset)?;
    line.put(out)
}

fn put_buffers(
    alloc: Global,
    out: &mut Vec<u8>,
    buffers: &[Buffer],
    offsets: &[u64],
) -> Result<(), AllocError>
    ensures { OnOk result (Adds out.old.items out.new.items
        (all_of (map spell_buffer (buffer_lines 0 offsets.now buffers.now)))) }
{
    for (n, buffer) in buffers.iter().enumerate() {
        put_buffer(alloc, out, buffer, offset_at(offsets, n))?;
    }
    Ok(())
}

// ---- leaves

fn put_call(alloc: Global, out: &mut Vec<u8>, leaf: &Leaf) -> Result<(), AllocError>
    ensures { OnOk result (Adds out.old.items out.new.items (spell_leaf (text_of leaf.now))) }
{
    let task = leaf.code.variant();
    let known = leaf.code.numbers();
    let numbers = bindings_of(alloc, task, known)?;
    put_leaf(out, &leaf.instance, numbers.as_slice(), task)
}

fn put_leaves(alloc: Global, out: &mut Vec<u8>, leaves: &[Leaf]) -> Result<(), AllocError>
    ensures { OnOk result (Adds out.old.items out.new.items (all_of (map spell_leaf (map text_of leaves.now)))) }
{
    for leaf in leaves {
        put_call(alloc, out, leaf)?;
    }
    Ok(())
}

// ---- arrays

fn array_line(alloc: Global, array: &EntryArray) -> Result<ArrayLine, AllocError>
    ensures { IfOk result (λ l. l ≡ array_of array.now) }
{
    let name = array.name.copy(alloc)?;
    let extents = naturals(alloc, array.extents.as_slice())?;
    Ok(ArrayLine {
        mode: array.mode,
        elem: array.elem,
        name: Word {
            place: nowhere(),
            name,
        },
        extents,
        buffer: u64::from(array.buffer),
    })
}

fn put_array(alloc: Global, out: &mut Vec<u8>, array: &EntryArray) -> Result<(), AllocError>
    ensures { OnOk result (Adds out.old.items out.new.items (spell_array (array_of array.now))) }
{
    let line = array_line(alloc, array)?;
    line.put(out)
}

fn put_arrays(alloc: Global, out: &mut Vec<u8>, arrays: &[EntryArray]) -> Result<(), AllocError>
    ensures { OnOk result (Adds out.old.items out.new.items (all_of (map spell_array (map array_of arrays.now)))) }
{
    for array in arrays {
        put_array(alloc, out, array)?;
    }
    Ok(())
}

// ---- files

// The head, the nodes and the buffers.
fn put_machine(alloc: Global, out: &mut Vec<u8>, plan: &Plan) -> Result<(), AllocError>
    ensures { OnOk result (Adds out.old.items out.new.items (λ later. codes "plan 1;\n" ++ all_of (map spell_node
        (map line_of plan.now.nodes)) (all_of (map spell_buffer (buffer_lines 0 plan.now.offsets
        plan.now.draft.buffers)) later))) }
{
    put_head(out)?;
    put_nodes(out, plan.nodes.as_slice())?;
    put_buffers(
        alloc,
        out,
        plan.draft.buffers.as_slice(),
        plan.offsets.as_slice(),
    )
}

/// The lines of a file whose term is this one.
pub(crate) fn put_file(
    alloc: Global,
    out: &mut Vec<u8>,
    f: &PlanFile,
    term: &TermText,
) -> Result<(), AllocError>
    ensures { OnOk result (Adds out.old.items out.new.items (λ later. codes "plan 1;\n" ++ all_of (map spell_node
        (map line_of f.now.plan.nodes)) (all_of (map spell_buffer (buffer_lines 0 f.now.plan.offsets
        f.now.plan.draft.buffers)) (all_of (map spell_leaf (map text_of f.now.plan.draft.leaves)) (all_of
        (map spell_array (map array_of f.now.arrays)) (spell_term term.now later)))))) }
{
    let plan = f.plan();
    put_machine(alloc, out, plan)?;
    put_leaves(alloc, out, plan.draft.leaves.as_slice())?;
    put_arrays(alloc, out, f.arrays())?;
    put_term(out, term)
}
