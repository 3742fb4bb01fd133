//! Nodes, leaves, buffers and arrays together.

ghost use Rattle.std.specs.Prelude.{◌≡◌, IfOk};
ghost use Rattle.sq_text.specs.declared.code.Code.TheVariants as code;
ghost use Rattle.sq_plantext.specs.Grammar.{plan_text};
ghost use Rattle.sq_plantext.specs.declared.text.TermText.{TermText};
ghost use Rattle.sq_planfile.specs.Limits.{no_place};
ghost use Rattle.sq_planheads.specs.Heads.{AreGiven, Behind, Compiles, line_fault};

use crate::arrays::first_array_fault;
use crate::buffers::first_buffer_fault;
use crate::leaves::compile_leaves;
use crate::nodes::{are_nodes, deepest};
use sq_ir::Leaves;
use sq_plantext::{ArrayLine, BufferLine, LeafTexts, NodeLine};
use sq_text::{Args, Code, Fault, Phase, Stop};
use std::alloc::{AllocError, Global};

fn bad_nodes(alloc: Global) -> Fault
    ensures { result ≡ no_place code.BadNode }
{
    Fault {
        phase: Phase::Plan,
        code: Code::BadNode,
        place: None,
        args: Args::new(alloc),
    }
}

// The first fault of buffers, or where they have none of arrays.
fn first_line_fault(
    alloc: Global,
    last: u64,
    buffers: &[BufferLine],
    arrays: &[ArrayLine],
) -> Result<Option<Fault>, AllocError>
    ensures { IfOk result (λ fault. fault ≡ line_fault last buffers.now arrays.now) }
{
    match first_buffer_fault(alloc, last, buffers) {
        Some(fault) => Ok(Some(fault)),
        None => first_array_fault(alloc, buffers, arrays),
    }
}

// The leaves, where neither buffers nor arrays have a fault.
fn with_lines(
    alloc: Global,
    made: Leaves,
    last: u64,
    buffers: &[BufferLine],
    arrays: &[ArrayLine],
) -> Result<Leaves, Stop>
    ensures { Behind made (line_fault last buffers.now arrays.now) result }
{
    match first_line_fault(alloc, last, buffers, arrays) {
        Ok(None) => Ok(made),
        Ok(Some(fault)) => Err(Stop::Refused(fault)),
        Err(AllocError) => Err(Stop::NoMemory),
    }
}

/// The leaves of a plan file with their code, where its nodes, leaves, buffers and arrays are sound.
pub fn compile_heads(
    alloc: Global,
    nodes: &[NodeLine],
    buffers: &[BufferLine],
    leaves: LeafTexts,
    arrays: &[ArrayLine],
) -> Result<Leaves, Stop>
    requires { AreGiven leaves }
    // Ok exactly where all of it is sound; else refused with the first fault.
    ensures { (t : TermText) → Compiles (plan_text nodes.now buffers.now leaves arrays.now t) result }
{
    let last = deepest(nodes);
    if !are_nodes(last, nodes) {
        return Err(Stop::Refused(bad_nodes(alloc)));
    }
    match compile_leaves(alloc, leaves) {
        Ok(made) => with_lines(alloc, made, last, buffers, arrays),
        Err(stop) => Err(stop),
    }
}
