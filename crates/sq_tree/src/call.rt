//! Leaf calls over the memory of a node.
ghost use Rattle.std.specs.Prelude.{◌≡◌, ◌≤◌, ◌<◌, ◌^◌, length, set};
ghost use Rattle.sq_leaf.specs.Leaf.{written_of};
ghost use Rattle.sq_leaf.specs.Views.{CanRun};
ghost use Rattle.sq_ir.specs.LeafRuns.{HasRun, AreBytes};
ghost use Rattle.sq_tree.specs.Bank.{bytes_at};
ghost use Rattle.sq_ir.specs.Plans.{IsLeafCall};
ghost use Rattle.sq_tree.specs.Bank.{leaves_in, size_in};
ghost use Rattle.sq_tree.specs.Calls.{RunsAt, CallsAt};

use sq_ir::Plan;
use sq_ir::laws::runs_of_leaves_are_their_events;
use sq_leaf::{LeafCode, Trap};
use sq_leaf_run::run_leaf;
use sq_raw::RawMem;
use sq_rect::{Path, Views};

// A number of a byte has 8 bits.
fn are_bytes(bytes: &[u8])
    ensures { AreBytes bytes.now }
{
    let _len = bytes.len();
}

// Runs a leaf over these bytes.
fn run_over(code: &LeafCode, bytes: &mut [u8], views: &Views) -> Result<(), Trap>
    requires { CanRun (length bytes.old) views.now (written_of code.now.variant) }
    ensures { HasRun code.now views.now bytes.old bytes.new result }
{
    let result = run_leaf(code, bytes, views);
    are_bytes(bytes);
    result
}

// Runs a leaf over a memory.
fn run_in(code: &LeafCode, memory: &mut RawMem, views: &Views) -> Result<(), Trap>
    requires { CanRun (length memory.old) views.now (written_of code.now.variant) }
    ensures { HasRun code.now views.now memory.old memory.new result }
{
    let len = memory.len();
    run_over(code, memory.window(0, len), views)
}

/// Runs a leaf over the memory of a node. A node that is not there has no bytes.
pub(crate) fn run_at(
    code: &LeafCode,
    node: usize,
    views: &Views,
    nodes: &mut [RawMem],
) -> Result<(), Trap>
    requires { CanRun (length (bytes_at nodes.old node)) views.now (written_of code.now.variant) }
    ensures { RunsAt code.now views.now node nodes.old nodes.new result }
{
    if node < nodes.len() {
        run_in(code, &mut nodes[node], views)
    } else {
        run_over(code, &mut [], views)
    }
}

/// Calls a leaf of a plan over the memory of a node.
pub(crate) fn call_leaf(
    plan: &Plan,
    node: u32,
    code: u32,
    views: &Views,
    path: &Path,
    nodes: &mut [RawMem],
) -> Result<(), Trap>
    requires may { IsLeafCall (leaves_in plan.now) (size_in nodes.old node) code views.now path.now }
    requires small { size_in nodes.old node < 2 ^ 62 }
    ensures { CallsAt plan.now code views.now node nodes.old nodes.new result }
{
    runs_of_leaves_are_their_events();
    let _dimensions = views.as_slice();
    match plan.draft.leaves.get(code as usize) {
        Some(leaf) => run_at(&leaf.code, node as usize, views, nodes),
        None => Ok(()),
    }
}
