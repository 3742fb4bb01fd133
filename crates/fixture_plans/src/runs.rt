//! Runs of plans on banks that are opened for them.

ghost use Rattle.std.specs.Prelude.{◌≡◌, ◌≤◌, length, OnOk};
ghost use Rattle.sq_ir.specs.Plans.{IsGood, node_at};
ghost use Rattle.sq_ir.specs.DraftLeaves.{leaves_of};
ghost use Rattle.sq_tree.specs.Bank.{IsPrepared, size_in};

use sq_ir::Plan;
use sq_port::{Order, Sink};
use sq_sched::Control;
use sq_tree::laws::opened_banks_are_prepared;
use sq_tree::{Bank, RunEnd, run};
use std::alloc::{AllocError, Global};
use std::rc::Rc;

/// How a run has ended, and the root's first bytes after it.
#[derive(Drop)]
pub struct Ran {
    pub end: Result<(), RunEnd>,
    pub root: Vec<u8>,
}

// How many bytes the root has.
fn root_size(plan: &Plan) -> u64
    ensures { result ≡ (node_at plan.now.nodes 0).capacity }
{
    match plan.nodes.as_slice() {
        [root, ..] => root.capacity,
        [] => 0,
    }
}

// Opens a bank with a plan and puts bytes into its root, where it has room for them.
fn open<B: Bank>(
    alloc: Global,
    plan: Rc<Plan>,
    start: &[u8],
    bank: &mut B,
) -> Result<(), AllocError>
    ensures prepared { OnOk result (IsPrepared plan.value (B.seen bank.new)) }
    ensures fits { OnOk result (length start.now ≤ size_in (B.seen bank.new).nodes 0) }
{
    opened_banks_are_prepared();
    if root_size(&plan) < start.len() as u64 {
        return Err(AllocError);
    }
    match bank.prepare(alloc, plan) {
        Ok(()) => {}
        Err(_) => return Err(AllocError),
    }
    bank.put_root(0, start);
    Ok(())
}

/// Opens a bank with a plan, puts bytes into its root, and runs the plan.
pub fn run_on<B: Bank, O: Order, S: Sink>(
    alloc: Global,
    plan: Rc<Plan>,
    start: &[u8],
    bank: &mut B,
    order: &mut O,
    traced: bool,
    trace: &mut S,
) -> Result<Ran, AllocError>
    requires { IsGood (leaves_of plan.value.draft) plan.value }
{
    open(alloc, plan.clone()?, start, bank)?;
    let mut control = Control::new(alloc, plan)?;
    let end = run(bank, &mut control, order, traced, trace);
    drop(control);
    let root = bank.root_bytes(0, start.len()).to_vec(alloc)?;
    Ok(Ran { end, root })
}
