//! The traffic of a plan.

ghost use Rattle.std.specs.Prelude.{◌≡◌, IfOk};
ghost use Rattle.sq_sums.specs.Tolls.{IsTolled};
ghost use Rattle.sq_tune_text.specs.Traffic.{traffic_of};

use sq_ir::Plan;
use sq_machfile::Machine;
use sq_sums::traffic;
use std::alloc::{AllocError, Global};

/// The bytes that the events of a plan carry down and up, over all edges between levels of the machine. The sum stops at
/// 2^64 - 1.
pub fn plan_traffic(alloc: Global, machine: &Machine, plan: &Plan) -> Result<u64, AllocError>
    ensures { IfOk result (λ sum. IsTolled plan.now → sum ≡ traffic_of machine.now plan.now) }
{
    let mut sum: u64 = 0;
    for edge in 0..machine.levels().len() as u32 - 1 {
        let its = traffic(alloc, plan, edge)?;
        sum = sum.saturating_add(its.down).saturating_add(its.up);
    }
    Ok(sum)
}
