//! The plan of a program, or the fault of a node that lacks memory for it.
ghost use Rattle.std.specs.Prelude.{◌≡◌, ℕ, IfOk, OnOk, IfErr, None, slice_get};
ghost use Rattle.sq_race.specs.Race.{IsFirstRace};
ghost use Rattle.sq_compile.specs.Capacity.{NoneLacks};
ghost use Rattle.sq_compile.specs.Compiled.{IsPlanOf};
ghost use Rattle.sq_driver.specs.Capacity as spec;
ghost use Rattle.sq_driver.specs.Capacity.{IsFirstCapacityFault};
ghost use Rattle.sq_driver.specs.Ends.{ending, FileCauses};
ghost use Rattle.sq_driver.specs.Evaluating.{EndsWith};

use crate::outside::end::End;
use sq_compile::compile;
use sq_ir::Plan;
use sq_machfile::{Level, Machine};
use sq_race::laws::without_a_race;
use sq_report::sq_store::StoreFault;
use sq_spec::Resolved;
use sq_text::{Arg, Args, Code, Fault, Name, Phase};
use std::alloc::{AllocError, Global};

/// The plan of the program on its machine, where each node has what the program's forms need there.
pub fn planned<'a>(alloc: Global, resolved: &Resolved<'_>) -> Result<Plan, End<'a>>
    requires { IsFirstRace resolved.now None }
    ensures its { IfOk result (λ p. IsPlanOf resolved.now p) }
    ensures fits { OnOk result (NoneLacks resolved.now) }
    ensures refused { IfErr result (λ end. EndsWith (IsFirstCapacityFault resolved.now) end) }
    ensures cause { (f : ℕ) (m : ℕ) → FileCauses f f m m (ending result) }
{
    without_a_race();
    match compile(alloc, resolved) {
        Ok(plan) => Ok(plan),
        Err(
            StoreFault::Capacity {
                node,
                need,
                capacity,
            },
        ) => {
            match capacity_fault(alloc, resolved.machine(), node, need, capacity) {
                Ok(fault) => Err(End::Refused(fault)),
                Err(_) => Err(End::NoMemory),
            }
        }
        Err(StoreFault::NoMemory) => Err(End::NoMemory),
    }
}

/// The fault of a node that needs more than it has.
pub fn capacity_fault(
    alloc: Global,
    machine: &Machine,
    node: u32,
    need: u64,
    capacity: u64,
) -> Result<Fault, AllocError>
    ensures { IfOk result (λ f. f ≡ spec.capacity_fault machine.now node need capacity) }
{
    let name = node_name(alloc, machine, node)?;
    let mut args = Args::new(alloc);
    args.push(Arg::Word(name))?;
    args.push(Arg::Number(need))?;
    args.push(Arg::Number(capacity))?;
    Ok(Fault {
        phase: Phase::Capacity,
        code: Code::Capacity,
        place: None,
        args,
    })
}

// The node's own name, and else that of its level.
fn node_name(alloc: Global, machine: &Machine, node: u32) -> Result<Name, AllocError>
    ensures { IfOk result (λ name. name ≡ spec.node_name machine.now.levels (slice_get machine.now.nodes node)) }
{
    match machine.tree().get(node as usize) {
        None => Name::new(alloc, &[]),
        Some(its) => match &its.name {
            Some(name) => name.copy(alloc),
            None => level_name(alloc, machine.levels(), its.level),
        },
    }
}

fn level_name(alloc: Global, levels: &[Level], level: u32) -> Result<Name, AllocError>
    ensures { IfOk result (λ name. name ≡ spec.level_name (slice_get levels.now level)) }
{
    match levels.get(level as usize) {
        None => Name::new(alloc, &[]),
        Some(its) => its.name.copy(alloc),
    }
}
