//! What a mapping comes to: the traffic of the program's plan under it, or its first fault.
ghost use Rattle.std.specs.Prelude.{◌≡◌, ℕ, None, IfOk};
ghost use Rattle.sq_compile.specs.Compiled.{IsPlanOf};
ghost use Rattle.sq_race.specs.Race.{IsFirstRace};
ghost use Rattle.sq_text.specs.declared.fault.Fault.{Fault as SpecFault};
ghost use Rattle.sq_tune_text.specs.Traffic.{traffic_of};
ghost use Rattle.sq_driver.specs.Choosing.{IsRow};
ghost use Rattle.sq_driver.specs.Races.{IsResolved};

use crate::outside::end::End;
use crate::phases::capacity::planned;
use crate::phases::sources::{forms_of, refuse_race};
use sq_ir::Plan;
use sq_leaf::Trap;
use sq_machfile::Machine;
use sq_mapping::Mapping;
use sq_report::laws::well_formed_plans_have_totals;
use sq_spec::Resolved;
use sq_tune::{Planner, RowEnd};
use sq_tune_text::plan_traffic;
use sq_types::Typed;
use std::alloc::{AllocError, Global};

/// Plans a program on a machine, by the phases that `plan` has.
#[derive(Clone, Copy)]
pub struct Passes<'a> {
    pub typed: &'a Typed,
    pub machine: &'a Machine,
}

impl<'a> Planner for Passes<'a> {
    ghost program = { λ passes. passes.typed.now };

    ghost machine = { λ passes. passes.machine.now };

    ghost IsRow = { IsRow };

    fn row(&mut self, alloc: Global, mapping: &Mapping) -> Result<RowEnd, AllocError> {
        match forms_of(alloc, self.typed, mapping, self.machine) {
            Ok(resolved) => resolved_row(alloc, &resolved),
            Err(end) => refused(end),
        }
    }
}

// The row of the program's forms.
fn resolved_row(alloc: Global, resolved: &Resolved<'_>) -> Result<RowEnd, AllocError>
    requires { IsResolved resolved.now.typed.now resolved.now.machine.now resolved.now.mapping.now resolved.now }
    ensures { IfOk result (IsRow resolved.now.typed.now resolved.now.machine.now resolved.now.mapping.now) }
{
    match refuse_race(alloc, resolved) {
        Ok(()) => planned_row(alloc, resolved),
        Err(end) => refused(end),
    }
}

// And where they have no race.
fn planned_row(alloc: Global, resolved: &Resolved<'_>) -> Result<RowEnd, AllocError>
    requires forms { IsResolved resolved.now.typed.now resolved.now.machine.now resolved.now.mapping.now resolved.now }
    requires free { IsFirstRace resolved.now None }
    ensures { IfOk result (IsRow resolved.now.typed.now resolved.now.machine.now resolved.now.mapping.now) }
{
    match planned(alloc, resolved) {
        Ok(plan) => {
            let row = accepted(alloc, resolved, &plan);
            drop(plan);
            row
        }
        Err(end) => refused(end),
    }
}

// The traffic of the plan.
fn accepted(alloc: Global, resolved: &Resolved<'_>, plan: &Plan) -> Result<RowEnd, AllocError>
    requires { IsPlanOf resolved.now plan.now }
    ensures { IfOk result (λ row. row ≡ RowEnd.Traffic (traffic_of resolved.now.machine.now plan.now)) }
{
    well_formed_plans_have_totals::<Trap>();
    let traffic = plan_traffic(alloc, resolved.machine(), plan)?;
    Ok(RowEnd::Traffic(traffic))
}

// A phase without a file ends with a fault, or for want of memory.
fn refused(end: End<'_>) -> Result<RowEnd, AllocError>
    ensures { IfOk result (λ row. (its : SpecFault) × (end.entry ≡ End.Refused its) × (row ≡ RowEnd.Refused its)) }
{
    match end {
        End::Refused(fault) => Ok(RowEnd::Refused(fault)),
        _ => Err(AllocError),
    }
}
