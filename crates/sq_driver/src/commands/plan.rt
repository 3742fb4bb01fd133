//! The command `plan`: the report of the program's plan on its machine.
ghost use Rattle.std.specs.Prelude.{◌≡◌, ℕ, IfOk};
ghost use Rattle.sq_compile.specs.Compiled.{IsPlanOf};
ghost use Rattle.sq_report.specs.Figures.{figures};
ghost use Rattle.sq_report.specs.Reports.{report};
ghost use Rattle.sq_words.specs.Words.{plan_of};
ghost use Rattle.sq_driver.specs.Ends.{ending, FileCauses};
ghost use Rattle.sq_driver.specs.Steps.{WroteOut, WroteOutOrLacked};

use crate::outside::end::End;
use crate::outside::world::{Perform, World};
use crate::phases::planning::{Names, OnPlan, on_plan};
use sq_leaf::Trap;
use sq_port::{Failed, Files, Sink};
use sq_report::laws::well_formed_plans_have_totals;
use sq_report::{Totals, put_plan, totals_of};
use sq_spec::Resolved;
use sq_tree::Bank;
use sq_words::Plan;
use std::alloc::{AllocError, Global};

impl<'a> Perform<'a> for Plan<'a> {
    ghost command = { λ words. plan_of words.program.now words.mapping.now words.machine.now };

    // Not inlined: each command has the stack to itself.
    #[inline(never)]
    fn perform<F: Files, S: Sink, E: Sink, B: Bank>(
        &self,
        alloc: Global,
        world: &mut World<'_, '_, '_, '_, F, S, E, B>,
    ) -> Result<(), End<'a>> {
        on_plan(alloc, self, world.files, world.out)
    }
}

impl<'a> OnPlan<'a> for Plan<'a> {
    ghost command = { λ words. plan_of words.program.now words.mapping.now words.machine.now };

    ghost sources = { λ words. record {
      program = words.program.now;
      mapping = words.mapping.now;
      machine = words.machine.now;
    } };

    fn names(&self) -> Names<'a> {
        Names {
            program: self.program,
            mapping: self.mapping,
            machine: self.machine,
        }
    }

    // Writes the report of the plan.
    fn work<F: Files, S: Sink>(
        &self,
        alloc: Global,
        _files: &mut F,
        out: &mut S,
        resolved: &Resolved<'_>,
        plan: sq_ir::Plan,
    ) -> Result<(), End<'a>> {
        let ended = report_plan(alloc, out, resolved, &plan);
        drop(plan);
        ended
    }
}

// Writes the report of the plan, where there is memory for its sums.
fn report_plan<'a, S: Sink>(
    alloc: Global,
    out: &mut S,
    resolved: &Resolved<'_>,
    plan: &sq_ir::Plan,
) -> Result<(), End<'a>>
    requires { IsPlanOf resolved.now plan.now }
    ensures wrote { WroteOutOrLacked (S.written out.old) (S.written out.new) (S.faults out.old) (S.faults out.new)
        (report resolved.now.machine.now plan.now) result }
    ensures cause { (f : ℕ) (m : ℕ) → FileCauses f f m m (ending result) }
{
    match totals_for(alloc, resolved, plan) {
        Ok(totals) => write_report(out, resolved, plan, &totals),
        Err(_) => Err(End::NoMemory),
    }
}

// The sums that the report of the plan tells.
fn totals_for(
    alloc: Global,
    resolved: &Resolved<'_>,
    plan: &sq_ir::Plan,
) -> Result<Totals, AllocError>
    requires { IsPlanOf resolved.now plan.now }
    ensures { IfOk result (λ totals. totals ≡ figures resolved.now.machine.now plan.now) }
{
    well_formed_plans_have_totals::<Trap>();
    totals_of(alloc, resolved.machine(), plan)
}

// Writes the report of the plan.
fn write_report<'a, S: Sink>(
    out: &mut S,
    resolved: &Resolved<'_>,
    plan: &sq_ir::Plan,
    totals: &Totals,
) -> Result<(), End<'a>>
    requires { totals.now ≡ figures resolved.now.machine.now plan.now }
    ensures wrote { WroteOut (S.written out.old) (S.written out.new) (S.faults out.old) (S.faults out.new)
        (report resolved.now.machine.now plan.now) result }
    ensures cause { (f : ℕ) (m : ℕ) → FileCauses f f m m (ending result) }
{
    match put_plan(out, resolved.machine(), plan, totals) {
        Ok(()) => Ok(()),
        Err(Failed) => Err(End::SinkFault),
    }
}
