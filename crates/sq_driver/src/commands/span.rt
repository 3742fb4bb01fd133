//! The command `span`: the heaviest chain of the events of a program's plan.
ghost use Rattle.std.specs.Prelude.{◌≡◌, ℕ};
ghost use Rattle.sq_compile.specs.Compiled.{IsPlanOf};
ghost use Rattle.sq_words.specs.Words.{span_of};
ghost use Rattle.sq_driver.specs.Chosen.{SpansTo};
ghost use Rattle.sq_driver.specs.Ends.{ending, FileCauses};
ghost use Rattle.sq_driver.specs.Evaluating.{Evaluates};
ghost use Rattle.sq_driver.specs.Planned.{HoldsPlan};

use crate::outside::end::End;
use crate::outside::world::{Perform, World};
use crate::phases::costs::read_costs;
use crate::phases::planning::{Names, OnPlan, on_plan};
use sq_compile::laws::plans_are_one;
use sq_costs::Costs;
use sq_ir::Plan;
use sq_leaf::Trap;
use sq_port::{Failed, Files, Sink};
use sq_span::heaviest_chain;
use sq_span_text::put_span;
use sq_spec::Resolved;
use sq_text::Stop;
use sq_tree::Bank;
use sq_words::Span;
use std::alloc::Global;

impl<'a> Perform<'a> for Span<'a> {
    ghost command = { λ words. span_of words.program.now words.mapping.now words.machine.now words.cost.now };

    // Not inlined: each command has the stack to itself.
    #[inline(never)]
    fn perform<F: Files, S: Sink, E: Sink, B: Bank>(
        &self,
        alloc: Global,
        world: &mut World<'_, '_, '_, '_, F, S, E, B>,
    ) -> Result<(), End<'a>> {
        on_plan(alloc, self, world.files, world.out)
    }
}

impl<'a> OnPlan<'a> for Span<'a> {
    ghost command = { λ words. span_of words.program.now words.mapping.now words.machine.now words.cost.now };

    ghost sources = { λ words. record {
      program = words.program.now;
      mapping = words.mapping.now;
      machine = words.machine.now;
    } };

    fn names(&self) -> Names<'a> {
        Names {
            program: self.program,
            mapping: self.mapping,
            machine: self.machine,
        }
    }

    // Reads the costs, and writes the heaviest chain of the plan by them.
    fn work<F: Files, S: Sink>(
        &self,
        alloc: Global,
        files: &mut F,
        out: &mut S,
        resolved: &Resolved<'_>,
        plan: Plan,
    ) -> Result<(), End<'a>> {
        let ended = span_plan(alloc, self, files, out, resolved, &plan);
        drop(plan);
        ended
    }
}

// Reads the costs, and writes the heaviest chain of the plan by them.
fn span_plan<'a, F: Files, S: Sink>(
    alloc: Global,
    words: &Span<'a>,
    files: &mut F,
    out: &mut S,
    resolved: &Resolved<'_>,
    plan: &Plan,
) -> Result<(), End<'a>>
    requires { HoldsPlan
        (span_of words.now.program.now words.now.mapping.now words.now.machine.now words.now.cost.now)
        (record {
          program = words.now.program.now;
          mapping = words.now.mapping.now;
          machine = words.now.machine.now;
        })
        (F.content files.old) resolved.now plan.now }
    ensures content { F.content files.new ≡ F.content files.old }
    ensures evaluated { Evaluates
        (span_of words.now.program.now words.now.mapping.now words.now.machine.now words.now.cost.now)
        (F.content files.old) (S.written out.old) (S.written out.new) (S.faults out.old) (S.faults out.new) result }
    ensures cause { FileCauses (F.faults files.old) (F.faults files.new) (F.misses files.old) (F.misses files.new)
        (ending result) }
{
    plans_are_one();
    let costs = match read_costs(alloc, files, words.cost, resolved.machine()) {
        Ok(costs) => costs,
        Err(end) => return Err(end),
    };
    write_chain(alloc, out, resolved, plan, &costs)
}

// Writes the heaviest chain of the plan, where it hasn't too many events.
fn write_chain<'a, S: Sink>(
    alloc: Global,
    out: &mut S,
    resolved: &Resolved<'_>,
    plan: &Plan,
    costs: &Costs,
) -> Result<(), End<'a>>
    requires { IsPlanOf resolved.now plan.now }
    ensures spans { SpansTo plan.now costs.now (S.written out.old) (S.written out.new) (S.faults out.old)
        (S.faults out.new) result }
    ensures cause { (f : ℕ) (m : ℕ) → FileCauses f f m m (ending result) }
{
    match heaviest_chain::<Trap>(alloc, plan, costs) {
        Ok(span) => match put_span(out, plan, &span) {
            Ok(()) => Ok(()),
            Err(Failed) => Err(End::SinkFault),
        },
        Err(Stop::Refused(fault)) => Err(End::Refused(fault)),
        Err(Stop::NoMemory) => Err(End::NoMemory),
    }
}
