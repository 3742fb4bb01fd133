//! The command `compile`: the program's plan as a file.
ghost use Rattle.std.specs.Prelude.{ℕ};
ghost use Rattle.sq_ir.specs.DraftLeaves.{leaves_of};
ghost use Rattle.sq_ir.specs.Plans.{IsWellFormed};
ghost use Rattle.sq_words.specs.Words.{compile_of};
ghost use Rattle.sq_driver.specs.Chosen.{FilesTo};
ghost use Rattle.sq_driver.specs.Ends.{ending, FileCauses};

use crate::outside::end::End;
use crate::outside::world::{Perform, World};
use crate::phases::filed::file_of;
use crate::phases::planning::{Names, OnPlan, on_plan};
use sq_compile::laws::plans_are_one;
use sq_ir::Plan;
use sq_planfile::{PlanFile, plan_text};
use sq_port::{Failed, Files, Sink, put_all};
use sq_spec::Resolved;
use sq_text::Stop;
use sq_tree::Bank;
use sq_words::Compile;
use std::alloc::Global;

impl<'a> Perform<'a> for Compile<'a> {
    ghost command = { λ words. compile_of words.program.now words.mapping.now words.machine.now };

    // Not inlined: each command has the stack to itself.
    #[inline(never)]
    fn perform<F: Files, S: Sink, E: Sink, B: Bank>(
        &self,
        alloc: Global,
        world: &mut World<'_, '_, '_, '_, F, S, E, B>,
    ) -> Result<(), End<'a>> {
        on_plan(alloc, self, world.files, world.out)
    }
}

impl<'a> OnPlan<'a> for Compile<'a> {
    ghost command = { λ words. compile_of words.program.now words.mapping.now words.machine.now };

    ghost sources = { λ words. record {
      program = words.program.now;
      mapping = words.mapping.now;
      machine = words.machine.now;
    } };

    fn names(&self) -> Names<'a> {
        Names {
            program: self.program,
            mapping: self.mapping,
            machine: self.machine,
        }
    }

    // Writes the plan as a file.
    fn work<F: Files, S: Sink>(
        &self,
        alloc: Global,
        _files: &mut F,
        out: &mut S,
        resolved: &Resolved<'_>,
        plan: Plan,
    ) -> Result<(), End<'a>> {
        plans_are_one();
        match file_of(alloc, resolved, plan) {
            Ok(file) => write_file(alloc, out, &file),
            Err(_) => Err(End::NoMemory),
        }
    }
}

// Writes the text of the file, where it isn't too large.
fn write_file<'a, S: Sink>(alloc: Global, out: &mut S, file: &PlanFile) -> Result<(), End<'a>>
    requires { IsWellFormed (leaves_of file.now.plan.draft) file.now.plan }
    ensures files { FilesTo file.now (S.written out.old) (S.written out.new) (S.faults out.old) (S.faults out.new)
        result }
    ensures cause { (f : ℕ) (m : ℕ) → FileCauses f f m m (ending result) }
{
    match plan_text(alloc, file) {
        Ok(text) => match put_all(out, text.as_slice()) {
            Ok(()) => Ok(()),
            Err(Failed) => Err(End::SinkFault),
        },
        Err(Stop::Refused(fault)) => Err(End::Refused(fault)),
        Err(Stop::NoMemory) => Err(End::NoMemory),
    }
}
