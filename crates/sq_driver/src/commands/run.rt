//! The command `run`: the program's plan, performed on the memories of the bank.
ghost use Rattle.std.specs.Prelude.{◌≡◌, None};
ghost use Rattle.sq_words.specs.Words.{asked, run_of};
ghost use Rattle.sq_driver.specs.Ends.{ending, FileCauses};
ghost use Rattle.sq_driver.specs.Outcome.{Ended};
ghost use Rattle.sq_race.specs.Race.{IsFirstRace};
ghost use Rattle.sq_compile.specs.Capacity.{NoneLacks};
ghost use Rattle.sq_compile.specs.Compiled.{IsPlanOf};
ghost use Rattle.sq_driver.specs.Evaluating.{HoldsSources};
ghost use Rattle.sq_driver.specs.Races.{IsResolved};
ghost use Rattle.sq_driver.specs.RunLaws.{RunLaws};

use crate::outside::end::End;
use crate::outside::world::{Perform, World};
use crate::phases::capacity::planned;
use crate::phases::filed::file_of;
use crate::phases::running::{Asked, run_file};
use crate::phases::sources::read_sources;
use sq_arrays::laws::values_are_those_of_their_array;
use sq_compile::laws::lacks_are_one;
use sq_compiled_laws::sq_meant::{inputs_are_held, places_fit, runs_end_as_meant};
use sq_ir::Plan;
use sq_port::{Files, Sink};
use sq_root::laws::picked_places_fit;
use sq_spec::Resolved;
use sq_spec::laws::entry_is_first;
use sq_tree::Bank;
use sq_words::Run;
use std::alloc::{AllocError, Global};

impl<'a> Perform<'a> for Run<'a> {
    ghost command = { λ words. run_of words.program.now words.mapping.now words.machine.now words.input.now
        (asked words.order) words.traced };

    // Not inlined: each command has the stack to itself.
    #[inline(never)]
    fn perform<F: Files, S: Sink, E: Sink, B: Bank>(
        &self,
        alloc: Global,
        world: &mut World<'_, '_, '_, '_, F, S, E, B>,
    ) -> Result<(), End<'a>> {
        let sources = match read_sources(
            alloc,
            world.files,
            self.program,
            self.mapping,
            self.machine,
        ) {
            Ok(sources) => sources,
            Err(end) => return Err(end),
        };
        let resolved = match sources.resolved(alloc) {
            Ok(resolved) => resolved,
            Err(end) => return Err(end),
        };
        run_resolved(alloc, self, world, &resolved)
    }
}

// Plans the program, and goes on with the plan.
fn run_resolved<'a, F: Files, S: Sink, E: Sink, B: Bank>(
    alloc: Global,
    words: &Run<'a>,
    world: &mut World<'_, '_, '_, '_, F, S, E, B>,
    resolved: &Resolved<'_>,
) -> Result<(), End<'a>>
    requires forms { IsResolved resolved.now.typed.now resolved.now.machine.now resolved.now.mapping.now resolved.now }
    requires holds { HoldsSources (F.content world.old.files.now) words.now.program.now words.now.mapping.now
        words.now.machine.now resolved.now.typed.now resolved.now.machine.now resolved.now.mapping.now }
    requires free { IsFirstRace resolved.now None }
    ensures lent { (world.new.files.ghost_name ≡ world.old.files.ghost_name)
        × (world.new.out.ghost_name ≡ world.old.out.ghost_name)
        × (world.new.err.ghost_name ≡ world.old.err.ghost_name)
        × (world.new.bank.ghost_name ≡ world.old.bank.ghost_name) }
    ensures content { F.content world.new.files.now ≡ F.content world.old.files.now }
    ensures ended { Ended
        (run_of words.now.program.now words.now.mapping.now words.now.machine.now words.now.input.now
        (asked words.now.order) words.now.traced)
        (record {
          told = F.content world.old.files.now;
          out = S.written world.old.out.now;
          out_faults = S.faults world.old.out.now;
          err = E.written world.old.err.now;
          err_faults = E.faults world.old.err.now;
          bank = B.seen world.old.bank.now;
        })
        (record {
          told = F.content world.new.files.now;
          out = S.written world.new.out.now;
          out_faults = S.faults world.new.out.now;
          err = E.written world.new.err.now;
          err_faults = E.faults world.new.err.now;
          bank = B.seen world.new.bank.now;
        })
        result }
    ensures cause { FileCauses (F.faults world.old.files.now) (F.faults world.new.files.now)
        (F.misses world.old.files.now) (F.misses world.new.files.now) (ending result) }
{
    match planned(alloc, resolved) {
        Ok(plan) => run_planned(alloc, words, world, resolved, plan),
        Err(end) => Err(end),
    }
}

// Runs the plan on the arrays of the program's entry.
fn run_planned<'a, F: Files, S: Sink, E: Sink, B: Bank>(
    alloc: Global,
    words: &Run<'a>,
    world: &mut World<'_, '_, '_, '_, F, S, E, B>,
    resolved: &Resolved<'_>,
    plan: Plan,
) -> Result<(), End<'a>>
    requires forms { IsResolved resolved.now.typed.now resolved.now.machine.now resolved.now.mapping.now resolved.now }
    requires holds { HoldsSources (F.content world.old.files.now) words.now.program.now words.now.mapping.now
        words.now.machine.now resolved.now.typed.now resolved.now.machine.now resolved.now.mapping.now }
    requires free { IsFirstRace resolved.now None }
    requires its { IsPlanOf resolved.now plan }
    requires fits { NoneLacks resolved.now }
    ensures lent { (world.new.files.ghost_name ≡ world.old.files.ghost_name)
        × (world.new.out.ghost_name ≡ world.old.out.ghost_name)
        × (world.new.err.ghost_name ≡ world.old.err.ghost_name)
        × (world.new.bank.ghost_name ≡ world.old.bank.ghost_name) }
    ensures content { F.content world.new.files.now ≡ F.content world.old.files.now }
    ensures ended { Ended
        (run_of words.now.program.now words.now.mapping.now words.now.machine.now words.now.input.now
        (asked words.now.order) words.now.traced)
        (record {
          told = F.content world.old.files.now;
          out = S.written world.old.out.now;
          out_faults = S.faults world.old.out.now;
          err = E.written world.old.err.now;
          err_faults = E.faults world.old.err.now;
          bank = B.seen world.old.bank.now;
        })
        (record {
          told = F.content world.new.files.now;
          out = S.written world.new.out.now;
          out_faults = S.faults world.new.out.now;
          err = E.written world.new.err.now;
          err_faults = E.faults world.new.err.now;
          bank = B.seen world.new.bank.now;
        })
        result }
    ensures cause { FileCauses (F.faults world.old.files.now) (F.faults world.new.files.now)
        (F.misses world.old.files.now) (F.misses world.new.files.now) (ending result) }
{
    run_laws();
    let file = match file_of(alloc, resolved, plan) {
        Ok(file) => file,
        Err(AllocError) => return Err(End::NoMemory),
    };
    let asked = Asked {
        input: words.input,
        order: words.order,
        traced: words.traced,
    };
    run_file(alloc, asked, world, &file)
}

// What is known of data, of places, of the plan's runs, and of lacks.
fn run_laws()
    ensures { RunLaws }
{
    entry_is_first();
    values_are_those_of_their_array();
    picked_places_fit();
    places_fit();
    inputs_are_held();
    runs_end_as_meant();
    // Which node lacks depends on what the files hold alone.
    lacks_are_one();
}
