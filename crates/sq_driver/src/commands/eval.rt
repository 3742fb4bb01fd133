//! The command `eval`: what the source means on one flat memory.
ghost use Rattle.std.specs.Prelude.{◌≡◌, ℕ, None, IfOk};
ghost use Rattle.sq_leaf.specs.Source.{Arrays as SpecArrays};
ghost use Rattle.sq_spec.specs.Works.{flat};
ghost use Rattle.sq_flat.specs.Held.{AreWhole, Holds, entry_shapes};
ghost use Rattle.sq_race.specs.Race.{IsFirstRace};
ghost use Rattle.sq_words.specs.Words.{eval_of};
ghost use Rattle.sq_driver.specs.Races.{IsResolved};
ghost use Rattle.sq_driver.specs.Ends.{ending, FileCauses};
ghost use Rattle.sq_driver.specs.Evaluating.{HoldsSources, Evaluates, EndsFlat};

use crate::outside::end::End;
use crate::outside::world::{Perform, World};
use crate::phases::entry::{read_given, write_outputs};
use crate::phases::sources::read_sources;
use sq_flat::{Arrays, FlatEnd, eval_flat};
use sq_port::{Files, Sink};
use sq_race::laws::without_a_race;
use sq_report::trap_at;
use sq_spec::Resolved;
use sq_spec::laws::entry_is_first;
use sq_tree::Bank;
use sq_words::Eval;
use std::alloc::Global;

impl<'a> Perform<'a> for Eval<'a> {
    ghost command = { λ words. eval_of words.program.now words.mapping.now words.machine.now words.input.now };

    // Not inlined: each command has the stack to itself.
    #[inline(never)]
    fn perform<F: Files, S: Sink, E: Sink, B: Bank>(
        &self,
        alloc: Global,
        world: &mut World<'_, '_, '_, '_, F, S, E, B>,
    ) -> Result<(), End<'a>> {
        eval_program(alloc, self, world.files, world.out)
    }
}

// Reads the files and evaluates the program on the data.
fn eval_program<'a, F: Files, S: Sink>(
    alloc: Global,
    words: &Eval<'a>,
    files: &mut F,
    out: &mut S,
) -> Result<(), End<'a>>
    ensures content { F.content files.new ≡ F.content files.old }
    ensures evaluated { Evaluates
        (eval_of words.now.program.now words.now.mapping.now words.now.machine.now words.now.input.now)
        (F.content files.old) (S.written out.old) (S.written out.new) (S.faults out.old) (S.faults out.new) result }
    ensures cause { FileCauses (F.faults files.old) (F.faults files.new) (F.misses files.old) (F.misses files.new)
        (ending result) }
{
    let sources = match read_sources(alloc, files, words.program, words.mapping, words.machine) {
        Ok(sources) => sources,
        Err(end) => return Err(end),
    };
    let resolved = match sources.resolved(alloc) {
        Ok(resolved) => resolved,
        Err(end) => return Err(end),
    };
    eval_free(alloc, words, files, out, &resolved)
}

// Reads the data into the arrays of the entry, and goes on with them.
fn eval_free<'a, F: Files, S: Sink>(
    alloc: Global,
    words: &Eval<'a>,
    files: &mut F,
    out: &mut S,
    resolved: &Resolved<'_>,
) -> Result<(), End<'a>>
    requires forms { IsResolved resolved.now.typed.now resolved.now.machine.now resolved.now.mapping.now resolved.now }
    requires holds { HoldsSources (F.content files.old) words.now.program.now words.now.mapping.now
        words.now.machine.now resolved.now.typed.now resolved.now.machine.now resolved.now.mapping.now }
    requires free { IsFirstRace resolved.now None }
    ensures content { F.content files.new ≡ F.content files.old }
    ensures evaluated { Evaluates
        (eval_of words.now.program.now words.now.mapping.now words.now.machine.now words.now.input.now)
        (F.content files.old) (S.written out.old) (S.written out.new) (S.faults out.old) (S.faults out.new) result }
    ensures cause { FileCauses (F.faults files.old) (F.faults files.new) (F.misses files.old) (F.misses files.new)
        (ending result) }
{
    entry_is_first();
    let given = match read_given(alloc, files, words.input, resolved) {
        Ok(given) => given,
        Err(end) => return Err(end),
    };
    let arrays = match eval_given(alloc, resolved, given) {
        Ok(arrays) => arrays,
        Err(end) => return Err(end),
    };
    write_outputs(out, resolved, &arrays)
}

// Evaluates the forms on the arrays that the data gives.
fn eval_given<'a>(alloc: Global, resolved: &Resolved<'_>, given: Arrays) -> Result<Arrays, End<'a>>
    requires shapes { given.shapes ≡ entry_shapes resolved.now.typed.now.tasks resolved.now.mapping.now
        resolved.now.found.entries }
    requires free { IsFirstRace resolved.now None }
    ensures shapes { IfOk result (λ a. a.shapes ≡ given.shapes) }
    ensures whole { IfOk result (λ a. AreWhole a) }
    ensures cause { (f : ℕ) (m : ℕ) → FileCauses f f m m (ending result) }
    ensures ends { (s : SpecArrays) → Holds given.shapes given.bytes s → EndsFlat given.shapes result
        (flat resolved.now.typed.now resolved.now.mapping.now s) }
{
    without_a_race();
    match eval_flat(alloc, resolved, given) {
        Ok(arrays) => Ok(arrays),
        Err(FlatEnd::Trap(trapped)) => Err(End::Trapped(trap_at(trapped.trap, trapped.path))),
        Err(FlatEnd::NoMemory) => Err(End::NoMemory),
    }
}
