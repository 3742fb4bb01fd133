//! The command `tune`: of the choices of a mapping that whose plan carries the fewest bytes.
ghost use Rattle.std.specs.Prelude.{◌≡◌, ◌<◌, ℕ, IfOk};
ghost use Rattle.sq_mapfile.specs.Made.{mapping_of};
ghost use Rattle.sq_mapping.specs.Sound.{Sound};
ghost use Rattle.sq_tune.specs.Rows.{IsTable};
ghost use Rattle.sq_tune_text.specs.Text.{table_text};
ghost use Rattle.sq_words.specs.Words.{tune_of};
ghost use Rattle.sq_driver.specs.Choosing.{IsRow};
ghost use Rattle.sq_driver.specs.Ends.{ending, FileCauses};
ghost use Rattle.sq_driver.specs.Evaluating.{Evaluates, HoldsMachine};
ghost use Rattle.sq_driver.specs.Steps.{WroteOut};

use crate::outside::end::End;
use crate::outside::world::{Perform, World};
use crate::phases::passes::Passes;
use crate::phases::sources::{read_alternatives, read_front};
use sq_machfile::Machine;
use sq_mapfile::Choices;
use sq_port::{Failed, Files, Sink};
use sq_tree::Bank;
use sq_tune::{Table, tune};
use sq_tune_text::put_table;
use sq_types::Typed;
use sq_words::Tune;
use std::alloc::{AllocError, Global};

impl<'a> Perform<'a> for Tune<'a> {
    ghost command = { λ words. tune_of words.program.now words.mapping.now words.machine.now };

    // Not inlined: each command has the stack to itself.
    #[inline(never)]
    fn perform<F: Files, S: Sink, E: Sink, B: Bank>(
        &self,
        alloc: Global,
        world: &mut World<'_, '_, '_, '_, F, S, E, B>,
    ) -> Result<(), End<'a>> {
        tune_program(alloc, self, world.files, world.out)
    }
}

// Reads the program and the machine, and goes on with the choices of the mapping.
fn tune_program<'a, F: Files, S: Sink>(
    alloc: Global,
    words: &Tune<'a>,
    files: &mut F,
    out: &mut S,
) -> Result<(), End<'a>>
    ensures content { F.content files.new ≡ F.content files.old }
    ensures evaluated { Evaluates (tune_of words.now.program.now words.now.mapping.now words.now.machine.now)
        (F.content files.old) (S.written out.old) (S.written out.new) (S.faults out.old) (S.faults out.new) result }
    ensures cause { FileCauses (F.faults files.old) (F.faults files.new) (F.misses files.old) (F.misses files.new)
        (ending result) }
{
    let front = match read_front(alloc, files, words.program, words.machine) {
        Ok(front) => front,
        Err(end) => return Err(end),
    };
    tune_mapping(alloc, words, files, out, &front.typed, &front.machine)
}

// Reads the choices, and writes their table.
fn tune_mapping<'a, F: Files, S: Sink>(
    alloc: Global,
    words: &Tune<'a>,
    files: &mut F,
    out: &mut S,
    typed: &Typed,
    machine: &Machine,
) -> Result<(), End<'a>>
    requires { HoldsMachine (F.content files.old) words.now.program.now words.now.machine.now typed.now machine.now }
    ensures content { F.content files.new ≡ F.content files.old }
    ensures evaluated { Evaluates (tune_of words.now.program.now words.now.mapping.now words.now.machine.now)
        (F.content files.old) (S.written out.old) (S.written out.new) (S.faults out.old) (S.faults out.new) result }
    ensures cause { FileCauses (F.faults files.old) (F.faults files.new) (F.misses files.old) (F.misses files.new)
        (ending result) }
{
    let choices = match read_alternatives(alloc, files, words.mapping, typed, machine) {
        Ok(choices) => choices,
        Err(end) => return Err(end),
    };
    match tried(alloc, typed, machine, &choices) {
        Ok(table) => write_table(out, &choices, &table),
        Err(_) => Err(End::NoMemory),
    }
}

// The table of all choices.
fn tried(
    alloc: Global,
    typed: &Typed,
    machine: &Machine,
    choices: &Choices,
) -> Result<Table, AllocError>
    requires { (n : ℕ) → n < choices.now.number → Sound typed.now machine.now.levels (mapping_of choices.now n) }
    ensures { IfOk result (λ table. IsTable (IsRow typed.now machine.now) choices.now table) }
{
    let mut passes = Passes { typed, machine };
    tune(alloc, &mut passes, choices)
}

// Writes the table.
fn write_table<'a, S: Sink>(out: &mut S, choices: &Choices, table: &Table) -> Result<(), End<'a>>
    ensures wrote { WroteOut (S.written out.old) (S.written out.new) (S.faults out.old) (S.faults out.new)
        (table_text choices.now table.now) result }
    ensures cause { (f : ℕ) (m : ℕ) → FileCauses f f m m (ending result) }
{
    match put_table(out, choices, table) {
        Ok(()) => Ok(()),
        Err(Failed) => Err(End::SinkFault),
    }
}
