//! The phases up to capacity, of each command that works on the plan of a program.
ghost use Rattle.std.specs.Prelude.{◌≡◌, None};
ghost use Rattle.sq_race.specs.Race.{IsFirstRace};
ghost use Rattle.sq_words.specs.Words.{Command};
ghost use Rattle.sq_driver.specs.Ends.{ending, FileCauses};
ghost use Rattle.sq_driver.specs.Evaluating.{Evaluates, HoldsSources};
ghost use Rattle.sq_driver.specs.Planned.{HoldsPlan, IsOnPlan, Names as SpecNames, named};
ghost use Rattle.sq_driver.specs.Races.{IsResolved};

use crate::outside::end::End;
use crate::phases::capacity::planned;
use crate::phases::sources::read_sources;
use sq_compile::laws::lacks_are_one;
use sq_ir::Plan;
use sq_port::{Files, Sink};
use sq_spec::Resolved;
use std::alloc::Global;

/// The names of a program, a mapping and a machine.
#[derive(Clone, Copy)]
pub struct Names<'a> {
    pub program: &'a str,
    pub mapping: &'a str,
    pub machine: &'a str,
}

/// A command that works on the plan of a program, and leaves the bank closed.
pub trait OnPlan<'a> {
    /// What it is.
    ghost command: { Self → Command };

    /// The names of its program, its mapping and its machine.
    ghost sources: { Self → SpecNames };

    fn names(&self) -> Names<'a>
        ensures names { named result ≡ sources self.now }
        ensures on { IsOnPlan (command self.now) (sources self.now) };

    /// Does it, once there is the plan.
    fn work<F: Files, S: Sink>(
        &self,
        alloc: Global,
        files: &mut F,
        out: &mut S,
        resolved: &Resolved<'_>,
        plan: Plan,
    ) -> Result<(), End<'a>>
        requires { HoldsPlan (command self.now) (sources self.now) (F.content files.old) resolved.now plan }
        ensures content { F.content files.new ≡ F.content files.old }
        ensures evaluated { Evaluates (command self.now) (F.content files.old) (S.written out.old) (S.written out.new)
            (S.faults out.old) (S.faults out.new) result }
        ensures cause { FileCauses (F.faults files.old) (F.faults files.new) (F.misses files.old) (F.misses files.new)
            (ending result) };
}

/// Reads the files, plans the program, and lets the command work.
pub fn on_plan<'a, W: OnPlan<'a>, F: Files, S: Sink>(
    alloc: Global,
    words: &W,
    files: &mut F,
    out: &mut S,
) -> Result<(), End<'a>>
    ensures content { F.content files.new ≡ F.content files.old }
    ensures evaluated { Evaluates (W.command words.now) (F.content files.old) (S.written out.old) (S.written out.new)
        (S.faults out.old) (S.faults out.new) result }
    ensures cause { FileCauses (F.faults files.old) (F.faults files.new) (F.misses files.old) (F.misses files.new)
        (ending result) }
{
    let Names {
        program,
        mapping,
        machine,
    } = words.names();
    let sources = match read_sources(alloc, files, program, mapping, machine) {
        Ok(sources) => sources,
        Err(end) => return Err(end),
    };
    let resolved = match sources.resolved(alloc) {
        Ok(resolved) => resolved,
        Err(end) => return Err(end),
    };
    on_resolved(alloc, words, files, out, &resolved)
}

// Plans the program, and lets the command work.
fn on_resolved<'a, W: OnPlan<'a>, F: Files, S: Sink>(
    alloc: Global,
    words: &W,
    files: &mut F,
    out: &mut S,
    resolved: &Resolved<'_>,
) -> Result<(), End<'a>>
    requires on { IsOnPlan (W.command words.now) (W.sources words.now) }
    requires forms { IsResolved resolved.now.typed.now resolved.now.machine.now resolved.now.mapping.now resolved.now }
    requires holds { HoldsSources (F.content files.old) (W.sources words.now).program (W.sources words.now).mapping
        (W.sources words.now).machine resolved.now.typed.now resolved.now.machine.now resolved.now.mapping.now }
    requires free { IsFirstRace resolved.now None }
    ensures content { F.content files.new ≡ F.content files.old }
    ensures evaluated { Evaluates (W.command words.now) (F.content files.old) (S.written out.old) (S.written out.new)
        (S.faults out.old) (S.faults out.new) result }
    ensures cause { FileCauses (F.faults files.old) (F.faults files.new) (F.misses files.old) (F.misses files.new)
        (ending result) }
{
    lacks_are_one();
    match planned(alloc, resolved) {
        Ok(plan) => words.work(alloc, files, out, resolved, plan),
        Err(end) => Err(end),
    }
}
