//! The program, the machine and the mapping of a command, or its choices, read in the order of their phases.
ghost use Rattle.std.specs.Prelude.{◌≡◌, ◌<◌, ℕ, List, None, Some, Option, IfOk, IfErr, OnOk};
ghost use Rattle.sq_port.specs.Ports.{Content};
ghost use Rattle.sq_text.specs.declared.fault.Fault.{Fault as SpecFault};
ghost use Rattle.sq_ast.specs.Given.{IsGiven};
ghost use Rattle.sq_types.specs.Sites.{TypeFault};
ghost use Rattle.sq_lexer.specs.Faults.{file_limit, most_bytes};
ghost use Rattle.sq_machfile.specs.Machines.{WithinLimits};
ghost use Rattle.sq_mapping.specs.Sound.{Sound};
ghost use Rattle.sq_mapfile.specs.Made.{mapping_of};
ghost use Rattle.sq_forms.specs.Forms.{AreForms, IsFirstMet};
ghost use Rattle.sq_forms.specs.Resolving.{resolution};
ghost use Rattle.sq_spec.specs.Works.{found_in};
ghost use Rattle.sq_race.specs.Race.{IsFirstRace};
ghost use Rattle.sq_driver.specs.Chosen.{ReadsChoices};
ghost use Rattle.sq_driver.specs.Programs.{IsFirstTypeFault};
ghost use Rattle.sq_driver.specs.Races.{IsResolved, IsFirstRaceFault};
ghost use Rattle.sq_driver.specs.Ends.{ending, FileCauses};
ghost use Rattle.sq_driver.specs.SharedFiles.{StopsFront, StopsSources};
ghost use Rattle.sq_driver.specs.Steps.{ReadsFitting};
ghost use Rattle.sq_driver.specs.Evaluating.{EndsWith, HoldsMachine, HoldsSources, ReadsMachine, ReadsMapping};

use crate::outside::end::End;
use crate::phases::race::race_fault;
use crate::phases::tree::{MOST_BYTES, read_tree, too_long};
use sq_ast::Program;
use sq_machfile::{Machine, read_machine};
use sq_mapfile::{Choices, read_choices, read_mapping};
use sq_mapping::Mapping;
use sq_port::{Bytes, Files, ReadEnd, read_whole};
use sq_race::first_race;
use sq_spec::{Resolved, resolve};
use sq_text::{Phase, Stop};
use sq_types::{Typed, check};
use std::alloc::Global;

/// A program that breaks no rule, and a machine.
#[derive(Drop)]
pub struct Front {
    pub typed: Typed,
    pub machine: Machine,
}

/// Reads the program and the machine of these names; it stops at the first that is missing, fails or has a fault.
pub fn read_front<'a, F: Files>(
    alloc: Global,
    files: &mut F,
    program: &'a str,
    machine: &'a str,
) -> Result<Front, End<'a>>
    ensures content { F.content files.new ≡ F.content files.old }
    ensures held { IfOk result (λ f. HoldsMachine (F.content files.old) program.now machine.now f.typed f.machine) }
    ensures stopped { IfErr result (λ end. StopsFront (F.content files.old) program.now machine.now end) }
    ensures cause { FileCauses (F.faults files.old) (F.faults files.new) (F.misses files.old) (F.misses files.new)
        (ending result) }
{
    let tree = match read_tree(alloc, files, program) {
        Ok(tree) => tree,
        Err(end) => return Err(end),
    };
    let typed = match checked(alloc, tree) {
        Ok(typed) => typed,
        Err(end) => return Err(end),
    };
    let hierarchy = match read_hierarchy(alloc, files, machine) {
        Ok(hierarchy) => hierarchy,
        Err(end) => return Err(end),
    };
    Ok(Front {
        typed,
        machine: hierarchy,
    })
}

/// A program that breaks no rule, a machine, and a mapping of the one onto the other.
#[derive(Drop)]
pub struct Sources {
    typed: Typed,
    machine: Machine,
    mapping: Mapping,
}

/// Reads the program, the machine and the mapping of these names; it stops at the first that is missing, fails or has a
/// fault.
pub fn read_sources<'a, F: Files>(
    alloc: Global,
    files: &mut F,
    program: &'a str,
    mapping: &'a str,
    machine: &'a str,
) -> Result<Sources, End<'a>>
    ensures content { F.content files.new ≡ F.content files.old }
    ensures held { IfOk result (λ s. HoldsSources (F.content files.old) program.now mapping.now machine.now s.typed
        s.machine s.mapping) }
    ensures sound { IfOk result (λ s. Sound s.typed s.machine.levels s.mapping) }
    ensures stopped { IfErr result (λ end. StopsSources (F.content files.old) program.now mapping.now machine.now end) }
    ensures cause { FileCauses (F.faults files.old) (F.faults files.new) (F.misses files.old) (F.misses files.new)
        (ending result) }
{
    let front = match read_front(alloc, files, program, machine) {
        Ok(front) => front,
        Err(end) => return Err(end),
    };
    let mapped = match read_mapped(alloc, files, mapping, &front.typed, &front.machine) {
        Ok(mapped) => mapped,
        Err(end) => return Err(end),
    };
    let Front { typed, machine } = front;
    Ok(Sources {
        typed,
        machine,
        mapping: mapped,
    })
}

impl Sources {
    /// The forms of the program, where the walk over them meets no fault and they have no race.
    pub fn resolved<'a>(&self, alloc: Global) -> Result<Resolved<'_>, End<'a>>
        requires { Sound self.now.typed self.now.machine.levels self.now.mapping }
        ensures resolved { IfOk result (λ r. IsResolved self.now.typed self.now.machine self.now.mapping r) }
        ensures free { IfOk result (λ r. IsFirstRace r None) }
        ensures cause { (f : ℕ) (m : ℕ) → FileCauses f f m m (ending result) }
        ensures stopped { IfErr result (λ end. (told : Option Content) (p m k : List ℕ)
            → HoldsSources told p m k self.now.typed self.now.machine self.now.mapping → StopsSources told p m k end) }
    {
        let resolved = match forms_of(alloc, &self.typed, &self.mapping, &self.machine) {
            Ok(resolved) => resolved,
            Err(end) => return Err(end),
        };
        match refuse_race(alloc, &resolved) {
            Ok(()) => {}
            Err(end) => return Err(end),
        }
        Ok(resolved)
    }
}

// The program, where it has no fault of names, kinds and parameters.
fn checked<'a>(alloc: Global, program: Program) -> Result<Typed, End<'a>>
    requires { IsGiven program }
    ensures same { IfOk result (λ typed. typed ≡ program) }
    ensures faultless { IfOk result (λ typed. (f : SpecFault) → TypeFault program f → ⊥) }
    ensures refused { IfErr result (λ end. EndsWith (IsFirstTypeFault program) end) }
{
    match check(alloc, program) {
        Ok(typed) => Ok(typed),
        Err(Stop::Refused(fault)) => Err(End::Refused(fault)),
        Err(Stop::NoMemory) => Err(End::NoMemory),
    }
}

/// The forms of the program.
pub fn forms_of<'r, 'a>(
    alloc: Global,
    typed: &'r Typed,
    mapping: &'r Mapping,
    machine: &'r Machine,
) -> Result<Resolved<'r>, End<'a>>
    requires { Sound typed.now machine.now.levels mapping.now }
    ensures forms { IfOk result (λ r. AreForms typed.now mapping.now r.forms r.uses) }
    ensures found { IfOk result (λ r. found_in (resolution typed.now.tasks mapping.now) ≡ r.found.entries) }
    ensures program { IfOk result (λ r. r.typed.now ≡ typed.now) }
    ensures mapping { IfOk result (λ r. r.mapping.now ≡ mapping.now) }
    ensures machine { IfOk result (λ r. r.machine.now ≡ machine.now) }
    ensures refused { IfErr result (λ end. EndsWith (IsFirstMet typed.now mapping.now) end) }
{
    match resolve(alloc, typed, mapping, machine) {
        Ok(resolved) => Ok(resolved),
        Err(Stop::Refused(fault)) => Err(End::Refused(fault)),
        Err(Stop::NoMemory) => Err(End::NoMemory),
    }
}

/// Refuses a race.
pub fn refuse_race<'a>(alloc: Global, resolved: &Resolved<'_>) -> Result<(), End<'a>>
    ensures free { OnOk result (IsFirstRace resolved.now None) }
    ensures refused { IfErr result (λ end. EndsWith (IsFirstRaceFault resolved.now) end) }
{
    match first_race(alloc, resolved) {
        Ok(None) => Ok(()),
        Ok(Some(race)) => match race_fault(alloc, &race) {
            Ok(fault) => Err(End::Refused(fault)),
            Err(_) => Err(End::NoMemory),
        },
        Err(_) => Err(End::NoMemory),
    }
}

/// The text of a file, where it isn't too long for the phase.
pub fn read_fitting<'a, F: Files>(
    alloc: Global,
    files: &mut F,
    name: &'a str,
    phase: Phase,
) -> Result<Bytes, End<'a>>
    requires { file_limit phase ≡ Some most_bytes }
    ensures content { F.content files.new ≡ F.content files.old }
    ensures told { ReadsFitting phase (F.content files.old) name.now result }
    ensures cause { FileCauses (F.faults files.old) (F.faults files.new) (F.misses files.old) (F.misses files.new)
        (ending result) }
{
    match read_whole(alloc, files, name, MOST_BYTES) {
        Ok(text) => Ok(text),
        Err(ReadEnd::Failed) => Err(End::FileFault(name)),
        Err(ReadEnd::Absent) => Err(End::Absent(name)),
        Err(ReadEnd::TooLong) => Err(End::Refused(too_long(alloc, phase))),
        Err(ReadEnd::NoMemory) => Err(End::NoMemory),
    }
}

// Each machine keeps the limits.
fn within_limits(machine: &Machine)
    ensures { WithinLimits machine.now }
{
    let _ = machine.levels();
}

// Reads the machine.
fn read_hierarchy<'a, F: Files>(
    alloc: Global,
    files: &mut F,
    name: &'a str,
) -> Result<Machine, End<'a>>
    ensures content { F.content files.new ≡ F.content files.old }
    ensures told { ReadsMachine (F.content files.old) name.now result }
    ensures cause { FileCauses (F.faults files.old) (F.faults files.new) (F.misses files.old) (F.misses files.new)
        (ending result) }
{
    let text = match read_fitting(alloc, files, name, Phase::Machine) {
        Ok(text) => text,
        Err(end) => return Err(end),
    };
    match read_machine(alloc, text.as_slice()) {
        Ok(machine) => {
            within_limits(&machine);
            Ok(machine)
        }
        Err(Stop::Refused(fault)) => Err(End::Refused(fault)),
        Err(Stop::NoMemory) => Err(End::NoMemory),
    }
}

// Reads the mapping of the program onto the machine.
fn read_mapped<'a, F: Files>(
    alloc: Global,
    files: &mut F,
    name: &'a str,
    typed: &Typed,
    machine: &Machine,
) -> Result<Mapping, End<'a>>
    ensures content { F.content files.new ≡ F.content files.old }
    ensures told { ReadsMapping typed.now machine.now.levels (F.content files.old) name.now result }
    ensures sound { IfOk result (λ mapping. Sound typed.now machine.now.levels mapping) }
    ensures cause { FileCauses (F.faults files.old) (F.faults files.new) (F.misses files.old) (F.misses files.new)
        (ending result) }
{
    let text = match read_fitting(alloc, files, name, Phase::Mapping) {
        Ok(text) => text,
        Err(end) => return Err(end),
    };
    match read_mapping(alloc, text.as_slice(), typed, machine) {
        Ok(mapping) => Ok(mapping),
        Err(Stop::Refused(fault)) => Err(End::Refused(fault)),
        Err(Stop::NoMemory) => Err(End::NoMemory),
    }
}

/// Reads the choices of a mapping of the program onto the machine, whose tunables may have several alternatives.
pub fn read_alternatives<'a, F: Files>(
    alloc: Global,
    files: &mut F,
    name: &'a str,
    typed: &Typed,
    machine: &Machine,
) -> Result<Choices, End<'a>>
    ensures content { F.content files.new ≡ F.content files.old }
    ensures told { ReadsChoices typed.now machine.now.levels (F.content files.old) name.now result }
    ensures sound { IfOk result (λ choices. (n : ℕ) → n < choices.number → Sound typed.now machine.now.levels
        (mapping_of choices n)) }
    ensures cause { FileCauses (F.faults files.old) (F.faults files.new) (F.misses files.old) (F.misses files.new)
        (ending result) }
{
    let text = match read_fitting(alloc, files, name, Phase::Mapping) {
        Ok(text) => text,
        Err(end) => return Err(end),
    };
    match read_choices(alloc, text.as_slice(), typed, machine) {
        Ok(choices) => Ok(choices),
        Err(Stop::Refused(fault)) => Err(End::Refused(fault)),
        Err(Stop::NoMemory) => Err(End::NoMemory),
    }
}
