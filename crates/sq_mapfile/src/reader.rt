//! Reading mappings.

ghost use Rattle.std.specs.Prelude.{◌≡◌, ◌<◌, ℕ, IfOk};
ghost use Rattle.sq_text.specs.declared.fault.Fault.{Fault};
ghost use Rattle.sq_text.specs.Faults.{IsFirst};
ghost use Rattle.sq_text.specs.Answers.{Answers, Gives};
ghost use Rattle.sq_mapping.specs.declared.mapping.Mapping.{Mapping};
ghost use Rattle.sq_mapfile.specs.declared.text.MappingText.{MappingText};
ghost use Rattle.sq_mapfile.specs.Resolving.{mapping_with};
ghost use Rattle.sq_mapfile.specs.Mappings.{BreaksRule, MappingFault, Resolves, SpreadsOnce, StandsFor, Writes};
ghost use Rattle.sq_mapping.specs.Sound.{Sound};
ghost use Rattle.sq_mapfile.specs.Choices.{BreaksChoices, ChoicesFault, instances_count};
ghost use Rattle.sq_mapfile.specs.Made.{AreChoices, AreReadAlone, StandFor, mapping_of};

use crate::choices::{Choices, made};
use crate::cycle::note_cycle;
use crate::reading::parse;
use crate::resolve::resolve;
use crate::table::InstanceTable;
use crate::text::{MappingText, Tunables};
use crate::walk::{note_choices, note_names};
use sq_ast::Program;
use sq_lexer::laws::each_text_has_tokens_or_breaks;
use sq_lexer::tokens;
use sq_machfile::{Level, Machine};
use sq_mapping::Mapping;
use sq_text::{Fault, FirstFault, Phase, Stop};
use sq_types::Typed;
use std::alloc::{AllocError, Global};

// The first rule that the mapping breaks.
fn first_fault(
    alloc: Global,
    program: &Program,
    table: &InstanceTable<'_>,
    mapping: &MappingText,
) -> Result<Option<Fault>, AllocError>
    requires { table.now.instances.now ≡ mapping.now.instances }
    ensures { IfOk result (λ found. IsFirst (BreaksRule program.now table.now.levels.now mapping.now) found) }
{
    let mut found = FirstFault::new(alloc, Phase::Mapping);
    note_names(alloc, &mut found, program, table, mapping)?;
    note_cycle(alloc, &mut found, table)?;
    Ok(found.finish())
}

// The mapping, where it keeps every rule.
fn judged(
    alloc: Global,
    program: &Program,
    levels: &[Level],
    written: &MappingText,
) -> Result<Mapping, Stop>
    ensures answers { Answers (BreaksRule program.now levels.now written.now) result }
    ensures found { IfOk result (λ mapping. mapping ≡ mapping_with levels.now written.now) }
{
    let table = InstanceTable::new(alloc, levels, written.instances.as_slice())?;
    if let Some(fault) = first_fault(alloc, program, &table, written)? {
        return Err(Stop::Refused(fault));
    }
    let mapping = resolve(alloc, &table, written)?;
    Ok(mapping)
}

/// The mapping that a text stands for, or its first fault.
pub fn read_mapping(
    alloc: Global,
    text: &[u8],
    typed: &Typed,
    machine: &Machine,
) -> Result<Mapping, Stop>
    // Ok exactly where no fault holds; else the first one.
    ensures answers { Answers (MappingFault typed.now machine.now.levels text.now) result }
    ensures found { IfOk result (λ mapping. StandsFor machine.now.levels text.now mapping) }
    // Its entry, its instances and their routes and tunings are what the program and the machine want, and no calls
    // lead back.
    ensures sound { IfOk result (λ mapping. Sound typed.now machine.now.levels mapping) }
    // A text stands for at most one mapping, which is found where no fault holds.
    ensures only { (mapping : Mapping) → StandsFor machine.now.levels text.now mapping
        → ((f : Fault) → MappingFault typed.now machine.now.levels text.now f → ⊥) → Gives result mapping }
    // A text is read where what it stands for is sound, and no instance chooses twice how to spread or chooses as a
    // leaf.
    ensures given { (m : MappingText) (mapping : Mapping) → Writes text.now m → SpreadsOnce m
        → Resolves machine.now.levels m mapping → Sound typed.now machine.now.levels mapping → Gives result mapping }
{
    let tokens = match tokens(alloc, Phase::Mapping, text) {
        Ok(tokens) => tokens,
        Err(stop) => return Err(stop),
    };
    let written = match parse(alloc, tokens.as_slice(), Tunables::Fixed) {
        Ok(written) => written,
        Err(stop) => return Err(stop),
    };
    judged(alloc, typed.program(), machine.levels(), &written)
}

// What the choices break first, and how many they are, as far as one more than there may be.
#[derive(Drop)]
struct ChoicesJudged {
    fault: Option<Fault>,
    count: u64,
}

// The first rule that the choices break.
fn first_fault_of_choices(
    alloc: Global,
    program: &Program,
    table: &InstanceTable<'_>,
    mapping: &MappingText,
) -> Result<ChoicesJudged, AllocError>
    requires { table.now.instances.now ≡ mapping.now.instances }
    ensures fault { IfOk result (λ its. IsFirst (BreaksChoices program.now table.now.levels.now mapping.now) its.fault) }
    ensures count { IfOk result (λ its. its.count ≡ instances_count 1 mapping.now.instances) }
{
    let mut found = FirstFault::new(alloc, Phase::Mapping);
    note_names(alloc, &mut found, program, table, mapping)?;
    let count = note_choices(alloc, &mut found, program, table, mapping)?;
    note_cycle(alloc, &mut found, table)?;
    Ok(ChoicesJudged {
        fault: found.finish(),
        count,
    })
}

// The choices, where they keep every rule.
fn judged_choices(
    alloc: Global,
    program: &Program,
    levels: &[Level],
    written: &MappingText,
) -> Result<Choices, Stop>
    ensures answers { Answers (BreaksChoices program.now levels.now written.now) result }
    ensures found { IfOk result (λ choices. AreChoices levels.now written.now choices) }
{
    let table = InstanceTable::new(alloc, levels, written.instances.as_slice())?;
    let ChoicesJudged { fault, count } = first_fault_of_choices(alloc, program, &table, written)?;
    if let Some(fault) = fault {
        return Err(Stop::Refused(fault));
    }
    let choices = made(alloc, &table, written, count)?;
    Ok(choices)
}

/// The choices that a text with alternatives stands for, or its first fault. The faults are those of a mapping, of every
/// alternative, and too many choices.
pub fn read_choices(
    alloc: Global,
    text: &[u8],
    typed: &Typed,
    machine: &Machine,
) -> Result<Choices, Stop>
    // Ok exactly where no fault holds; else the first one.
    ensures answers { Answers (ChoicesFault typed.now machine.now.levels text.now) result }
    ensures found { IfOk result (λ choices. StandFor machine.now.levels text.now choices) }
    // Each choice's mapping is what `read_mapping` gives of the text with its alternatives alone.
    ensures alone { IfOk result (λ choices. AreReadAlone typed.now machine.now.levels text.now choices) }
    // And it is what the program and the machine want.
    ensures sound { IfOk result (λ choices. (n : ℕ) → n < choices.number → Sound typed.now machine.now.levels
        (mapping_of choices n)) }
{
    each_text_has_tokens_or_breaks();
    let tokens = match tokens(alloc, Phase::Mapping, text) {
        Ok(tokens) => tokens,
        Err(stop) => return Err(stop),
    };
    let written = match parse(alloc, tokens.as_slice(), Tunables::Varied) {
        Ok(written) => written,
        Err(stop) => return Err(stop),
    };
    judged_choices(alloc, typed.program(), machine.levels(), &written)
}
