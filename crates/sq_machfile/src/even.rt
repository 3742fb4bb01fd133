//! The first fault of the limits in a file of version 1.

ghost use Rattle.std.specs.Prelude.{◌≡◌, IfOk, OnOk};
ghost use Rattle.sq_text.specs.Found.{Finds, firsts, nothing_found};
ghost use Rattle.sq_text.specs.declared.code.Phase.TheVariants as phase;
ghost use Rattle.sq_machfile.specs.Walk as spec;
ghost use Rattle.sq_machfile.specs.Faults.{judge};
ghost use Rattle.sq_machfile.specs.Walk.{level_rules, after_level, children_rules, after_children, one_below, after_below, levels_rules};
ghost use Rattle.sq_machfile.specs.Tallies.{capped, count_of};

use crate::limits::{is_bad_fan, is_over_capacity, level_name, passes};
use crate::text::{Below, LevelText, LevelsText};
use sq_text::limits::NODES;
use sq_text::{Code, Fault, FirstFault, FirstItems, Numeral, Phase};
use std::alloc::{AllocError, Global};

/// What is counted down to a level. No number grows past its end.
#[derive(Drop)]
pub struct Tally {
    pub names: FirstItems,
    pub width: u64,
    pub nodes: u64,
    pub bytes: u64,
}

// The bytes of all memories down to this level.
fn bytes_with(tally: &Tally, level: &LevelText) -> u64
    ensures { result ≡ spec.bytes_with capped (count_of tally.now) level.now }
{
    tally
        .bytes
        .saturating_add(tally.width.saturating_mul(level.capacity.value))
}

fn level_rules(
    first: &mut FirstFault,
    tally: &mut Tally,
    index: usize,
    level: &LevelText,
) -> Result<(), AllocError>
    ensures found { OnOk result (Finds judge first.old first.new (level_rules capped index (count_of tally.old) level.now)) }
    ensures tally { OnOk result (count_of tally.new ≡ after_level capped (count_of tally.old) level.now) }
{
    let bytes = bytes_with(tally, level);
    level_name(first, &mut tally.names, index, &level.name)?;
    let is_over = is_over_capacity(level.capacity.value, tally.bytes, bytes);
    first.note_number(Code::LimitCapacity, level.capacity, is_over)?;
    tally.bytes = bytes;
    Ok(())
}

fn children_rules(
    first: &mut FirstFault,
    tally: &mut Tally,
    children: Numeral,
) -> Result<(), AllocError>
    ensures found { OnOk result (Finds judge first.old first.new (children_rules capped (count_of tally.old) children)) }
    ensures tally { OnOk result (count_of tally.new ≡ after_children capped (count_of tally.old) children) }
{
    first.note_number(Code::LimitFan, children, is_bad_fan(children.value))?;
    let width = tally.width.saturating_mul(children.value);
    let nodes = tally.nodes.saturating_add(width);
    let is_over = passes(NODES as u64, tally.nodes, nodes);
    first.note_number(Code::LimitNodes, children, is_over)?;
    tally.width = width;
    tally.nodes = nodes;
    Ok(())
}

fn below_rules(
    first: &mut FirstFault,
    tally: &mut Tally,
    index: usize,
    below: &Below,
) -> Result<(), AllocError>
    ensures found { OnOk result (Finds judge first.old first.new (λ later. one_below capped index (count_of tally.old) below.now later)) }
    ensures tally { OnOk result (count_of tally.new ≡ after_below capped (count_of tally.old) below.now) }
{
    children_rules(first, tally, below.children)?;
    level_rules(first, tally, index, &below.level)?;
    Ok(())
}

/// The first fault of the limits.
pub fn first_fault(alloc: Global, text: &LevelsText) -> Result<Option<Fault>, AllocError>
    ensures { IfOk result (λ fault. fault ≡ (firsts judge (nothing_found phase.Machine) (levels_rules capped text.now)).fault) }
{
    let mut first = FirstFault::new(alloc, Phase::Machine);
    let mut tally = Tally {
        names: FirstItems::new(alloc),
        width: 1,
        nodes: 1,
        bytes: 0,
    };
    level_rules(&mut first, &mut tally, 0, &text.root)?;
    for (i, below) in text.below.as_slice().iter().enumerate() {
        below_rules(&mut first, &mut tally, i + 1, below)?;
    }
    Ok(first.finish())
}
