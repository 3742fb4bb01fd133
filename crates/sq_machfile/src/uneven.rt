//! The first fault of the limits in a file of version 2.

ghost use Rattle.std.specs.Prelude.{◌≡◌, IfOk, OnOk};
ghost use Rattle.sq_text.specs.Found.{Finds, firsts, nothing_found};
ghost use Rattle.sq_text.specs.declared.code.Phase.TheVariants as phase;
ghost use Rattle.sq_machfile.specs.Faults as spec;
ghost use Rattle.sq_machfile.specs.Faults.{judge};
ghost use Rattle.sq_machfile.specs.Walk.{no_names, before_nodes, names_rules, node_rules, after_node, all_node_rules, nodes_rules};
ghost use Rattle.sq_machfile.specs.Tallies.{capped, node_count_of};

use crate::limits::{is_bad_fan, is_over_capacity, level_name};
use crate::names::is_again;
use crate::nested::Nested;
use sq_text::limits::NODES;
use sq_text::{Code, Fault, FirstFault, FirstItems, Numeral, Phase, Word};
use std::alloc::{AllocError, Global};

/// What is counted up to a node. No number grows past its end.
#[derive(Drop)]
pub struct NodeTally {
    pub names: FirstItems,
    pub bytes: u64,
}

fn level_names(first: &mut FirstFault, words: &[Word]) -> Result<(), AllocError>
    ensures { OnOk result (Finds judge first.old first.new (names_rules 0 no_names words.now)) }
{
    let mut names = FirstItems::new(first.alloc());
    for (i, word) in words.iter().enumerate() {
        level_name(first, &mut names, i, word)?;
    }
    Ok(())
}

// The number of a node's children, at its name.
fn fan_of(node: &Nested) -> Numeral
    ensures { result ≡ spec.fan_of node.now }
{
    Numeral {
        place: node.name.place,
        value: node.children,
    }
}

// The index-th node in the order of the text, where there are so many levels.
fn node_rules(
    first: &mut FirstFault,
    tally: &mut NodeTally,
    levels: usize,
    index: usize,
    node: &Nested,
) -> Result<(), AllocError>
    ensures found { OnOk result (Finds judge first.old first.new (node_rules capped levels index (node_count_of tally.old) node.now)) }
    ensures tally { OnOk result (node_count_of tally.new ≡ after_node capped (node_count_of tally.old) node.now) }
{
    let bytes = tally.bytes.saturating_add(node.capacity.value);
    let is_again = is_again(first.alloc(), &mut tally.names, &node.name.name)?;
    first.note_word(Code::DupNode, &node.name, is_again)?;
    first.note_word(Code::NodeDepth, &node.name, levels <= node.depth)?;
    first.note_word(Code::LimitNodes, &node.name, index == NODES)?;
    let is_bad = node.depth < levels.saturating_sub(1) && is_bad_fan(node.children);
    first.note_number(Code::LimitFan, fan_of(node), is_bad)?;
    let is_over = is_over_capacity(node.capacity.value, tally.bytes, bytes);
    first.note_number(Code::LimitCapacity, node.capacity, is_over)?;
    tally.bytes = bytes;
    Ok(())
}

fn all_node_rules(first: &mut FirstFault, levels: usize, nodes: &[Nested]) -> Result<(), AllocError>
    ensures { OnOk result (first.new ≡ firsts judge first.old (all_node_rules capped levels 0 before_nodes nodes.now)) }
{
    let mut tally = NodeTally {
        names: FirstItems::new(first.alloc()),
        bytes: 0,
    };
    for (i, node) in nodes.iter().enumerate() {
        node_rules(first, &mut tally, levels, i, node)?;
    }
    Ok(())
}

/// The first fault of the limits.
pub fn first_fault(
    alloc: Global,
    names: &[Word],
    nodes: &[Nested],
) -> Result<Option<Fault>, AllocError>
    ensures { IfOk result (λ fault. fault ≡ (firsts judge (nothing_found phase.Machine) (nodes_rules capped names.now nodes.now)).fault) }
{
    let mut first = FirstFault::new(alloc, Phase::Machine);
    level_names(&mut first, names)?;
    all_node_rules(&mut first, names.len(), nodes)?;
    Ok(first.finish())
}
