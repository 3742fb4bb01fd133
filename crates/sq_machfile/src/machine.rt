//! Machines.

ghost use Rattle.std.specs.Prelude.{◌≡◌, ◌<◌, IfOk, length};
ghost use Rattle.sq_text.specs.Answers.{Answers, Gives};
ghost use Rattle.sq_machfile.specs.Machines.{Hierarchy, WithinLimits, StandsFor, MachineFault, nodes_at, AnswersLimits};
ghost use Rattle.sq_machfile.specs.Grammar.{IsWritten};
ghost use Rattle.sq_machfile.specs.declared.text.MachineText.TheVariants as MachineText;

use crate::level::Level;
use crate::node::Node;
use crate::reading::parse;
use crate::text::{LevelText, LevelsText, MachineText, NodesText};
use crate::{even, levels, nested, tree, uneven};
use sq_lexer::tokens;
use sq_text::{Phase, Stop};
use sqlite_items::Items;
use std::alloc::{AllocError, Global};
use std::marker::Model;

/// A hierarchy of memories, within every limit. Contracts see it as its levels, root first, and its nodes, level by
/// level from the left.
#[derive(Debug, Drop)]
pub struct Machine {
    levels: Items<Level>,
    nodes: Items<Node>,
}

impl Model for Machine {
    ghost use Rattle.sq_machfile.specs.Machines.{Hierarchy, WithinLimits};

    ghost Value = { Hierarchy };

    ghost view = { λ m. record { levels = m.levels; nodes = m.nodes } };

    ghost invariant = { λ m. WithinLimits (record { levels = m.levels; nodes = m.nodes }) };
}

impl Machine {
    /// The levels, root first.
    pub fn levels(&self) -> &[Level]
        ensures items { result.now ≡ self.now.levels }
        ensures within { WithinLimits self.now }
    {
        self.levels.as_slice()
    }

    /// The nodes, level by level, and in each level from the left.
    pub fn tree(&self) -> &[Node]
        ensures items { result.now ≡ self.now.nodes }
        ensures within { WithinLimits self.now }
    {
        self.nodes.as_slice()
    }

    /// How many nodes the level has.
    pub fn nodes(&self, level: usize) -> u32
        requires { level < length self.now.levels }
        ensures { result ≡ nodes_at self.now level }
    {
        levels::count_nodes(self.nodes.as_slice(), level)
    }
}

fn even_machine(alloc: Global, text: &LevelsText) -> Result<Machine, Stop>
    ensures { AnswersLimits (MachineText.Levels text.now) result }
{
    if let Some(fault) = even::first_fault(alloc, text)? {
        return Err(Stop::Refused(fault));
    }
    let levels = levels::even_levels(alloc, text)?;
    let nodes = tree::even_nodes(alloc, levels.as_slice())?;
    Ok(Machine { levels, nodes })
}

fn uneven_machine(alloc: Global, text: NodesText) -> Result<Machine, Stop>
    requires { IsWritten (MachineText.Nodes text) }
    ensures { AnswersLimits (MachineText.Nodes text) result }
{
    let NodesText { names, nodes } = text;
    let nodes = nested::with_children(alloc, nodes)?;
    let nodes = nodes.as_slice();
    if let Some(fault) = uneven::first_fault(alloc, names.as_slice(), nodes)? {
        return Err(Stop::Refused(fault));
    }
    let nodes = tree::uneven_nodes(alloc, names.len() as u32, nodes)?;
    let levels = levels::uneven_levels(alloc, nodes.as_slice(), names.as_slice())?;
    Ok(Machine { levels, nodes })
}

fn machine_of(alloc: Global, written: MachineText) -> Result<Machine, Stop>
    requires { IsWritten written }
    ensures { AnswersLimits written result }
{
    match written {
        MachineText::Levels(text) => even_machine(alloc, &text),
        MachineText::Nodes(text) => uneven_machine(alloc, text),
    }
}

/// The machine that a text stands for, or its first fault.
pub fn read_machine(alloc: Global, text: &[u8]) -> Result<Machine, Stop>
    // Ok exactly where no fault holds; else the first one.
    ensures answers { Answers (MachineFault text.now) result }
    ensures found { IfOk result (λ machine. StandsFor text.now machine) }
    // A text stands for at most one machine, which is found where it keeps the limits.
    ensures only { (machine : Hierarchy) → StandsFor text.now machine → WithinLimits machine → Gives result machine }
{
    let tokens = match tokens(alloc, Phase::Machine, text) {
        Ok(tokens) => tokens,
        Err(stop) => return Err(stop),
    };
    let written = match parse(alloc, tokens.as_slice()) {
        Ok(written) => written,
        Err(stop) => return Err(stop),
    };
    machine_of(alloc, written)
}
