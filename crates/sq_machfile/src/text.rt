//! What a machine file says, with the places that faults name.

use sq_text::{Numeral, Word};
use sqlite_items::Items;

/// `level NAME { capacity NUMBER; }`
#[derive(Debug, Drop)]
pub struct LevelText {
    pub name: Word,
    pub capacity: Numeral,
}

/// `children NUMBER;`, and the level of these children.
#[derive(Debug, Drop)]
pub struct Below {
    pub children: Numeral,
    pub level: LevelText,
}

/// A file of version 1: the root, and the levels below it.
#[derive(Debug, Drop)]
pub struct LevelsText {
    pub root: LevelText,
    pub below: Items<Below>,
}

/// `node NAME { capacity NUMBER; NODES }`, without the nodes in it.
#[derive(Debug, Drop)]
pub struct NodeText {
    /// How many nodes it stands in: 0 for the root.
    pub depth: usize,
    pub name: Word,
    pub capacity: Numeral,
}

/// A file of version 2: the names of the levels, root first, and the nodes in the order of the text.
#[derive(Debug, Drop)]
pub struct NodesText {
    pub names: Items<Word>,
    pub nodes: Items<NodeText>,
}

/// A machine file of either version.
#[derive(Debug, Drop)]
pub enum MachineText {
    Levels(LevelsText),
    Nodes(NodesText),
}
