//! What a mapping file says, with the places that faults name.

use sq_ast::VariantKind;
use sq_mapping::Setting;
use sq_text::{SpreadRule, Word};
use sqlite_items::Items;

/// The versions of mapping files. Only the second has items that choose how to spread.
#[derive(Clone, Copy, Debug)]
pub enum Version {
    First,
    Second,
}

/// Whether a tunable has one value, as in each mapping, or may have alternatives, as where choices are read.
#[derive(Clone, Copy, Debug)]
pub enum Tunables {
    Fixed,
    Varied,
}

/// `NAME = NUMBER`
#[derive(Drop)]
pub struct SizeText {
    pub name: Word,
    pub value: i64,
}

/// `VALUE | VALUE ..`, where a value is a number or a list of numbers in brackets.
#[derive(Drop)]
pub struct Alternatives {
    pub first: Setting,
    pub others: Items<Setting>,
}

#[derive(Drop)]
pub enum ItemText {
    /// `tunable NAME = ALTERNATIVES;`
    Tunable { name: Word, values: Alternatives },
    /// `call TASK -> INSTANCE;`
    Call { task: Word, instance: Word },
    /// `spread = RULE;`, where the name of the word is `spread`.
    Spread { word: Word, rule: SpreadRule },
}

/// `instance NAME = TASK::KIND @ LEVEL { ITEMS }`
#[derive(Drop)]
pub struct InstanceText {
    pub name: Word,
    pub task: Word,
    pub kind: VariantKind,
    pub level: Word,
    pub items: Items<ItemText>,
}

/// `mapping VERSION; entry NAME(SIZES);`, and the instances.
#[derive(Drop)]
pub struct MappingText {
    pub entry: Word,
    pub sizes: Items<SizeText>,
    pub instances: Items<InstanceText>,
}
