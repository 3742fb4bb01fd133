//! What a mapping file stands for, with the names of instances and levels resolved.

use sq_ast::VariantKind;
use sq_text::{Name, SpreadRule};
use sqlite_items::Items;

/// The value of a tunable.
#[derive(Debug, Drop)]
pub enum Setting {
    /// Of a tunable number.
    One(i64),
    /// Of a tunable list.
    Many(Numbers),
}

/// A tunable and its value.
#[derive(Debug, Drop)]
pub struct Tuning {
    pub name: Name,
    pub setting: Setting,
}

/// Which instance serves the calls of a task, counted from 0 in the order of the text.
#[derive(Debug, Drop)]
pub struct Route {
    pub task: Name,
    pub instance: u32,
}

/// A variant of a task at a level, counted from 0 at the root.
#[derive(Debug, Drop)]
pub struct Instance {
    pub name: Name,
    pub task: Name,
    pub kind: VariantKind,
    pub level: u32,
    pub tunings: Tunings,
    pub routes: Routes,
    /// How the maps of an inner instance go to the children of a node. A leaf has none.
    pub spread: SpreadRule,
}

/// The value of one of the entry's size names.
#[derive(Debug, Drop)]
pub struct SizeSet {
    pub name: Name,
    pub value: i64,
}

/// The instances in the order of the text, and which of them is the entry, with its sizes.
#[derive(Debug, Drop)]
pub struct Mapping {
    pub entry: u32,
    pub sizes: SizeSets,
    pub instances: Instances,
}

pub type Numbers = Items<i64>;

pub type Tunings = Items<Tuning>;

pub type Routes = Items<Route>;

pub type Instances = Items<Instance>;

pub type SizeSets = Items<SizeSet>;
