//! What is known where a part of a term is made.

use sq_ast::Mode;
use sq_ir::{LeafView, LeafViews, Num, Nums};
use sq_num::RedOp;
use sq_placed::Home;

/// Where a part of a form's term stands.
#[derive(Drop)]
pub struct Context {
    /// How often the statement was begun before, in this run of its form.
    pub ordinal: Num,
    /// The child that lower calls go to; with none the node in force is that child.
    pub child: Option<Num>,
    /// The numbers of the iterations round it, from the entry down.
    pub path: Nums,
    /// Where the form's arrays stand.
    pub views: LeafViews,
}

/// A parameter at one call: its block of the caller's array, and where the callee has it.
#[derive(Drop)]
pub struct Move {
    pub mode: Mode,
    /// By which operator its array is reduced into, if it is.
    pub gathers: Option<RedOp>,
    pub home: Home,
    pub outside: LeafView,
    pub own: LeafView,
}

/// The iterations of a loop that stand at one child, in turn: the first one, each further one so many behind, and how
/// many there are.
#[derive(Drop)]
pub struct Lane {
    pub first: Num,
    pub step: Num,
    pub many: Num,
}
