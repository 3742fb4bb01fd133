//! What the statements of a loop's body do at the turns of a block: numbers put at elements.

use crate::rise::Rise;
use arrayvec::ArrayVec;
use sq_ast::{AssignOp, BinOp, UnOp};
use sq_columns::Line;
use sq_num::Elem;

/// How many operators may stand behind an element that turns carry.
pub const LINKS: usize = 4;

/// The elements of a type whose first bytes go up by the same step from turn to turn.
#[derive(Clone, Copy)]
pub(crate) struct Row {
    pub elem: Elem,
    pub rise: Rise,
}

/// The numbers of a line; its column begins with this number of all columns.
#[derive(Clone, Copy)]
pub struct Numbers {
    pub line: Line,
    pub from: usize,
}

impl Numbers {
    ghost use Rattle.std.specs.Prelude.{◌≡◌};
    ghost use Rattle.sq_deeds.specs.Deeds as spec;

    /// Those of the column that begins with this number of all columns.
    #[inline(always)]
    pub fn column(from: usize) -> Numbers
        ensures { result ≡ spec.column from }
    {
        let line = Line::Column;
        Numbers { line, from }
    }
}

/// An operator, and its other side.
#[derive(Clone, Copy)]
pub enum Link {
    Unary(UnOp),
    /// The number so far stands on the left.
    Onto(BinOp, Numbers),
    /// The number so far stands on the right.
    Under(BinOp, Numbers),
    Least(Numbers),
    Most(Numbers),
    /// The number so far stands on the left, the element with which the operators began on the right.
    Itself(BinOp),
}

/// One that changes nothing.
impl Default for Link {
    ghost use Rattle.std.specs.Prelude.{◌≡◌, pos};
    ghost use Rattle.sq_ast.specs.declared.expr.BinOp.TheVariants as binary;
    ghost use Rattle.sq_columns.specs.declared.line.Line.TheVariants as line;
    ghost use Rattle.sq_deeds.specs.declared.deeds.Link.TheVariants as link;

    ghost is_default = { λ l. l ≡ link.Onto binary.Add (record { line = line.Same (pos 0); from = 0 }) };

    fn default() -> Link {
        let line = Line::Same(0);
        Link::Onto(BinOp::Add, Numbers { line, from: 0 })
    }
}

/// A number that each turn computes from an element as it meets it, which an earlier turn of the block may have put.
#[derive(Drop)]
pub struct Carried {
    pub elem: Elem,
    pub read: Rise,
    pub links: ArrayVec<Link, LINKS>,
}

/// What an assignment puts.
#[derive(Drop)]
pub enum Value {
    Known(Numbers),
    Carried(Carried),
}

/// An assignment.
#[derive(Drop)]
pub struct Put {
    pub elem: Elem,
    pub op: AssignOp,
    pub to: Rise,
    pub value: Value,
}

/// Assigned numbers, and a test of which it depends at each turn whether they are assigned: where it is 0, or where it
/// isn't.
#[derive(Clone, Copy)]
pub(crate) struct Tested {
    pub at_zero: bool,
    pub test: Numbers,
    pub op: AssignOp,
    pub x: Numbers,
}

/// A statement.
#[derive(Drop)]
pub enum Deed {
    Always(Put),
    /// The first where the number isn't 0, else the second.
    Choice(Numbers, Option<Put>, Option<Put>),
}

/// One that puts nothing.
impl Default for Deed {
    ghost use Rattle.std.specs.Prelude.{◌≡◌, None, pos};
    ghost use Rattle.sq_columns.specs.declared.line.Line.TheVariants as line;
    ghost use Rattle.sq_deeds.specs.declared.deeds.Deed.TheVariants as deed;

    ghost is_default = { λ d. d ≡ deed.Choice (record { line = line.Same (pos 0); from = 0 }) None None };

    fn default() -> Deed {
        let line = Line::Same(0);
        Deed::Choice(Numbers { line, from: 0 }, None, None)
    }
}
