//! Elements of which each is made of the one before by two operators.

ghost use Rattle.std.specs.Prelude.{◌≡◌, ◌+◌, ◌^◌, ◌<◌, ◌≤◌, ℕ, length, [], ◌∷◌};
ghost use Rattle.sq_ast.specs.declared.expr.BinOp.TheVariants as binary;
ghost use Rattle.sq_deeds.specs.declared.deeds.Link.TheVariants as link_of;
ghost use Rattle.sq_deeds.specs.Deeds.{LinkFits, HasColumn, IsRoomy};
ghost use Rattle.sq_deeds.specs.Loops.{in_turn, next_turn, and_column};

use crate::deeds::{Link, Numbers, Row};
use crate::elements::{load, store};
use crate::rise::Rise;
use crate::turn::{byte_at, linked};
use sq_ast::BinOp;
use sq_columns::Line;
use sq_num::{Elem, cut};

/// Each turn puts what two operators make of the element before, and the first reads the first.
pub(crate) fn chain_pair(
    row: Row,
    first: Link,
    second: Link,
    columns: &[i64],
    turns: usize,
    bytes: &mut [u8],
)
    requires few { turns ≤ 256 }
    requires room { IsRoomy (turns + 1) (length bytes.old) row.elem row.rise }
    requires first { LinkFits (length columns.now) first }
    requires second { LinkFits (length columns.now) second }
    ensures { bytes.new ≡ in_turn (next_turn columns.now row.elem row.rise (first ∷ second ∷ [])) turns 0 bytes.old }
{
    match second {
        Link::Onto(BinOp::Add, y) => match y.line {
            Line::Column => then_sum(row, first, y.from, columns, turns, bytes),
            _ => pair_any(row, first, second, columns, turns, bytes),
        },
        _ => pair_any(row, first, second, columns, turns, bytes),
    }
}

/// A column is added behind the first operator.
fn then_sum(row: Row, first: Link, from: usize, columns: &[i64], turns: usize, bytes: &mut [u8])
    requires few { turns ≤ 256 }
    requires room { IsRoomy (turns + 1) (length bytes.old) row.elem row.rise }
    requires first { LinkFits (length columns.now) first }
    requires column { from + 256 ≤ length columns.now }
    ensures { bytes.new ≡ in_turn (next_turn columns.now row.elem row.rise (and_column first from)) turns 0 bytes.old }
{
    match first {
        Link::Onto(BinOp::Add, y) => add_add(row, y, from, columns, turns, bytes),
        Link::Onto(BinOp::Mul, y) => mul_add(row, y, from, columns, turns, bytes),
        Link::Least(y) => least_add(row, y, from, columns, turns, bytes),
        Link::Most(y) => most_add(row, y, from, columns, turns, bytes),
        _ => {
            let second = Link::Onto(BinOp::Add, Numbers::column(from));
            pair_any(row, first, second, columns, turns, bytes);
        }
    }
}

// Loops with both operators known, a function for each first one, with the calls for each type within it (see puts.rt).
#[inline(never)]
fn add_add(row: Row, y: Numbers, from: usize, columns: &[i64], turns: usize, bytes: &mut [u8])
    requires few { turns ≤ 256 }
    requires room { IsRoomy (turns + 1) (length bytes.old) row.elem row.rise }
    requires number { HasColumn (length columns.now) y }
    requires column { from + 256 ≤ length columns.now }
    ensures { bytes.new ≡ in_turn (next_turn columns.now row.elem row.rise (and_column (link_of.Onto binary.Add y)
        from)) turns 0 bytes.old }
{
    let first = Link::Onto(BinOp::Add, y);
    let second = Link::Onto(BinOp::Add, Numbers::column(from));
    match row.elem {
        Elem::Byte => pair_each(Elem::Byte, row.rise, first, second, columns, turns, bytes),
        Elem::Int => pair_each(Elem::Int, row.rise, first, second, columns, turns, bytes),
        Elem::Long => pair_each(Elem::Long, row.rise, first, second, columns, turns, bytes),
    }
}

#[inline(never)]
fn mul_add(row: Row, y: Numbers, from: usize, columns: &[i64], turns: usize, bytes: &mut [u8])
    requires few { turns ≤ 256 }
    requires room { IsRoomy (turns + 1) (length bytes.old) row.elem row.rise }
    requires number { HasColumn (length columns.now) y }
    requires column { from + 256 ≤ length columns.now }
    ensures { bytes.new ≡ in_turn (next_turn columns.now row.elem row.rise (and_column (link_of.Onto binary.Mul y)
        from)) turns 0 bytes.old }
{
    let first = Link::Onto(BinOp::Mul, y);
    let second = Link::Onto(BinOp::Add, Numbers::column(from));
    match row.elem {
        Elem::Byte => pair_each(Elem::Byte, row.rise, first, second, columns, turns, bytes),
        Elem::Int => pair_each(Elem::Int, row.rise, first, second, columns, turns, bytes),
        Elem::Long => pair_each(Elem::Long, row.rise, first, second, columns, turns, bytes),
    }
}

#[inline(never)]
fn least_add(row: Row, y: Numbers, from: usize, columns: &[i64], turns: usize, bytes: &mut [u8])
    requires few { turns ≤ 256 }
    requires room { IsRoomy (turns + 1) (length bytes.old) row.elem row.rise }
    requires number { HasColumn (length columns.now) y }
    requires column { from + 256 ≤ length columns.now }
    ensures { bytes.new ≡ in_turn (next_turn columns.now row.elem row.rise (and_column (link_of.Least y) from)) turns 0
        bytes.old }
{
    let first = Link::Least(y);
    let second = Link::Onto(BinOp::Add, Numbers::column(from));
    match row.elem {
        Elem::Byte => pair_each(Elem::Byte, row.rise, first, second, columns, turns, bytes),
        Elem::Int => pair_each(Elem::Int, row.rise, first, second, columns, turns, bytes),
        Elem::Long => pair_each(Elem::Long, row.rise, first, second, columns, turns, bytes),
    }
}

#[inline(never)]
fn most_add(row: Row, y: Numbers, from: usize, columns: &[i64], turns: usize, bytes: &mut [u8])
    requires few { turns ≤ 256 }
    requires room { IsRoomy (turns + 1) (length bytes.old) row.elem row.rise }
    requires number { HasColumn (length columns.now) y }
    requires column { from + 256 ≤ length columns.now }
    ensures { bytes.new ≡ in_turn (next_turn columns.now row.elem row.rise (and_column (link_of.Most y) from)) turns 0
        bytes.old }
{
    let first = Link::Most(y);
    let second = Link::Onto(BinOp::Add, Numbers::column(from));
    match row.elem {
        Elem::Byte => pair_each(Elem::Byte, row.rise, first, second, columns, turns, bytes),
        Elem::Int => pair_each(Elem::Int, row.rise, first, second, columns, turns, bytes),
        Elem::Long => pair_each(Elem::Long, row.rise, first, second, columns, turns, bytes),
    }
}

#[inline(never)]
fn pair_any(row: Row, first: Link, second: Link, columns: &[i64], turns: usize, bytes: &mut [u8])
    requires few { turns ≤ 256 }
    requires room { IsRoomy (turns + 1) (length bytes.old) row.elem row.rise }
    requires first { LinkFits (length columns.now) first }
    requires second { LinkFits (length columns.now) second }
    ensures { bytes.new ≡ in_turn (next_turn columns.now row.elem row.rise (first ∷ second ∷ [])) turns 0 bytes.old }
{
    match row.elem {
        Elem::Byte => pair_each(Elem::Byte, row.rise, first, second, columns, turns, bytes),
        Elem::Int => pair_each(Elem::Int, row.rise, first, second, columns, turns, bytes),
        Elem::Long => pair_each(Elem::Long, row.rise, first, second, columns, turns, bytes),
    }
}

#[inline(always)]
fn pair_each(
    elem: Elem,
    rise: Rise,
    first: Link,
    second: Link,
    columns: &[i64],
    turns: usize,
    bytes: &mut [u8],
)
    requires few { turns ≤ 256 }
    requires room { IsRoomy (turns + 1) (length bytes.old) elem rise }
    requires first { LinkFits (length columns.now) first }
    requires second { LinkFits (length columns.now) second }
    ensures { bytes.new ≡ in_turn (next_turn columns.now elem rise (first ∷ second ∷ [])) turns 0 bytes.old }
{
    let mut x = load(elem, rise.at, bytes);
    for j in 0..turns {
        let y = linked(first, x, x, columns, j);
        x = cut(elem, linked(second, x, y, columns, j));
        let at = byte_at(elem, rise, turns + 1, j + 1, bytes.len());
        store(elem, at, x, bytes);
    }
}
