//! Assignments of which a test decides.

ghost use Rattle.std.specs.Prelude.{◌≡◌, ◌+◌, ◌^◌, ◌<◌, ◌≤◌, ℕ, length};
ghost use Rattle.sq_ast.specs.declared.leaf.AssignOp.TheVariants as ops;
ghost use Rattle.sq_columns.specs.declared.line.Line.TheVariants as lines;
ghost use Rattle.sq_leaf.specs.Source as source;
ghost use Rattle.sq_deeds.specs.Deeds.{IsRoomy};
ghost use Rattle.sq_deeds.specs.Loops as loops;
ghost use Rattle.sq_deeds.specs.Loops.{in_turn, where_turn, AreTested};

use crate::deeds::{Numbers, Row, Tested};
use crate::elements::{load, store};
use crate::puts::assigned;
use crate::rise::Rise;
use crate::turn::{byte_at, number_at};
use sq_ast::AssignOp;
use sq_columns::Line;
use sq_num::{Elem, width};

/// Each turn puts its number where its test is 0, or where it isn't, and leaves other elements as they are.
pub(crate) fn put_where(row: Row, it: Tested, columns: &[i64], turns: usize, bytes: &mut [u8])
    requires few { turns ≤ 256 }
    requires room { IsRoomy turns (length bytes.old) row.elem row.rise }
    requires fits { AreTested (length columns.now) it }
    ensures { bytes.new ≡ in_turn (where_turn columns.now row.elem row.rise it) turns 0 bytes.old }
{
    match it.test.line {
        Line::Column => match it.op {
            AssignOp::Set => where_set(row, it, columns, turns, bytes),
            AssignOp::Add => where_add(row, it, columns, turns, bytes),
            _ => where_each(row, it, columns, turns, bytes),
        },
        _ => where_each(row, it, columns, turns, bytes),
    }
}

// Loops with the operator and the test's column known, a function for each operator, with the calls for each type within
// it (see puts.rt).
#[inline(never)]
fn where_set(row: Row, it: Tested, columns: &[i64], turns: usize, bytes: &mut [u8])
    requires few { turns ≤ 256 }
    requires room { IsRoomy turns (length bytes.old) row.elem row.rise }
    requires fits { AreTested (length columns.now) it }
    requires column { it.test.line ≡ lines.Column }
    requires op { it.op ≡ ops.Set }
    ensures { bytes.new ≡ in_turn (where_turn columns.now row.elem row.rise it) turns 0 bytes.old }
{
    let test = Numbers::column(it.test.from);
    let known = Tested {
        test,
        op: AssignOp::Set,
        ..it
    };
    match row.elem {
        Elem::Byte => where_steps(Elem::Byte, row.rise, known, columns, turns, bytes),
        Elem::Int => where_steps(Elem::Int, row.rise, known, columns, turns, bytes),
        Elem::Long => where_steps(Elem::Long, row.rise, known, columns, turns, bytes),
    }
}

#[inline(never)]
fn where_add(row: Row, it: Tested, columns: &[i64], turns: usize, bytes: &mut [u8])
    requires few { turns ≤ 256 }
    requires room { IsRoomy turns (length bytes.old) row.elem row.rise }
    requires fits { AreTested (length columns.now) it }
    requires column { it.test.line ≡ lines.Column }
    requires op { it.op ≡ ops.Add }
    ensures { bytes.new ≡ in_turn (where_turn columns.now row.elem row.rise it) turns 0 bytes.old }
{
    let test = Numbers::column(it.test.from);
    let known = Tested {
        test,
        op: AssignOp::Add,
        ..it
    };
    match row.elem {
        Elem::Byte => where_steps(Elem::Byte, row.rise, known, columns, turns, bytes),
        Elem::Int => where_steps(Elem::Int, row.rise, known, columns, turns, bytes),
        Elem::Long => where_steps(Elem::Long, row.rise, known, columns, turns, bytes),
    }
}

/// Elements beside one another, and a single one, by loops of their own.
#[inline(always)]
fn where_steps(elem: Elem, rise: Rise, it: Tested, columns: &[i64], turns: usize, bytes: &mut [u8])
    requires few { turns ≤ 256 }
    requires room { IsRoomy turns (length bytes.old) elem rise }
    requires fits { AreTested (length columns.now) it }
    ensures { bytes.new ≡ in_turn (where_turn columns.now elem rise it) turns 0 bytes.old }
{
    let wide = width(elem);
    if rise.step == 0 {
        where_number(elem, Rise { step: 0, ..rise }, it, columns, turns, bytes);
    } else if rise.step == wide {
        where_number(elem, Rise { step: wide, ..rise }, it, columns, turns, bytes);
    } else {
        where_loop(elem, rise, it, columns, turns, bytes);
    }
}

/// The numbers of a column by a loop of their own.
#[inline(always)]
fn where_number(elem: Elem, rise: Rise, it: Tested, columns: &[i64], turns: usize, bytes: &mut [u8])
    requires few { turns ≤ 256 }
    requires room { IsRoomy turns (length bytes.old) elem rise }
    requires fits { AreTested (length columns.now) it }
    ensures { bytes.new ≡ in_turn (where_turn columns.now elem rise it) turns 0 bytes.old }
{
    match it.x.line {
        Line::Column => {
            let x = Numbers::column(it.x.from);
            where_loop(elem, rise, Tested { x, ..it }, columns, turns, bytes);
        }
        _ => where_loop(elem, rise, it, columns, turns, bytes),
    }
}

#[inline(never)]
fn where_each(row: Row, it: Tested, columns: &[i64], turns: usize, bytes: &mut [u8])
    requires few { turns ≤ 256 }
    requires room { IsRoomy turns (length bytes.old) row.elem row.rise }
    requires fits { AreTested (length columns.now) it }
    ensures { bytes.new ≡ in_turn (where_turn columns.now row.elem row.rise it) turns 0 bytes.old }
{
    where_loop(row.elem, row.rise, it, columns, turns, bytes);
}

#[inline(always)]
fn where_loop(elem: Elem, rise: Rise, it: Tested, columns: &[i64], turns: usize, bytes: &mut [u8])
    requires few { turns ≤ 256 }
    requires room { IsRoomy turns (length bytes.old) elem rise }
    requires fits { AreTested (length columns.now) it }
    ensures { bytes.new ≡ in_turn (where_turn columns.now elem rise it) turns 0 bytes.old }
{
    for j in 0..turns {
        where_one(elem, rise, it, columns, turns, j, bytes);
    }
}

#[inline(always)]
fn where_one(
    elem: Elem,
    rise: Rise,
    it: Tested,
    columns: &[i64],
    turns: usize,
    j: usize,
    bytes: &mut [u8],
)
    requires few { turns ≤ 256 }
    requires here { j < turns }
    requires room { IsRoomy turns (length bytes.old) elem rise }
    requires fits { AreTested (length columns.now) it }
    ensures { bytes.new ≡ where_turn columns.now elem rise it j bytes.old }
{
    let at = byte_at(elem, rise, turns, j, bytes.len());
    let old = load(elem, at, bytes);
    let x = number_at(it.x, columns, j);
    let test = number_at(it.test, columns, j);
    let put = where_value(it.at_zero, test, it.op, old, x);
    store(elem, at, put, bytes);
}

/// What is stored by what was stored before: that, or the assigned number.
#[inline(always)]
fn where_value(at_zero: bool, test: i64, op: AssignOp, old: i64, x: i64) -> i64
    ensures { result ≡ loops.picked at_zero test (source.assigned op old x) old }
{
    let new = assigned(op, old, x);
    if (test == 0) == at_zero { new } else { old }
}
