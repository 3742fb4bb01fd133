//! The numbers of a block of turns, put at their elements.

ghost use Rattle.std.specs.Prelude.{◌≡◌, ◌+◌, ◌*◌, ◌^◌, ◌<◌, ◌≤◌, ℕ, length};
ghost use Rattle.sq_num.specs.Elements.{width};
ghost use Rattle.sq_ast.specs.declared.leaf.AssignOp.TheVariants as ops;
ghost use Rattle.sq_leaf.specs.Source as source;
ghost use Rattle.sq_leaf.specs.Spots as running;
ghost use Rattle.sq_columns.specs.Lines.{line_at, first_byte};
ghost use Rattle.sq_deeds.specs.Puts.{LiesIn, puts};
ghost use Rattle.sq_deeds.specs.Deeds.{IsRoomy, byte_at};

use crate::deeds::Row;
use crate::elements::{load, store};
use crate::rise::{Rise, rise_of};
use crate::turn::byte_at;
use sq_ast::AssignOp;
use sq_columns::Line;
use sq_num::{Elem, width};

/// Each turn's number is put at its element, in the order of the turns.
pub(crate) fn put_each(
    elem: Elem,
    op: AssignOp,
    spots: Line,
    places: &[i64],
    x: Line,
    numbers: &[i64],
    turns: usize,
    bytes: &mut [u8],
)
    requires few { turns ≤ 256 }
    requires places { turns ≤ length places.now }
    requires numbers { turns ≤ length numbers.now }
    requires lies { (j : ℕ) → j < turns → LiesIn 0 (length bytes.old) elem spots places.now j }
    ensures { bytes.new ≡ puts elem (source.assigned op) (first_byte spots places.now) (line_at x numbers.now) turns 0
        bytes.old }
{
    for j in 0..turns {
        let at = place_at(elem, spots, places, j, bytes.len());
        put(elem, op, at, x.at(numbers, j), bytes);
    }
}

/// The same by a loop for each type and operator, and for rows, single elements and others.
pub fn put_all(
    elem: Elem,
    op: AssignOp,
    spots: Line,
    places: &[i64],
    x: Line,
    numbers: &[i64],
    turns: usize,
    bytes: &mut [u8],
)
    requires few { turns ≤ 256 }
    requires places { turns ≤ length places.now }
    requires numbers { turns ≤ length numbers.now }
    requires lies { (j : ℕ) → j < turns → LiesIn 0 (length bytes.old) elem spots places.now j }
    ensures { bytes.new ≡ puts elem (source.assigned op) (first_byte spots places.now) (line_at x numbers.now) turns 0
        bytes.old }
{
    match rise_of(spots) {
        Some(rise) => put_row(op, Row { elem, rise }, x, numbers, turns, bytes),
        None => put_each(elem, op, spots, places, x, numbers, turns, bytes),
    }
}

/// Each turn's number is put at its element, and the elements go up by the same step.
pub(crate) fn put_row(
    op: AssignOp,
    row: Row,
    x: Line,
    numbers: &[i64],
    turns: usize,
    bytes: &mut [u8],
)
    requires few { turns ≤ 256 }
    requires numbers { turns ≤ length numbers.now }
    requires room { IsRoomy turns (length bytes.old) row.elem row.rise }
    ensures { bytes.new ≡ puts row.elem (source.assigned op) (byte_at row.rise) (line_at x numbers.now) turns 0
        bytes.old }
{
    match op {
        AssignOp::Set => put_set(row, x, numbers, turns, bytes),
        AssignOp::Add => put_add(row, x, numbers, turns, bytes),
        AssignOp::Sub => put_sub(row, x, numbers, turns, bytes),
        AssignOp::Mul => put_mul(row, x, numbers, turns, bytes),
    }
}

// A function for each operator, and the calls for each type within it: `inline(always)` counts for nothing on what
// would grow large, as one function with these calls, or with those for all operators.
#[inline(never)]
fn put_set(row: Row, x: Line, numbers: &[i64], turns: usize, bytes: &mut [u8])
    requires few { turns ≤ 256 }
    requires numbers { turns ≤ length numbers.now }
    requires room { IsRoomy turns (length bytes.old) row.elem row.rise }
    ensures { bytes.new ≡ puts row.elem (source.assigned ops.Set) (byte_at row.rise) (line_at x numbers.now) turns 0
        bytes.old }
{
    match row.elem {
        Elem::Byte => put_steps(
            Elem::Byte,
            AssignOp::Set,
            row.rise,
            x,
            numbers,
            turns,
            bytes,
        ),
        Elem::Int => put_steps(Elem::Int, AssignOp::Set, row.rise, x, numbers, turns, bytes),
        Elem::Long => put_steps(
            Elem::Long,
            AssignOp::Set,
            row.rise,
            x,
            numbers,
            turns,
            bytes,
        ),
    }
}

#[inline(never)]
fn put_add(row: Row, x: Line, numbers: &[i64], turns: usize, bytes: &mut [u8])
    requires few { turns ≤ 256 }
    requires numbers { turns ≤ length numbers.now }
    requires room { IsRoomy turns (length bytes.old) row.elem row.rise }
    ensures { bytes.new ≡ puts row.elem (source.assigned ops.Add) (byte_at row.rise) (line_at x numbers.now) turns 0
        bytes.old }
{
    match row.elem {
        Elem::Byte => put_steps(
            Elem::Byte,
            AssignOp::Add,
            row.rise,
            x,
            numbers,
            turns,
            bytes,
        ),
        Elem::Int => put_steps(Elem::Int, AssignOp::Add, row.rise, x, numbers, turns, bytes),
        Elem::Long => put_steps(
            Elem::Long,
            AssignOp::Add,
            row.rise,
            x,
            numbers,
            turns,
            bytes,
        ),
    }
}

#[inline(never)]
fn put_sub(row: Row, x: Line, numbers: &[i64], turns: usize, bytes: &mut [u8])
    requires few { turns ≤ 256 }
    requires numbers { turns ≤ length numbers.now }
    requires room { IsRoomy turns (length bytes.old) row.elem row.rise }
    ensures { bytes.new ≡ puts row.elem (source.assigned ops.Sub) (byte_at row.rise) (line_at x numbers.now) turns 0
        bytes.old }
{
    match row.elem {
        Elem::Byte => put_steps(
            Elem::Byte,
            AssignOp::Sub,
            row.rise,
            x,
            numbers,
            turns,
            bytes,
        ),
        Elem::Int => put_steps(Elem::Int, AssignOp::Sub, row.rise, x, numbers, turns, bytes),
        Elem::Long => put_steps(
            Elem::Long,
            AssignOp::Sub,
            row.rise,
            x,
            numbers,
            turns,
            bytes,
        ),
    }
}

#[inline(never)]
fn put_mul(row: Row, x: Line, numbers: &[i64], turns: usize, bytes: &mut [u8])
    requires few { turns ≤ 256 }
    requires numbers { turns ≤ length numbers.now }
    requires room { IsRoomy turns (length bytes.old) row.elem row.rise }
    ensures { bytes.new ≡ puts row.elem (source.assigned ops.Mul) (byte_at row.rise) (line_at x numbers.now) turns 0
        bytes.old }
{
    match row.elem {
        Elem::Byte => put_steps(
            Elem::Byte,
            AssignOp::Mul,
            row.rise,
            x,
            numbers,
            turns,
            bytes,
        ),
        Elem::Int => put_steps(Elem::Int, AssignOp::Mul, row.rise, x, numbers, turns, bytes),
        Elem::Long => put_steps(
            Elem::Long,
            AssignOp::Mul,
            row.rise,
            x,
            numbers,
            turns,
            bytes,
        ),
    }
}

/// Elements beside one another, and a single one, by loops of their own.
#[inline(always)]
fn put_steps(
    elem: Elem,
    op: AssignOp,
    rise: Rise,
    x: Line,
    numbers: &[i64],
    turns: usize,
    bytes: &mut [u8],
)
    requires few { turns ≤ 256 }
    requires numbers { turns ≤ length numbers.now }
    requires room { IsRoomy turns (length bytes.old) elem rise }
    ensures { bytes.new ≡ puts elem (source.assigned op) (byte_at rise) (line_at x numbers.now) turns 0
        bytes.old }
{
    let wide = width(elem);
    if rise.step == 0 {
        put_line(elem, op, Rise { step: 0, ..rise }, x, numbers, turns, bytes);
    } else if rise.step == wide {
        put_line(
            elem,
            op,
            Rise { step: wide, ..rise },
            x,
            numbers,
            turns,
            bytes,
        );
    } else {
        put_line(elem, op, rise, x, numbers, turns, bytes);
    }
}

/// The numbers of a column by a loop of their own.
#[inline(always)]
fn put_line(
    elem: Elem,
    op: AssignOp,
    rise: Rise,
    x: Line,
    numbers: &[i64],
    turns: usize,
    bytes: &mut [u8],
)
    requires few { turns ≤ 256 }
    requires numbers { turns ≤ length numbers.now }
    requires room { IsRoomy turns (length bytes.old) elem rise }
    ensures { bytes.new ≡ puts elem (source.assigned op) (byte_at rise) (line_at x numbers.now) turns 0
        bytes.old }
{
    match x {
        Line::Column => put_loop(elem, op, rise, Line::Column, numbers, turns, bytes),
        _ => put_loop(elem, op, rise, x, numbers, turns, bytes),
    }
}

#[inline(always)]
fn put_loop(
    elem: Elem,
    op: AssignOp,
    rise: Rise,
    x: Line,
    numbers: &[i64],
    turns: usize,
    bytes: &mut [u8],
)
    requires few { turns ≤ 256 }
    requires numbers { turns ≤ length numbers.now }
    requires room { IsRoomy turns (length bytes.old) elem rise }
    ensures { bytes.new ≡ puts elem (source.assigned op) (byte_at rise) (line_at x numbers.now) turns 0
        bytes.old }
{
    for j in 0..turns {
        let at = byte_at(elem, rise, turns, j, bytes.len());
        put(elem, op, at, x.at(numbers, j), bytes);
    }
}

/// The first byte of a turn's element.
#[inline(always)]
fn place_at(elem: Elem, spots: Line, places: &[i64], j: usize, size: usize) -> usize
    requires here { j < length places.now }
    requires few { j < 256 }
    requires lies { LiesIn 0 size elem spots places.now j }
    ensures value { result ≡ first_byte spots places.now j }
{
    let _elem = elem;
    let _size = size;
    spots.at(places, j) as usize
}

/// A number is put at an element.
#[inline(always)]
pub(crate) fn put(elem: Elem, op: AssignOp, at: usize, x: i64, bytes: &mut [u8])
    requires { at + width elem ≤ length bytes.old }
    ensures { bytes.new ≡ running.store (record { elem = elem; at = at })
        (source.assigned op (running.load (record { elem = elem; at = at }) bytes.old) x) bytes.old }
{
    let old = load(elem, at, bytes);
    store(elem, at, assigned(op, old, x), bytes);
}

/// What is stored, by what was stored before and the right side.
#[inline(always)]
pub fn assigned(op: AssignOp, old: i64, x: i64) -> i64
    ensures { result ≡ source.assigned op old x }
{
    match op {
        AssignOp::Set => x,
        AssignOp::Add => old.wrapping_add(x),
        AssignOp::Sub => old.wrapping_sub(x),
        AssignOp::Mul => old.wrapping_mul(x),
    }
}
