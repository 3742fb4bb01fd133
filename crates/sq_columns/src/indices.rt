//! Indices of elements at each turn.

ghost use Rattle.std.specs.Prelude.{◌≡◌, ◌+◌, ◌-◌, ◌*◌, ◌^◌, ◌<◌, ◌≤◌, ◌≤ℤ◌, ◌<ℤ◌, ℕ, ℤ, List, [], Option, pos, negsuc};
ghost use Rattle.std.specs.Prelude.{◌+ℤ◌, ◌-ℤ◌, ◌*ℤ◌, length, get_or, IfSome, true};
ghost use Rattle.sq_num.specs.Elements.{width};
ghost use Rattle.sq_leaf.specs.Places.{along};
ghost use Rattle.sq_columns.specs.declared.line.Line.TheVariants.{Ramp};
ghost use Rattle.sq_columns.specs.Lines as spec;
ghost use Rattle.sq_columns.specs.Lines.{line_at, IsSpot};

use crate::line::Line;
use crate::operators::without_column;
use sq_ast::BinOp;
use sq_num::{Elem, width};

/// Whether the number of each turn is an index below the extent, as far as it was tested: a ramp may be refused for its
/// step.
pub fn is_inside_line(x: Line, xs: &[i64], extent: u32, n: usize) -> bool
    requires few { n ≤ 256 }
    requires room { n ≤ length xs.now }
    ensures { result ≡ true → (j : ℕ) → j < n → (pos 0 ≤ℤ line_at x xs.now j) × (line_at x xs.now j <ℤ pos extent) }
{
    match x {
        Line::Same(i) => is_index(i, extent),
        Line::Ramp(first, step) => is_inside_ramp(first, step, extent, n),
        Line::Column => are_indices(xs, extent, n),
    }
}

#[inline(always)]
fn is_index(i: i64, extent: u32) -> bool
    ensures { result ≡ true → (pos 0 ≤ℤ i) × (i <ℤ pos extent) }
{
    0 <= i && i < i64::from(extent)
}

// Its first and its last number are inside, and no number between them wraps.
fn is_inside_ramp(first: i64, step: i64, extent: u32, n: usize) -> bool
    requires { n ≤ 256 }
    ensures { result ≡ true → (j : ℕ) → j < n → (pos 0 ≤ℤ line_at (Ramp first step) [] j)
        × (line_at (Ramp first step) [] j <ℤ pos extent) }
{
    if step < -4_294_967_296 || 4_294_967_296 < step {
        return false;
    }
    if !is_index(first, extent) {
        return false;
    }
    is_index(last_of(first, step, n), extent)
}

// The last number of so many.
fn last_of(first: i64, step: i64, n: usize) -> i64
    requires few { n ≤ 256 }
    requires first { (pos 0 ≤ℤ first) × (first <ℤ pos 4294967296) }
    requires step { (negsuc 4294967295 ≤ℤ step) × (step ≤ℤ pos 4294967296) }
    ensures { result ≡ first +ℤ step *ℤ (pos n -ℤ pos 1) }
{
    first + step * (n as i64 - 1)
}

fn are_indices(xs: &[i64], extent: u32, n: usize) -> bool
    requires { n ≤ length xs.now }
    ensures { result ≡ true → (j : ℕ) → j < n → (pos 0 ≤ℤ get_or xs.now j (pos 0))
        × (get_or xs.now j (pos 0) <ℤ pos extent) }
{
    for j in 0..n {
        if !is_index(xs[j], extent) {
            return false;
        }
    }
    true
}

/// The first bytes of elements, with the index of one more dimension before those that they have; `None` where an index
/// may be outside.
pub fn along_line(
    spots: Line,
    column: &mut [i64],
    index: Line,
    indices: &[i64],
    extent: u32,
    stride: u32,
    elem: Elem,
    n: usize,
) -> Option<Line>
    requires few { n ≤ 256 }
    requires left { n ≤ length column.old }
    requires right { n ≤ length indices.now }
    ensures size { length column.new ≡ length column.old }
    ensures each { (at most : ℕ) (f : ℕ → Option ℕ) → at + width elem * ((extent - 1) * stride + most) < 2 ^ 62
        → ((j : ℕ) → j < n → IsSpot at (width elem) most (f j) (line_at spots column.old j))
        → IfSome result (λ l. (j : ℕ) → j < n → IsSpot at (width elem) ((extent - 1) * stride + most)
        (along (line_at index indices.now j) extent stride (f j)) (line_at l column.new j)) }
{
    if !is_inside_line(index, indices, extent, n) {
        return None;
    }
    Some(moved(spots, column, index, indices, apart(stride, elem), n))
}

// How many bytes lie between the first bytes of two elements.
fn apart(stride: u32, elem: Elem) -> i64
    ensures { result ≡ pos (stride * width elem) }
{
    i64::from(stride) * width(elem) as i64
}

// The first bytes that lie so many bytes further on for each one of an index.
fn moved(spots: Line, column: &mut [i64], index: Line, indices: &[i64], by: i64, n: usize) -> Line
    requires few { n ≤ 256 }
    requires left { n ≤ length column.old }
    requires right { n ≤ length indices.now }
    ensures size { length column.new ≡ length column.old }
    ensures each { (j : ℕ) → j < n → line_at result column.new j ≡ spec.moved by (line_at spots column.old j)
        (line_at index indices.now j) }
{
    match moved_ramp(spots, index, by) {
        Some(line) => line,
        None => {
            by_kind(spots, column, index, indices, by, n);
            Line::Column
        }
    }
}

fn moved_ramp(spots: Line, index: Line, by: i64) -> Option<Line>
    ensures { IfSome result (λ l. (xs ys zs : List ℤ) (j : ℕ) → line_at l zs j ≡ spec.moved by (line_at spots xs j)
        (line_at index ys j)) }
{
    match without_column(BinOp::Mul, index, Line::Same(by)) {
        Some(steps) => without_column(BinOp::Add, spots, steps),
        None => None,
    }
}

// A loop for each kind of first bytes where the index has a column.
fn by_kind(spots: Line, column: &mut [i64], index: Line, indices: &[i64], by: i64, n: usize)
    requires few { n ≤ 256 }
    requires left { n ≤ length column.old }
    requires right { n ≤ length indices.now }
    ensures size { length column.new ≡ length column.old }
    ensures each { (j : ℕ) → j < n → get_or column.new j (pos 0) ≡ spec.moved by (line_at spots column.old j)
        (line_at index indices.now j) }
{
    match index {
        Line::Column => match spots {
            Line::Same(at) => move_each(Line::Same(at), column, Line::Column, indices, by, n),
            Line::Ramp(at, step) => move_each(
                Line::Ramp(at, step),
                column,
                Line::Column,
                indices,
                by,
                n,
            ),
            Line::Column => move_each(Line::Column, column, Line::Column, indices, by, n),
        },
        index => move_each(spots, column, index, indices, by, n),
    }
}

#[inline(always)]
fn move_each(spots: Line, column: &mut [i64], index: Line, indices: &[i64], by: i64, n: usize)
    requires few { n ≤ 256 }
    requires left { n ≤ length column.old }
    requires right { n ≤ length indices.now }
    ensures size { length column.new ≡ length column.old }
    ensures each { (j : ℕ) → j < n → get_or column.new j (pos 0) ≡ spec.moved by (line_at spots column.old j)
        (line_at index indices.now j) }
{
    for j in 0..n {
        column[j] = further(by, spots.at(column, j), index.at(indices, j));
    }
}

#[inline(always)]
fn further(by: i64, spot: i64, index: i64) -> i64
    ensures { result ≡ spec.moved by spot index }
{
    spot.wrapping_add(index.wrapping_mul(by))
}
