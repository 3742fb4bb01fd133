//! Elements of a memory at each turn.

ghost use Rattle.std.specs.Prelude.{◌≡◌, ◌+◌, ◌<◌, ◌≤◌, ℕ, pos, length, take, drop, get_or, unsigned_abs};
ghost use Rattle.sq_num.specs.Elements.{width, value};
ghost use Rattle.sq_ast.specs.declared.expr.BinOp.TheVariants.{Mul};
ghost use Rattle.sq_leaf.specs.Numbers as spec;
ghost use Rattle.sq_columns.specs.Lines.{line_at, first_byte, IsFirst};

use crate::line::Line;
use crate::numbers::binary;
use sq_ast::BinOp;
use sq_num::{Elem, load_elem, width};

/// The elements with these first bytes; the column is that of the first bytes, and then the result's.
pub fn load_line(elem: Elem, spots: Line, column: &mut [i64], bytes: &[u8], n: usize) -> Line
    requires few { n ≤ 256 }
    requires some { 0 < n }
    requires room { n ≤ length column.old }
    requires inside { (j : ℕ) → j < n → IsFirst (width elem) (length bytes.now) (line_at spots column.old j) }
    ensures size { length column.new ≡ length column.old }
    ensures each { (j : ℕ) → j < n → line_at result column.new j ≡ value elem
        (take (width elem) (drop (first_byte spots column.old j) bytes.now)) }
{
    match spots {
        Line::Same(at) => Line::Same(load_at(elem, at, bytes)),
        spots => {
            by_type(elem, spots, column, bytes, n);
            Line::Column
        }
    }
}

// One loop for rows of elements, and one for the others, for each type.
#[inline(never)]
fn by_type(elem: Elem, spots: Line, column: &mut [i64], bytes: &[u8], n: usize)
    requires few { n ≤ 256 }
    requires room { n ≤ length column.old }
    requires inside { (j : ℕ) → j < n → IsFirst (width elem) (length bytes.now) (line_at spots column.old j) }
    ensures size { length column.new ≡ length column.old }
    ensures each { (j : ℕ) → j < n → get_or column.new j (pos 0) ≡ value elem
        (take (width elem) (drop (first_byte spots column.old j) bytes.now)) }
{
    match elem {
        Elem::Byte => by_step(Elem::Byte, 1, spots, column, bytes, n),
        Elem::Int => by_step(Elem::Int, 4, spots, column, bytes, n),
        Elem::Long => by_step(Elem::Long, 8, spots, column, bytes, n),
    }
}

#[inline(always)]
fn by_step(elem: Elem, wide: i64, spots: Line, column: &mut [i64], bytes: &[u8], n: usize)
    requires few { n ≤ 256 }
    requires room { n ≤ length column.old }
    requires inside { (j : ℕ) → j < n → IsFirst (width elem) (length bytes.now) (line_at spots column.old j) }
    ensures size { length column.new ≡ length column.old }
    ensures each { (j : ℕ) → j < n → get_or column.new j (pos 0) ≡ value elem
        (take (width elem) (drop (first_byte spots column.old j) bytes.now)) }
{
    match spots {
        Line::Ramp(at, step) if step == wide => {
            load_each(elem, Line::Ramp(at, wide), column, bytes, n);
        }
        Line::Ramp(at, step) => load_each(elem, Line::Ramp(at, step), column, bytes, n),
        spots => load_each(elem, spots, column, bytes, n),
    }
}

#[inline(always)]
fn load_each(elem: Elem, spots: Line, column: &mut [i64], bytes: &[u8], n: usize)
    requires few { n ≤ 256 }
    requires room { n ≤ length column.old }
    requires inside { (j : ℕ) → j < n → IsFirst (width elem) (length bytes.now) (line_at spots column.old j) }
    ensures size { length column.new ≡ length column.old }
    ensures each { (j : ℕ) → j < n → get_or column.new j (pos 0) ≡ value elem
        (take (width elem) (drop (first_byte spots column.old j) bytes.now)) }
{
    for j in 0..n {
        column[j] = load_at(elem, spots.at(column, j), bytes);
    }
}

/// The products of the numbers of a line and of the elements with these first bytes, each of which is loaded as it is
/// multiplied; the left column is then the result's.
// So no loop multiplies two columns, which goes in lanes that take several multiplications for one of 64 bits.
pub fn times_elements(
    x: Line,
    xs: &mut [i64],
    elem: Elem,
    spots: Line,
    column: &[i64],
    bytes: &[u8],
    n: usize,
)
    requires few { n ≤ 256 }
    requires left { n ≤ length xs.old }
    requires right { n ≤ length column.now }
    requires inside { (j : ℕ) → j < n → IsFirst (width elem) (length bytes.now) (line_at spots column.now j) }
    ensures size { length xs.new ≡ length xs.old }
    ensures each { (j : ℕ) → j < n → get_or xs.new j (pos 0) ≡ spec.binary Mul (line_at x xs.old j) (value elem
        (take (width elem) (drop (first_byte spots column.now j) bytes.now))) }
{
    x.spread(xs, n);
    times_by_type(xs, elem, spots, column, bytes, n);
}

#[inline(never)]
fn times_by_type(xs: &mut [i64], elem: Elem, spots: Line, column: &[i64], bytes: &[u8], n: usize)
    requires few { n ≤ 256 }
    requires left { n ≤ length xs.old }
    requires right { n ≤ length column.now }
    requires inside { (j : ℕ) → j < n → IsFirst (width elem) (length bytes.now) (line_at spots column.now j) }
    ensures size { length xs.new ≡ length xs.old }
    ensures each { (j : ℕ) → j < n → get_or xs.new j (pos 0) ≡ spec.binary Mul (get_or xs.old j (pos 0)) (value elem
        (take (width elem) (drop (first_byte spots column.now j) bytes.now))) }
{
    match elem {
        Elem::Byte => times_by_step(xs, Elem::Byte, spots, column, bytes, n),
        Elem::Int => times_by_step(xs, Elem::Int, spots, column, bytes, n),
        Elem::Long => times_by_step(xs, Elem::Long, spots, column, bytes, n),
    }
}

#[inline(always)]
fn times_by_step(xs: &mut [i64], elem: Elem, spots: Line, column: &[i64], bytes: &[u8], n: usize)
    requires few { n ≤ 256 }
    requires left { n ≤ length xs.old }
    requires right { n ≤ length column.now }
    requires inside { (j : ℕ) → j < n → IsFirst (width elem) (length bytes.now) (line_at spots column.now j) }
    ensures size { length xs.new ≡ length xs.old }
    ensures each { (j : ℕ) → j < n → get_or xs.new j (pos 0) ≡ spec.binary Mul (get_or xs.old j (pos 0)) (value elem
        (take (width elem) (drop (first_byte spots column.now j) bytes.now))) }
{
    match spots {
        Line::Ramp(at, step) => times_each(xs, elem, Line::Ramp(at, step), column, bytes, n),
        spots => times_each(xs, elem, spots, column, bytes, n),
    }
}

#[inline(always)]
fn times_each(xs: &mut [i64], elem: Elem, spots: Line, column: &[i64], bytes: &[u8], n: usize)
    requires few { n ≤ 256 }
    requires left { n ≤ length xs.old }
    requires right { n ≤ length column.now }
    requires inside { (j : ℕ) → j < n → IsFirst (width elem) (length bytes.now) (line_at spots column.now j) }
    ensures size { length xs.new ≡ length xs.old }
    ensures each { (j : ℕ) → j < n → get_or xs.new j (pos 0) ≡ spec.binary Mul (get_or xs.old j (pos 0)) (value elem
        (take (width elem) (drop (first_byte spots column.now j) bytes.now))) }
{
    for j in 0..n {
        xs[j] = binary(BinOp::Mul, xs[j], load_at(elem, spots.at(column, j), bytes));
    }
}

#[inline(always)]
fn load_at(elem: Elem, at: i64, bytes: &[u8]) -> i64
    requires { IsFirst (width elem) (length bytes.now) at }
    ensures { result ≡ value elem (take (width elem) (drop (unsigned_abs at) bytes.now)) }
{
    let at = at as usize;
    load_elem(elem, &bytes[at..at + width(elem)])
}
