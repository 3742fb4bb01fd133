//! Operators on the numbers of the turns.

ghost use Rattle.std.specs.Prelude.{◌≡◌, ◌<◌, ◌≤◌, ℕ, ℤ, List, pos, ◌+ℤ◌, ◌*ℤ◌, length, get_or, IfSome, None, true};
ghost use Rattle.std.specs.Prelude.{false};
ghost use Rattle.std.specs.Int.{int_min, int_max};
ghost use Rattle.sq_leaf.specs.Numbers as spec;
ghost use Rattle.sq_columns.specs.Lines.{line_at, divides};

use crate::line::Line;
use crate::numbers::{binary, unary};
use sq_ast::{BinOp, UnOp};

/// A unary operator at each turn; the column is the number's, and then the result's.
pub fn unary_line(op: UnOp, x: Line, xs: &mut [i64], n: usize) -> Line
    requires few { n ≤ 256 }
    requires room { n ≤ length xs.old }
    ensures size { length xs.new ≡ length xs.old }
    ensures each { (j : ℕ) → j < n → line_at result xs.new j ≡ spec.unary op (line_at x xs.old j) }
{
    match x {
        Line::Same(x) => Line::Same(unary(op, x)),
        x => {
            x.spread(xs, n);
            by_unary(op, xs, n);
            Line::Column
        }
    }
}

// One loop for each operator.
#[inline(never)]
fn by_unary(op: UnOp, xs: &mut [i64], n: usize)
    requires { n ≤ length xs.old }
    ensures size { length xs.new ≡ length xs.old }
    ensures each { (j : ℕ) → j < n → get_or xs.new j (pos 0) ≡ spec.unary op (get_or xs.old j (pos 0)) }
{
    match op {
        UnOp::Neg => unary_each(UnOp::Neg, xs, n),
        UnOp::Not => unary_each(UnOp::Not, xs, n),
        UnOp::Inv => unary_each(UnOp::Inv, xs, n),
    }
}

#[inline(always)]
fn unary_each(op: UnOp, xs: &mut [i64], n: usize)
    requires { n ≤ length xs.old }
    ensures size { length xs.new ≡ length xs.old }
    ensures each { (j : ℕ) → j < n → get_or xs.new j (pos 0) ≡ spec.unary op (get_or xs.old j (pos 0)) }
{
    for j in 0..n {
        xs[j] = unary(op, xs[j]);
    }
}

/// A binary operator at each turn, where no turn divides by zero; the left column is then the result's, and the right
/// one is used up.
pub fn binary_line(
    op: BinOp,
    x: Line,
    xs: &mut [i64],
    y: Line,
    ys: &mut [i64],
    n: usize,
) -> Option<Line>
    requires few { n ≤ 256 }
    requires left { n ≤ length xs.old }
    requires right { n ≤ length ys.old }
    ensures sizes { (length xs.new ≡ length xs.old) × (length ys.new ≡ length ys.old) }
    ensures each { IfSome result (λ l. (j : ℕ) → j < n → line_at l xs.new j ≡ spec.binary op (line_at x xs.old j)
        (line_at y ys.old j)) }
    ensures refuses { result ≡ None → divides op ≡ true }
    ensures divides { IfSome result (λ l. divides op ≡ true → (j : ℕ) → j < n
        → spec.is_zero (line_at y ys.old j) ≡ false) }
{
    if is_division(op) && has_zero(y, ys, n) {
        return None;
    }
    match without_column(op, x, y) {
        Some(line) => Some(line),
        None => {
            x.spread(xs, n);
            right_line(op, xs, y, ys, n);
            Some(Line::Column)
        }
    }
}

fn is_division(op: BinOp) -> bool
    ensures { result ≡ divides op }
{
    match op {
        BinOp::Div | BinOp::Rem => true,
        _ => false,
    }
}

fn has_zero(y: Line, ys: &[i64], n: usize) -> bool
    requires few { n ≤ 256 }
    requires room { n ≤ length ys.now }
    ensures { result ≡ false → (j : ℕ) → j < n → spec.is_zero (line_at y ys.now j) ≡ false }
{
    for j in 0..n {
        if y.at(ys, j) == 0 {
            return true;
        }
    }
    false
}

// The result where it needs no column: a number, or the sum, difference or multiple of ramps.
pub(crate) fn without_column(op: BinOp, x: Line, y: Line) -> Option<Line>
    ensures { IfSome result (λ l. (xs ys zs : List ℤ) (j : ℕ) → line_at l zs j ≡ spec.binary op (line_at x xs j)
        (line_at y ys j)) }
{
    match x {
        Line::Same(a) => match y {
            Line::Same(b) => Some(Line::Same(binary(op, a, b))),
            Line::Ramp(b, e) => from_ramps(op, a, 0, b, e),
            Line::Column => None,
        },
        Line::Ramp(a, d) => match y {
            Line::Same(b) => from_ramps(op, a, d, b, 0),
            Line::Ramp(b, e) => from_ramps(op, a, d, b, e),
            Line::Column => None,
        },
        Line::Column => None,
    }
}

fn from_ramps(op: BinOp, a: i64, d: i64, b: i64, e: i64) -> Option<Line>
    ensures { IfSome result (λ l. (zs : List ℤ) (j : ℕ) → line_at l zs j ≡ spec.binary op
        (spec.wrapped (a +ℤ d *ℤ pos j)) (spec.wrapped (b +ℤ e *ℤ pos j))) }
{
    match op {
        BinOp::Add => Some(Line::Ramp(a.wrapping_add(b), d.wrapping_add(e))),
        BinOp::Sub => Some(Line::Ramp(a.wrapping_sub(b), d.wrapping_sub(e))),
        BinOp::Mul => multiple(a, d, b, e),
        _ => None,
    }
}

// One of them is a number.
fn multiple(a: i64, d: i64, b: i64, e: i64) -> Option<Line>
    ensures { IfSome result (λ l. (zs : List ℤ) (j : ℕ) → line_at l zs j ≡ spec.wrapped
        (spec.wrapped (a +ℤ d *ℤ pos j) *ℤ spec.wrapped (b +ℤ e *ℤ pos j))) }
{
    if e == 0 {
        Some(Line::Ramp(a.wrapping_mul(b), d.wrapping_mul(b)))
    } else if d == 0 {
        Some(Line::Ramp(a.wrapping_mul(b), a.wrapping_mul(e)))
    } else {
        None
    }
}

// The operator with a column on its left.
fn right_line(op: BinOp, xs: &mut [i64], y: Line, ys: &mut [i64], n: usize)
    requires few { n ≤ 256 }
    requires left { n ≤ length xs.old }
    requires right { n ≤ length ys.old }
    ensures sizes { (length xs.new ≡ length xs.old) × (length ys.new ≡ length ys.old) }
    ensures each { (j : ℕ) → j < n → get_or xs.new j (pos 0) ≡ spec.binary op (get_or xs.old j (pos 0))
        (line_at y ys.old j) }
{
    match y {
        Line::Same(y) => by_binary(op, xs, Line::Same(y), ys, n),
        y => {
            y.spread(ys, n);
            by_binary(op, xs, Line::Column, ys, n);
        }
    }
}

// One loop for each operator.
#[inline(always)]
fn by_binary(op: BinOp, xs: &mut [i64], y: Line, ys: &[i64], n: usize)
    requires few { n ≤ 256 }
    requires left { n ≤ length xs.old }
    requires right { n ≤ length ys.now }
    ensures size { length xs.new ≡ length xs.old }
    ensures each { (j : ℕ) → j < n → get_or xs.new j (pos 0) ≡ spec.binary op (get_or xs.old j (pos 0))
        (line_at y ys.now j) }
{
    match op {
        BinOp::OrElse => binary_each(BinOp::OrElse, xs, y, ys, n),
        BinOp::AndAlso => binary_each(BinOp::AndAlso, xs, y, ys, n),
        BinOp::Or => binary_each(BinOp::Or, xs, y, ys, n),
        BinOp::Xor => binary_each(BinOp::Xor, xs, y, ys, n),
        BinOp::And => binary_each(BinOp::And, xs, y, ys, n),
        BinOp::Same => binary_each(BinOp::Same, xs, y, ys, n),
        BinOp::Differ => binary_each(BinOp::Differ, xs, y, ys, n),
        BinOp::Less => binary_each(BinOp::Less, xs, y, ys, n),
        BinOp::AtMost => binary_each(BinOp::AtMost, xs, y, ys, n),
        BinOp::More => binary_each(BinOp::More, xs, y, ys, n),
        BinOp::AtLeast => binary_each(BinOp::AtLeast, xs, y, ys, n),
        BinOp::Shl => binary_each(BinOp::Shl, xs, y, ys, n),
        BinOp::Shr => binary_each(BinOp::Shr, xs, y, ys, n),
        BinOp::Add => binary_each(BinOp::Add, xs, y, ys, n),
        BinOp::Sub => binary_each(BinOp::Sub, xs, y, ys, n),
        BinOp::Mul => binary_each(BinOp::Mul, xs, y, ys, n),
        BinOp::Div => binary_each(BinOp::Div, xs, y, ys, n),
        BinOp::Rem => binary_each(BinOp::Rem, xs, y, ys, n),
    }
}

#[inline(always)]
fn binary_each(op: BinOp, xs: &mut [i64], y: Line, ys: &[i64], n: usize)
    requires few { n ≤ 256 }
    requires left { n ≤ length xs.old }
    requires right { n ≤ length ys.now }
    ensures size { length xs.new ≡ length xs.old }
    ensures each { (j : ℕ) → j < n → get_or xs.new j (pos 0) ≡ spec.binary op (get_or xs.old j (pos 0))
        (line_at y ys.now j) }
{
    for j in 0..n {
        xs[j] = binary(op, xs[j], y.at(ys, j));
    }
}

/// The lesser of two numbers at each turn; the left column is then the result's, and the right one is used up.
pub fn least_line(x: Line, xs: &mut [i64], y: Line, ys: &mut [i64], n: usize) -> Line
    requires few { n ≤ 256 }
    requires left { n ≤ length xs.old }
    requires right { n ≤ length ys.old }
    ensures sizes { (length xs.new ≡ length xs.old) × (length ys.new ≡ length ys.old) }
    ensures each { (j : ℕ) → j < n → line_at result xs.new j ≡ int_min (line_at x xs.old j) (line_at y ys.old j) }
{
    x.spread(xs, n);
    y.spread(ys, n);
    least_each(xs, ys, n);
    Line::Column
}

fn least_each(xs: &mut [i64], ys: &[i64], n: usize)
    requires left { n ≤ length xs.old }
    requires right { n ≤ length ys.now }
    ensures size { length xs.new ≡ length xs.old }
    ensures each { (j : ℕ) → j < n → get_or xs.new j (pos 0) ≡ int_min (get_or xs.old j (pos 0))
        (get_or ys.now j (pos 0)) }
{
    for j in 0..n {
        xs[j] = xs[j].min(ys[j]);
    }
}

/// The greater of two numbers at each turn; the left column is then the result's, and the right one is used up.
pub fn most_line(x: Line, xs: &mut [i64], y: Line, ys: &mut [i64], n: usize) -> Line
    requires few { n ≤ 256 }
    requires left { n ≤ length xs.old }
    requires right { n ≤ length ys.old }
    ensures sizes { (length xs.new ≡ length xs.old) × (length ys.new ≡ length ys.old) }
    ensures each { (j : ℕ) → j < n → line_at result xs.new j ≡ int_max (line_at x xs.old j) (line_at y ys.old j) }
{
    x.spread(xs, n);
    y.spread(ys, n);
    most_each(xs, ys, n);
    Line::Column
}

fn most_each(xs: &mut [i64], ys: &[i64], n: usize)
    requires left { n ≤ length xs.old }
    requires right { n ≤ length ys.now }
    ensures size { length xs.new ≡ length xs.old }
    ensures each { (j : ℕ) → j < n → get_or xs.new j (pos 0) ≡ int_max (get_or xs.old j (pos 0))
        (get_or ys.now j (pos 0)) }
{
    for j in 0..n {
        xs[j] = xs[j].max(ys[j]);
    }
}
