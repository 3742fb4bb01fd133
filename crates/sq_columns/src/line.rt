//! The numbers of the turns of a loop.

ghost use Rattle.std.specs.Prelude.{◌≡◌, ◌<◌, ◌≤◌, ℕ, pos, ◌+ℤ◌, ◌*ℤ◌, length, get_or};
ghost use Rattle.sq_leaf.specs.Numbers.{wrapped};
ghost use Rattle.sq_columns.specs.Lines.{line_at};

use crate::numbers::binary;
use sq_ast::BinOp;

/// How many turns a block has at most.
pub const TURNS: usize = 256;

/// The numbers of the turns of a block: the same at each, a first number and the step from turn to turn, cut to 64
/// bits, or those of a column.
#[derive(Clone, Copy)]
pub enum Line {
    Same(i64),
    Ramp(i64, i64),
    Column,
}

impl Line {
    /// The number of a turn.
    #[inline(always)]
    pub fn at(self, column: &[i64], j: usize) -> i64
        requires few { j < 256 }
        requires room { j < length column.now }
        ensures { result ≡ line_at self column.now j }
    {
        match self {
            Line::Same(x) => x,
            Line::Ramp(first, step) => ramp_at(first, step, j),
            Line::Column => column[j],
        }
    }

    /// Puts the numbers of the turns into the column.
    pub fn spread(self, column: &mut [i64], n: usize)
        requires few { n ≤ 256 }
        requires room { n ≤ length column.old }
        ensures size { length column.new ≡ length column.old }
        ensures each { (j : ℕ) → j < n → get_or column.new j (pos 0) ≡ line_at self column.old j }
    {
        match self {
            Line::Same(x) => fill(x, column, n),
            Line::Ramp(first, step) => climb(first, step, column, n),
            Line::Column => {}
        }
    }
}

#[inline(always)]
fn ramp_at(first: i64, step: i64, j: usize) -> i64
    requires { j < 256 }
    ensures { result ≡ wrapped (first +ℤ step *ℤ pos j) }
{
    first.wrapping_add(step.wrapping_mul(j as i64))
}

fn fill(x: i64, column: &mut [i64], n: usize)
    requires { n ≤ length column.old }
    ensures size { length column.new ≡ length column.old }
    ensures each { (j : ℕ) → j < n → get_or column.new j (pos 0) ≡ x }
{
    for j in 0..n {
        column[j] = x;
    }
}

// A sum a turn, which goes in lanes where a product a turn doesn't.
fn climb(first: i64, step: i64, column: &mut [i64], n: usize)
    requires { n ≤ length column.old }
    ensures size { length column.new ≡ length column.old }
    ensures each { (j : ℕ) → j < n → get_or column.new j (pos 0) ≡ wrapped (first +ℤ step *ℤ pos j) }
{
    let mut x = first;
    for j in 0..n {
        column[j] = x;
        x = binary(BinOp::Add, x, step);
    }
}
