//! Numbers of turns that depend on a test.

ghost use Rattle.std.specs.Prelude.{◌≡◌, ◌+◌, ◌^◌, ◌<◌, ◌≤◌, ℕ, true, length};
ghost use Rattle.sq_deeds.specs.Deeds.{HasColumn};
ghost use Rattle.sq_deeds.specs.Deeds as spec;
ghost use Rattle.sq_deeds.specs.Loops as loops;
ghost use Rattle.sq_deeds.specs.Loops.{IsReadFirst, MayChoose, AreChosen};

use crate::deeds::Numbers;
use crate::turn::number_at;
use sq_columns::Line;

/// Whether the numbers, read turn by turn, are read before others are put from column `at` on in their place.
pub(crate) fn is_read_first(at: usize, x: Numbers) -> bool
    ensures { result ≡ true → IsReadFirst at x }
{
    match x.line {
        Line::Same(_) => true,
        Line::Ramp(_, _) => true,
        Line::Column => at <= x.from || 256 <= at - x.from,
    }
}

/// Puts into the test's column, at each turn, the second number where the test is 0, else the first.
pub(crate) fn choose(test: Numbers, x: Numbers, y: Numbers, columns: &mut [i64], turns: usize)
    requires few { turns ≤ 256 }
    requires may { MayChoose (length columns.old) test x y }
    ensures { AreChosen turns test x y columns.old columns.new }
{
    match test.line {
        Line::Column => choose_from(Numbers::column(test.from), x, y, columns, turns),
        _ => choose_each(test, x, y, columns, turns),
    }
}

/// A loop of its own for two columns, and for a column and a number.
#[inline(always)]
fn choose_from(test: Numbers, x: Numbers, y: Numbers, columns: &mut [i64], turns: usize)
    requires few { turns ≤ 256 }
    requires may { MayChoose (length columns.old) test x y }
    ensures { AreChosen turns test x y columns.old columns.new }
{
    match x.line {
        Line::Column => choose_right(test, Numbers::column(x.from), y, columns, turns),
        Line::Same(n) => {
            let line = Line::Same(n);
            choose_right(test, Numbers { line, ..x }, y, columns, turns);
        }
        Line::Ramp(_, _) => choose_each(test, x, y, columns, turns),
    }
}

#[inline(always)]
fn choose_right(test: Numbers, x: Numbers, y: Numbers, columns: &mut [i64], turns: usize)
    requires few { turns ≤ 256 }
    requires may { MayChoose (length columns.old) test x y }
    ensures { AreChosen turns test x y columns.old columns.new }
{
    match y.line {
        Line::Column => choose_each(test, x, Numbers::column(y.from), columns, turns),
        Line::Same(n) => {
            let line = Line::Same(n);
            choose_each(test, x, Numbers { line, ..y }, columns, turns);
        }
        Line::Ramp(_, _) => choose_each(test, x, y, columns, turns),
    }
}

#[inline(always)]
fn choose_each(test: Numbers, x: Numbers, y: Numbers, columns: &mut [i64], turns: usize)
    requires few { turns ≤ 256 }
    requires may { MayChoose (length columns.old) test x y }
    ensures { AreChosen turns test x y columns.old columns.new }
{
    for j in 0..turns {
        columns[test.from + j] = chosen_at(test, x, y, columns, j);
    }
}

#[inline(always)]
fn chosen_at(test: Numbers, x: Numbers, y: Numbers, columns: &[i64], j: usize) -> i64
    requires few { j < 256 }
    requires test { HasColumn (length columns.now) test }
    requires left { HasColumn (length columns.now) x }
    requires right { HasColumn (length columns.now) y }
    ensures { result ≡ loops.chosen (spec.number_at columns.now test j) (spec.number_at columns.now x j)
        (spec.number_at columns.now y j) }
{
    let first = number_at(x, columns, j);
    let second = number_at(y, columns, j);
    chosen(number_at(test, columns, j), first, second)
}

/// The second number where the test is 0, else the first.
#[inline(always)]
fn chosen(test: i64, x: i64, y: i64) -> i64
    ensures { result ≡ loops.chosen test x y }
{
    if test == 0 { y } else { x }
}
