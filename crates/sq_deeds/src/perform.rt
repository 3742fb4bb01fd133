//! The deeds of a block's turns, done to the bytes.

ghost use Rattle.std.specs.Prelude.{◌≡◌, ◌+◌, ◌^◌, ◌<◌, ◌≤◌, ℕ, Some, true, [], ◌∷◌, length, drop, get_or};
ghost use Rattle.std.specs.List.{All};
ghost use Rattle.sq_deeds.specs.declared.deeds.Deed.TheVariants as variants;
ghost use Rattle.sq_leaf.specs.Source.{assigned};
ghost use Rattle.sq_deeds.specs.Puts.{puts};
ghost use Rattle.sq_deeds.specs.Deeds as spec;
ghost use Rattle.sq_deeds.specs.Deeds.{HasColumn, IsRoomy, PutFits, MayFit, DeedFits, all_done, byte_at, done, turns_done};
ghost use Rattle.sq_deeds.specs.Loops.{IsReadFirst, only_where};

use crate::carry::carry;
use crate::choose::{choose, is_read_first};
use crate::deeds::{Deed, Numbers, Put, Row, Tested, Value};
use crate::forward::{forward, is_forward};
use crate::puts::put_row;
use crate::reach::{are_puts_apart, are_targets_apart, is_alone};
use crate::tested::put_where;
use crate::turn::{do_all, do_put, number_at};

/// Performs the deeds at each turn, in their order. The columns are used up.
///
/// A deed that touches no byte of those behind it is done at all turns before them.
pub fn perform(deeds: &[Deed], columns: &mut [i64], turns: usize, bytes: &mut [u8])
    requires few { turns ≤ 256 }
    requires fits { All (DeedFits turns (length columns.old) (length bytes.old)) deeds.now }
    ensures { bytes.new ≡ turns_done columns.old deeds.now turns 0 bytes.old }
{
    match deeds {
        [deed] => perform_one(deed, columns, turns, bytes),
        [first, rest @ ..] => {
            if turns != 0 && is_alone(first, rest, turns, columns.len(), bytes.len()) {
                perform_before(first, columns, turns, bytes);
                perform(rest, columns, turns, bytes);
            } else {
                together(deeds, columns, turns, bytes);
            }
        }
        [] => each_turn(deeds, columns, turns, bytes),
    }
}

/// Deeds of which one touches bytes of others.
fn together(deeds: &[Deed], columns: &mut [i64], turns: usize, bytes: &mut [u8])
    requires few { turns ≤ 256 }
    requires fits { All (DeedFits turns (length columns.old) (length bytes.old)) deeds.now }
    ensures { bytes.new ≡ turns_done columns.old deeds.now turns 0 bytes.old }
{
    match deeds {
        [first, second] => match first {
            Deed::Always(first) => match second {
                Deed::Always(second) => two(first, second, columns, turns, bytes),
                Deed::Choice(_, _, _) => each_turn(deeds, columns, turns, bytes),
            },
            Deed::Choice(_, _, _) => each_turn(deeds, columns, turns, bytes),
        },
        deeds => each_turn(deeds, columns, turns, bytes),
    }
}

/// Two assignments. Where the second reads what the first sets, its numbers are made of the first one's.
fn two(first: &Put, second: &Put, columns: &mut [i64], turns: usize, bytes: &mut [u8])
    requires few { turns ≤ 256 }
    requires first { PutFits turns (length columns.old) (length bytes.old) first.now }
    requires second { PutFits turns (length columns.old) (length bytes.old) second.now }
    ensures { bytes.new ≡ turns_done columns.old (variants.Always first.now ∷ variants.Always second.now ∷ []) turns 0
        bytes.old }
{
    match &first.value {
        Value::Known(x) => match &second.value {
            Value::Carried(carried) => {
                if turns != 0
                    && is_forward(first, *x, carried)
                    && are_targets_apart(first, second, turns, columns.len(), bytes.len())
                {
                    put_known(first, *x, columns, turns, bytes);
                    forward(first.elem, *x, carried, columns, turns);
                    put_known(second, Numbers::column(x.from), columns, turns, bytes);
                } else {
                    two_each(first, second, columns, turns, bytes);
                }
            }
            Value::Known(_) => two_each(first, second, columns, turns, bytes),
        },
        Value::Carried(_) => two_each(first, second, columns, turns, bytes),
    }
}

/// One turn after another.
fn two_each(first: &Put, second: &Put, columns: &[i64], turns: usize, bytes: &mut [u8])
    requires few { turns ≤ 256 }
    requires first { PutFits turns (length columns.now) (length bytes.old) first.now }
    requires second { PutFits turns (length columns.now) (length bytes.old) second.now }
    ensures { bytes.new ≡ turns_done columns.now (variants.Always first.now ∷ variants.Always second.now ∷ []) turns 0
        bytes.old }
{
    for j in 0..turns {
        two_one(first, second, columns, turns, j, bytes);
    }
}

#[inline(always)]
fn two_one(first: &Put, second: &Put, columns: &[i64], turns: usize, j: usize, bytes: &mut [u8])
    requires few { turns ≤ 256 }
    requires here { j < turns }
    requires first { PutFits turns (length columns.now) (length bytes.old) first.now }
    requires second { PutFits turns (length columns.now) (length bytes.old) second.now }
    ensures { bytes.new ≡ all_done columns.now (variants.Always first.now ∷ variants.Always second.now ∷ []) j bytes.old }
{
    do_put(first, columns, turns, j, bytes);
    do_put(second, columns, turns, j, bytes);
}

/// One turn after another.
fn each_turn(deeds: &[Deed], columns: &[i64], turns: usize, bytes: &mut [u8])
    requires few { turns ≤ 256 }
    requires fits { All (DeedFits turns (length columns.now) (length bytes.old)) deeds.now }
    ensures { bytes.new ≡ turns_done columns.now deeds.now turns 0 bytes.old }
{
    for j in 0..turns {
        do_all(deeds, columns, turns, j, bytes);
    }
}

fn perform_one(deed: &Deed, columns: &mut [i64], turns: usize, bytes: &mut [u8])
    requires few { turns ≤ 256 }
    requires fits { DeedFits turns (length columns.old) (length bytes.old) deed.now }
    ensures { bytes.new ≡ turns_done columns.old (deed.now ∷ []) turns 0 bytes.old }
{
    match deed {
        Deed::Always(put) => always(put, columns, turns, bytes),
        Deed::Choice(test, taken, other) => choice(*test, taken, other, columns, turns, bytes),
    }
}

/// One assignment.
fn always(put: &Put, columns: &[i64], turns: usize, bytes: &mut [u8])
    requires few { turns ≤ 256 }
    requires fits { PutFits turns (length columns.now) (length bytes.old) put.now }
    ensures { bytes.new ≡ turns_done columns.now (variants.Always put.now ∷ []) turns 0 bytes.old }
{
    match &put.value {
        Value::Known(x) => put_known(put, *x, columns, turns, bytes),
        Value::Carried(carried) => carry(put, carried, columns, turns, bytes),
    }
}

/// Each turn puts its number.
fn put_known(put: &Put, x: Numbers, columns: &[i64], turns: usize, bytes: &mut [u8])
    requires few { turns ≤ 256 }
    requires room { IsRoomy turns (length bytes.old) put.now.elem put.now.to }
    requires column { HasColumn (length columns.now) x }
    ensures { bytes.new ≡ puts put.now.elem (assigned put.now.op) (byte_at put.now.to) (spec.number_at columns.now x)
        turns 0 bytes.old }
{
    let row = Row {
        elem: put.elem,
        rise: put.to,
    };
    let numbers = column_from(columns, x.from);
    put_row(put.op, row, x.line, numbers, turns, bytes);
}

/// The column that begins with this number of all columns.
#[inline(always)]
fn column_from(columns: &[i64], from: usize) -> &[i64]
    requires { from ≤ length columns.now }
    ensures { result.now ≡ drop from columns.now }
{
    &columns[from..]
}

/// The same with the columns as they were.
fn perform_before(deed: &Deed, columns: &[i64], turns: usize, bytes: &mut [u8])
    requires few { turns ≤ 256 }
    requires fits { DeedFits turns (length columns.now) (length bytes.old) deed.now }
    ensures { bytes.new ≡ turns_done columns.now (deed.now ∷ []) turns 0 bytes.old }
{
    match deed {
        Deed::Always(put) => always(put, columns, turns, bytes),
        Deed::Choice(test, taken, other) => {
            choice_before(*test, taken, other, columns, turns, bytes);
        }
    }
}

/// At most one assignment each way.
fn choice(
    test: Numbers,
    taken: &Option<Put>,
    other: &Option<Put>,
    columns: &mut [i64],
    turns: usize,
    bytes: &mut [u8],
)
    requires few { turns ≤ 256 }
    requires test { HasColumn (length columns.old) test }
    requires taken { MayFit turns (length columns.old) (length bytes.old) taken.now }
    requires other { MayFit turns (length columns.old) (length bytes.old) other.now }
    ensures { bytes.new ≡ turns_done columns.old (variants.Choice test taken.now other.now ∷ []) turns 0 bytes.old }
{
    match taken {
        Some(first) => match other {
            Some(second) => either(test, first, second, columns, turns, bytes),
            None => choice_before(test, taken, other, columns, turns, bytes),
        },
        None => choice_before(test, taken, other, columns, turns, bytes),
    }
}

fn choice_before(
    test: Numbers,
    taken: &Option<Put>,
    other: &Option<Put>,
    columns: &[i64],
    turns: usize,
    bytes: &mut [u8],
)
    requires few { turns ≤ 256 }
    requires test { HasColumn (length columns.now) test }
    requires taken { MayFit turns (length columns.now) (length bytes.old) taken.now }
    requires other { MayFit turns (length columns.now) (length bytes.old) other.now }
    ensures { bytes.new ≡ turns_done columns.now (variants.Choice test taken.now other.now ∷ []) turns 0 bytes.old }
{
    match taken {
        Some(first) => match other {
            Some(second) => sides(test, first, second, columns, turns, bytes),
            None => only(false, test, first, columns, turns, bytes),
        },
        None => match other {
            Some(put) => only(true, test, put, columns, turns, bytes),
            None => {}
        },
    }
}

/// An assignment where the test isn't 0, and one where it is.
fn either(
    test: Numbers,
    first: &Put,
    second: &Put,
    columns: &mut [i64],
    turns: usize,
    bytes: &mut [u8],
)
    requires few { turns ≤ 256 }
    requires test { HasColumn (length columns.old) test }
    requires first { PutFits turns (length columns.old) (length bytes.old) first.now }
    requires second { PutFits turns (length columns.old) (length bytes.old) second.now }
    ensures { bytes.new ≡ turns_done columns.old (variants.Choice test (Some first.now) (Some second.now) ∷ []) turns 0
        bytes.old }
{
    match &first.value {
        Value::Known(x) => match &second.value {
            Value::Known(y) => {
                if may_choose(test, first, *x, second, *y) {
                    choose(test, *x, *y, columns, turns);
                    put_known(first, Numbers::column(test.from), columns, turns, bytes);
                } else {
                    sides(test, first, second, columns, turns, bytes);
                }
            }
            Value::Carried(_) => sides(test, first, second, columns, turns, bytes),
        },
        Value::Carried(_) => sides(test, first, second, columns, turns, bytes),
    }
}

/// The same with the columns as they were: one way after the other, where they touch no byte of one another.
fn sides(test: Numbers, first: &Put, second: &Put, columns: &[i64], turns: usize, bytes: &mut [u8])
    requires few { turns ≤ 256 }
    requires test { HasColumn (length columns.now) test }
    requires first { PutFits turns (length columns.now) (length bytes.old) first.now }
    requires second { PutFits turns (length columns.now) (length bytes.old) second.now }
    ensures { bytes.new ≡ turns_done columns.now (variants.Choice test (Some first.now) (Some second.now) ∷ []) turns 0
        bytes.old }
{
    if turns != 0 && are_puts_apart(first, second, turns, columns.len(), bytes.len()) {
        only(false, test, first, columns, turns, bytes);
        only(true, test, second, columns, turns, bytes);
    } else {
        either_each(test, first, second, columns, turns, bytes);
    }
}

/// Whether both assign to the same elements in the same way, and their numbers can be chosen between in the test's column.
fn may_choose(test: Numbers, first: &Put, x: Numbers, second: &Put, y: Numbers) -> bool
    ensures elem { result ≡ true → second.now.elem ≡ first.now.elem }
    ensures op { result ≡ true → second.now.op ≡ first.now.op }
    ensures at { result ≡ true → second.now.to.at ≡ first.now.to.at }
    ensures step { result ≡ true → second.now.to.step ≡ first.now.to.step }
    ensures left { result ≡ true → IsReadFirst test.from x }
    ensures right { result ≡ true → IsReadFirst test.from y }
{
    first.elem == second.elem
        && first.op == second.op
        && first.to.at == second.to.at
        && first.to.step == second.to.step
        && is_read_first(test.from, x)
        && is_read_first(test.from, y)
}

/// One turn after another.
fn either_each(
    test: Numbers,
    first: &Put,
    second: &Put,
    columns: &[i64],
    turns: usize,
    bytes: &mut [u8],
)
    requires few { turns ≤ 256 }
    requires test { HasColumn (length columns.now) test }
    requires first { PutFits turns (length columns.now) (length bytes.old) first.now }
    requires second { PutFits turns (length columns.now) (length bytes.old) second.now }
    ensures { bytes.new ≡ turns_done columns.now (variants.Choice test (Some first.now) (Some second.now) ∷ []) turns 0
        bytes.old }
{
    for j in 0..turns {
        either_one(test, first, second, columns, turns, j, bytes);
    }
}

#[inline(always)]
fn either_one(
    test: Numbers,
    first: &Put,
    second: &Put,
    columns: &[i64],
    turns: usize,
    j: usize,
    bytes: &mut [u8],
)
    requires few { turns ≤ 256 }
    requires here { j < turns }
    requires test { HasColumn (length columns.now) test }
    requires first { PutFits turns (length columns.now) (length bytes.old) first.now }
    requires second { PutFits turns (length columns.now) (length bytes.old) second.now }
    ensures { bytes.new ≡ done columns.now (variants.Choice test (Some first.now) (Some second.now)) j bytes.old }
{
    if number_at(test, columns, j) == 0 {
        do_put(second, columns, turns, j, bytes);
    } else {
        do_put(first, columns, turns, j, bytes);
    }
}

/// An assignment where the test is 0, or where it isn't, and nothing else.
fn only(at_zero: bool, test: Numbers, put: &Put, columns: &[i64], turns: usize, bytes: &mut [u8])
    requires few { turns ≤ 256 }
    requires test { HasColumn (length columns.now) test }
    requires fits { PutFits turns (length columns.now) (length bytes.old) put.now }
    ensures { bytes.new ≡ turns_done columns.now (only_where at_zero test put.now ∷ []) turns 0 bytes.old }
{
    match &put.value {
        Value::Known(x) => {
            are_bytes(bytes);
            let row = Row {
                elem: put.elem,
                rise: put.to,
            };
            let it = Tested {
                at_zero,
                test,
                op: put.op,
                x: *x,
            };
            put_where(row, it, columns, turns, bytes);
        }
        Value::Carried(_) => only_each(at_zero, test, put, columns, turns, bytes),
    }
}

/// Bytes are numbers below 256.
#[inline(always)]
fn are_bytes(bytes: &[u8])
    ensures { (i : ℕ) → get_or bytes.now i 0 < 256 }
{
    let _bytes = bytes;
}

/// One turn after another.
fn only_each(
    at_zero: bool,
    test: Numbers,
    put: &Put,
    columns: &[i64],
    turns: usize,
    bytes: &mut [u8],
)
    requires few { turns ≤ 256 }
    requires test { HasColumn (length columns.now) test }
    requires fits { PutFits turns (length columns.now) (length bytes.old) put.now }
    ensures { bytes.new ≡ turns_done columns.now (only_where at_zero test put.now ∷ []) turns 0 bytes.old }
{
    for j in 0..turns {
        only_one(at_zero, test, put, columns, turns, j, bytes);
    }
}

#[inline(always)]
fn only_one(
    at_zero: bool,
    test: Numbers,
    put: &Put,
    columns: &[i64],
    turns: usize,
    j: usize,
    bytes: &mut [u8],
)
    requires few { turns ≤ 256 }
    requires here { j < turns }
    requires test { HasColumn (length columns.now) test }
    requires fits { PutFits turns (length columns.now) (length bytes.old) put.now }
    ensures { bytes.new ≡ done columns.now (only_where at_zero test put.now) j bytes.old }
{
    if number_at(test, columns, j) == 0 {
        if at_zero {
            do_put(put, columns, turns, j, bytes);
        }
    } else {
        if !at_zero {
            do_put(put, columns, turns, j, bytes);
        }
    }
}
