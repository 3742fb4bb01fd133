//! What one turn of a block does, deed by deed.

ghost use Rattle.std.specs.Prelude.{◌≡◌, ◌+◌, ◌^◌, ◌<◌, ◌≤◌, ℕ, length};
ghost use Rattle.std.specs.List.{All};
ghost use Rattle.sq_num.specs.Elements.{width};
ghost use Rattle.sq_deeds.specs.declared.deeds.Value.TheVariants as variants;
ghost use Rattle.sq_deeds.specs.Deeds as spec;
ghost use Rattle.sq_deeds.specs.Deeds.{HasColumn, LinkFits, ValueFits, PutFits, MayFit, DeedFits, IsRoomy};

use crate::deeds::{Carried, Deed, Link, Numbers, Put, Value};
use crate::elements::load;
use crate::puts;
use crate::rise::Rise;
use sq_columns::numbers::{binary, unary};
use sq_num::Elem;

/// The number of a turn.
#[inline(always)]
pub(crate) fn number_at(x: Numbers, columns: &[i64], j: usize) -> i64
    requires few { j < 256 }
    requires room { HasColumn (length columns.now) x }
    ensures { result ≡ spec.number_at columns.now x j }
{
    x.line.at(&columns[x.from..], j)
}

/// The first byte of a turn's element.
#[inline(always)]
pub(crate) fn byte_at(elem: Elem, rise: Rise, turns: usize, j: usize, size: usize) -> usize
    requires few { turns ≤ 257 }
    requires here { j < turns }
    requires room { IsRoomy turns size elem rise }
    ensures value { result ≡ spec.byte_at rise j }
    ensures inside { result + width elem ≤ size }
{
    let _elem = elem;
    let _size = size;
    let _turns = turns;
    rise.at + rise.step * j
}

/// What an operator makes of a number, where operators began with the first.
#[inline(always)]
pub(crate) fn linked(link: Link, first: i64, x: i64, columns: &[i64], j: usize) -> i64
    requires few { j < 256 }
    requires room { LinkFits (length columns.now) link }
    ensures { result ≡ spec.linked columns.now link j first x }
{
    match link {
        Link::Unary(op) => unary(op, x),
        Link::Onto(op, y) => binary(op, x, number_at(y, columns, j)),
        Link::Under(op, y) => binary(op, number_at(y, columns, j), x),
        Link::Least(y) => x.min(number_at(y, columns, j)),
        Link::Most(y) => x.max(number_at(y, columns, j)),
        Link::Itself(op) => binary(op, x, first),
    }
}

/// What the operators make of it, one after another.
#[inline(always)]
pub(crate) fn along_links(links: &[Link], first: i64, columns: &[i64], j: usize) -> i64
    requires few { j < 256 }
    requires room { All (LinkFits (length columns.now)) links.now }
    ensures { result ≡ spec.along_links columns.now links.now j first }
{
    let mut x = first;
    for link in links {
        x = linked(*link, first, x, columns, j);
    }
    x
}

/// The number that a turn puts, by the bytes that it meets.
#[inline(always)]
fn value_at(value: &Value, columns: &[i64], turns: usize, j: usize, bytes: &[u8]) -> i64
    requires few { turns ≤ 256 }
    requires here { j < turns }
    requires fits { ValueFits turns (length columns.now) (length bytes.now) value.now }
    ensures { result ≡ spec.value_at columns.now value.now j bytes.now }
{
    match value {
        Value::Known(x) => number_at(*x, columns, j),
        Value::Carried(carried) => carried_at(carried, columns, turns, j, bytes),
    }
}

#[inline(always)]
fn carried_at(carried: &Carried, columns: &[i64], turns: usize, j: usize, bytes: &[u8]) -> i64
    requires few { turns ≤ 256 }
    requires here { j < turns }
    requires read { IsRoomy turns (length bytes.now) carried.now.elem carried.now.read }
    requires links { All (LinkFits (length columns.now)) carried.now.links.items }
    ensures { result ≡ spec.value_at columns.now (variants.Carried carried.now) j bytes.now }
{
    let at = byte_at(carried.elem, carried.read, turns, j, bytes.len());
    let x = load(carried.elem, at, bytes);
    along_links(carried.links.as_slice(), x, columns, j)
}

/// Puts a turn's number at its element.
#[inline(always)]
pub(crate) fn do_put(put: &Put, columns: &[i64], turns: usize, j: usize, bytes: &mut [u8])
    requires few { turns ≤ 256 }
    requires here { j < turns }
    requires fits { PutFits turns (length columns.now) (length bytes.old) put.now }
    ensures { bytes.new ≡ spec.put_at_turn columns.now put.now j bytes.old }
{
    let x = value_at(&put.value, columns, turns, j, bytes);
    let at = byte_at(put.elem, put.to, turns, j, bytes.len());
    puts::put(put.elem, put.op, at, x, bytes);
}

#[inline(always)]
pub(crate) fn do_put_or_not(
    put: &Option<Put>,
    columns: &[i64],
    turns: usize,
    j: usize,
    bytes: &mut [u8],
)
    requires few { turns ≤ 256 }
    requires here { j < turns }
    requires fits { MayFit turns (length columns.now) (length bytes.old) put.now }
    ensures { bytes.new ≡ spec.put_or_not columns.now put.now j bytes.old }
{
    match put {
        Some(put) => do_put(put, columns, turns, j, bytes),
        None => {}
    }
}

/// Does a turn's deed.
fn do_one(deed: &Deed, columns: &[i64], turns: usize, j: usize, bytes: &mut [u8])
    requires few { turns ≤ 256 }
    requires here { j < turns }
    requires fits { DeedFits turns (length columns.now) (length bytes.old) deed.now }
    ensures { bytes.new ≡ spec.done columns.now deed.now j bytes.old }
{
    match deed {
        Deed::Always(put) => do_put(put, columns, turns, j, bytes),
        Deed::Choice(test, taken, other) => {
            if number_at(*test, columns, j) == 0 {
                do_put_or_not(other, columns, turns, j, bytes);
            } else {
                do_put_or_not(taken, columns, turns, j, bytes);
            }
        }
    }
}

/// Does all deeds of a turn, in their order.
pub(crate) fn do_all(deeds: &[Deed], columns: &[i64], turns: usize, j: usize, bytes: &mut [u8])
    requires few { turns ≤ 256 }
    requires here { j < turns }
    requires fits { All (DeedFits turns (length columns.now) (length bytes.old)) deeds.now }
    ensures { bytes.new ≡ spec.all_done columns.now deeds.now j bytes.old }
{
    for deed in deeds {
        do_one(deed, columns, turns, j, bytes);
    }
}
