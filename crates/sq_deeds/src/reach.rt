//! Which bytes a deed reads and writes.

ghost use Rattle.std.specs.Prelude.{◌≡◌, ◌⊎◌, ◌+◌, ◌^◌, ◌<◌, ◌≤◌, ℕ, true, length};
ghost use Rattle.std.specs.List.{All};
ghost use Rattle.sq_deeds.specs.Deeds.{DeedFits, IsRoomy, MayFit, PutFits};
ghost use Rattle.sq_deeds.specs.Reaches.{AreApart, ArePutsApart, AreTargetsApart, DeedLies, IsAlone, IsApart, MayLie, PutLies, RiseLies};

use crate::deeds::{Deed, Put, Value};
use crate::rise::Rise;
use sq_num::{Elem, width};

/// The bytes from `low` up to but not including `high`.
#[derive(Clone, Copy)]
struct Reach {
    low: usize,
    high: usize,
}

/// Whether a deed touches no byte that the others touch.
pub(crate) fn is_alone(first: &Deed, rest: &[Deed], turns: usize, most: usize, size: usize) -> bool
    requires few { turns ≤ 256 }
    requires some { 0 < turns }
    requires first { DeedFits turns most size first.now }
    requires rest { All (DeedFits turns most size) rest.now }
    ensures { result ≡ true → IsAlone turns first.now rest.now }
{
    are_apart(reach_of(first, turns, most, size), rest, turns, most, size)
}

/// Whether two assignments touch no byte of one another.
pub(crate) fn are_puts_apart(
    first: &Put,
    second: &Put,
    turns: usize,
    most: usize,
    size: usize,
) -> bool
    requires few { turns ≤ 256 }
    requires some { 0 < turns }
    requires first { PutFits turns most size first.now }
    requires second { PutFits turns most size second.now }
    ensures { result ≡ true → ArePutsApart turns first.now second.now }
{
    let one = reach_of_put(first, turns, most, size);
    let two = reach_of_put(second, turns, most, size);
    one.high <= two.low || two.high <= one.low
}

/// Whether the elements that two assignments put have no byte in common.
pub(crate) fn are_targets_apart(
    first: &Put,
    second: &Put,
    turns: usize,
    most: usize,
    size: usize,
) -> bool
    requires few { turns ≤ 256 }
    requires some { 0 < turns }
    requires first { PutFits turns most size first.now }
    requires second { PutFits turns most size second.now }
    ensures { result ≡ true → AreTargetsApart turns first.now second.now }
{
    let _most = most;
    let one = reach_of_rise(first.elem, first.to, turns, size);
    let two = reach_of_rise(second.elem, second.to, turns, size);
    one.high <= two.low || two.high <= one.low
}

/// Whether each of the others touches none of the bytes.
fn are_apart(reach: Reach, deeds: &[Deed], turns: usize, most: usize, size: usize) -> bool
    requires few { turns ≤ 256 }
    requires some { 0 < turns }
    requires fits { All (DeedFits turns most size) deeds.now }
    ensures { result ≡ true → AreApart turns reach.low reach.high deeds.now }
{
    match deeds {
        [] => true,
        [first, rest @ ..] => {
            is_apart(reach, first, turns, most, size) && are_apart(reach, rest, turns, most, size)
        }
    }
}

fn is_apart(reach: Reach, deed: &Deed, turns: usize, most: usize, size: usize) -> bool
    requires few { turns ≤ 256 }
    requires some { 0 < turns }
    requires fits { DeedFits turns most size deed.now }
    ensures { result ≡ true → IsApart turns reach.low reach.high deed.now }
{
    let other = reach_of(deed, turns, most, size);
    reach.high <= other.low || other.high <= reach.low
}

/// All that a deed reads and writes.
fn reach_of(deed: &Deed, turns: usize, most: usize, size: usize) -> Reach
    requires few { turns ≤ 256 }
    requires some { 0 < turns }
    requires fits { DeedFits turns most size deed.now }
    ensures { DeedLies turns deed.now result.low result.high }
{
    match deed {
        Deed::Always(put) => reach_of_put(put, turns, most, size),
        Deed::Choice(_, taken, other) => reach_of_two(taken, other, turns, most, size),
    }
}

fn reach_of_two(
    taken: &Option<Put>,
    other: &Option<Put>,
    turns: usize,
    most: usize,
    size: usize,
) -> Reach
    requires few { turns ≤ 256 }
    requires some { 0 < turns }
    requires taken { MayFit turns most size taken.now }
    requires other { MayFit turns most size other.now }
    ensures taken { MayLie turns taken.now result.low result.high }
    ensures other { MayLie turns other.now result.low result.high }
{
    match taken {
        Some(first) => {
            let front = reach_of_put(first, turns, most, size);
            match other {
                Some(second) => joined(front, reach_of_put(second, turns, most, size)),
                None => front,
            }
        }
        None => match other {
            Some(second) => reach_of_put(second, turns, most, size),
            None => Reach { low: 0, high: 0 },
        },
    }
}

fn reach_of_put(put: &Put, turns: usize, most: usize, size: usize) -> Reach
    requires few { turns ≤ 256 }
    requires some { 0 < turns }
    requires fits { PutFits turns most size put.now }
    ensures { PutLies turns put.now result.low result.high }
{
    let _most = most;
    let to = reach_of_rise(put.elem, put.to, turns, size);
    match &put.value {
        Value::Known(_) => to,
        Value::Carried(carried) => {
            joined(to, reach_of_rise(carried.elem, carried.read, turns, size))
        }
    }
}

fn reach_of_rise(elem: Elem, rise: Rise, turns: usize, size: usize) -> Reach
    requires few { turns ≤ 256 }
    requires some { 0 < turns }
    requires room { IsRoomy turns size elem rise }
    ensures { RiseLies turns elem rise result.low result.high }
{
    let _size = size;
    Reach {
        low: rise.at,
        high: rise.at + rise.step * (turns - 1) + width(elem),
    }
}

fn joined(a: Reach, b: Reach) -> Reach
    ensures low { (result.low ≤ a.low) × (result.low ≤ b.low) }
    ensures high { (a.high ≤ result.high) × (b.high ≤ result.high) }
{
    Reach {
        low: a.low.min(b.low),
        high: a.high.max(b.high),
    }
}
