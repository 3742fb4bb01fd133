//! The first race of a form, over its maps and accesses.

ghost use Rattle.std.specs.Prelude.{◌≡◌, ◌<◌, ◌≤◌, ◌+◌, Some, length, slice_get, IfOk};
ghost use Rattle.sq_race.specs.Race as spec;
ghost use Rattle.sq_race.specs.Selection as taking;

use crate::map::Map;
use crate::pairs::Pair;
use crate::plain::race_of;
use crate::taken::{all_below, of_calls};
use sq_forms::Use;
use sq_text::Span;
use std::alloc::{AllocError, Global};

/// Two accesses that race: the number of the map among the form's maps, and those of the two among its accesses.
#[derive(Clone, Copy)]
pub struct Found {
    pub map: usize,
    pub later: usize,
    pub earlier: usize,
}

// Calls, among them all of the maps from number `from` up to `to`.
fn calls_of(maps: &[Map], from: usize, to: usize) -> Span
    requires { to ≤ length maps.now }
    ensures { taking.AreInside maps.now from to result }
{
    let mut calls = Span {
        lo: u32::MAX,
        hi: 0,
    };
    for number in from..to {
        let map = &maps[number];
        calls = Span {
            lo: calls.lo.min(map.calls.lo),
            hi: calls.hi.max(map.calls.hi),
        };
    }
    calls
}

// The first race of the map with this number, where the accesses with these numbers have all of its accesses.
fn first_of_one(
    alloc: Global,
    maps: &[Map],
    map: usize,
    uses: &[Use],
    numbers: &[usize],
) -> Result<Option<Found>, AllocError>
    requires within { map < length maps.now }
    requires all { taking.HaveAllOf maps.now map (map + 1) uses.now numbers.now }
    ensures { IfOk result (λ found. spec.IsFirstAmong maps.now uses.now map (map + 1) found) }
{
    match race_of(alloc, &maps[map], uses, numbers)? {
        Some(Pair { later, earlier }) => Ok(Some(Found {
            map,
            later,
            earlier,
        })),
        None => Ok(None),
    }
}

// The first race of the maps from number `from` up to `to`, where the accesses with these numbers have all of theirs.
// Each half of the maps looks at the accesses of its own calls alone.
fn first_among(
    alloc: Global,
    maps: &[Map],
    from: usize,
    to: usize,
    uses: &[Use],
    numbers: &[usize],
) -> Result<Option<Found>, AllocError>
    requires from { from ≤ to }
    requires within { to ≤ length maps.now }
    requires all { taking.HaveAllOf maps.now from to uses.now numbers.now }
    ensures { IfOk result (λ found. spec.IsFirstAmong maps.now uses.now from to found) }
{
    if to - from == 0 {
        return Ok(None);
    }
    if to - from == 1 {
        return first_of_one(alloc, maps, from, uses, numbers);
    }
    let middle = from + (to - from) / 2;
    let low = of_calls(alloc, calls_of(maps, from, middle), uses, numbers)?;
    match first_among(alloc, maps, from, middle, uses, &low)? {
        Some(found) => Ok(Some(found)),
        None => {
            let high = of_calls(alloc, calls_of(maps, middle, to), uses, numbers)?;
            let found = first_among(alloc, maps, middle, to, uses, &high)?;
            Ok(found)
        }
    }
}

/// The first race of a form with these maps and accesses.
pub fn first_of(alloc: Global, maps: &[Map], uses: &[Use]) -> Result<Option<Found>, AllocError>
    ensures { IfOk result (λ found. spec.IsFirstOf maps.now uses.now found) }
{
    let numbers = all_below(alloc, uses.len())?;
    first_among(alloc, maps, 0, maps.len(), uses, &numbers)
}
