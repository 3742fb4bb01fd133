//! The first race of a map by comparing all pairs, and by whichever way serves.

ghost use Rattle.std.specs.Prelude.{◌≡◌, ◌+◌, ◌<◌, length, get_or, Some, IfOk};
ghost use Rattle.sq_race.specs.Order.{at_most, round};
ghost use Rattle.sq_race.specs.Least as spec;
ghost use Rattle.sq_race.specs.Selection as taking;
ghost use Rattle.sq_race.specs.Pairs.{RaceAt, IsEarliest};

use crate::map::Map;
use crate::order::{are_in_order, arrays_of, is_not_after};
use crate::pairs::{Pair, earliest, first_pair};
use crate::taken::{Taken, accesses, nth, of_arrays, written};
use sq_forms::Use;
use std::alloc::{AllocError, Global};

// The race that comes first of one found before, and of one with a later access.
fn lesser(map: &Map, uses: &[Taken<'_>], known: Pair, next: Pair) -> Pair
    requires known { known.later < length uses.now }
    requires next { next.later < length uses.now }
    ensures { spec.IsLesser map.now uses.now known next result }
{
    if is_not_after(map, nth(uses, known.later), nth(uses, next.later)) {
        known
    } else {
        next
    }
}

// The race that comes first of the one that is known and of those with this later access.
fn least_with(map: &Map, uses: &[Taken<'_>], known: Option<Pair>, later: usize) -> Option<Pair>
    requires within { later < length uses.now }
    requires known { spec.IsLeastTo map.now uses.now later known }
    ensures { spec.IsLeastTo map.now uses.now (later + 1) result }
{
    let this = nth(uses, later);
    match earliest(map, &uses[..later], this) {
        None => known,
        Some(earlier) => {
            let next = Pair { later, earlier };
            match known {
                None => Some(next),
                Some(known) => Some(lesser(map, uses, known, next)),
            }
        }
    }
}

/// The race of a map that comes first, by comparing all pairs.
pub fn least_pair(map: &Map, uses: &[Taken<'_>]) -> Option<Pair>
    ensures { spec.IsLeast map.now uses.now result }
{
    let mut known = None;
    for later in 0..uses.len() {
        known = least_with(map, uses, known, later);
    }
    known
}

// The race of a map that comes first: fast where its runs stand in order, as those of a program do.
fn least_of(alloc: Global, map: &Map, uses: &[Taken<'_>]) -> Result<Option<Pair>, AllocError>
    ensures { IfOk result (λ pair. spec.IsLeast map.now uses.now pair) }
{
    if are_in_order(map, uses) {
        first_pair(alloc, map, uses, arrays_of(uses))
    } else {
        Ok(least_pair(map, uses))
    }
}

fn number_at(numbers: &[usize], place: usize) -> usize
    ensures { result ≡ get_or numbers.now place 0 }
{
    if place < numbers.len() {
        numbers[place]
    } else {
        0
    }
}

fn renumbered(numbers: &[usize], found: Option<Pair>) -> Option<Pair>
    ensures { result ≡ taking.renumbered numbers.now found }
{
    match found {
        None => None,
        Some(pair) => Some(Pair {
            later: number_at(numbers, pair.later),
            earlier: number_at(numbers, pair.earlier),
        }),
    }
}

/// The race of a map that comes first, where all of its accesses are among those with these numbers.
pub fn race_of(
    alloc: Global,
    map: &Map,
    uses: &[Use],
    numbers: &[usize],
) -> Result<Option<Pair>, AllocError>
    requires { taking.HaveAll map.now uses.now numbers.now }
    ensures { IfOk result (λ pair. spec.IsLeast map.now uses.now pair) }
{
    let arrays = written(alloc, map, uses, numbers)?;
    let numbers = of_arrays(alloc, map, &arrays, uses, numbers)?;
    let taken = accesses(alloc, uses, &numbers)?;
    let found = least_of(alloc, map, &taken)?;
    Ok(renumbered(&numbers, found))
}
