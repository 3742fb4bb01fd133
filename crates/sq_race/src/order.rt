//! In which order the runs of a map stand among the accesses, and of how many arrays these are.

ghost use Rattle.std.specs.Prelude.{◌≡◌, ◌≤◌, true, take};
ghost use Rattle.sq_race.specs.Order as spec;
ghost use Rattle.sq_race.specs.Pairs.{AreWithin};

use crate::map::{Map, first};
use crate::taken::{Taken, nth};
use sq_forms::Use;

/// Whether the runs of the map follow one another by the numbers of the maps round it.
pub fn are_in_order(map: &Map, uses: &[Taken<'_>]) -> bool
    ensures { result ≡ true → spec.AreInOrder map.now uses.now }
{
    let mut last = 0;
    for number in 0..uses.len() {
        let access = nth(uses, number);
        if map.counts(access) {
            if !follows(map, nth(uses, last), access) {
                return false;
            }
            last = number;
        }
    }
    true
}

fn follows(map: &Map, a: &Use, b: &Use) -> bool
    ensures { result ≡ spec.follows map.now a.now b.now }
{
    !map.counts(a) || is_not_after(map, a, b)
}

/// Whether the run of one access isn't behind that of another, by the numbers of the maps round the map.
pub fn is_not_after(map: &Map, a: &Use, b: &Use) -> bool
    ensures { result ≡ spec.not_after map.now a.now b.now }
{
    let depth = map.depth as usize;
    at_most(
        first(depth, a.iterations.as_slice()),
        first(depth, b.iterations.as_slice()),
    )
}

fn at_most(a: &[u32], b: &[u32]) -> bool
    ensures { result ≡ spec.at_most a.now b.now }
{
    for i in 0..a.len() {
        if i >= b.len() {
            return false;
        }
        if a[i] != b[i] {
            return a[i] < b[i];
        }
    }
    true
}

fn larger(a: usize, b: usize) -> usize
    ensures left { a ≤ result }
    ensures right { b ≤ result }
{
    if a < b { b } else { a }
}

/// How many arrays there are, where none of a higher number is accessed.
pub fn arrays_of(uses: &[Taken<'_>]) -> usize
    ensures { AreWithin result uses.now }
{
    let mut count = 0;
    for number in 0..uses.len() {
        let access = nth(uses, number);
        count = larger(count, access.array as usize + 1);
    }
    count
}
