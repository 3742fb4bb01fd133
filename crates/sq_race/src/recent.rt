//! Accesses of which earlier ones show that they don't race.

ghost use Rattle.std.specs.Prelude.{◌≡◌, ◌<◌, true, length};
ghost use Rattle.sq_race.specs.Pairs.{NoneYet, NoneAt};
ghost use Rattle.sq_race.specs.Accesses as spec;

use crate::map::{Map, is_write, settles, stands_for};
use crate::taken::{Taken, nth};
use sq_forms::Use;
use std::alloc::{AllocError, Global};

const MOST_ROWS: usize = 16_384;

// How many accesses long a row with two iterations is kept for its block, though others come in between.
const KEPT: usize = 8 * MOST_ROWS;

/// Two earlier accesses, by their numbers.
#[derive(Clone, Copy)]
struct Twice {
    one: usize,
    two: usize,
}

/// By array and block, in a table of fixed size, two earlier accesses of these, of different iterations where it knows
/// such. What it gives is tested, so that a wrong row costs time alone.
#[derive(Drop)]
pub struct Recent {
    rows: Vec<Twice>,
}

impl Recent {
    pub fn new(alloc: Global, accesses: usize) -> Result<Recent, AllocError> {
        let mut rows = Vec::new(alloc);
        for _made in 0..accesses.min(MOST_ROWS) {
            rows.push(Twice { one: 0, two: 0 })?;
        }
        Ok(Recent { rows })
    }

    // The number of the row of the access.
    fn row(&self, access: &Use) -> usize {
        let count = self.rows.len() as u64;
        if count == 0 {
            return 0;
        }
        (hash(access) % count) as usize
    }

    fn get(&self, row: usize) -> Twice {
        if row < self.rows.len() {
            self.rows[row]
        } else {
            Twice { one: 0, two: 0 }
        }
    }

    fn set(&mut self, row: usize, twice: Twice) {
        if row < self.rows.len() {
            self.rows[row] = twice;
        }
    }

    /// Whether earlier accesses are known to show that this one races with none before it. It is noted.
    pub fn shows(&mut self, map: &Map, uses: &[Taken<'_>], later: usize) -> bool
        requires within { later < length uses.now }
        requires none { NoneYet map.now uses.now later }
        ensures { result ≡ true → NoneAt map.now uses.now later }
    {
        let row = self.row(nth(uses, later));
        let known = self.get(row);
        self.set(row, noted(map, uses, known, later));
        show(map, uses, known, later)
    }
}

// Whether the two are earlier accesses that show it.
fn show(map: &Map, uses: &[Taken<'_>], known: Twice, later: usize) -> bool
    requires within { later < length uses.now }
    requires none { NoneYet map.now uses.now later }
    ensures { result ≡ true → NoneAt map.now uses.now later }
{
    if known.one >= later || known.two >= later {
        return false;
    }
    settles(
        map,
        nth(uses, known.one),
        nth(uses, known.two),
        nth(uses, later),
    )
}

// What is known with this access: of its block, or still of another one that two iterations had of late.
fn noted(map: &Map, uses: &[Taken<'_>], known: Twice, later: usize) -> Twice
    requires { later < length uses.now }
{
    if known.two < later {
        let last = nth(uses, known.two);
        let this = nth(uses, later);
        if stands_for(map, last, this) {
            return joined(map, known, last, this, later);
        }
        if known.one != known.two && later - known.two < KEPT && map.same_run(last, this) {
            return known;
        }
    }
    Twice {
        one: later,
        two: later,
    }
}

// The last two iterations that had the block.
fn joined(map: &Map, known: Twice, last: &Use, this: &Use, later: usize) -> Twice {
    if map.same_iteration(last, this) {
        return known;
    }
    Twice {
        one: known.two,
        two: later,
    }
}

fn hash(access: &Use) -> u64 {
    let mut sum = mixed(u64::from(access.array), u32::from(is_write(access)));
    for span in access.rect.as_slice() {
        sum = mixed(mixed(sum, span.lo), span.hi);
    }
    sum >> 32
}

fn mixed(sum: u64, number: u32) -> u64 {
    (sum ^ u64::from(number))
        .wrapping_mul(0x9E37_79B9_7F4A_7C15)
        .rotate_left(23)
}
