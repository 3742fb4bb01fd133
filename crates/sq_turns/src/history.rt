//! What the loops of a run have come to so far. No contract sees it: it decides which way turns are run, and all ways
//! give the same.

use crate::outlook::{Outlook, look};
use arrayvec::ArrayVec;
use sq_leaf::{Action, Cell};

/// How many loops of a run are told apart.
const LOOPS: usize = 4;

/// The least number of turns that are worth a block.
pub const FEW: usize = 8;

/// The same where an element may be carried, or where there are several statements.
pub(crate) const SOME: usize = 14;

/// So many more are worth a block for each statement after the first.
const MORE: usize = 3;

/// From so many turns on a block that comes to nothing costs little beside them.
const LONG: u64 = 192;

/// So many turns that could have been run by blocks are worth columns for the loops round them.
const WORTH: usize = 64;

/// After blocks that came to nothing up to two to the power of this are left out.
const MOST: u8 = 4;

/// What is known of a loop.
#[derive(Clone, Copy, Default)]
pub struct Memo {
    /// Where its first assignment stands.
    name: u64,
    /// The least number of turns that are worth a block.
    least: usize,
    /// So many blocks are still left out.
    pause: u16,
    /// How many blocks in a row came to nothing.
    misses: u8,
    /// Its last block carried an element from turn to turn.
    is_carried: bool,
}

/// What is known of all loops of a run.
#[derive(Drop)]
pub(crate) struct History {
    memos: ArrayVec<Memo, LOOPS>,
    /// Turns that could have been run by blocks.
    wanted: usize,
}

impl History {
    pub fn new() -> History {
        History {
            memos: ArrayVec::new(),
            wanted: 0,
        }
    }

    /// What is known of a loop of so many turns with this body and the counter of this number: what a look at it says,
    /// where it is new.
    pub fn recall(&self, body: &[Action], counter: usize, turns: u64) -> Memo {
        let name = name_of(body);
        for memo in self.memos.as_slice() {
            if memo.name == name {
                return *memo;
            }
        }
        Memo::new(name, body, look(body, counter), turns)
    }

    /// What is now known of a loop. The last one gives way where there are too many.
    pub fn keep(&mut self, memo: Memo) {
        for known in self.memos.as_mut_slice() {
            if known.name == memo.name {
                *known = memo;
                return;
            }
        }
        if self.memos.is_full() {
            let _ = self.memos.pop();
        }
        let _ = self.memos.try_push(memo);
    }

    /// So many turns could have been run by blocks.
    pub fn want(&mut self, turns: usize) {
        self.wanted = self.wanted.saturating_add(turns);
    }

    /// Whether there are enough of them for columns in the loops round them.
    pub fn is_worth_columns(&self) -> bool {
        WORTH <= self.wanted
    }
}

impl Memo {
    /// What a look at a loop of so many turns says of it.
    fn new(name: u64, body: &[Action], outlook: Outlook, turns: u64) -> Memo {
        let is_open = outlook == Outlook::Open && turns < LONG;
        Memo {
            name,
            least: least_of(body, outlook),
            pause: if is_open { 1 << MOST } else { 0 },
            misses: if is_open { MOST } else { 0 },
            is_carried: false,
        }
    }

    /// Whether so many of its turns are to be run by a block.
    pub fn is_due(&mut self, turns: usize) -> bool {
        if turns < self.least {
            false
        } else if self.pause == 0 {
            true
        } else {
            self.pause -= 1;
            false
        }
    }

    /// Whether its last block carried an element from turn to turn.
    pub fn is_carried(&self) -> bool {
        self.is_carried
    }

    /// A block carried an element.
    pub fn note_carried(&mut self) {
        self.misses = 0;
        self.is_carried = true;
    }

    /// Whether a block came to something.
    pub fn note(&mut self, done: bool) {
        if done {
            self.misses = 0;
        } else {
            self.misses = MOST.min(self.misses.saturating_add(1));
            self.pause = 1 << self.misses;
            self.is_carried = false;
        }
    }
}

/// The least number of turns that are worth a block.
fn least_of(body: &[Action], outlook: Outlook) -> usize {
    let others = body.len().saturating_sub(1);
    let some = SOME.saturating_add(MORE.saturating_mul(others));
    match outlook {
        Outlook::Clear => if others == 0 { FEW } else { some },
        Outlook::Carried | Outlook::Open => some,
        Outlook::Hopeless => usize::MAX,
    }
}

/// A number by which a body is known: where its first assignment stands.
fn name_of(body: &[Action]) -> u64 {
    for action in body {
        match name_in(action) {
            Some(name) => return name,
            None => {}
        }
    }
    0
}

fn name_in(action: &Action) -> Option<u64> {
    match action {
        Action::Assign(cell, _, _) => Some(name_at(cell)),
        Action::If(_, taken, other) => match first_name(taken.as_slice()) {
            Some(name) => Some(name),
            None => first_name(other.as_slice()),
        },
        Action::For(_, _, _) => None,
    }
}

fn first_name(list: &[Action]) -> Option<u64> {
    match list {
        [Action::Assign(cell, _, _), ..] => Some(name_at(cell)),
        _ => None,
    }
}

fn name_at(cell: &Cell) -> u64 {
    (u64::from(cell.place.line) << 32) | u64::from(cell.place.col)
}
