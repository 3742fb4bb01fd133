//! Blocks of turns of a loop, and where they write.

ghost use Rattle.std.specs.Prelude.{◌≡◌, ◌+◌, ◌-◌, ◌*◌, ◌^◌, ◌<◌, ◌≤◌, [], ◌∷◌, true, ℕ};
ghost use Rattle.sq_num.specs.Elements.{width};
ghost use Rattle.sq_leaf.specs.Places as places;
ghost use Rattle.sq_leaf.specs.Spots.{IsInside};
ghost use Rattle.sq_columns.specs.Lines.{first_byte};
ghost use Rattle.sq_deeds.specs.Puts.{LiesIn};
ghost use Rattle.sq_turns.specs.Blocks.{MayPut, AreClear, AreClearOf, AreClearOfEach};
ghost use Rattle.sq_turns.specs.Blocks.{IsNarrower, end_of};

use arrayvec::ArrayVec;
use sq_columns::Line;
use sq_deeds::{Rise, rise_of};
use sq_num::{Elem, width};
use sq_rect::View;

/// How many assignments a block may have.
pub(crate) const WRITES: usize = 8;

/// No number of bytes or of a byte is as great.
pub(crate) const MOST: usize = 4_611_686_018_427_387_904;

/// Where one assignment may write at the turns of a block: all of it lies between the bytes `low` and `high`, and what
/// the turns before turn j write lies before `front + step * j`.
#[derive(Clone, Copy, Default)]
pub(crate) struct Write {
    pub low: usize,
    pub high: usize,
    pub front: usize,
    pub step: usize,
}

/// Turns of a loop, and where the assignments of its body may write.
#[derive(Drop)]
pub(crate) struct Block {
    /// The counter of turn 0.
    pub from: i64,
    pub turns: usize,
    pub writes: ArrayVec<Write, WRITES>,
}

impl Write {
    /// Anywhere in a view.
    pub fn over(view: &View, size: usize) -> Write
        requires { IsInside size view.now }
        ensures low { result.low ≡ view.now.at }
        ensures high { result.high ≡ end_of view.now }
        ensures front { result.front ≡ result.high }
        ensures step { result.step ≡ 0 }
    {
        let high = end_of(view, size);
        Write {
            low: view.at as usize,
            high,
            front: high,
            step: 0,
        }
    }
}

impl Block {
    /// Turns of a body that assigns one element.
    pub fn of(from: i64, turns: usize, write: Write) -> Block
        ensures { result ≡ record { from = from; turns = turns; writes = record { items = write ∷ [] } } }
    {
        let mut writes = ArrayVec::new();
        writes.push(write);
        Block {
            from,
            turns,
            writes,
        }
    }
}

/// The byte behind the last element of a view.
pub(crate) fn end_of(view: &View, size: usize) -> usize
    requires { IsInside size view.now }
    ensures value { result ≡ end_of view.now }
    ensures inside { result ≤ size }
{
    let _size = size;
    let most = reach(view.extents.as_slice(), view.strides.as_slice());
    view.at as usize + width(view.elem) * (most + 1)
}

/// How many elements before the last one.
fn reach(extents: &[u32], strides: &[u32]) -> usize
    requires { places.reach extents.now strides.now < 2 ^ 62 }
    ensures { result ≡ places.reach extents.now strides.now }
{
    match extents {
        [] => 0,
        [extent, extents @ ..] => match strides {
            [] => 0,
            [stride, strides @ ..] => {
                (*extent as usize).saturating_sub(1) * *stride as usize + reach(extents, strides)
            }
        },
    }
}

/// Where turns write these elements, which lie where they may write.
pub(crate) fn narrowed(elem: Elem, spots: Line, column: &[i64], turns: usize, write: Write) -> Write
    requires few { turns ≤ 256 }
    requires some { 0 < turns }
    requires whole { write.high ≤ write.front }
    requires lies { (j : ℕ) → j < turns → LiesIn write.low write.high elem spots column.now j }
    ensures narrower { IsNarrower write result }
    ensures may { (j : ℕ) → j < turns → MayPut result elem j (first_byte spots column.now j) }
{
    let _column = column;
    match rise_of(spots) {
        Some(rise) => risen(elem, rise, turns, write),
        None => write,
    }
}

fn risen(elem: Elem, rise: Rise, turns: usize, write: Write) -> Write
    requires few { turns ≤ 256 }
    requires some { 0 < turns }
    requires near { rise.at < 2 ^ 62 }
    requires slow { rise.step ≤ 2 ^ 32 }
    requires lies { (j : ℕ) → j < turns → (write.low ≤ rise.at + rise.step * j)
        × (rise.at + rise.step * j + width elem ≤ write.high) }
    ensures narrower { IsNarrower write result }
    ensures may { (j : ℕ) → j < turns → MayPut result elem j (rise.at + rise.step * j) }
{
    let _write = write;
    rising(elem, rise, turns)
}

/// Where so many turns write that put elements which go up so.
pub(crate) fn rising(elem: Elem, rise: Rise, turns: usize) -> Write
    requires few { turns ≤ 256 }
    requires some { 0 < turns }
    requires near { rise.at < 2 ^ 62 }
    requires slow { rise.step ≤ 2 ^ 32 }
    ensures low { result.low ≡ rise.at }
    ensures high { result.high ≡ rise.at + rise.step * (turns - 1) + width elem }
    ensures may { (j : ℕ) → j < turns → MayPut result elem j (rise.at + rise.step * j) }
{
    let high = rise.at + rise.step * (turns - 1) + width(elem);
    let moves = width(elem) <= rise.step;
    Write {
        low: rise.at,
        high,
        front: if moves { rise.at } else { high },
        step: if moves { rise.step } else { 0 },
    }
}

/// Whether each turn's element, between the bytes `low` and `high`, is written by no turn before it.
pub(crate) fn is_clear(
    elem: Elem,
    spots: Line,
    column: &[i64],
    low: usize,
    high: usize,
    block: &Block,
) -> bool
    requires few { block.now.turns ≤ 256 }
    requires some { 0 < block.now.turns }
    requires lies { (j : ℕ) → j < block.now.turns → LiesIn low high elem spots column.now j }
    ensures { result ≡ true → AreClear block.now elem (first_byte spots column.now) }
{
    is_clear_of_each(
        elem,
        spots,
        column,
        low,
        high,
        block.turns,
        block.writes.as_slice(),
    )
}

fn is_clear_of_each(
    elem: Elem,
    spots: Line,
    column: &[i64],
    low: usize,
    high: usize,
    turns: usize,
    writes: &[Write],
) -> bool
    requires few { turns ≤ 256 }
    requires some { 0 < turns }
    requires lies { (j : ℕ) → j < turns → LiesIn low high elem spots column.now j }
    ensures { result ≡ true → AreClearOfEach writes.now turns elem (first_byte spots column.now) }
{
    match writes {
        [] => true,
        [write, rest @ ..] => {
            is_clear_of(elem, spots, column, low, high, turns, write)
                && is_clear_of_each(elem, spots, column, low, high, turns, rest)
        }
    }
}

fn is_clear_of(
    elem: Elem,
    spots: Line,
    column: &[i64],
    low: usize,
    high: usize,
    turns: usize,
    write: &Write,
) -> bool
    requires few { turns ≤ 256 }
    requires some { 0 < turns }
    requires lies { (j : ℕ) → j < turns → LiesIn low high elem spots column.now j }
    ensures { result ≡ true → AreClearOf write.now turns elem (first_byte spots column.now) }
{
    let _column = column;
    if high <= write.low || write.high <= low {
        return true;
    }
    match rise_of(spots) {
        Some(rise) => is_clear_rise(elem, rise, turns, write),
        None => false,
    }
}

fn is_clear_rise(elem: Elem, rise: Rise, turns: usize, write: &Write) -> bool
    requires few { turns ≤ 256 }
    requires some { 0 < turns }
    requires near { rise.at < 2 ^ 62 }
    requires slow { rise.step ≤ 2 ^ 32 }
    ensures { result ≡ true → AreClearOf write.now turns elem (λ j. rise.at + rise.step * j) }
{
    let end = rise.at + rise.step * (turns - 1) + width(elem);
    end <= write.low || write.high <= rise.at || (rise.step == write.step && write.front <= rise.at)
}
