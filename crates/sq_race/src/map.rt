//! A map's accesses, and which of them race.

ghost use Rattle.std.specs.Prelude.{◌≡◌, take, true};
ghost use Rattle.sq_ast.specs.Modes as modes;
ghost use Rattle.sq_race.specs.Accesses as spec;
ghost use Rattle.sq_race.specs.Blocks as blocks;

use crate::block::Block;
use sq_forms::Use;
use sq_rect::{Rect, inside, overlap};
use sq_text::{Place, Span};

/// A `mappar` or `mapreduce` of a variant.
#[derive(Drop)]
pub struct Map {
    /// The keyword's.
    pub place: Place,
    /// The number of maps round it.
    pub depth: u32,
    /// Its calls, by their numbers in text order.
    pub calls: Span,
    /// Which argument of its one call it reduces into.
    pub reduced: Option<usize>,
}

/// Whether the access writes its array.
pub fn is_write(access: &Use) -> bool
    ensures { result ≡ modes.is_written access.now.mode }
{
    access.mode.is_written()
}

impl Map {
    /// Whether the access is one of the map's, its reduced array left aside.
    pub fn counts(&self, access: &Use) -> bool
        ensures { result ≡ spec.counts self.now access.now }
    {
        self.calls.lo <= access.call
            && access.call < self.calls.hi
            && !reduces(self.reduced, access.arg as usize)
    }

    /// Whether the two stand in one run of the map.
    pub fn same_run(&self, a: &Use, b: &Use) -> bool
        ensures { result ≡ spec.same_run self.now a.now b.now }
    {
        alike(
            self.depth as usize,
            a.iterations.as_slice(),
            b.iterations.as_slice(),
        )
    }

    /// Whether the two stand in one iteration of the map.
    pub fn same_iteration(&self, a: &Use, b: &Use) -> bool
        ensures { result ≡ spec.same_iteration self.now a.now b.now }
    {
        alike(
            self.depth as usize + 1,
            a.iterations.as_slice(),
            b.iterations.as_slice(),
        )
    }

    /// Whether the two race.
    pub fn races(&self, a: &Use, b: &Use) -> bool
        ensures { result ≡ spec.races self.now a.now b.now }
    {
        self.counts(a)
            && self.counts(b)
            && self.same_run(a, b)
            && !self.same_iteration(a, b)
            && clash(a, b)
    }
}

// Whether they touch one array in one place, and one of them writes.
fn clash(a: &Use, b: &Use) -> bool
    ensures { result ≡ spec.clash a.now b.now }
{
    a.array == b.array && (is_write(a) || is_write(b)) && share(&a.rect, &b.rect)
}

// Whether a coordinate lies in both blocks: none does in two that differ in their number of dimensions.
fn share(a: &Rect, b: &Rect) -> bool
    ensures { result ≡ spec.shares a.now b.now }
{
    a.as_slice().len() == b.as_slice().len() && overlap(a, b)
}

// Whether each coordinate of the second block lies in the first.
fn contains(outer: &Rect, inner: &Rect) -> bool
    ensures { result ≡ spec.contains outer.now inner.now }
{
    outer.as_slice().len() == inner.as_slice().len() && inside(outer, inner)
}

/// Whether the known access is of this one's run, has its block, and writes if it does.
pub fn stands_for(map: &Map, known: &Use, this: &Use) -> bool
    ensures { result ≡ spec.stands_for map.now known.now this.now }
{
    map.counts(known)
        && map.same_run(known, this)
        && known.array == this.array
        && (is_write(known) || !is_write(this))
        && contains(&known.rect, &this.rect)
}

/// Whether two earlier accesses would race with each that this one races with: what is of another iteration than this
/// one is of another than one of these.
pub fn settles(map: &Map, one: &Use, two: &Use, this: &Use) -> bool
    ensures { result ≡ spec.settles map.now one.now two.now this.now }
{
    stands_for(map, one, this)
        && stands_for(map, two, this)
        && (!map.same_iteration(one, two) || map.same_iteration(one, this))
}

fn reduces(reduced: Option<usize>, arg: usize) -> bool
    ensures { result ≡ spec.reduces reduced arg }
{
    match reduced {
        None => false,
        Some(this) => this == arg,
    }
}

fn alike(count: usize, a: &[u32], b: &[u32]) -> bool
    ensures { result ≡ spec.alike count a.now b.now }
{
    first(count, a) == first(count, b)
}

/// The first numbers of a list, at most so many.
pub fn first(count: usize, numbers: &[u32]) -> &[u32]
    ensures { result.now ≡ take count numbers.now }
{
    &numbers[..count.min(numbers.len())]
}

/// The block of a rect, whose further dimensions are whole.
pub fn block_of(rect: &Rect) -> Block
    ensures is { result ≡ spec.block_of rect.now }
    ensures bounded { blocks.covers blocks.whole result ≡ true }
{
    let spans = rect.as_slice();
    let all = Span {
        lo: 0,
        hi: u32::MAX,
    };
    Block {
        first: spans.first().copied().unwrap_or(all),
        second: spans.get(1).copied().unwrap_or(all),
        third: spans.get(2).copied().unwrap_or(all),
    }
}
