//! Blocks of up to three dimensions, in one shape.
ghost use Rattle.std.specs.Prelude.{◌≡◌, ◌<◌, true, false, not, nat_lt};
ghost use Rattle.sq_race.specs.Blocks as spec;

use sq_text::Span;

/// A dimension.
#[derive(Clone, Copy)]
pub enum Axis {
    First,
    Second,
    Third,
}

/// A span for each dimension.
#[derive(Clone, Copy)]
pub struct Block {
    pub first: Span,
    pub second: Span,
    pub third: Span,
}

/// Where a block is cut.
#[derive(Clone, Copy)]
pub struct Line {
    pub axis: Axis,
    pub at: u32,
}

impl Block {
    /// All indices.
    pub fn whole() -> Block
        ensures { result ≡ spec.whole }
    {
        let all = Span {
            lo: 0,
            hi: u32::MAX,
        };
        Block {
            first: all,
            second: all,
            third: all,
        }
    }

    pub fn along(&self, axis: Axis) -> Span
        ensures { result ≡ spec.along axis self.now }
    {
        match axis {
            Axis::First => self.first,
            Axis::Second => self.second,
            Axis::Third => self.third,
        }
    }

    /// The part below a line.
    pub fn below(&self, line: Line) -> Block
        ensures { result ≡ spec.below line self.now }
    {
        match line.axis {
            Axis::First => Block {
                first: below(self.first, line.at),
                second: self.second,
                third: self.third,
            },
            Axis::Second => Block {
                first: self.first,
                second: below(self.second, line.at),
                third: self.third,
            },
            Axis::Third => Block {
                first: self.first,
                second: self.second,
                third: below(self.third, line.at),
            },
        }
    }

    /// The part from a line on.
    pub fn above(&self, line: Line) -> Block
        ensures { result ≡ spec.above line self.now }
    {
        match line.axis {
            Axis::First => Block {
                first: above(self.first, line.at),
                second: self.second,
                third: self.third,
            },
            Axis::Second => Block {
                first: self.first,
                second: above(self.second, line.at),
                third: self.third,
            },
            Axis::Third => Block {
                first: self.first,
                second: self.second,
                third: above(self.third, line.at),
            },
        }
    }

    /// Whether they share a coordinate.
    pub fn overlaps(&self, other: &Block) -> bool
        ensures { result ≡ spec.overlaps self.now other.now }
    {
        overlap(self.first, other.first)
            && overlap(self.second, other.second)
            && overlap(self.third, other.third)
    }

    /// Whether the other's spans lie in this one's.
    pub fn covers(&self, other: &Block) -> bool
        ensures { result ≡ spec.covers self.now other.now }
    {
        cover(self.first, other.first)
            && cover(self.second, other.second)
            && cover(self.third, other.third)
    }

    /// A line through this block, near its middle, that suits a grid of blocks of which the other is one.
    pub fn line(&self, other: &Block) -> Line
        requires overlaps { spec.overlaps self.now other.now ≡ true }
        requires partly { spec.covers other.now self.now ≡ false }
        ensures above { (spec.along result.axis self.now).lo < result.at }
        ensures below { result.at < (spec.along result.axis self.now).hi }
    {
        let first = blocks_in(self.first, other.first);
        let second = blocks_in(self.second, other.second);
        let third = blocks_in(self.third, other.third);
        if first >= second && first >= third {
            Line {
                axis: Axis::First,
                at: cut(self.first, other.first),
            }
        } else if second >= third {
            Line {
                axis: Axis::Second,
                at: cut(self.second, other.second),
            }
        } else {
            Line {
                axis: Axis::Third,
                at: cut(self.third, other.third),
            }
        }
    }
}

// About how many spans of the length of `part` there are in `span`, or 0 where `part` covers it.
fn blocks_in(span: Span, part: Span) -> u32
    ensures { nat_lt 0 result ≡ not (spec.span_covers part span) }
{
    if cover(part, span) {
        return 0;
    }
    let length = span.hi.saturating_sub(span.lo);
    (length / part.hi.saturating_sub(part.lo).max(1)).max(1)
}

fn below(span: Span, at: u32) -> Span
    ensures { result ≡ spec.span_below at span }
{
    Span {
        lo: span.lo,
        hi: at.min(span.hi),
    }
}

fn above(span: Span, at: u32) -> Span
    ensures { result ≡ spec.span_above at span }
{
    Span {
        lo: at.max(span.lo),
        hi: span.hi,
    }
}

fn overlap(a: Span, b: Span) -> bool
    ensures { result ≡ spec.span_overlaps a b }
{
    a.lo.max(b.lo) < a.hi.min(b.hi)
}

fn cover(a: Span, b: Span) -> bool
    ensures { result ≡ spec.span_covers a b }
{
    a.lo <= b.lo && b.hi <= a.hi
}

// Near the middle of `span`, where spans of the length of `part` that begin at it and before it and behind it meet.
fn cut(span: Span, part: Span) -> u32
    requires overlaps { spec.span_overlaps span part ≡ true }
    requires partly { spec.span_covers part span ≡ false }
    ensures above { span.lo < result }
    ensures below { result < span.hi }
{
    let (lo, hi) = (u64::from(span.lo), u64::from(span.hi));
    let period = u64::from(part.hi - part.lo);
    let phase = u64::from(part.lo) % period;
    if span.hi == u32::MAX {
        let at = (lo + u64::from(part.hi)) / period * period + phase;
        if lo < at && lo + lo / 2 <= at && at < hi {
            return at as u32;
        }
        let at = 2 * u64::from(part.hi);
        if lo < at && at < hi {
            return at as u32;
        }
    }
    let at = (lo + hi) / 2 / period * period + phase;
    let margin = (hi - lo) / 4;
    if lo < at && lo + margin <= at && at + margin <= hi && at < hi {
        return at as u32;
    }
    span.lo + (span.hi - span.lo) / 2
}
