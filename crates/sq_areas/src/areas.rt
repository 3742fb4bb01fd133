//! Where the bytes of strided views stand, and whether two views share one.

ghost use Rattle.std.specs.Prelude.{◌≡◌, ◌+◌, ◌*◌, ◌<◌, ◌≤◌, ◌^◌, true, false};
ghost use Rattle.sq_areas.specs.Areas as spec;

use crate::residues::are_apart;
use sqlite_items::Items;

/// So many turns, of which each begins so many bytes behind the one before.
#[derive(Clone, Copy, Debug, PartialEq, Eq, Drop)]
pub struct Step {
    pub count: u64,
    pub step: u64,
}

/// Runs of bytes. The first begins at a byte, the others in the turns of the steps, the outermost first.
#[derive(Drop)]
pub struct Area {
    pub at: u64,
    pub run: u64,
    pub steps: Items<Step>,
}

/// Turns from one up to another.
#[derive(Clone, Copy, Debug, PartialEq, Eq)]
struct Turns {
    from: u64,
    to: u64,
}

impl Step {
    // Where a turn begins.
    #[tactic(auto, using(crate::proofs::Bytes::turn_inside))]
    fn turn(self, at: u64, t: u64) -> u64
        requires { (t < self.count) × (at + self.count * self.step < 2 ^ 63) }
        ensures { result ≡ at + t * self.step }
    {
        at + t * self.step
    }

    // The turns of which a byte may lie from lo up to hi. Each reaches over so many bytes.
    #[tactic(auto, using(crate::proofs::Bytes::all_turns, crate::proofs::Bytes::some_turns))]
    fn turns(self, at: u64, reach: u64, lo: u64, hi: u64) -> Turns
        requires { (at + reach < 2 ^ 63) × (lo < 2 ^ 63) }
        ensures within { result.to ≤ self.count }
        ensures all { spec.HaveAll self at reach lo hi result.from result.to }
    {
        if self.step == 0 {
            return Turns {
                from: 0,
                to: self.count,
            };
        }
        let from = self.first_turn(at + reach, lo);
        let to = self.last_turn(at, hi);
        Turns { from, to }
    }

    // The first turn that doesn't end at lo or before, where the first turn of all ends at a byte.
    #[tactic(auto, using(crate::proofs::Bytes::ends_before, crate::proofs::Bytes::ends_none))]
    fn first_turn(self, end: u64, lo: u64) -> u64
        requires { (0 < self.step) × (lo < 2 ^ 63) }
        ensures { spec.EndsBefore self end lo result }
    {
        if lo < end {
            0
        } else {
            (lo - end) / self.step + 1
        }
    }

    // The first turn that begins at hi or behind, or the count.
    #[tactic(auto, using(crate::proofs::Bytes::begins_behind, crate::proofs::Bytes::none_behind, crate::proofs::Bytes::all_behind))]
    fn last_turn(self, at: u64, hi: u64) -> u64
        requires { 0 < self.step }
        ensures within { result ≤ self.count }
        ensures behind { spec.BeginsBehind self at hi result }
    {
        if hi <= at {
            return 0;
        }
        let last = (hi - at - 1) / self.step;
        if last < self.count {
            last + 1
        } else {
            self.count
        }
    }
}

// Over how many bytes the turns reach, at most.
fn reach_of(steps: &[Step], run: u64) -> u64
    requires { spec.reach_of steps.now run < 2 ^ 63 }
    ensures { result ≡ spec.reach_of steps.now run }
{
    let Some((first, rest)) = steps.split_first() else {
        return run;
    };
    first.count * first.step + reach_of(rest, run)
}

// Whether one of the bytes from lo up to hi is in the runs.
fn meets_run(lo: u64, hi: u64, at: u64, run: u64, steps: &[Step]) -> bool
    requires { (at + spec.reach_of steps.now run < 2 ^ 63) × (lo < 2 ^ 63) }
    ensures yes { result ≡ true → spec.MeetRun lo hi at run steps.now }
    ensures none { result ≡ false → ¬ spec.MeetRun lo hi at run steps.now }
{
    let Some((first, rest)) = steps.split_first() else {
        return lo.max(at) < hi.min(at + run);
    };
    let turns = first.turns(at, reach_of(rest, run), lo, hi);
    for t in turns.from..turns.to {
        if meets_run(lo, hi, first.turn(at, t), run, rest) {
            return true;
        }
    }
    false
}

// Whether one of the runs has a byte of the area.
fn meets_area(at: u64, run: u64, steps: &[Step], other: &Area) -> bool
    requires here { at + spec.reach_of steps.now run < 2 ^ 63 }
    requires there { other.now.at + spec.reach_of other.now.steps other.now.run < 2 ^ 63 }
    ensures yes { result ≡ true → spec.Share at run steps.now other.now }
    ensures none { result ≡ false → ¬ spec.Share at run steps.now other.now }
{
    let Some((first, rest)) = steps.split_first() else {
        return meets_run(at, at + run, other.at, other.run, other.steps.as_slice());
    };
    let end = other.at + reach_of(other.steps.as_slice(), other.run);
    let turns = first.turns(at, reach_of(rest, run), other.at, end);
    for t in turns.from..turns.to {
        if meets_area(first.turn(at, t), run, rest, other) {
            return true;
        }
    }
    false
}

impl Area {
    // Where what the runs reach over ends.
    fn end(&self) -> u64
        requires { self.now.at + spec.reach_of self.now.steps self.now.run < 2 ^ 63 }
        ensures { result ≡ self.now.at + spec.reach_of self.now.steps self.now.run }
    {
        self.at + reach_of(self.steps.as_slice(), self.run)
    }

    // The same as `meets`, by going over the runs.
    fn meets_somewhere(&self, other: &Area) -> bool
        requires here { self.now.at + spec.reach_of self.now.steps self.now.run < 2 ^ 63 }
        requires there { other.now.at + spec.reach_of other.now.steps other.now.run < 2 ^ 63 }
        ensures yes { result ≡ true → spec.Share self.now.at self.now.run self.now.steps other.now }
        ensures none { result ≡ false → ¬ spec.Share self.now.at self.now.run self.now.steps other.now }
    {
        meets_area(self.at, self.run, self.steps.as_slice(), other)
    }

    /// Whether a byte is in both areas. Runs are looked at only where what they reach over meets, and where they don't
    /// lie apart by their places modulo what all steps are multiples of.
    #[tactic(auto, using(crate::proofs::Apart::lie_apart))]
    pub fn meets(&self, other: &Area) -> bool
        requires here { self.now.at + spec.reach_of self.now.steps self.now.run < 2 ^ 63 }
        requires there { other.now.at + spec.reach_of other.now.steps other.now.run < 2 ^ 63 }
        ensures yes { result ≡ true → spec.Share self.now.at self.now.run self.now.steps other.now }
        ensures none { result ≡ false → ¬ spec.Share self.now.at self.now.run self.now.steps other.now }
    {
        if self.end() <= other.at {
            return false;
        }
        if other.end() <= self.at {
            return false;
        }
        if are_apart(self, other) {
            return false;
        }
        self.meets_somewhere(other)
    }
}
