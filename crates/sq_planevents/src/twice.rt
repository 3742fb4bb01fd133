//! Whether a strided array gives one place to two of its elements.

ghost use Rattle.std.specs.Prelude.{◌≡◌, ◌+◌, ◌-◌, ◌*◌, ◌<◌, ◌^◌, true, false, suc, Some, length, slice_get};
ghost use Rattle.sq_planevents.specs.Twice as spec;

use sq_areas::Step;
use sqlite_items::Items;

// Where a turn stands.
#[tactic(auto, using(crate::proofs::Turns::turn_inside))]
fn turn(step: Step, at: u64, k: u64) -> u64
    requires { (k < step.count) × (at + (step.count - 1) * step.step < 2 ^ 63) }
    ensures { result ≡ at + k * step.step }
{
    at + k * step.step
}

// How far behind the first element the last one stands.
fn span_of(steps: &[Step]) -> u64
    requires { spec.span_of steps.now < 2 ^ 62 }
    ensures { result ≡ spec.span_of steps.now }
{
    let Some((first, rest)) = steps.split_first() else {
        return 0;
    };
    if first.count == 0 {
        return span_of(rest);
    }
    (first.count - 1) * first.step + span_of(rest)
}

// How far apart two numbers are.
fn between(x: u64, y: u64) -> u64
    ensures { result ≡ spec.between x y }
{
    if x < y { y - x } else { x - y }
}

// Whether so many places lie between two turns of a step.
fn leads(step: Step, far: u64) -> bool
    ensures { result ≡ spec.leads step far }
{
    if step.step == 0 {
        return far == 0 && step.count != 0;
    }
    far % step.step == 0 && far / step.step < step.count
}

// Whether two arrays, of which the one begins at x and the other at y, have an element at one place.
#[tactic(auto, using(crate::proofs::Turns::meet_empty, crate::proofs::Turns::apart_empty, crate::proofs::Turns::meet_last, crate::proofs::Turns::apart_last, crate::proofs::Turns::meets_start))]
fn meets(steps: &[Step], x: u64, y: u64) -> bool
    requires { (x + spec.span_of steps.now < 2 ^ 63) × (y + spec.span_of steps.now < 2 ^ 63) }
    ensures yes { result ≡ true → spec.Meet steps.now x y }
    ensures none { result ≡ false → ¬ spec.Meet steps.now x y }
{
    let Some((first, rest)) = steps.split_first() else {
        return x == y;
    };
    if rest.is_empty() {
        return leads(*first, between(x, y));
    }
    for k in 0..first.count {
        if meets(rest, turn(*first, x, k), y) {
            return true;
        }
        if meets(rest, x, turn(*first, y, k)) {
            return true;
        }
    }
    false
}

// Up to which turn those stand that are within reach of the first.
#[tactic(auto, using(crate::proofs::Turns::all_within, crate::proofs::Turns::some_within))]
fn turns_within(step: Step, reach: u64) -> u64
    ensures { spec.AreWithin step reach result }
{
    if step.step == 0 {
        return step.count;
    }
    let last = reach / step.step;
    if last < step.count {
        last + 1
    } else {
        step.count
    }
}

/// Whether two elements stand at one place. It is done soonest where a step passes the span of those behind it.
#[tactic(auto, using(crate::proofs::Turns::none_twice, crate::proofs::Turns::no_twin_start))]
pub(crate) fn is_twice(steps: &[Step]) -> bool
    requires { spec.span_of steps.now < 2 ^ 62 }
    ensures yes { result ≡ true → spec.IsTwice steps.now }
    ensures none { result ≡ false → ¬ spec.IsTwice steps.now }
{
    let Some((first, rest)) = steps.split_first() else {
        return false;
    };
    let turns = turns_within(*first, span_of(rest));
    for k in 1..turns {
        if meets(rest, turn(*first, 0, k), 0) {
            return true;
        }
    }
    is_twice(rest)
}

// Two steps change places where the first one has more turns.
fn settle(steps: &mut Items<Step>, i: usize, j: usize)
    requires next { j ≡ suc i }
    requires within { j < length steps.old }
    ensures { spec.IsOrder steps.old steps.new }
{
    let first = step_at(steps.as_slice(), i);
    let second = step_at(steps.as_slice(), j);
    if second.count == 0 || first.count <= second.count {
        return;
    }
    steps.set(i, second);
    steps.set(j, first);
}

fn step_at(steps: &[Step], i: usize) -> Step
    requires { i < length steps.now }
    ensures { slice_get steps.now i ≡ Some result }
{
    steps[i]
}

/// The step with most turns comes last: of the last one the turns need not be tried one by one.
pub(crate) fn order(steps: &mut Items<Step>)
    ensures { spec.IsOrder steps.old steps.new }
{
    for j in 1..steps.len() {
        settle(steps, j - 1, j);
    }
}
