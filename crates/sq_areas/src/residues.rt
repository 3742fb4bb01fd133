//! Areas that lie apart by their places modulo a number.

ghost use Rattle.std.specs.Prelude.{◌≡◌, ◌+◌, ◌<◌, ◌≤◌, ◌^◌, ◌%◌, true};
ghost use Rattle.sq_areas.specs.Residues.{DividesBoth, DividesAll, LieApart};

use crate::areas::{Area, Step};

// A number that divides both.
#[tactic(auto, using(crate::proofs::Apart::both_first))]
fn common(a: u64, b: u64) -> u64
    ensures { DividesBoth result a b }
{
    if b == 0 {
        return a;
    }
    common(b, a % b)
}

// A number that divides this one and all steps.
#[tactic(auto, using(crate::proofs::Apart::all_empty))]
fn common_of(number: u64, steps: &[Step]) -> u64
    ensures { DividesAll result number steps.now }
{
    let Some((first, rest)) = steps.split_first() else {
        return number;
    };
    common_of(common(number, first.step), rest)
}

// The place of a byte modulo a number.
#[tactic(auto, using(crate::proofs::Apart::place_below))]
fn place_in(at: u64, modulus: u64) -> u64
    requires { 0 < modulus }
    ensures is { result ≡ at % modulus }
    ensures below { result < modulus }
{
    at % modulus
}

// Whether a run from a place on ends before another begins, and that one before the first begins again.
fn is_before(p: u64, run: u64, q: u64, other: u64, modulus: u64) -> bool
    requires places { (p < modulus) × (q < modulus) }
    requires small { (modulus < 2 ^ 62) × (run < 2 ^ 62) × (other < 2 ^ 62) }
    ensures { result ≡ true → (p + run ≤ q) × (q + other ≤ p + modulus) }
{
    p + run <= q && q + other <= p + modulus
}

/// Whether the areas have no byte in common since, modulo what all steps are multiples of, their runs lie apart.
#[tactic(auto, using(crate::proofs::Apart::apart_first, crate::proofs::Apart::apart_last))]
pub(crate) fn are_apart(one: &Area, other: &Area) -> bool
    ensures { result ≡ true → LieApart one.now other.now }
{
    let shared = common_of(0, one.steps.as_slice());
    let modulus = common_of(shared, other.steps.as_slice());
    if modulus == 0 || modulus >= LARGE || one.run >= LARGE || other.run >= LARGE {
        return false;
    }
    let p = place_in(one.at, modulus);
    let q = place_in(other.at, modulus);
    if is_before(p, one.run, q, other.run, modulus) {
        return true;
    }
    is_before(q, other.run, p, one.run, modulus)
}

// Numbers below it have sums that are words.
const LARGE: u64 = 1 << 62;
