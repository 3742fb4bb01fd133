//! The bytes of the buffers of a form.

ghost use Rattle.std.specs.Prelude.{◌≡◌, ◌+◌, if◌then◌else◌, IfOk};
ghost use Rattle.sq_hoist.specs.Chosen.Arrays as arrays;
ghost use Rattle.sq_pipe.specs.Sums as sums;
ghost use Rattle.sq_pipe.specs.Greedy as spec;

use sq_hoist::{Choice, array_size, flag_at, is_moved, number_at};
use sq_spec::FormBody;
use std::alloc::AllocError;

/// A sum. One that has no room in 64 bits is answered as want of memory.
pub fn plus(a: u64, b: u64) -> Result<u64, AllocError>
    ensures { IfOk result (λ n. n ≡ a + b) }
{
    match a.checked_add(b) {
        Some(n) => Ok(n),
        None => Err(AllocError),
    }
}

fn has_buffer(c: &Choice, i: usize) -> bool
    ensures { result ≡ sums.has_buffer c.now i }
{
    !flag_at(c.in_place.as_slice(), i) || 0 < number_at(c.leaves.as_slice(), i)
}

// Of all arrays that have buffers, each once.
fn single_bytes(body: &FormBody, c: &Choice) -> Result<u64, AllocError>
    ensures { IfOk result (λ n. n ≡ sums.single_bytes body.now c.now) }
{
    let shapes = body.arrays.as_slice();
    let mut sum: u64 = 0;
    for (i, _) in shapes.iter().enumerate() {
        if has_buffer(c, i) {
            sum = plus(sum, array_size(shapes, i)?)?;
        }
    }
    Ok(sum)
}

/// Of those that a loop that overlaps its transfers has twice, each once.
pub fn moved_bytes(body: &FormBody, c: &Choice) -> Result<u64, AllocError>
    ensures { IfOk result (λ n. n ≡ spec.sizes_of body.now (arrays.others c.now)) }
{
    let shapes = body.arrays.as_slice();
    let mut sum: u64 = 0;
    for (i, _) in c.in_place.as_slice().iter().enumerate() {
        if is_moved(c, i) {
            sum = plus(sum, array_size(shapes, i)?)?;
        }
    }
    Ok(sum)
}

fn again(c: &Choice, moved: u64) -> u64
    ensures { result ≡ (if c.now.overlaps then moved else 0) }
{
    if c.overlaps { moved } else { 0 }
}

/// Of all buffers; `moved`: of those that a loop that overlaps its transfers has twice, each once.
#[tactic(auto, using(crate::proofs::Standing::standing_bytes))]
pub fn own_bytes(body: &FormBody, c: &Choice, moved: u64) -> Result<u64, AllocError>
    requires { moved ≡ spec.sizes_of body.now (arrays.others c.now) }
    ensures { IfOk result (λ n. n ≡ spec.sizes_of body.now (arrays.standing body.now c.now)) }
{
    if body.arrays.len() < c.in_place.len() {
        return Err(AllocError);
    }
    let once = single_bytes(body, c)?;
    plus(once, again(c, moved))
}
