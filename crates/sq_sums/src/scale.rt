//! What the buffers of a scope weigh.

ghost use Rattle.std.specs.Prelude.{◌≡◌, ◌+◌, ◌<◌, length};
ghost use Rattle.std.specs.List.{slice_get};
ghost use Rattle.sq_nests.specs.Stacks.{capped};
ghost use Rattle.sq_nests.specs.Drafts.{size_in};
ghost use Rattle.sq_nests.specs.Weights as weights;
ghost use Rattle.sq_nests.specs.Weights.{is_again, weigh};
ghost use Rattle.sq_sums.specs.Scales.{weight_at};

use sq_ir::Buffer;

/// What buffers weigh, and whether those of one instance and one array weigh once.
#[derive(Clone, Copy, Drop)]
pub(crate) struct Scale<'a> {
    pub(crate) buffers: &'a [Buffer],
    pub(crate) once: bool,
}

/// A sum that stops at 2^64 - 1.
pub(crate) fn capped_sum(a: u64, b: u64) -> u64
    ensures { result ≡ capped (a + b) }
{
    a.saturating_add(b)
}

// Whether a buffer of the same instance and array is among these.
fn is_again(buffers: &[Buffer], seen: &[u32], b: u32) -> bool
    ensures { result ≡ is_again buffers.now seen.now b }
{
    match seen {
        [] => false,
        [c, more @ ..] => same_array(buffers, *c, b) || is_again(buffers, more, b),
    }
}

// Whether two buffers hold one array of one instance.
fn same_array(buffers: &[Buffer], b: u32, c: u32) -> bool
    ensures { result ≡ weights.same_array (slice_get buffers.now b) (slice_get buffers.now c) }
{
    match sqlite_items::at(buffers, b as usize) {
        None => false,
        Some(x) => match sqlite_items::at(buffers, c as usize) {
            None => false,
            Some(y) => x.instance == y.instance && x.array == y.array,
        },
    }
}

// The size of a buffer.
fn size_of(buffers: &[Buffer], b: u32) -> u64
    ensures { result ≡ size_in buffers.now b }
{
    match sqlite_items::at(buffers, b as usize) {
        None => 0,
        Some(buffer) => buffer.size,
    }
}

// What the buffer at a place in a scope weighs.
fn weight_at(scale: &Scale<'_>, named: &[u32], i: usize) -> u64
    requires { i < length named.now }
    ensures { result ≡ weight_at scale.now.buffers.now scale.now.once named.now i }
{
    let b = named[i];
    if scale.once && is_again(scale.buffers, &named[..i], b) {
        0
    } else {
        size_of(scale.buffers, b)
    }
}

/// What a scope weighs; 2^64 - 1 stands for all that passes it.
pub(crate) fn weight_of(scale: &Scale<'_>, named: &[u32]) -> u64
    ensures { result ≡ capped (weigh scale.now.buffers.now scale.now.once named.now) }
{
    let mut sum: u64 = 0;
    for i in 0..named.len() {
        sum = sum.saturating_add(weight_at(scale, named, i));
    }
    sum
}
