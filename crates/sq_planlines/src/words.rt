//! Numbers of lines as the words that plans have. In sound lines each of them fits. One that doesn't becomes 0, so that
//! nothing is asked of the lines before the whole file is there.

ghost use Rattle.std.specs.Prelude.{◌≡◌, ◌+◌, ◌++◌, ◌≤◌, map, pos, length, IfOk};
ghost use Rattle.sq_planlines.specs.Narrow as narrow;

use sq_rect::Dims;
use sqlite_items::Items;
use std::alloc::{AllocError, Global};

/// A number of 32 bits.
#[tactic(auto, unfolding(crate::specs::Narrow::word))]
pub fn word(n: u64) -> u32
    ensures { result ≡ narrow.word n }
{
    if n < 1 << 32 { n as u32 } else { 0 }
}

/// A number of 63 bits.
#[tactic(auto, unfolding(crate::specs::Narrow::long))]
pub fn long(n: u64) -> i64
    ensures { result ≡ pos (narrow.long n) }
{
    if n < 1 << 63 { n as i64 } else { 0 }
}

/// Numbers of 32 bits.
pub fn words(alloc: Global, numbers: &[u64]) -> Result<Items<u32>, AllocError>
    ensures { IfOk result (λ ns. ns ≡ map narrow.word numbers.now) }
{
    let mut words = Items::new(alloc);
    for number in numbers {
        words.push(word(*number))?;
    }
    Ok(words)
}

// Further numbers, as many as there is room for.
fn more_dims(mut dims: Dims, numbers: &[u64]) -> Dims
    requires { length dims + length numbers.now ≤ 3 }
    ensures { result ≡ dims ++ map narrow.word numbers.now }
{
    let Some((number, rest)) = numbers.split_first() else {
        return dims;
    };
    dims.push(word(*number));
    more_dims(dims, rest)
}

/// One to three numbers: 0 where there are none, or too many.
pub fn dims_of(numbers: &[u64]) -> Dims
    ensures { result ≡ narrow.dims_of numbers.now }
{
    match numbers.split_first() {
        Some((first, rest)) if rest.len() <= 2 => more_dims(Dims::new(word(*first)), rest),
        _ => Dims::new(0),
    }
}
