//! The buffers that are in scope.

ghost use Rattle.std.specs.Prelude.{◌≡◌, ℕ, ◌+◌, ◌-◌, ◌++◌, [], ◌∷◌, IfOk, OnOk, length, take, get_or};
ghost use Rattle.sq_planevents.specs.Standing as spec;

use sqlite_items::Items;
use std::alloc::{AllocError, Global};
use std::marker::Model;

/// Buffers that scopes name, in the order in which they were entered. Contracts see the list of them.
#[derive(Drop)]
pub(crate) struct Scopes {
    named: Items<u64>,
    // How often each buffer of the file is named.
    counts: Items<u64>,
}

impl Model for Scopes {
    ghost use Rattle.std.specs.Prelude.{ℕ, List};
    ghost use Rattle.sq_planevents.specs.Standing.{AreCounts};

    ghost Value = { List ℕ };

    ghost view = { λ s. s.named };

    ghost invariant = { λ s. AreCounts s.named s.counts };
}

// Whether a number is one of a list.
fn has(numbers: &[u64], number: u64) -> bool
    ensures { result ≡ spec.has numbers.now number }
{
    for other in numbers {
        if *other == number {
            return true;
        }
    }
    false
}

// The count of a buffer; of one that isn't there it is 0.
fn count_of(counts: &[u64], buffer: u64) -> u64
    ensures { result ≡ get_or counts.now buffer 0 }
{
    counts.get(buffer as usize).copied().unwrap_or(0)
}

// Puts the count of a buffer, where the buffer is there.
fn put_count(counts: &mut Items<u64>, buffer: u64, count: u64)
    ensures { counts.new ≡ spec.with_count counts.old buffer count }
{
    let buffer = buffer as usize;
    if buffer < counts.len() {
        counts.set(buffer, count);
    }
}

// A count for each buffer.
fn no_counts(alloc: Global, buffers: usize) -> Result<Items<u64>, AllocError>
    ensures { IfOk result (λ counts. (b : ℕ) → get_or counts b 0 ≡ 0) }
{
    let counts = vec![in alloc; 0; buffers]?;
    Ok(Items::from_vec(counts))
}

impl Scopes {
    /// Nothing is in scope. A file has so many buffers.
    pub fn new(alloc: Global, buffers: usize) -> Result<Scopes, AllocError>
        ensures { IfOk result (λ s. s ≡ []) }
    {
        let counts = no_counts(alloc, buffers)?;
        Ok(Scopes {
            named: Items::new(alloc),
            counts,
        })
    }

    /// How many names have been entered.
    pub fn len(&self) -> usize
        ensures { result ≡ length self.now }
    {
        self.named.len()
    }

    /// Whether a buffer is in scope. Only a name without a buffer is looked for among all names.
    pub fn has(&self, buffer: u64) -> bool
        ensures { result ≡ spec.has self.now buffer }
    {
        if (buffer as usize) < self.counts.len() {
            return count_of(self.counts.as_slice(), buffer) != 0;
        }
        has(self.named.as_slice(), buffer)
    }

    /// A buffer comes into scope.
    pub fn enter(&mut self, buffer: u64) -> Result<(), AllocError>
        ensures { OnOk result (self.new ≡ self.old ++ buffer ∷ []) }
    {
        let count = count_of(self.counts.as_slice(), buffer);
        let more = count.checked_add(1).ok_or(AllocError)?;
        self.named.push(buffer)?;
        put_count(&mut self.counts, buffer, more);
        Ok(())
    }

    // The one that was entered last goes out of scope.
    fn leave_one(&mut self)
        ensures { self.new ≡ take (length self.old - 1) self.old }
    {
        match self.named.pop() {
            None => (),
            Some(buffer) => {
                let count = count_of(self.counts.as_slice(), buffer);
                put_count(&mut self.counts, buffer, count.saturating_sub(1));
            }
        }
    }

    /// All but the first so many go out of scope.
    pub fn leave(&mut self, count: usize)
        ensures { self.new ≡ take count self.old }
    {
        for _left in count..self.named.len() {
            self.leave_one();
        }
    }
}
