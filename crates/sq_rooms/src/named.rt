//! The buffers that the scopes of a plan name.

ghost use Rattle.std.specs.Prelude.{◌≡◌, ◌+◌, IfOk};

use sqlite_items::Items;
use std::alloc::AllocError;

/// A buffer that a scope names at a node. In the order in which the parts of each `Par` stand from right to left, the
/// scope has the numbers from one up to another: its own, and those of what stands in it.
#[derive(Clone, Copy, Debug, PartialEq, Eq)]
pub struct Named {
    pub node: u32,
    pub buffer: u32,
    pub first: u32,
    pub end: u32,
}

/// From left to right, those of a scope behind those in it.
pub type Names = Items<Named>;

/// The number behind so many more. A plan that names more buffers than there are numbers is want of memory.
pub(crate) fn behind(first: u32, more: usize) -> Result<u32, AllocError>
    ensures { IfOk result (λ n. n ≡ first + more) }
{
    let Ok(more) = u32::try_from(more) else {
        return Err(AllocError);
    };
    match first.checked_add(more) {
        Some(number) => Ok(number),
        None => Err(AllocError),
    }
}
