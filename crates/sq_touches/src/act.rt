//! What an event touches, as a whole.

ghost use Rattle.std.specs.Prelude.{◌≡◌, true, false, Some};
ghost use Rattle.sq_check_laws.specs.Touches.{same_numbers};
ghost use Rattle.sq_touches.specs.Acts.{AreNear, Depend, same_paths};

use crate::touch::{Touches, conflict_all};
use sqlite_items::Items;

/// What an event touches, and the path of a leaf call.
#[derive(Drop)]
pub struct Act {
    pub touches: Touches,
    pub path: Option<Items<u32>>,
}

// Whether two lists of numbers are one.
fn is_same(one: &[u32], other: &[u32]) -> bool
    ensures { result ≡ same_numbers one.now other.now }
{
    match one.split_first() {
        None => match other.split_first() {
            None => true,
            Some((_, _)) => false,
        },
        Some((first, rest)) => match other.split_first() {
            None => false,
            Some((number, more)) => *first == *number && is_same(rest, more),
        },
    }
}

// Whether two leaf calls have one path.
fn is_one_path(one: &Option<Items<u32>>, other: &Option<Items<u32>>) -> bool
    ensures { result ≡ same_paths one.now other.now }
{
    match one {
        None => false,
        Some(one) => match other {
            None => false,
            Some(other) => is_same(one.as_slice(), other.as_slice()),
        },
    }
}

impl Act {
    /// Whether two events may not be done in either order: there is a byte that they touch in ways that don't agree, or
    /// they are leaf calls of one path.
    #[tactic(auto, using(crate::proofs::Conflicts::depend_bytes, crate::proofs::Conflicts::depend_paths, crate::proofs::Conflicts::depend_none))]
    pub fn depends(&self, other: &Act) -> bool
        requires { AreNear self.now.touches × AreNear other.now.touches }
        ensures yes { result ≡ true → Depend self.now other.now }
        ensures none { result ≡ false → ¬ Depend self.now other.now }
    {
        if conflict_all(self.touches.as_slice(), other.touches.as_slice()) {
            return true;
        }
        is_one_path(&self.path, &other.path)
    }
}
