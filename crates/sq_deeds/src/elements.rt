//! Elements of arrays in a memory, by their first bytes.

ghost use Rattle.std.specs.Prelude.{◌≡◌, ◌+◌, ◌≤◌, length};
ghost use Rattle.sq_num.specs.Elements.{width};
ghost use Rattle.sq_leaf.specs.Spots as running;

use sq_num::{Elem, load_elem, store_elem, width};

/// The number that is stored at a spot.
#[inline(always)]
pub fn load(elem: Elem, at: usize, bytes: &[u8]) -> i64
    requires { at + width elem ≤ length bytes.now }
    ensures { result ≡ running.load (record { elem = elem; at = at }) bytes.now }
{
    load_elem(elem, &bytes[at..at + width(elem)])
}

/// Stores a number, cut to the type.
#[inline(always)]
pub fn store(elem: Elem, at: usize, value: i64, bytes: &mut [u8])
    requires { at + width elem ≤ length bytes.old }
    ensures { bytes.new ≡ running.store (record { elem = elem; at = at }) value bytes.old }
{
    store_elem(elem, value, &mut bytes[at..at + width(elem)]);
}
