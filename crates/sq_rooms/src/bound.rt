//! Names in the order of nodes, and at one node in that of buffers.

ghost use Rattle.std.specs.Prelude.{◌≡◌, ◌+◌, ◌<◌, ◌^◌};
ghost use Rattle.sq_rooms.specs.Bounds as spec;

use crate::named::Named;

/// A node, and a buffer of it or what stands behind all of them.
#[derive(Clone, Copy, Debug, PartialEq, Eq)]
pub struct Bound {
    pub node: u32,
    pub buffer: u64,
}

/// Whether a name stands below a bound.
pub(crate) fn is_below(name: Named, bound: Bound) -> bool
    ensures { result ≡ spec.is_below name bound }
{
    name.node < bound.node || (name.node == bound.node && u64::from(name.buffer) < bound.buffer)
}

/// Whether a name stands below another one.
pub(crate) fn comes_first(name: Named, other: Named) -> bool
    ensures { result ≡ spec.comes_first name.node name.buffer other.node other.buffer }
{
    name.node < other.node || (name.node == other.node && name.buffer < other.buffer)
}

/// The bound behind a name.
pub(crate) fn bound_behind(name: Named) -> Bound
    ensures is { result ≡ record { node = name.node; buffer = name.buffer + 1 } }
    ensures small { (result.node < 2 ^ 32) × (result.buffer < 2 ^ 64) }
{
    Bound {
        node: name.node,
        buffer: u64::from(name.buffer) + 1,
    }
}
