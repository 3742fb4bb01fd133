//! How many elements an array has.

ghost use Rattle.std.specs.Prelude.{◌≡◌, ◌≤◌, ◌^◌, IfSome};
ghost use Rattle.sq_planheads.specs.Extents as spec;

const MOST_EXTENT: u64 = 1 << 24;

const MOST_ELEMENTS: u64 = 1 << 26;

/// Whether an array may have so many dimensions.
pub(crate) fn are_few(dimensions: usize) -> bool
    ensures { result ≡ spec.are_few dimensions }
{
    0 < dimensions && dimensions <= 3
}

/// The elements of an array of so many with one more dimension, within the limits.
pub(crate) fn widened(elements: u64, extent: u64) -> Option<u64>
    requires { elements ≤ 2 ^ 26 }
    ensures value { result ≡ spec.widened elements extent }
    ensures within { IfSome result (λ n. n ≤ 2 ^ 26) }
{
    if extent == 0 || MOST_EXTENT < extent {
        return None;
    }
    let elements = elements * extent;
    if MOST_ELEMENTS < elements {
        return None;
    }
    Some(elements)
}

/// The elements of an array of these extents, within the limits.
pub(crate) fn elements_of(extents: &[u64]) -> Option<u64>
    ensures value { result ≡ spec.elements_of extents.now }
    ensures within { IfSome result (λ n. n ≤ 2 ^ 26) }
{
    if !are_few(extents.len()) {
        return None;
    }
    let mut elements = 1;
    for extent in extents {
        elements = widened(elements, *extent)?;
    }
    Some(elements)
}
