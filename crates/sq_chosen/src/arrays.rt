//! The arrays of a form, and the sizes of their buffers.

ghost use Rattle.std.specs.Prelude.{◌≡◌, get_or, false, IfOk};
ghost use Rattle.sq_ir.specs.Rect.Extents.{product};
ghost use Rattle.sq_spec_laws.specs.Needs as needs;
ghost use Rattle.sq_placed.specs.Tables.{no_shape};
ghost use Rattle.sq_chosen.specs.Arrays as spec;

use crate::choice::Choice;
use sq_ast::{Elem, width};
use sq_ir::{Dims, Shape};
use sqlite_items::at;
use std::alloc::AllocError;

/// Whether a parameter is in place.
pub fn flag_at(flags: &[bool], i: usize) -> bool
    ensures { result ≡ get_or flags.now i false }
{
    match flags.get(i) {
        Some(flag) => *flag,
        None => false,
    }
}

/// How many loops a parameter leaves.
pub fn number_at(numbers: &[u32], i: usize) -> u32
    ensures { result ≡ get_or numbers.now i 0 }
{
    match numbers.get(i) {
        Some(n) => *n,
        None => 0,
    }
}

/// Whether a parameter is neither in place nor leaves a loop.
pub fn is_moved(c: &Choice, i: usize) -> bool
    ensures { result ≡ spec.is_moved c.now i }
{
    !flag_at(c.in_place.as_slice(), i) && number_at(c.leaves.as_slice(), i) == 0
}

// To a multiple of 8.
fn round(n: u64) -> Result<u64, AllocError>
    ensures { IfOk result (λ m. m ≡ needs.rounded n) }
{
    let Some(above) = n.checked_add(7) else {
        return Err(AllocError);
    };
    match (above / 8).checked_mul(8) {
        Some(m) => Ok(m),
        None => Err(AllocError),
    }
}

fn elements_of(extents: &Dims) -> Result<u64, AllocError>
    ensures { IfOk result (λ n. n ≡ product extents.now) }
{
    match u64::try_from(extents.elements()) {
        Ok(n) => Ok(n),
        Err(_) => Err(AllocError),
    }
}

// The bytes of an array's buffer. One that has no room in 64 bits is answered as want of memory.
fn size_of(elem: Elem, extents: &Dims) -> Result<u64, AllocError>
    ensures { IfOk result (λ n. n ≡ needs.size_of elem extents.now) }
{
    let elements = elements_of(extents)?;
    match (width(elem) as u64).checked_mul(elements) {
        Some(bytes) => round(bytes),
        None => Err(AllocError),
    }
}

/// The bytes of the buffer of a form's array, a multiple of 8. Those that have no room in 64 bits are answered as want of
/// memory.
pub fn array_size(shapes: &[Shape], i: usize) -> Result<u64, AllocError>
    ensures { IfOk result (λ n. n ≡ spec.shape_size (get_or shapes.now i no_shape)) }
{
    let Some(shape) = at(shapes, i) else {
        return Err(AllocError);
    };
    let size = size_of(shape.elem, &shape.extents)?;
    Ok(size)
}
