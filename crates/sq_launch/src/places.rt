//! Where the arrays of an entry stand in the root's memory.

ghost use Rattle.std.specs.Prelude.{◌≡◌, ◌≤◌, ◌*◌, ◌^◌, IfOk};
ghost use Rattle.sq_num.specs.Elements.{width};
ghost use Rattle.sq_rect.specs.Extents.{product};
ghost use Rattle.sq_ir.specs.Plans.{setting_of};
ghost use Rattle.sq_launch.specs.Arrays as spec;

use sq_ir::Plan;
use sq_num::{Elem, width};
use sq_planfile::EntryArray;
use sq_rect::Dims;
use sq_root::Place;
use std::alloc::{AllocError, Global};

// The offset of a buffer.
fn offset_of(plan: &Plan, buffer: u32) -> usize
    ensures { result ≡ (setting_of plan.now).offset buffer }
{
    let offsets = plan.offsets.as_slice();
    let buffer = buffer as usize;
    if buffer < offsets.len() {
        offsets[buffer] as usize
    } else {
        0
    }
}

// How many bytes an array has.
fn bytes_of(elem: Elem, extents: &Dims) -> usize
    requires { product extents.now ≤ 2 ^ 26 }
    ensures { result ≡ product extents.now * width elem }
{
    extents.elements() as usize * width(elem)
}

/// The place of an array.
pub(crate) fn place_of(plan: &Plan, array: &EntryArray) -> Place
    requires { product array.now.extents ≤ 2 ^ 26 }
    ensures { result ≡ spec.place_of plan.now array.now }
{
    Place {
        at: offset_of(plan, array.buffer),
        size: bytes_of(array.elem, &array.extents),
    }
}

/// The places of the arrays that are read.
pub(crate) fn read_places(
    alloc: Global,
    plan: &Plan,
    arrays: &[EntryArray],
) -> Result<Vec<Place>, AllocError>
    requires { spec.AreSmall arrays.now }
    ensures { IfOk result (λ places. places.items ≡ spec.read_places plan.now arrays.now) }
{
    let mut places = Vec::new(alloc);
    for array in arrays {
        if array.mode.is_read() {
            places.push(place_of(plan, array))?;
        }
    }
    Ok(places)
}
