//! Whether arrays have names and buffers of their own, at the root, with room for them.

ghost use Rattle.std.specs.Prelude.{◌≡◌, [], IfOk, OnOk};
ghost use Rattle.std.specs.Option.{option_copied};
ghost use Rattle.sq_text.specs.Found.{firsts, noted, nothing_found};
ghost use Rattle.sq_text.specs.declared.code.Phase.TheVariants as phase;
ghost use Rattle.sq_planheads.specs.Arrays as spec;
ghost use Rattle.sq_planheads.specs.Extents as extents;

use crate::extents::elements_of;
use indexmap::IndexSet;
use sq_num::width;
use sq_plantext::{ArrayLine, BufferLine};
use sq_text::{Code, Fault, FirstFault, Name, Phase};
use sqlite_items::at;
use std::alloc::{AllocError, Global};

// Whether so many bytes are enough for an array.
fn has_room(array: &ArrayLine, bytes: u64) -> bool
    ensures { result ≡ spec.has_room array.now (extents.elements_of array.now.extents) bytes }
{
    match elements_of(array.extents.as_slice()) {
        None => false,
        Some(elements) => width(array.elem) as u64 * elements <= bytes,
    }
}

fn fits_in(array: &ArrayLine, buffer: Option<&BufferLine>) -> bool
    ensures { result ≡ spec.fits_in array.now (option_copied buffer.entry) }
{
    match buffer {
        None => false,
        Some(buffer) => buffer.level == 0 && has_room(array, buffer.size),
    }
}

fn code_of(is_first: bool, buffers: &[BufferLine], array: &ArrayLine) -> Option<Code>
    ensures { result ≡ spec.array_code is_first buffers.now array.now }
{
    if is_first && fits_in(array, at(buffers, array.buffer as usize)) {
        None
    } else {
        Some(Code::BadArray)
    }
}

// Whether a name isn't among these yet; it is from now on.
fn is_new_name(alloc: Global, names: &mut IndexSet<Name>, name: &Name) -> Result<bool, AllocError>
    ensures new { IfOk result (λ is_new. is_new ≡ spec.is_new_name names.old.keys name.now) }
    ensures names { OnOk result (names.new.keys ≡ spec.with_name names.old.keys name.now) }
{
    let name = name.copy(alloc)?;
    let is_new = names.insert(name)?;
    Ok(is_new)
}

// Whether a buffer isn't among these yet; it is from now on.
fn is_new_buffer(buffers: &mut IndexSet<u64>, buffer: u64) -> Result<bool, AllocError>
    ensures new { IfOk result (λ is_new. is_new ≡ spec.is_new_buffer buffers.old.keys buffer) }
    ensures buffers { OnOk result (buffers.new.keys ≡ spec.with_buffer buffers.old.keys buffer) }
{
    let is_new = buffers.insert(buffer)?;
    Ok(is_new)
}

/// The first fault of the arrays, each of which names one of these buffers.
pub(crate) fn first_array_fault(
    alloc: Global,
    buffers: &[BufferLine],
    arrays: &[ArrayLine],
) -> Result<Option<Fault>, AllocError>
    ensures { IfOk result (λ fault. fault ≡ (firsts (spec.array_breach buffers.now) (nothing_found phase.Plan)
        (spec.sites [] [] arrays.now)).fault) }
{
    let mut names = IndexSet::new(alloc);
    let mut taken = IndexSet::new(alloc);
    let mut first = FirstFault::new(alloc, Phase::Plan);
    for array in arrays {
        let is_named = is_new_name(alloc, &mut names, &array.name.name)?;
        let is_placed = is_new_buffer(&mut taken, array.buffer)?;
        let code = code_of(is_named && is_placed, buffers, array);
        first.note_name(code, array.name.place, &array.name.name)?;
    }
    Ok(first.finish())
}
