//! The arrays of a plan file.

ghost use Rattle.std.specs.Prelude.{◌≡◌, ◌++◌, ◌∷◌, [], drop, length, IfOk, OnOk};
ghost use Rattle.sq_planfile.specs.File as file;

use sq_ast::{Mode, Param};
use sq_num::Elem;
use sq_rect::Dims;
use sq_text::Name;
use sqlite_items::Items;
use std::alloc::{AllocError, Global};

/// An array of the entry, and the number of its buffer.
#[derive(Drop)]
pub struct EntryArray {
    pub mode: Mode,
    pub elem: Elem,
    pub name: Name,
    pub extents: Dims,
    pub buffer: u32,
}

pub type EntryArrays = Items<EntryArray>;

fn entry_array(
    alloc: Global,
    param: &Param,
    extents: &Dims,
    buffer: u32,
) -> Result<EntryArray, AllocError>
    ensures { IfOk result (λ a. a ≡ record {
      mode = param.now.mode;
      elem = param.now.elem;
      name = param.now.name;
      extents = extents.now;
      buffer = buffer;
    }) }
{
    let name = param.name.copy(alloc)?;
    Ok(EntryArray {
        mode: param.mode,
        elem: param.elem,
        name,
        extents: extents.copy(),
        buffer,
    })
}

/// The arrays of these parameters, with the extents and the buffer of each.
pub fn entry_arrays(
    alloc: Global,
    params: &[Param],
    extents: &[Dims],
    buffers: &[u32],
) -> Result<EntryArrays, AllocError>
    requires extents { length extents.now ≡ length params.now }
    requires buffers { length buffers.now ≡ length params.now }
    ensures { IfOk result (λ arrays. arrays ≡ file.entry_arrays params.now extents.now buffers.now) }
{
    let mut arrays = Items::new(alloc);
    for (i, param) in params.iter().enumerate() {
        let array = entry_array(alloc, param, &extents[i], buffers[i])?;
        arrays.push(array)?;
    }
    Ok(arrays)
}
