//! An array that is wanted of a file, or written.

use sq_num::Elem;
use sq_rect::Dims;
use sq_text::Name;

/// An array: its name, the type of its elements and its extents.
#[derive(Drop)]
pub struct Want<'a> {
    pub name: &'a Name,
    pub elem: Elem,
    pub extents: Dims,
}
