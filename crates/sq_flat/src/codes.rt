//! The codes of a resolved program's forms.

ghost use Rattle.std.specs.Prelude.{◌≡◌, Some, IfOk, IfSome};
ghost use Rattle.sq_flat.specs.Memory as memory;
ghost use Rattle.sq_flat.specs.Works as spec;

use crate::form::FormCode;
use sq_leaf::Shape;
use sq_num::width;
use sq_rect::{View, Views};
use sq_spec::{FormBody, Resolved, forms_are_those_found};
use sqlite_items::Items;
use std::alloc::{AllocError, Global};

/// Where arrays of these shapes stand one behind the other; None where they are more than 32, where one has no elements
/// or 2^32 and more, or where one would begin 2^32 bytes or more behind the first.
pub fn lined(shapes: &[Shape]) -> Option<Views>
    ensures { IfSome result (λ views. views ≡ memory.lined 0 shapes.now) }
{
    let mut views = Views::new();
    let mut end = 0u64;
    for shape in shapes {
        let elements = shape.extents.elements();
        if end >= 0x1_0000_0000 || elements == 0 || elements >= 0x1_0000_0000 {
            return None;
        }
        if views.as_slice().len() >= 32 {
            return None;
        }
        views.push(View::whole(end as u32, shape.elem, &shape.extents));
        end += width(shape.elem) as u64 * elements as u64;
    }
    Some(views)
}

fn code_of(body: FormBody) -> Option<FormCode>
    ensures { IfSome result (λ code. spec.body_in (Some code) ≡ body) }
{
    let FormBody { arrays, body } = body;
    match lined(arrays.as_slice()) {
        Some(views) => Some(FormCode { views, body }),
        None => None,
    }
}

/// The codes of all forms, by their numbers.
pub fn codes_of(alloc: Global, r: &Resolved<'_>) -> Result<Items<FormCode>, AllocError>
    ensures { IfOk result (λ codes. spec.AreCodes r.now.typed.now.tasks r.now.mapping.now.instances r.now.found.entries
        codes) }
{
    forms_are_those_found();
    let Ok(count) = u32::try_from(r.forms().len()) else {
        return Err(AllocError);
    };
    let mut codes = Items::new(alloc);
    for k in 0..count {
        let body = r.body(alloc, k)?;
        let Some(code) = code_of(body) else {
            return Err(AllocError);
        };
        codes.push(code)?;
    }
    Ok(codes)
}
