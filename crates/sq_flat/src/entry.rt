//! The entry of a resolved program: the shapes of its parameters, and its call.

ghost use Rattle.std.specs.Prelude.{◌≡◌, false, slice_get, IfOk, IfSome};
ghost use Rattle.sq_spec.specs.Works.{param_shapes, entry_arguments, whole as all_of};
ghost use Rattle.sq_flat.specs.Held as spec;

use sq_ast::Param;
use sq_blocks::{Argument, whole};
use sq_leaf::Shape;
use sq_rect::Dims;
use sq_spec::{CallInstance, Resolved, forms_are_those_found};
use sqlite_items::{Items, at};
use std::alloc::{AllocError, Global};

fn entry_extents<'a>(r: &'a Resolved<'_>) -> Option<&'a [Dims]>
    ensures { IfSome result (λ list. list.now ≡ spec.extents_in (slice_get r.now.found.entries 0)) }
{
    forms_are_those_found();
    match at(r.forms(), 0) {
        Some(form) => Some(form.extents.as_slice()),
        None => None,
    }
}

fn shapes_of(alloc: Global, params: &[Param], extents: &[Dims]) -> Result<Items<Shape>, AllocError>
    ensures { IfOk result (λ shapes. shapes ≡ param_shapes params.now 0 extents.now) }
{
    let mut shapes = Items::new(alloc);
    for (i, p) in params.iter().enumerate() {
        let Some(dims) = at(extents, i) else {
            return Err(AllocError);
        };
        shapes.push(Shape {
            elem: p.elem,
            extents: dims.copy(),
        })?;
    }
    Ok(shapes)
}

/// The shapes of the entry's parameters.
pub fn entry_shapes(alloc: Global, r: &Resolved<'_>) -> Result<Items<Shape>, AllocError>
    ensures { IfOk result (λ shapes. shapes ≡ spec.entry_shapes r.now.typed.now.tasks r.now.mapping.now
        r.now.found.entries) }
{
    let Some(extents) = entry_extents(r) else {
        return Err(AllocError);
    };
    let shapes = shapes_of(alloc, r.entry_params(), extents)?;
    Ok(shapes)
}

// All of the i-th array.
fn argument(i: usize, p: &Param, extents: &Dims) -> Option<Argument>
    ensures { IfSome result (λ a. a ≡ record {
      mode = p.now.mode;
      is_reduced = false;
      array = i;
      rect = all_of
          extents.now;
    }) }
{
    let rect = whole(extents)?;
    let Ok(array) = u32::try_from(i) else {
        return None;
    };
    Some(Argument {
        mode: p.mode,
        is_reduced: false,
        array,
        rect,
    })
}

// Whole arrays, one for each parameter.
fn arguments(
    alloc: Global,
    params: &[Param],
    extents: &[Dims],
) -> Result<Items<Argument>, AllocError>
    ensures { IfOk result (λ args. args ≡ entry_arguments params.now 0 extents.now) }
{
    let mut args = Items::new(alloc);
    for (i, p) in params.iter().enumerate() {
        let Some(dims) = at(extents, i) else {
            return Err(AllocError);
        };
        let Some(a) = argument(i, p, dims) else {
            return Err(AllocError);
        };
        args.push(a)?;
    }
    Ok(args)
}

/// The call of the entry with the arrays of its parameters.
pub fn entry_call(alloc: Global, r: &Resolved<'_>) -> Result<CallInstance, AllocError>
    ensures { IfOk result (λ call. call ≡ record {
      form = 0;
      args = spec.entry_args r.now.typed.now.tasks
          r.now.mapping.now r.now.found.entries;
    }) }
{
    let Some(extents) = entry_extents(r) else {
        return Err(AllocError);
    };
    let args = arguments(alloc, r.entry_params(), extents)?;
    Ok(CallInstance { form: 0, args })
}
