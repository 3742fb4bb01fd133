//! The arguments of the entry: all of its arrays.

ghost use Rattle.std.specs.Prelude.{◌≡◌, false, IfOk};
ghost use Rattle.sq_chosen.specs.SpecLaws.Spec.Works.{entry_arguments, whole as all_of};
ghost use Rattle.sq_homes.specs.Drafts as spec;

use sq_ast::Param;
use sq_chosen::Resolved;
use sq_ir::{Argument, Dims, whole};
use sqlite_items::{Items, at};
use std::alloc::{AllocError, Global};

// All of the i-th array.
fn argument(i: usize, p: &Param, extents: &Dims) -> Result<Argument, AllocError>
    ensures { IfOk result (λ a. a ≡
        record { mode = p.now.mode; is_reduced = false; array = i; rect = all_of extents.now }) }
{
    let Some(rect) = whole(extents) else {
        return Err(AllocError);
    };
    let Ok(array) = u32::try_from(i) else {
        return Err(AllocError);
    };
    Ok(Argument {
        mode: p.mode,
        is_reduced: false,
        array,
        rect,
    })
}

fn arguments(
    alloc: Global,
    params: &[Param],
    extents: &[Dims],
) -> Result<Items<Argument>, AllocError>
    ensures { IfOk result (λ args. args ≡ entry_arguments params.now 0 extents.now) }
{
    let mut args = Items::new(alloc);
    for (i, p) in params.iter().enumerate() {
        let Some(dims) = at(extents, i) else {
            return Err(AllocError);
        };
        args.push(argument(i, p, dims)?)?;
    }
    Ok(args)
}

/// Whole arrays, one for each parameter of the entry.
pub fn args_of(alloc: Global, r: &Resolved<'_>) -> Result<Items<Argument>, AllocError>
    ensures { IfOk result (λ args. args ≡ spec.args_of r.now) }
{
    let Some(form) = at(r.forms(), 0) else {
        return Err(AllocError);
    };
    let args = arguments(alloc, r.entry_params(), form.extents.as_slice())?;
    Ok(args)
}
