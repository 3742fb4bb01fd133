//! The names of arrays.

ghost use Rattle.std.specs.Prelude.{◌≡◌, Some, get_or, slice_get, IfOk, []};
ghost use Rattle.std.specs.Option.{option_copied};
ghost use Rattle.sq_ir.specs.Leaf.Leaf.{arrays_of, local_names};
ghost use Rattle.sq_chosen.specs.SpecLaws.Needs.{variant_for};
ghost use Rattle.sq_chosen.specs.Forms.{instance_at as instance_in};
ghost use Rattle.sq_homes.specs.Drafts as spec;

use sq_ast::{Decl, Variant};
use sq_chosen::{Instance, Resolved, instance_at};
use sq_text::Name;
use sqlite_items::at;
use std::alloc::{AllocError, Global};

fn variant_of<'a>(r: &Resolved<'a>, x: &Instance) -> Option<&'a Variant>
    ensures { option_copied result ≡ variant_for r.now.typed.now.tasks (Some x.now) }
{
    match r.variant_number(&x.task, x.kind) {
        None => None,
        Some(number) => at(r.typed().program().tasks.as_slice(), number),
    }
}

fn local_name(decls: &[Decl], i: usize) -> Option<&Name>
    ensures { option_copied result ≡ slice_get (local_names decls.now) i }
{
    match decls {
        [] => None,
        [Decl::Local { name, .. }, more @ ..] => match i.checked_sub(1) {
            None => Some(name),
            Some(left) => local_name(more, left),
        },
        [_, more @ ..] => local_name(more, i),
    }
}

fn array_of(v: &Variant, i: usize) -> Option<&Name>
    ensures { option_copied result ≡ slice_get (arrays_of v.now) i }
{
    let params = v.params.as_slice();
    match at(params, i) {
        Some(p) => Some(&p.name),
        None => local_name(v.decls.as_slice(), i - params.len()),
    }
}

/// The name of a form's array: of a parameter, or of a local behind the parameters.
pub fn array_at(alloc: Global, r: &Resolved<'_>, form: usize, i: usize) -> Result<Name, AllocError>
    ensures { IfOk result (λ n. n ≡ get_or
        (spec.names_by (variant_for r.now.typed.now.tasks (instance_in r.now form))) i []) }
{
    let Some(x) = instance_at(r, form) else {
        return Err(AllocError);
    };
    let Some(v) = variant_of(r, x) else {
        return Err(AllocError);
    };
    let Some(name) = array_of(v, i) else {
        return Err(AllocError);
    };
    name.copy(alloc)
}
