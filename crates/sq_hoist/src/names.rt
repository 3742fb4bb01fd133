//! The names that notes give.

ghost use Rattle.std.specs.Prelude.{◌≡◌, IfOk};
ghost use Rattle.std.specs.Option.{option_copied};
ghost use Rattle.sq_spec.specs.Forms.Resolving.{entry_params};
ghost use Rattle.sq_chosen.specs.Forms as forms;
ghost use Rattle.sq_spec.specs.Forms.Tables as tables;
ghost use Rattle.sq_hoist.specs.Notes as spec;

use sq_ast::{Param, Variant};
use sq_chosen::instance_at;
use sq_spec::{Instance, Resolved};
use sq_text::Name;
use sqlite_items::at;
use std::alloc::{AllocError, Global};

fn variant_of<'a>(r: &Resolved<'a>, x: &Instance) -> Option<&'a Variant>
    ensures { option_copied result ≡ tables.variant_of r.now.typed.now.tasks x.now.task x.now.kind }
{
    match r.variant_number(&x.task, x.kind) {
        None => None,
        Some(number) => at(r.typed().program().tasks.as_slice(), number),
    }
}

fn params_of<'a>(r: &Resolved<'a>, form: usize) -> &'a [Param]
    ensures { result.now ≡ entry_params r.now.typed.now.tasks (forms.instance_at r.now form) }
{
    let Some(x) = instance_at(r, form) else {
        return &[];
    };
    match variant_of(r, x) {
        None => &[],
        Some(v) => v.params.as_slice(),
    }
}

/// The name of a form's parameter.
pub fn param_at(alloc: Global, r: &Resolved<'_>, form: usize, i: usize) -> Result<Name, AllocError>
    ensures { IfOk result (λ n. n ≡ spec.param_at r.now form i) }
{
    match at(params_of(r, form), i) {
        None => Name::new(alloc, &[]),
        Some(p) => p.name.copy(alloc),
    }
}
