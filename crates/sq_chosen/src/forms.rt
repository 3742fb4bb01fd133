//! What is known of a form by its number.

ghost use Rattle.std.specs.Prelude.{◌≡◌, slice_get, IfOk};
ghost use Rattle.std.specs.Option.{option_copied};
ghost use Rattle.sq_chosen.specs.Forms as spec;

use sq_spec_laws::{FormBody, Instance, Resolved};
use sq_text::{Name, SpreadRule};
use sqlite_items::at;
use std::alloc::{AllocError, Global};

/// The number of a form in 32 bits.
pub fn form_number(form: usize) -> Result<u32, AllocError>
    ensures { IfOk result (λ n. n ≡ form) }
{
    match u32::try_from(form) {
        Ok(n) => Ok(n),
        Err(_) => Err(AllocError),
    }
}

/// The instance of a form.
pub fn instance_at<'a>(r: &Resolved<'a>, form: usize) -> Option<&'a Instance>
    ensures { option_copied result ≡ spec.instance_at r.now form }
{
    match at(r.forms(), form) {
        None => None,
        Some(f) => at(r.mapping().instances.as_slice(), f.instance as usize),
    }
}

/// The rule of a form's spread maps.
pub fn rule_at(r: &Resolved<'_>, form: usize) -> SpreadRule
    ensures { result ≡ spec.rule_by (spec.instance_at r.now form) }
{
    match instance_at(r, form) {
        None => SpreadRule::Cyclic,
        Some(x) => x.spread,
    }
}

/// The level of a form.
pub fn level_at(r: &Resolved<'_>, form: usize) -> u32
    ensures { result ≡ spec.level_by (slice_get r.now.forms form) }
{
    match at(r.forms(), form) {
        None => 0,
        Some(f) => f.level,
    }
}

/// The name of a form's instance.
pub fn name_at(alloc: Global, r: &Resolved<'_>, form: usize) -> Result<Name, AllocError>
    ensures { IfOk result (λ n. n ≡ spec.name_by (spec.instance_at r.now form)) }
{
    match instance_at(r, form) {
        None => Name::new(alloc, &[]),
        Some(x) => x.name.copy(alloc),
    }
}

/// Lets go what a form does.
pub fn drop_body(body: FormBody) {
    drop(body);
}
