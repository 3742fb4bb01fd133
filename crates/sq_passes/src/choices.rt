//! What lowering chooses, and what dropping copies does.

ghost use Rattle.std.specs.Prelude.{◌≡◌, map, IfOk};
ghost use Rattle.sq_passes.specs.Choices as spec;

use sq_forms::Form;
use sq_homes::Choice;
use sqlite_items::Items;
use std::alloc::{AllocError, Global};

// With what is in place nothing else is chosen.
fn staying(alloc: Global, in_place: Items<bool>) -> Choice
    ensures { result ≡ spec.staying in_place }
{
    Choice {
        in_place,
        leaves: Items::new(alloc),
        overlaps: false,
    }
}

// In a buffer, whether its form has it in place or not.
fn in_buffer(_in_place: bool) -> bool
    ensures { result ≡ spec.in_buffer _in_place }
{
    false
}

// As many flags, none of them set.
fn no_flags(alloc: Global, flags: &[bool]) -> Result<Items<bool>, AllocError>
    ensures { IfOk result (λ fs. fs ≡ map spec.in_buffer flags.now) }
{
    let mut out = Items::new(alloc);
    for flag in flags {
        out.push(in_buffer(*flag))?;
    }
    Ok(out)
}

fn in_buffers(alloc: Global, form: &Form) -> Result<Choice, AllocError>
    ensures { IfOk result (λ c. c ≡ spec.in_buffers form.now) }
{
    let in_place = no_flags(alloc, form.in_place.as_slice())?;
    Ok(staying(alloc, in_place))
}

/// Each argument of these forms in a buffer.
pub fn all_in_buffers(alloc: Global, forms: &[Form]) -> Result<Items<Choice>, AllocError>
    ensures { IfOk result (λ cs. cs ≡ map spec.in_buffers forms.now) }
{
    let mut out = Items::new(alloc);
    for form in forms {
        out.push(in_buffers(alloc, form)?)?;
    }
    Ok(out)
}

fn in_place(alloc: Global, form: &Form) -> Result<Choice, AllocError>
    ensures { IfOk result (λ c. c ≡ spec.in_place form.now) }
{
    let in_place = Items::from_slice(alloc, form.in_place.as_slice())?;
    Ok(staying(alloc, in_place))
}

/// The arguments in place that these forms have there.
pub fn all_in_place(alloc: Global, forms: &[Form]) -> Result<Items<Choice>, AllocError>
    ensures { IfOk result (λ cs. cs ≡ map spec.in_place forms.now) }
{
    let mut out = Items::new(alloc);
    for form in forms {
        out.push(in_place(alloc, form)?)?;
    }
    Ok(out)
}
