//! The buffers of a draft.

ghost use Rattle.std.specs.Prelude.{◌≡◌, ◌++◌, [], ◌∷◌, map, IfOk, OnOk};
ghost use Rattle.sq_chosen.specs.Arrays.{standing as standing_in};
ghost use Rattle.sq_chosen.specs.Forms as forms;
ghost use Rattle.sq_homes.specs.Numbering as numbering;
ghost use Rattle.sq_homes.specs.Drafts as spec;

use crate::homes::{behind, form_homes};
use crate::names::array_at;
use crate::order::{params_of, standing};
use sq_chosen::{
    Body, Choice, FormBody, Resolved, array_size, choice_at, level_at, name_at, rule_at,
};
use sq_draft::Homes;
use sq_ir::{Buffer, Buffers};
use sqlite_items::Items;
use std::alloc::{AllocError, Global};

fn buffer_at(
    alloc: Global,
    r: &Resolved<'_>,
    form: usize,
    body: &FormBody,
    i: usize,
) -> Result<Buffer, AllocError>
    ensures { IfOk result (λ b. b ≡ spec.buffer_at r.now form body.now i) }
{
    let size = array_size(body.arrays.as_slice(), i)?;
    let instance = name_at(alloc, r, form)?;
    let array = array_at(alloc, r, form, i)?;
    Ok(Buffer {
        level: level_at(r, form),
        size,
        instance,
        array,
    })
}

fn push_buffers(
    alloc: Global,
    out: &mut Buffers,
    r: &Resolved<'_>,
    form: usize,
    body: &FormBody,
    list: &[usize],
) -> Result<(), AllocError>
    ensures { OnOk result (out.new ≡ out.old ++ map (spec.buffer_at r.now form body.now) list.now) }
{
    for i in list {
        out.push(buffer_at(alloc, r, form, body, *i)?)?;
    }
    Ok(())
}

fn codes_in(body: &Body) -> usize
    ensures { result ≡ spec.codes_in body.now }
{
    match body {
        Body::Leaf(_) => 1,
        Body::Inner(_) => 0,
    }
}

fn form_buffers(alloc: Global, body: &FormBody, c: &Choice) -> Result<Items<usize>, AllocError>
    ensures { IfOk result (λ list. list ≡ standing_in body.now c.now) }
{
    let params = params_of(alloc, c)?;
    let list = standing(alloc, body.arrays.as_slice(), c, &params)?;
    Ok(list)
}

/// How many buffers and leaves the forms before one have.
#[derive(Clone, Copy)]
struct Before {
    base: u32,
    code: u32,
}

fn push_form_homes(
    alloc: Global,
    out: &mut Items<Homes>,
    r: &Resolved<'_>,
    form: usize,
    body: &FormBody,
    c: &Choice,
    before: Before,
) -> Result<(), AllocError>
    ensures { OnOk result (out.new ≡ out.old ++ numbering.form_homes before.base
        (forms.rule_by (forms.instance_at r.now form)) before.code body.now c.now ∷ []) }
{
    let params = params_of(alloc, c)?;
    let rule = rule_at(r, form);
    let made = form_homes(alloc, before.base, rule, before.code, body, c, &params)?;
    out.push(made)?;
    Ok(())
}

/// The homes of all forms' arrays.
pub fn homes_of(
    alloc: Global,
    r: &Resolved<'_>,
    choices: &[Choice],
    bodies: &[FormBody],
) -> Result<Items<Homes>, AllocError>
    ensures { IfOk result (λ list. list ≡ spec.homes_from r.now choices.now 0 0 0 bodies.now) }
{
    let mut out = Items::new(alloc);
    let mut before = Before { base: 0, code: 0 };
    for (form, body) in bodies.iter().enumerate() {
        let c = choice_at(choices, form)?;
        push_form_homes(alloc, &mut out, r, form, body, c, before)?;
        let list = form_buffers(alloc, body, c)?;
        before = Before {
            base: behind(before.base, list.len())?,
            code: behind(before.code, codes_in(&body.body))?,
        };
    }
    Ok(out)
}

/// The buffers of all forms.
pub fn buffers_of(
    alloc: Global,
    r: &Resolved<'_>,
    choices: &[Choice],
    bodies: &[FormBody],
) -> Result<Buffers, AllocError>
    ensures { IfOk result (λ list. list ≡ spec.buffers_from r.now choices.now 0 bodies.now) }
{
    let mut out = Items::new(alloc);
    for (form, body) in bodies.iter().enumerate() {
        let c = choice_at(choices, form)?;
        let list = form_buffers(alloc, body, c)?;
        push_buffers(alloc, &mut out, r, form, body, list.as_slice())?;
    }
    Ok(out)
}
