//! What leaves loops, of a whole program.

ghost use Rattle.std.specs.Prelude.{◌≡◌, ◌++◌, IfOk, OnOk};
ghost use Rattle.sq_hoist.specs.Choices as spec;
ghost use Rattle.sq_hoist.specs.Notes as notes;

use crate::choices::choices_of;
use crate::notes::notes_of;
use crate::sites::{Site, push_sites};
use sq_chosen::{Chosen, drop_body, form_number};
use sq_spec::{Body, Resolved};
use sqlite_items::Items;
use std::alloc::{AllocError, Global};

fn push_body_sites(
    alloc: Global,
    out: &mut Items<Site>,
    form: usize,
    body: &Body,
) -> Result<(), AllocError>
    ensures { OnOk result (out.new ≡ out.old ++ spec.body_sites form body.now) }
{
    match body {
        Body::Leaf(_) => Ok(()),
        Body::Inner(list) => {
            push_sites(alloc, out, form, list.as_slice())?;
            Ok(())
        }
    }
}

fn push_form_sites(
    alloc: Global,
    out: &mut Items<Site>,
    r: &Resolved<'_>,
    form: usize,
) -> Result<(), AllocError>
    ensures { OnOk result (out.new ≡ out.old ++ spec.body_sites form (spec.body_at r.now form).body) }
{
    let made = r.body(alloc, form_number(form)?)?;
    let pushed = push_body_sites(alloc, out, form, &made.body);
    drop_body(made);
    pushed
}

/// The calls in plain loops of all forms, by the number of the form in which they stand. The tables of one form are there
/// at a time.
pub fn sites_of(alloc: Global, r: &Resolved<'_>) -> Result<Items<Site>, AllocError>
    ensures { IfOk result (λ ss. ss ≡ spec.sites_of r.now) }
{
    let mut out = Items::new(alloc);
    for (form, _) in r.forms().iter().enumerate() {
        push_form_sites(alloc, &mut out, r, form)?;
    }
    Ok(out)
}

/// What hoisting chooses: each argument of a lower call leaves the outermost of the plain loops round its call in which
/// its block stays the same, apart from the other arguments; what is in place stays there, and no loop overlaps its
/// transfers. There is a note for each argument that leaves a loop.
pub fn hoisted(alloc: Global, r: &Resolved<'_>) -> Result<Chosen, AllocError>
    ensures choices { IfOk result (λ c. c.choices ≡ spec.hoisted r.now) }
    ensures notes { IfOk result (λ c. c.notes ≡ notes.notes_of r.now) }
{
    let sites = sites_of(alloc, r)?;
    let notes = notes_of(alloc, r, sites.as_slice())?;
    let choices = choices_of(alloc, r.forms(), sites.as_slice())?;
    Ok(Chosen { choices, notes })
}
