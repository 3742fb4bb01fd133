//! The draft of a program.

ghost use Rattle.std.specs.Prelude.{◌≡◌, ◌++◌, suc, map, IfOk, OnOk};
ghost use Rattle.sq_draft.specs.Term.Terms as terms;
ghost use Rattle.sq_chosen.specs.Forms as forms;
ghost use Rattle.sq_homes.specs.Drafts as spec;

use crate::buffers::{buffers_of, homes_of};
use crate::entry::args_of;
use sq_chosen::{Body, Choice, Chosen, FormBody, Resolved, form_number, name_at};
use sq_draft::{Home, Homes, draft_term};
use sq_ir::{Argument, BufferIds, Buffers, Draft, Leaf, Leaves, Notes, Term};
use sqlite_items::{Boxed as Box, Items, at};
use std::alloc::{AllocError, Global};

fn bodies_of(alloc: Global, r: &Resolved<'_>) -> Result<Vec<FormBody>, AllocError>
    ensures { IfOk result (λ bs. bs.items ≡ forms.bodies_of r.now) }
{
    let mut out = Vec::new(alloc);
    for (form, _) in r.forms().iter().enumerate() {
        let body = r.body(alloc, form_number(form)?)?;
        out.push(body)?;
    }
    Ok(out)
}

fn push_leaf(
    alloc: Global,
    out: &mut Leaves,
    r: &Resolved<'_>,
    form: usize,
    body: Body,
) -> Result<(), AllocError>
    ensures { OnOk result (out.new ≡ out.old ++ spec.leaves_in (forms.name_by (forms.instance_at r.now form)) body) }
{
    match body {
        Body::Inner(_) => Ok(()),
        Body::Leaf(code) => {
            let instance = name_at(alloc, r, form)?;
            out.push(Leaf { instance, code })?;
            Ok(())
        }
    }
}

// The number of the form behind a form.
fn after(form: usize) -> Result<usize, AllocError>
    ensures { IfOk result (λ n. n ≡ suc form) }
{
    match form.checked_add(1) {
        Some(n) => Ok(n),
        None => Err(AllocError),
    }
}

fn leaves_of(alloc: Global, r: &Resolved<'_>, bodies: Vec<FormBody>) -> Result<Leaves, AllocError>
    ensures { IfOk result (λ ls. ls ≡ spec.leaves_from r.now 0 bodies.items) }
{
    let mut out = Items::new(alloc);
    let mut form = 0;
    for body in bodies {
        push_leaf(alloc, &mut out, r, form, body.body)?;
        form = after(form)?;
    }
    Ok(out)
}

fn buffer_or(home: Home) -> u32
    ensures { result ≡ terms.buffer_or home }
{
    match home {
        Home::InPlace => 0,
        Home::Own(buffer) => buffer,
        Home::Held { buffer, .. } => buffer,
        Home::Twin { first, .. } => first,
    }
}

fn buffers_named(alloc: Global, homes: &[Home]) -> Result<BufferIds, AllocError>
    ensures { IfOk result (λ bs. bs ≡ map terms.buffer_or homes.now) }
{
    let mut out = Items::new(alloc);
    for home in homes {
        out.push(buffer_or(*home))?;
    }
    Ok(out)
}

fn entry_buffers(alloc: Global, homes: &[Homes]) -> Result<BufferIds, AllocError>
    ensures { IfOk result (λ bs. bs ≡ map terms.buffer_or (terms.homes_in homes.now 0).params) }
{
    let Some(own) = at(homes, 0) else {
        return Err(AllocError);
    };
    let made = buffers_named(alloc, own.params.as_slice())?;
    Ok(made)
}

#[tactic(auto, unfolding(crate::specs::Drafts::term_with))]
fn term_with(
    alloc: Global,
    bodies: &[FormBody],
    homes: &[Homes],
    args: Items<Argument>,
) -> Result<Term, AllocError>
    ensures { IfOk result (λ t. t ≡ spec.term_with bodies.now homes.now args) }
{
    draft_term(alloc, bodies, homes, args)
}

fn term_of(
    alloc: Global,
    r: &Resolved<'_>,
    homes: &[Homes],
    bodies: &[FormBody],
) -> Result<Term, AllocError>
    ensures { IfOk result (λ t. t ≡ spec.term_with bodies.now homes.now (spec.args_of r.now)) }
{
    let args = args_of(alloc, r)?;
    term_with(alloc, bodies, homes, args)
}

fn boxed_term(
    alloc: Global,
    r: &Resolved<'_>,
    homes: &[Homes],
    bodies: &[FormBody],
) -> Result<Box<Term>, AllocError>
    ensures { IfOk result (λ t. t ≡ spec.term_with bodies.now homes.now (spec.args_of r.now)) }
{
    let term = term_of(alloc, r, homes, bodies)?;
    let made = Box::new(alloc, term)?;
    Ok(made)
}

// What is made of the bodies of forms while they are there.
#[derive(Drop)]
struct Parts {
    term: Box<Term>,
    buffers: Buffers,
    entry: BufferIds,
}

fn parts_with(
    alloc: Global,
    r: &Resolved<'_>,
    choices: &[Choice],
    bodies: &[FormBody],
    homes: &[Homes],
) -> Result<Parts, AllocError>
    ensures term { IfOk result (λ p. p.term ≡ spec.term_with bodies.now homes.now (spec.args_of r.now)) }
    ensures buffers { IfOk result (λ p. p.buffers ≡ spec.buffers_from r.now choices.now 0 bodies.now) }
    ensures entry { IfOk result (λ p. p.entry ≡ map terms.buffer_or (terms.homes_in homes.now 0).params) }
{
    let entry = entry_buffers(alloc, homes)?;
    let buffers = buffers_of(alloc, r, choices, bodies)?;
    let term = boxed_term(alloc, r, homes, bodies)?;
    Ok(Parts {
        term,
        buffers,
        entry,
    })
}

fn parts_of(
    alloc: Global,
    r: &Resolved<'_>,
    choices: &[Choice],
    bodies: &[FormBody],
) -> Result<Parts, AllocError>
    requires { bodies.now ≡ forms.bodies_of r.now }
    ensures term { IfOk result (λ p. p.term ≡ spec.program_term r.now choices.now) }
    ensures buffers { IfOk result (λ p. p.buffers ≡ spec.buffers_of r.now choices.now) }
    ensures entry { IfOk result (λ p. p.entry ≡ spec.entry_of r.now choices.now) }
{
    let homes = homes_of(alloc, r, choices, bodies)?;
    let parts = parts_with(alloc, r, choices, bodies, homes.as_slice())?;
    Ok(parts)
}

// The draft of a program in which these are the choices, with no note.
fn unnoted(alloc: Global, r: &Resolved<'_>, choices: &[Choice]) -> Result<Draft, AllocError>
    ensures { IfOk result (λ d. spec.IsDraftOf r.now choices.now d) }
{
    let bodies = bodies_of(alloc, r)?;
    let parts = parts_of(alloc, r, choices, bodies.as_slice())?;
    let leaves = leaves_of(alloc, r, bodies)?;
    Ok(Draft {
        term: parts.term.into_inner(),
        buffers: parts.buffers,
        leaves,
        entry: parts.entry,
        notes: Items::new(alloc),
    })
}

fn with_notes(mut draft: Draft, notes: Notes) -> Draft
    ensures term { result.term ≡ draft.term }
    ensures buffers { result.buffers ≡ draft.buffers }
    ensures leaves { result.leaves ≡ draft.leaves }
    ensures entry { result.entry ≡ draft.entry }
    ensures notes { result.notes ≡ notes }
{
    draft.notes = notes;
    draft
}

/// The draft of a program in which this is chosen, with what is told of it as its notes.
pub fn draft_of(alloc: Global, r: &Resolved<'_>, chosen: Chosen) -> Result<Draft, AllocError>
    ensures draft { IfOk result (λ d. spec.IsDraftOf r.now chosen.choices d) }
    ensures notes { IfOk result (λ d. d.notes ≡ chosen.notes) }
{
    let made = unnoted(alloc, r, chosen.choices.as_slice())?;
    Ok(with_notes(made, chosen.notes))
}

/// Lets a draft go. Whoever calls this owes no proof of his own that all of its trees can be let go.
pub fn drop_draft(draft: Draft) {
    drop(draft);
}
