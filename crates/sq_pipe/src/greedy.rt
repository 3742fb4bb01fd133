//! Which loops overlap their transfers.

ghost use Rattle.std.specs.Prelude.{◌≡◌, ◌^◌, ◌∷◌, [], ◌++◌, get_or, IfOk, OnOk};
ghost use Rattle.sq_hoist.specs.Chosen.Forms as forms;
ghost use Rattle.sq_hoist.specs.Choices as hoist;
ghost use Rattle.sq_pipe.specs.Runs as runs;
ghost use Rattle.sq_pipe.specs.Greedy as spec;

use crate::candidate::Candidate;
use crate::fitting::taken_from;
use crate::loops::{Caller, push_all};
use crate::marks::{least_room, marks_of, most_children};
use crate::room::Room;
use crate::sizes::{moved_bytes, own_bytes};
use sq_hoist::{Choice, choice_at, drop_body, form_number};
use sq_spec::{Body, FormBody, Resolved};
use sqlite_items::{Items, at};
use std::alloc::{AllocError, Global};

const NO_BOUND: u64 = 1 << 40;

fn room_of(
    r: &Resolved<'_>,
    body: &FormBody,
    c: &Choice,
    marks: &[bool],
) -> Result<Room, AllocError>
    ensures { IfOk result (λ x. x ≡ spec.room_of r.now body.now c.now marks.now) }
{
    let more = moved_bytes(body, c)?;
    let own = own_bytes(body, c, more)?;
    let room = least_room(marks, r.machine().tree(), NO_BOUND);
    Ok(Room { own, more, room })
}

#[tactic(auto, using(crate::proofs::Gets::got))]
fn marks_at(marks: &[Items<bool>], form: usize) -> &[bool]
    ensures { result.now ≡ get_or marks.now form [] }
{
    match at(marks, form) {
        None => &[],
        Some(flags) => flags.as_slice(),
    }
}

// The greatest number of children of a node at which the form runs.
fn children_at(r: &Resolved<'_>, marks: &[Items<bool>], form: usize) -> u32
    ensures { result ≡ runs.most_children (get_or marks.now form []) 0 r.now.machine.now.nodes 0 }
{
    most_children(marks_at(marks, form), r.machine().tree())
}

// The candidates among a form's statements.
fn push_body(out: &mut Items<Candidate>, caller: Caller<'_>, body: &Body) -> Result<(), AllocError>
    ensures { OnOk result (out.new ≡ out.old ++ spec.candidates_in
        (λ f. (forms.choice_in caller.entry.choices.now f).leaves) caller.entry.children caller.entry.form body.now) }
{
    match body {
        Body::Leaf(_) => Ok(()),
        Body::Inner(list) => {
            push_all(out, caller, false, list.as_slice())?;
            Ok(())
        }
    }
}

/// What is chosen for all forms, and at which nodes they run.
#[derive(Clone, Copy)]
struct Chosen<'a> {
    choices: &'a [Choice],
    marks: &'a [Items<bool>],
}

// Of a form whose body is there.
fn push_known(
    out: &mut Items<Room>,
    candidates: &mut Items<Candidate>,
    r: &Resolved<'_>,
    chosen: Chosen<'_>,
    form: usize,
    body: &FormBody,
) -> Result<(), AllocError>
    ensures rooms { OnOk result (out.new ≡ out.old ++ spec.room_of r.now body.now
        (forms.choice_in chosen.entry.choices.now form) (get_or chosen.entry.marks.now form []) ∷ []) }
    ensures candidates { OnOk result (candidates.new ≡ candidates.old ++ spec.candidates_in
        (λ f. (forms.choice_in chosen.entry.choices.now f).leaves)
        (runs.most_children (get_or chosen.entry.marks.now form []) 0 r.now.machine.now.nodes 0) form body.now.body) }
{
    let marks = marks_at(chosen.marks, form);
    let c = choice_at(chosen.choices, form)?;
    out.push(room_of(r, body, c, marks)?)?;
    let caller = Caller {
        form,
        children: children_at(r, chosen.marks, form),
        choices: chosen.choices,
    };
    push_body(candidates, caller, &body.body)?;
    Ok(())
}

// Of a form, whose tables are there while this looks at them.
fn push_form(
    alloc: Global,
    out: &mut Items<Room>,
    candidates: &mut Items<Candidate>,
    r: &Resolved<'_>,
    chosen: Chosen<'_>,
    form: usize,
) -> Result<(), AllocError>
    ensures rooms { OnOk result (out.new ≡ out.old ++ spec.room_of r.now (hoist.body_at r.now form)
        (forms.choice_in chosen.entry.choices.now form) (get_or chosen.entry.marks.now form []) ∷ []) }
    ensures candidates { OnOk result (candidates.new ≡ candidates.old ++ spec.candidates_in
        (λ f. (forms.choice_in chosen.entry.choices.now f).leaves)
        (runs.most_children (get_or chosen.entry.marks.now form []) 0 r.now.machine.now.nodes 0) form
        (hoist.body_at r.now form).body) }
{
    let made = r.body(alloc, form_number(form)?)?;
    let pushed = push_known(out, candidates, r, chosen, form, &made);
    drop_body(made);
    pushed
}

/// The room of each form, and the loops that may overlap their transfers.
#[derive(Drop)]
struct Known {
    rooms: Items<Room>,
    candidates: Items<Candidate>,
}

fn known_of(alloc: Global, r: &Resolved<'_>, chosen: Chosen<'_>) -> Result<Known, AllocError>
    ensures rooms { IfOk result (λ k. k.rooms ≡ spec.rooms_by r.now chosen.entry.choices.now 0 (forms.bodies_of r.now)
        chosen.entry.marks.now) }
    ensures candidates { IfOk result (λ k. k.candidates ≡ spec.candidates_by r.now chosen.entry.choices.now 0
        (forms.bodies_of r.now) chosen.entry.marks.now) }
{
    let mut rooms = Items::new(alloc);
    let mut candidates = Items::new(alloc);
    for (form, _) in r.forms().iter().enumerate() {
        push_form(alloc, &mut rooms, &mut candidates, r, chosen, form)?;
    }
    Ok(Known { rooms, candidates })
}

/// The loops that may overlap their transfers, and of each form whether the one that calls it does.
#[derive(Drop)]
pub struct Taken {
    pub candidates: Items<Candidate>,
    pub taken: Items<bool>,
}

fn taken_among(alloc: Global, r: &Resolved<'_>, known: Known) -> Result<Taken, AllocError>
    requires rooms { known.rooms ≡ spec.rooms_of r.now }
    requires candidates { known.candidates ≡ spec.candidates_of r.now }
    ensures candidates { IfOk result (λ t. t.candidates ≡ spec.candidates_of r.now) }
    ensures taken { IfOk result (λ t. t.taken ≡ spec.taken_of r.now) }
{
    let candidates = known.candidates;
    let taken = taken_from(
        alloc,
        r.forms(),
        known.rooms.as_slice(),
        candidates.as_slice(),
    )?;
    Ok(Taken { candidates, taken })
}

/// Which loops are taken, where these are the choices of hoisting. The tables of one form are there at a time.
pub fn taken_of(alloc: Global, r: &Resolved<'_>, choices: &[Choice]) -> Result<Taken, AllocError>
    requires { choices.now ≡ hoist.hoisted r.now }
    ensures candidates { IfOk result (λ t. t.candidates ≡ spec.candidates_of r.now) }
    ensures taken { IfOk result (λ t. t.taken ≡ spec.taken_of r.now) }
{
    let marks = marks_of(alloc, r)?;
    let chosen = Chosen {
        choices,
        marks: marks.as_slice(),
    };
    let known = known_of(alloc, r, chosen)?;
    let taken = taken_among(alloc, r, known)?;
    Ok(taken)
}
