//! The loops of a form that may overlap their transfers.

ghost use Rattle.std.specs.Prelude.{◌≡◌, ◌||◌, ◌++◌, nat_le, nat_lt, map, OnOk};
ghost use Rattle.std.specs.List.{list_all};
ghost use Rattle.std.specs.Option.{option_copied};
ghost use Rattle.sq_hoist.specs.Chosen.Forms.{choice_in};
ghost use Rattle.sq_pipe.specs.Candidates as spec;
ghost use Rattle.sq_spec.specs.Spreads as spreads;

use crate::ahead::are_all_ahead;
use crate::candidate::Candidate;
use sq_hoist::Choice;
use sq_spec::{CallInstance, LoopKind, Statement, is_spread};
use sq_text::Place;
use sqlite_items::{Items, at};
use std::alloc::AllocError;

/// What is known of a form whose loops are looked at: its number, how many children the nodes have at most at which it
/// runs, and what is chosen for all forms.
#[derive(Clone, Copy)]
pub struct Caller<'a> {
    pub form: usize,
    pub children: u32,
    pub choices: &'a [Choice],
}

/// How a map goes through its iterations, whether it is spread, and how many there are each time that it is begun.
#[derive(Clone, Copy)]
struct Map<'a> {
    kind: LoopKind,
    spread: bool,
    counts: &'a [u32],
}

fn leaves_of(choices: &[Choice], form: usize) -> &[u32]
    ensures { result.now ≡ (choice_in choices.now form).leaves }
{
    match at(choices, form) {
        None => &[],
        Some(c) => c.leaves.as_slice(),
    }
}

fn have_one_form(rows: &[CallInstance]) -> bool
    ensures { result ≡ spec.have_one_form rows.now }
{
    let Some((first, more)) = rows.split_first() else {
        return false;
    };
    for row in more {
        if row.form != first.form {
            return false;
        }
    }
    true
}

fn first_form(rows: &[CallInstance]) -> usize
    ensures { result ≡ spec.first_form rows.now }
{
    match rows.first() {
        None => 0,
        Some(row) => row.form,
    }
}

fn are_two(counts: &[u32]) -> bool
    ensures { result ≡ list_all (λ n. nat_le 2 n) counts.now }
{
    for count in counts {
        if *count < 2 {
            return false;
        }
    }
    true
}

fn are_more(children: u32, counts: &[u32]) -> bool
    ensures { result ≡ list_all (λ n. nat_lt children n) counts.now }
{
    for count in counts {
        if *count <= children {
            return false;
        }
    }
    true
}

fn may_overlap(caller: Caller<'_>, map: Map<'_>, rows: &[CallInstance]) -> bool
    ensures { result ≡ spec.may_overlap (λ f. (choice_in caller.entry.choices.now f).leaves) caller.entry.children
        map.entry.kind map.entry.spread map.entry.counts.now rows.now }
{
    match map.kind {
        LoopKind::Sequential => {
            have_one_form(rows)
                && are_two(map.counts)
                && are_all_ahead(
                    leaves_of(caller.choices, first_form(rows)),
                    map.counts,
                    rows,
                )
        }
        LoopKind::Parallel => {
            map.spread && have_one_form(rows) && are_more(caller.children, map.counts)
        }
        LoopKind::Reduction(_) => false,
    }
}

/// Whether a map stands in a spread one, or is one.
pub fn either(inside: bool, spread: bool) -> bool
    ensures { result ≡ (inside || spread) }
{
    inside || spread
}

#[tactic(auto, using(crate::proofs::CallsOpened::opened))]
fn call_of(x: &Statement) -> Option<&[CallInstance]>
    ensures { option_copied result ≡ spec.call_in x.now }
{
    match x {
        Statement::Call { lower, instances } => {
            if *lower {
                Some(instances.as_slice())
            } else {
                None
            }
        }
        Statement::Map { .. } => None,
    }
}

// The rows of the lower call that is all of these statements.
fn only_call(list: &[Statement]) -> Option<&[CallInstance]>
    ensures { option_copied result ≡ spec.only_call (map spec.call_in list.now) }
{
    match list {
        [x] => call_of(x),
        _ => None,
    }
}

fn push_own(
    out: &mut Items<Candidate>,
    caller: Caller<'_>,
    place: Place,
    map: Map<'_>,
    rows: Option<&[CallInstance]>,
) -> Result<(), AllocError>
    ensures { OnOk result (out.new ≡ out.old ++ spec.own_loop (λ f. (choice_in caller.entry.choices.now f).leaves)
        caller.entry.children caller.entry.form place map.entry.kind map.entry.spread map.entry.counts.now
        (option_copied rows.entry)) }
{
    let Some(rows) = rows else {
        return Ok(());
    };
    if !may_overlap(caller, map, rows) {
        return Ok(());
    }
    out.push(Candidate {
        caller: caller.form,
        form: first_form(rows),
        place,
    })?;
    Ok(())
}

#[cycle(walk)]
#[tactic(auto, using(crate::proofs::CallsOpened::opened))]
fn push_loops(
    out: &mut Items<Candidate>,
    caller: Caller<'_>,
    inside: bool,
    x: &Statement,
) -> Result<(), AllocError>
    ensures { OnOk result (out.new ≡ out.old ++ (spec.seen (λ f. (choice_in caller.entry.choices.now f).leaves)
        caller.entry.children caller.entry.form x.now).loops inside) }
{
    match x {
        Statement::Call { .. } => Ok(()),
        Statement::Map {
            place,
            kind,
            counts,
            body,
            ..
        } => {
            let list = body.as_slice();
            push_map(out, caller, inside, *place, *kind, counts.as_slice(), list)
        }
    }
}

#[cycle(walk)]
fn push_map(
    out: &mut Items<Candidate>,
    caller: Caller<'_>,
    inside: bool,
    place: Place,
    kind: LoopKind,
    counts: &[u32],
    body: &[Statement],
) -> Result<(), AllocError>
    ensures { OnOk result (out.new ≡ out.old ++ spec.map_loops (λ f. (choice_in caller.entry.choices.now f).leaves)
        caller.entry.children caller.entry.form place kind counts.now (map spreads.lower_in body.now)
        (map spreads.same_in body.now) (map spec.call_in body.now)
        (map (spec.seen (λ f. (choice_in caller.entry.choices.now f).leaves) caller.entry.children caller.entry.form)
        body.now) inside) }
{
    let spread = is_spread(kind, inside, body);
    let map = Map {
        kind,
        spread,
        counts,
    };
    push_own(out, caller, place, map, only_call(body))?;
    push_all(out, caller, either(inside, spread), body)?;
    Ok(())
}

/// Those of these statements, in text order.
#[cycle(walk)]
pub fn push_all(
    out: &mut Items<Candidate>,
    caller: Caller<'_>,
    inside: bool,
    list: &[Statement],
) -> Result<(), AllocError>
    ensures { OnOk result (out.new ≡ out.old ++ spec.all_loops (map (spec.seen
        (λ f. (choice_in caller.entry.choices.now f).leaves) caller.entry.children caller.entry.form) list.now) inside) }
{
    for x in list {
        push_loops(out, caller, inside, x)?;
    }
    Ok(())
}
