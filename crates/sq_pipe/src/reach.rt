//! Which children of a node the calls of a form reach.

ghost use Rattle.std.specs.Prelude.{◌≡◌, ◌+◌, ◌*◌, ◌<◌, ◌≤◌, true, false, slice_get, slice_set, get_or, replicate};
ghost use Rattle.std.specs.Prelude.{map, IfOk, OnOk};
ghost use Rattle.sq_pipe.specs.Runs as spec;

use crate::loops::either;
use sq_spec::{Body, CallInstance, LoopKind, Statement, is_spread};
use sq_text::SpreadRule;
use sqlite_items::{Items, at};
use std::alloc::{AllocError, Global};

/// How the iterations of spread maps go to the children of a node.
#[derive(Clone, Copy)]
struct Spread {
    rule: SpreadRule,
    children: u32,
}

/// A map that is begun: whether it stands in a spread one, whether it is spread itself, and the child to which lower
/// calls go where it isn't; how many iterations it has, and how many began before.
#[derive(Clone, Copy)]
struct Turns {
    inside: bool,
    spread: bool,
    child: u32,
    count: u32,
    start: usize,
}

/// Sets a flag, if there is one with this number.
#[tactic(auto, using(crate::proofs::Reached::set_past))]
pub fn set_flag(out: &mut Items<bool>, i: usize)
    ensures { out.new ≡ slice_set out.old i true }
{
    if i < out.len() {
        out.set(i, true);
    }
}

/// So many flags that aren't set.
pub fn no_flags(alloc: Global, count: usize) -> Result<Items<bool>, AllocError>
    ensures { IfOk result (λ flags. flags ≡ replicate count false) }
{
    let mut flags = Items::new(alloc);
    for _made in 0..count {
        flags.push(false)?;
    }
    Ok(flags)
}

/// The number of the flag of a form and a child. Numbers that there aren't are want of memory: so many flags there
/// can't be.
pub fn flag_number(form: usize, children: u32, child: u32) -> Result<usize, AllocError>
    ensures { IfOk result (λ i. i ≡ form * children + child) }
{
    let Some(first) = form.checked_mul(children as usize) else {
        return Err(AllocError);
    };
    match first.checked_add(child as usize) {
        Some(i) => Ok(i),
        None => Err(AllocError),
    }
}

fn note(out: &mut Items<bool>, children: u32, form: usize, child: u32) -> Result<(), AllocError>
    ensures { OnOk result (out.new ≡ slice_set out.old (form * children + child) true) }
{
    let i = flag_number(form, children, child)?;
    set_flag(out, i);
    Ok(())
}

// A call that is begun for the k-th time.
fn note_row(
    out: &mut Items<bool>,
    children: u32,
    child: u32,
    k: usize,
    rows: &[CallInstance],
) -> Result<(), AllocError>
    ensures { OnOk result (out.new ≡ spec.noted children (spec.row_lands child (slice_get rows.now k)) out.old) }
{
    match at(rows, k) {
        None => Ok(()),
        Some(row) => {
            note(out, children, row.form, child)?;
            Ok(())
        }
    }
}

fn count_at(counts: &[u32], k: usize) -> u32
    ensures { result ≡ get_or counts.now k 0 }
{
    match counts.get(k) {
        None => 0,
        Some(n) => *n,
    }
}

fn start_at(starts: &[usize], k: usize) -> usize
    ensures { result ≡ get_or starts.now k 0 }
{
    match starts.get(k) {
        None => 0,
        Some(n) => *n,
    }
}

fn child_in(node: Spread, turns: Turns, t: u32) -> u32
    requires some { 1 ≤ node.children }
    requires there { t < turns.count }
    ensures { result ≡ spec.child_in node.rule node.children turns.spread turns.count turns.child t }
{
    if turns.spread {
        node.rule.child_of(turns.count, node.children, t)
    } else {
        turns.child
    }
}

fn begun(start: usize, t: u32) -> Result<usize, AllocError>
    ensures { IfOk result (λ k. k ≡ start + t) }
{
    match start.checked_add(t as usize) {
        Some(k) => Ok(k),
        None => Err(AllocError),
    }
}

// A statement that is begun for the k-th time.
#[cycle(walk)]
#[tactic(auto, using(crate::proofs::Reached::opened))]
fn note_one(
    out: &mut Items<bool>,
    node: Spread,
    inside: bool,
    child: u32,
    k: usize,
    x: &Statement,
) -> Result<(), AllocError>
    requires some { 1 ≤ node.children }
    ensures { OnOk result (out.new ≡ spec.noted node.children
        ((spec.landing node.rule node.children x.now).lands inside child k) out.old) }
{
    match x {
        Statement::Call { instances, .. } => {
            note_row(out, node.children, child, k, instances.as_slice())?;
            Ok(())
        }
        Statement::Map {
            kind,
            counts,
            starts,
            body,
            ..
        } => {
            let list = body.as_slice();
            let turns = Turns {
                inside,
                spread: is_spread(*kind, inside, list),
                child,
                count: count_at(counts.as_slice(), k),
                start: start_at(starts.as_slice(), k),
            };
            note_turns(out, node, turns, list)?;
            Ok(())
        }
    }
}

#[cycle(walk)]
fn note_turns(
    out: &mut Items<bool>,
    node: Spread,
    turns: Turns,
    body: &[Statement],
) -> Result<(), AllocError>
    requires some { 1 ≤ node.children }
    ensures { OnOk result (out.new ≡ spec.noted node.children (spec.turns_land
        (spec.turn_lands node.rule node.children (map (spec.landing node.rule node.children) body.now)
        turns.inside turns.spread turns.count turns.start turns.child) turns.count 0) out.old) }
{
    for t in 0..turns.count {
        note_turn(out, node, turns, t, body)?;
    }
    Ok(())
}

#[cycle(walk)]
fn note_turn(
    out: &mut Items<bool>,
    node: Spread,
    turns: Turns,
    t: u32,
    body: &[Statement],
) -> Result<(), AllocError>
    requires some { 1 ≤ node.children }
    requires there { t < turns.count }
    ensures { OnOk result (out.new ≡ spec.noted node.children
        (spec.turn_lands node.rule node.children (map (spec.landing node.rule node.children) body.now)
        turns.inside turns.spread turns.count turns.start turns.child t) out.old) }
{
    let inside = either(turns.inside, turns.spread);
    let child = child_in(node, turns, t);
    let k = begun(turns.start, t)?;
    note_all(out, node, inside, child, k, body)?;
    Ok(())
}

#[cycle(walk)]
fn note_all(
    out: &mut Items<bool>,
    node: Spread,
    inside: bool,
    child: u32,
    k: usize,
    list: &[Statement],
) -> Result<(), AllocError>
    requires some { 1 ≤ node.children }
    ensures { OnOk result (out.new ≡ spec.noted node.children
        (spec.all_lands (map (spec.landing node.rule node.children) list.now) inside child k) out.old) }
{
    for x in list {
        note_one(out, node, inside, child, k, x)?;
    }
    Ok(())
}

// Of statements, at a node that has children.
fn note_statements(
    out: &mut Items<bool>,
    rule: SpreadRule,
    children: u32,
    list: &[Statement],
) -> Result<(), AllocError>
    requires some { 1 ≤ children }
    ensures { OnOk result (out.new ≡ spec.noted children
        (spec.all_lands (map (spec.landing rule children) list.now) false 0 0) out.old) }
{
    let node = Spread { rule, children };
    note_all(out, node, false, 0, 0, list)?;
    Ok(())
}

fn note_body(
    out: &mut Items<bool>,
    rule: SpreadRule,
    children: u32,
    body: &Body,
) -> Result<(), AllocError>
    requires some { 1 ≤ children }
    ensures { OnOk result (out.new ≡ spec.noted children (spec.body_lands rule children body.now) out.old) }
{
    match body {
        Body::Leaf(_) => Ok(()),
        Body::Inner(list) => {
            note_statements(out, rule, children, list.as_slice())?;
            Ok(())
        }
    }
}

/// Of the calls of a form, where there are so many forms: for each form one flag for each child.
#[tactic(auto, using(crate::proofs::Reached::none_noted))]
pub fn flags_of(
    alloc: Global,
    rule: SpreadRule,
    children: u32,
    forms: usize,
    body: &Body,
) -> Result<Items<bool>, AllocError>
    ensures { IfOk result (λ flags. flags ≡ spec.flags_of rule children forms body.now) }
{
    let count = flag_number(forms, children, 0)?;
    let mut flags = no_flags(alloc, count)?;
    if 1 <= children {
        note_body(&mut flags, rule, children, body)?;
    }
    Ok(flags)
}
