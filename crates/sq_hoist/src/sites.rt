//! The calls of a form that stand in plain loops.

ghost use Rattle.std.specs.Prelude.{◌≡◌, ◌++◌, map, IfOk, OnOk};
ghost use Rattle.sq_hoist.specs.Loops as spec;
ghost use Rattle.sq_hoist.specs.Counts as counted;

use crate::nest::{Counted, call_nest, looped_by, may_be_plain};
use sq_spec::{LoopKind, Statement};
use sq_text::Place;
use sqlite_items::Items;
use std::alloc::{AllocError, Global};

/// A call in plain loops: the form in which it stands, and the form that it calls; the loops from the inside, and of
/// each argument how many of them it leaves, from the inside.
#[derive(Drop)]
pub struct Site {
    pub caller: usize,
    pub form: usize,
    pub loops: Items<Place>,
    pub leaves: Items<u32>,
}

// A call in plain loops, round which no further one stands.
fn push_own(
    out: &mut Items<Site>,
    caller: usize,
    nest: Option<Counted<'_>>,
) -> Result<(), AllocError>
    ensures { OnOk result (out.new ≡ out.old ++ counted.own_site caller (counted.nest_of nest.entry)) }
{
    let Some(nest) = nest else {
        return Ok(());
    };
    if nest.loops.is_empty() {
        return Ok(());
    }
    out.push(Site {
        caller,
        form: nest.form,
        loops: nest.loops,
        leaves: nest.leaves,
    })?;
    Ok(())
}

// The call in plain loops that a statement is; else those that stand in it are pushed.
#[cycle(walk)]
#[tactic(auto, using(crate::proofs::Opened::nests_opened, crate::proofs::Walks::nothing_found))]
fn walk<'a>(
    alloc: Global,
    out: &mut Items<Site>,
    caller: usize,
    x: &'a Statement,
) -> Result<Option<Counted<'a>>, AllocError>
    ensures nest { IfOk result (λ o. counted.nest_of o ≡ (spec.seen caller x.now).nest) }
    ensures sites { IfOk result (λ o. out.new
        ≡ out.old ++ counted.found_by (counted.nest_of o) (spec.seen caller x.now).inner) }
{
    match x {
        Statement::Call { lower, instances } => {
            let nest = call_nest(alloc, *lower, instances.as_slice())?;
            Ok(nest)
        }
        Statement::Map {
            place,
            kind,
            counts,
            body,
            ..
        } => {
            let nest = walk_map(
                alloc,
                out,
                caller,
                *place,
                *kind,
                counts.as_slice(),
                body.as_slice(),
            )?;
            Ok(nest)
        }
    }
}

#[cycle(walk)]
fn walk_map<'a>(
    alloc: Global,
    out: &mut Items<Site>,
    caller: usize,
    place: Place,
    kind: LoopKind,
    each: &[u32],
    body: &'a [Statement],
) -> Result<Option<Counted<'a>>, AllocError>
    ensures nest { IfOk result (λ o. counted.nest_of o
        ≡ spec.loop_nest place kind each.now (spec.nests (map (spec.seen caller) body.now))) }
    ensures sites { IfOk result (λ o. out.new
        ≡ out.old ++ counted.found_by (counted.nest_of o) (spec.sites caller body.now)) }
{
    if !may_be_plain(kind, each) {
        walk_all(alloc, out, caller, body)?;
        return Ok(None);
    }
    let nest = walk_alone(alloc, out, caller, place, each, body)?;
    Ok(nest)
}

// The body of a loop that is plain if one call or plain loop is the whole of it.
#[cycle(walk)]
#[tactic(auto, using(crate::proofs::Walks::found_alone))]
fn walk_alone<'a>(
    alloc: Global,
    out: &mut Items<Site>,
    caller: usize,
    place: Place,
    each: &[u32],
    body: &'a [Statement],
) -> Result<Option<Counted<'a>>, AllocError>
    ensures nest { IfOk result (λ o. counted.nest_of o
        ≡ spec.looped_alone place each.now (spec.nests (map (spec.seen caller) body.now))) }
    ensures sites { IfOk result (λ o. out.new
        ≡ out.old ++ counted.found_by (counted.nest_of o) (spec.sites caller body.now)) }
{
    match body {
        [] => Ok(None),
        [one] => {
            let nest = walk(alloc, out, caller, one)?;
            let nest = looped_by(alloc, place, each, nest)?;
            Ok(nest)
        }
        [_, _, ..] => {
            walk_all(alloc, out, caller, body)?;
            Ok(None)
        }
    }
}

// What a statement is, or what stands in it.
#[cycle(walk)]
#[tactic(auto, using(crate::proofs::Walks::found_and_own))]
fn walk_part(
    alloc: Global,
    out: &mut Items<Site>,
    caller: usize,
    x: &Statement,
) -> Result<(), AllocError>
    ensures { OnOk result (out.new
        ≡ out.old ++ spec.sites_by caller (spec.seen caller x.now).nest (spec.seen caller x.now).inner) }
{
    let nest = walk(alloc, out, caller, x)?;
    push_own(out, caller, nest)?;
    Ok(())
}

#[cycle(walk)]
fn walk_all(
    alloc: Global,
    out: &mut Items<Site>,
    caller: usize,
    list: &[Statement],
) -> Result<(), AllocError>
    ensures { OnOk result (out.new ≡ out.old ++ spec.sites caller list.now) }
{
    for x in list {
        walk_part(alloc, out, caller, x)?;
    }
    Ok(())
}

/// The calls of these statements that stand in plain loops, in text order.
pub fn push_sites(
    alloc: Global,
    out: &mut Items<Site>,
    caller: usize,
    list: &[Statement],
) -> Result<(), AllocError>
    ensures { OnOk result (out.new ≡ out.old ++ spec.sites caller list.now) }
{
    walk_all(alloc, out, caller, list)?;
    Ok(())
}
