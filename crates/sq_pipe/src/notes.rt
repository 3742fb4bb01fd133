//! The notes of loops that overlap their transfers, beside those of hoisting.

ghost use Rattle.std.specs.Prelude.{◌≡◌, ◌∷◌, [], ◌++◌, get_or, take, drop, IfOk, OnOk};
ghost use Rattle.sq_ir.specs.declared.plan.Note.TheVariants as note;
ghost use Rattle.sq_hoist.specs.Chosen.Forms as forms;
ghost use Rattle.sq_hoist.specs.Notes as hoist;
ghost use Rattle.sq_pipe.specs.Notes as spec;

use crate::candidate::Candidate;
use sq_hoist::{Site, flag_at, name_at, push_site};
use sq_ir::{Note, Notes};
use sq_spec::Resolved;
use sq_text::Place;
use sqlite_items::{Items, at};
use std::alloc::{AllocError, Global};

fn push_overlap(
    alloc: Global,
    out: &mut Notes,
    r: &Resolved<'_>,
    c: Candidate,
) -> Result<(), AllocError>
    ensures { OnOk result (out.new ≡ out.old ++ note.Overlap c.place
        (forms.name_by (forms.instance_at r.now c.caller)) ∷ []) }
{
    let instance = name_at(alloc, r, c.caller)?;
    out.push(Note::Overlap {
        place: c.place,
        instance,
    })?;
    Ok(())
}

// Of those of these loops that overlap.
fn push_overlaps(
    alloc: Global,
    out: &mut Notes,
    r: &Resolved<'_>,
    taken: &[bool],
    list: &[Candidate],
) -> Result<(), AllocError>
    ensures { OnOk result (out.new ≡ out.old ++ spec.overlap_notes r.now taken.now list.now) }
{
    for c in list {
        if flag_at(taken, c.form) {
            push_overlap(alloc, out, r, *c)?;
        }
    }
    Ok(())
}

fn is_ahead_of(caller: usize, place: Place, c: Candidate) -> bool
    ensures { result ≡ spec.is_ahead_of caller place c }
{
    c.caller < caller || (c.caller == caller && c.place.is_before(place))
}

fn count_ahead(caller: usize, place: Place, list: &[Candidate]) -> usize
    ensures { result ≡ spec.count_ahead caller place list.now }
{
    for (n, c) in list.iter().enumerate() {
        if !is_ahead_of(caller, place, *c) {
            return n;
        }
    }
    list.len()
}

fn innermost(site: &Site) -> Result<Place, AllocError>
    ensures { IfOk result (λ place. place ≡ get_or site.now.loops 0 hoist.no_place) }
{
    match at(site.loops.as_slice(), 0) {
        Some(place) => Ok(*place),
        None => Err(AllocError),
    }
}

fn before_site(site: &Site, list: &[Candidate]) -> Result<usize, AllocError>
    ensures { IfOk result (λ n. n ≡ spec.before_site site.now list.now) }
{
    let place = innermost(site)?;
    Ok(count_ahead(site.caller, place, list))
}

fn front(list: &[Candidate], n: usize) -> &[Candidate]
    ensures { result.now ≡ take n list.now }
{
    if n < list.len() { &list[..n] } else { list }
}

fn behind(list: &[Candidate], n: usize) -> &[Candidate]
    ensures { result.now ≡ drop n list.now }
{
    if n < list.len() { &list[n..] } else { &[] }
}

/// The notes of calls in plain loops, and of those loops that overlap.
pub fn merged(
    alloc: Global,
    r: &Resolved<'_>,
    taken: &[bool],
    sites: &[Site],
    candidates: &[Candidate],
) -> Result<Notes, AllocError>
    ensures { IfOk result (λ notes. notes ≡ spec.merged r.now taken.now sites.now candidates.now) }
{
    let mut out = Items::new(alloc);
    let mut rest = candidates;
    for site in sites {
        let n = before_site(site, rest)?;
        push_overlaps(alloc, &mut out, r, taken, front(rest, n))?;
        push_site(alloc, &mut out, r, site)?;
        rest = behind(rest, n);
    }
    push_overlaps(alloc, &mut out, r, taken, rest)?;
    Ok(out)
}
