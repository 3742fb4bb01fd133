//! The notes of hoisting.

ghost use Rattle.std.specs.Prelude.{◌≡◌, ◌++◌, get_or, IfOk, OnOk};
ghost use Rattle.sq_ir.specs.declared.plan.Note.TheVariants as note;
ghost use Rattle.sq_chosen.specs.Forms as forms;
ghost use Rattle.sq_hoist.specs.Notes as spec;

use crate::names::param_at;
use crate::sites::Site;
use sq_chosen::name_at;
use sq_ir::{Note, Notes};
use sq_spec::Resolved;
use sq_text::Place;
use sqlite_items::{Items, at};
use std::alloc::{AllocError, Global};

fn place_at(places: &[Place], i: usize) -> Result<Place, AllocError>
    ensures { IfOk result (λ place. place ≡ get_or places.now i spec.no_place) }
{
    match at(places, i) {
        Some(place) => Ok(*place),
        None => Err(AllocError),
    }
}

fn note_of(
    alloc: Global,
    r: &Resolved<'_>,
    site: &Site,
    place: Place,
    i: usize,
) -> Result<Note, AllocError>
    ensures { IfOk result (λ n. n ≡ note.Hoist place
        (forms.name_by (forms.instance_at r.now site.now.caller)) (spec.param_at r.now site.now.form i)) }
{
    let instance = name_at(alloc, r, site.caller)?;
    let param = param_at(alloc, r, site.form, i)?;
    Ok(Note::Hoist {
        place,
        instance,
        param,
    })
}

// Of the arguments that leave so many loops, the outermost of which stands at the place.
fn push_at(
    alloc: Global,
    out: &mut Notes,
    r: &Resolved<'_>,
    site: &Site,
    place: Place,
    loops: u32,
) -> Result<(), AllocError>
    ensures { OnOk result (out.new ≡ out.old ++ spec.notes_at
        (forms.name_by (forms.instance_at r.now site.now.caller)) (spec.param_at r.now site.now.form) place loops 0
        site.now.leaves) }
{
    for (i, left) in site.leaves.as_slice().iter().enumerate() {
        if *left == loops {
            out.push(note_of(alloc, r, site, place, i)?)?;
        }
    }
    Ok(())
}

// Of so many loops, the outermost first.
fn push_out(
    alloc: Global,
    out: &mut Notes,
    r: &Resolved<'_>,
    site: &Site,
    loops: u32,
) -> Result<(), AllocError>
    ensures { OnOk result (out.new ≡ out.old ++ spec.notes_out
        (forms.name_by (forms.instance_at r.now site.now.caller)) (spec.param_at r.now site.now.form)
        site.now.loops site.now.leaves loops) }
{
    if loops == 0 {
        return Ok(());
    }
    let inside = loops - 1;
    let place = place_at(site.loops.as_slice(), inside as usize)?;
    push_at(alloc, out, r, site, place, loops)?;
    push_out(alloc, out, r, site, inside)?;
    Ok(())
}

/// The notes of a call in plain loops.
pub fn push_site(
    alloc: Global,
    out: &mut Notes,
    r: &Resolved<'_>,
    site: &Site,
) -> Result<(), AllocError>
    ensures { OnOk result (out.new ≡ out.old ++ spec.site_notes r.now site.now) }
{
    let Ok(loops) = u32::try_from(site.loops.len()) else {
        return Err(AllocError);
    };
    push_out(alloc, out, r, site, loops)?;
    Ok(())
}

/// The notes of all calls in plain loops.
pub fn notes_of(alloc: Global, r: &Resolved<'_>, sites: &[Site]) -> Result<Notes, AllocError>
    ensures { IfOk result (λ notes. notes ≡ spec.all_notes r.now sites.now) }
{
    let mut out = Items::new(alloc);
    for site in sites {
        push_site(alloc, &mut out, r, site)?;
    }
    Ok(out)
}
