//! What leaves loops, and which loops overlap their transfers, of a whole program.

ghost use Rattle.std.specs.Prelude.{◌≡◌, IfOk};
ghost use Rattle.sq_hoist.specs.Choices as hoist;
ghost use Rattle.sq_pipe.specs.Greedy as spec;
ghost use Rattle.sq_pipe.specs.Notes as notes;

use crate::choices::overlaps_of;
use crate::greedy::taken_of;
use crate::notes::merged;
use sq_hoist::{Choice, Chosen, Site, choices_of, sites_of};
use sq_spec::Resolved;
use std::alloc::{AllocError, Global};

// Beside what hoisting chooses.
fn chosen_beside(
    alloc: Global,
    r: &Resolved<'_>,
    sites: &[Site],
    choices: &[Choice],
) -> Result<Chosen, AllocError>
    requires sites { sites.now ≡ hoist.sites_of r.now }
    requires choices { choices.now ≡ hoist.hoisted r.now }
    ensures choices { IfOk result (λ c. c.choices ≡ spec.overlapped r.now) }
    ensures notes { IfOk result (λ c. c.notes ≡ notes.notes_of r.now) }
{
    let found = taken_of(alloc, r, choices)?;
    let taken = found.taken.as_slice();
    let notes = merged(alloc, r, taken, sites, found.candidates.as_slice())?;
    let choices = overlaps_of(alloc, taken, choices)?;
    Ok(Chosen { choices, notes })
}

/// What all passes choose: arguments leave loops as by `hoisted`, and beside the transfers of loops overlap with their
/// work: in order, of each loop that may and for which all nodes still have room. There is a note for each argument that
/// leaves a loop, and for each loop that overlaps.
pub fn overlapped(alloc: Global, r: &Resolved<'_>) -> Result<Chosen, AllocError>
    ensures choices { IfOk result (λ c. c.choices ≡ spec.overlapped r.now) }
    ensures notes { IfOk result (λ c. c.notes ≡ notes.notes_of r.now) }
{
    let sites = sites_of(alloc, r)?;
    let choices = choices_of(alloc, r.forms(), sites.as_slice())?;
    let chosen = chosen_beside(alloc, r, sites.as_slice(), choices.as_slice())?;
    Ok(chosen)
}
