//! The passes one by one, each as a call of its own.
//!
//! A draft is built of the program and of what is chosen for its forms, so a pass reads nothing of the draft that it is
//! handed: it drops that draft before the new one takes memory. Who asks for the last pass alone builds one draft, of what
//! this chooses.

ghost use Rattle.std.specs.Prelude.{◌≡◌, [], IfOk};
ghost use Rattle.sq_homes.specs.Drafts.{IsDraftOf};
ghost use Rattle.sq_pipe.specs.Hoist.Choices as hoist;
ghost use Rattle.sq_pipe.specs.Hoist.Notes as hoist_notes;
ghost use Rattle.sq_pipe.specs.Greedy as pipe;
ghost use Rattle.sq_pipe.specs.Notes as pipe_notes;
ghost use Rattle.sq_passes.specs.Choices as spec;

use crate::choices::{all_in_buffers, all_in_place};
use sq_homes::{Choice, Chosen, draft_of, drop_draft};
use sq_ir::Draft;
use sq_pipe::{hoisted, overlapped};
use sq_spec::Resolved;
use sqlite_items::Items;
use std::alloc::{AllocError, Global};

// Of which nothing is told.
fn unnoted(alloc: Global, choices: Items<Choice>) -> Chosen
    ensures choices { result.choices ≡ choices }
    ensures notes { result.notes ≡ [] }
{
    Chosen {
        choices,
        notes: Items::new(alloc),
    }
}

/// The draft of a program in which every argument has a buffer: all arguments of lower calls, and of same-level calls
/// too. It has no note.
pub fn lower(alloc: Global, r: &Resolved<'_>) -> Result<Draft, AllocError>
    ensures draft { IfOk result (λ d. IsDraftOf r.now (spec.all_in_buffers r.now) d) }
    ensures notes { IfOk result (λ d. d.notes ≡ []) }
{
    let choices = all_in_buffers(alloc, r.forms())?;
    let draft = draft_of(alloc, r, unnoted(alloc, choices))?;
    Ok(draft)
}

/// The draft of a program in which an argument of a same-level call that shares no element with another one, or of
/// which neither is written, stands in the caller's array, with no copy. The draft that is handed in is dropped before
/// the new one takes memory. It has no note.
pub fn drop_copies(alloc: Global, r: &Resolved<'_>, draft: Draft) -> Result<Draft, AllocError>
    ensures draft { IfOk result (λ d. IsDraftOf r.now (spec.all_in_place r.now) d) }
    ensures notes { IfOk result (λ d. d.notes ≡ []) }
{
    drop_draft(draft);
    let choices = all_in_place(alloc, r.forms())?;
    let made = draft_of(alloc, r, unnoted(alloc, choices))?;
    Ok(made)
}

/// The draft of a program in which each argument of a lower call leaves the outermost of the plain loops round its
/// call in which its block stays the same, apart from the other arguments; what is in place stands there as without
/// hoisting. It has a note for each argument that leaves a loop. The draft that is handed in is dropped before the new
/// one takes memory.
pub fn hoist(alloc: Global, r: &Resolved<'_>, draft: Draft) -> Result<Draft, AllocError>
    ensures draft { IfOk result (λ d. IsDraftOf r.now (hoist.hoisted r.now) d) }
    ensures notes { IfOk result (λ d. d.notes ≡ hoist_notes.notes_of r.now) }
{
    drop_draft(draft);
    let chosen = hoisted(alloc, r)?;
    let made = draft_of(alloc, r, chosen)?;
    Ok(made)
}

/// The draft of a program in which arguments leave loops as by `hoist`, and beside the transfers of loops overlap with
/// their work: in order, of each loop that may and for which all nodes still have room. It has a note for each argument
/// that leaves a loop, and for each loop that overlaps. The draft that is handed in is dropped before the new one takes
/// memory.
pub fn overlap_transfers(alloc: Global, r: &Resolved<'_>, draft: Draft) -> Result<Draft, AllocError>
    ensures draft { IfOk result (λ d. IsDraftOf r.now (pipe.overlapped r.now) d) }
    ensures notes { IfOk result (λ d. d.notes ≡ pipe_notes.notes_of r.now) }
{
    drop_draft(draft);
    let chosen = overlapped(alloc, r)?;
    let made = draft_of(alloc, r, chosen)?;
    Ok(made)
}
