//! Which loops are taken: in order, each for which all nodes still have room.

ghost use Rattle.std.specs.Prelude.{◌≡◌, ◌+◌, [], slice_get, IfOk};
ghost use Rattle.sq_hoist.specs.SpecLaws.Needs as needs;
ghost use Rattle.sq_pipe.specs.Sums as sums;
ghost use Rattle.sq_pipe.specs.Greedy as spec;

use crate::candidate::Candidate;
use crate::reach::set_flag;
use crate::room::Room;
use crate::sizes::plus;
use sq_forms::{Caller, Form};
use sq_hoist::flag_at;
use sqlite_items::{Items, at};
use std::alloc::{AllocError, Global};

// Where this form's buffers end, if it is of this level.
#[tactic(auto, using(crate::proofs::Ends::ended_at))]
fn end_at(forms: &[Form], ends: &[u64], level: u32, form: usize) -> u64
    ensures { result ≡ needs.end_at level (slice_get (sums.ended_by forms.now ends.now) form) }
{
    let Some(f) = at(forms, form) else {
        return 0;
    };
    match at(ends, form) {
        None => 0,
        Some(end) => { if f.level == level { *end } else { 0 } }
    }
}

fn callers_end(forms: &[Form], ends: &[u64], level: u32, caller: Option<Caller>) -> u64
    ensures { result ≡ needs.callers_end (sums.ended_by forms.now ends.now) level caller }
{
    match caller {
        None => 0,
        Some(c) => end_at(forms, ends, level, c.form as usize),
    }
}

fn bytes_of(x: &Room, taken: bool) -> Result<u64, AllocError>
    ensures { IfOk result (λ n. n ≡ spec.bytes_of x.now taken) }
{
    if taken {
        plus(x.own, x.more)
    } else {
        Ok(x.own)
    }
}

fn end_of(
    forms: &[Form],
    ends: &[u64],
    form: &Form,
    x: &Room,
    taken: bool,
) -> Result<u64, AllocError>
    ensures { IfOk result (λ n. n ≡ needs.callers_end (sums.ended_by forms.now ends.now) form.now.level form.now.caller
        + spec.bytes_of x.now taken) }
{
    let bytes = bytes_of(x, taken)?;
    plus(callers_end(forms, ends, form.level, form.caller), bytes)
}

// Whether all nodes have room, where the loops that call these forms overlap.
fn have_room(
    alloc: Global,
    forms: &[Form],
    rooms: &[Room],
    taken: &[bool],
) -> Result<bool, AllocError>
    ensures { IfOk result (λ fits. fits ≡ spec.have_room taken.now 0 forms.now rooms.now []) }
{
    let mut ends = Items::new(alloc);
    let mut rest = rooms;
    for (k, form) in forms.iter().enumerate() {
        let Some((x, more)) = rest.split_first() else {
            return Ok(true);
        };
        let end = end_of(forms, ends.as_slice(), form, x, flag_at(taken, k))?;
        if x.room < end {
            return Ok(false);
        }
        ends.push(end)?;
        rest = more;
    }
    Ok(true)
}

fn with_form(alloc: Global, taken: &[bool], form: usize) -> Result<Items<bool>, AllocError>
    ensures { IfOk result (λ flags. flags ≡ spec.with_form taken.now form) }
{
    let mut flags = Items::from_slice(alloc, taken)?;
    set_flag(&mut flags, form);
    Ok(flags)
}

fn none_taken(alloc: Global, forms: &[Form]) -> Result<Items<bool>, AllocError>
    ensures { IfOk result (λ flags. flags ≡ spec.none_taken forms.now) }
{
    let mut flags = Items::new(alloc);
    for _ in forms {
        flags.push(false)?;
    }
    Ok(flags)
}

/// Of each form whether the loop that calls it overlaps its transfers.
pub fn taken_from(
    alloc: Global,
    forms: &[Form],
    rooms: &[Room],
    candidates: &[Candidate],
) -> Result<Items<bool>, AllocError>
    ensures { IfOk result (λ flags. flags ≡ spec.taken_from (λ taken. spec.have_room taken 0 forms.now rooms.now [])
        (spec.none_taken forms.now) candidates.now) }
{
    let mut taken = none_taken(alloc, forms)?;
    for c in candidates {
        let more = with_form(alloc, taken.as_slice(), c.form)?;
        if have_room(alloc, forms, rooms, more.as_slice())? {
            taken = more;
        }
    }
    Ok(taken)
}
