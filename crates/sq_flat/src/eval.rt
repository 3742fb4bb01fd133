//! Evaluating forms.

ghost use Rattle.std.specs.Prelude.{◌≡◌, ◌+◌, ◌∷◌, [], ℕ, List, Bool, true, false, get_or, map, length, Err};
ghost use Rattle.sq_rect.specs.declared.view.View.{View};
ghost use Rattle.sq_leaf.specs.Source.{Arrays};
ghost use Rattle.sq_leaf.specs.Leaf.{leaf_value};
ghost use Rattle.sq_leaf.specs.Line.{are_in_line};
ghost use Rattle.sq_work.specs.Meaning.{Outcome, in_turn, leaf_outcome, with_turn};
ghost use Rattle.sq_work.specs.Work.{Call};
ghost use Rattle.sq_leaf.specs.Views.{Shows, shape_of};
ghost use Rattle.sq_work.specs.InTurn.{gathering, serial};
ghost use Rattle.sq_flat.specs.Memory as memory;
ghost use Rattle.sq_flat.specs.Ready as ready;
ghost use Rattle.sq_spec.specs.StatementsWork.{statement_work};
ghost use Rattle.sq_spec.specs.Bodies.{running};
ghost use Rattle.sq_flat.specs.Works as spec;

use crate::form::{End, FormCode, Unwound};
use crate::memory::{clear, combine, enter, leave, saved};
use crate::ready::{are_ready, reaches};
use sq_leaf::LeafCode;
use sq_leaf::laws::arrays_in_line_can_be_run_over;
use sq_leaf_run::run_leaf;
use sq_rect::Views;
use sq_spec::{Body, CallInstance, LoopKind, Statement};
use sq_work::Reduction;
use sqlite_items::at;
use std::alloc::{AllocError, Global};

// The forms that are evaluated.
#[derive(Clone, Copy)]
struct Setting<'a> {
    alloc: Global,
    forms: &'a [FormCode],
}

fn leaf(code: &LeafCode, views: &Views, bytes: &mut [u8], alloc: Global) -> Result<(), End>
    requires line { are_in_line 0 (length bytes.old) views.now ≡ true }
    ensures { (s : Arrays) → Shows views.now bytes.old s → spec.Follows views.now bytes.new result
        (leaf_outcome (leaf_value code.now (map shape_of views.now) s)) }
{
    arrays_in_line_can_be_run_over();
    match run_leaf(code, bytes, views) {
        Ok(()) => Ok(()),
        Err(trap) => Err(End::Trapped(Unwound {
            trap,
            turns: Vec::new(alloc),
        })),
    }
}

// The trap's path begins with the number of the iteration.
fn in_iteration(end: End, t: u32) -> End
    ensures { (vs : List View) (bytes : List ℕ) (outcome : Outcome) → spec.Follows vs bytes (Err end) outcome
        → spec.Follows vs bytes (Err result) (with_turn t outcome) }
{
    match end {
        End::NoMemory => End::NoMemory,
        End::Trapped(Unwound { trap, mut turns }) => match turns.push(t) {
            Ok(()) => End::Trapped(Unwound { trap, turns }),
            Err(_) => End::NoMemory,
        },
    }
}

#[tactic(auto, using(crate::proofs::Fitting::zero_past))]
fn count_at(counts: &[u32], k: usize) -> u32
    ensures { result ≡ get_or counts.now k 0 }
{
    if k < counts.len() { counts[k] } else { 0 }
}

#[tactic(auto, using(crate::proofs::Fitting::zero_past))]
fn start_at(starts: &[usize], k: usize) -> usize
    ensures { result ≡ get_or starts.now k 0 }
{
    if k < starts.len() { starts[k] } else { 0 }
}

// Statements one after another, where they are begun for the k-th time.
#[cycle(run)]
fn statements(
    list: &[Statement],
    k: usize,
    setting: &Setting<'_>,
    calls: usize,
    left: u32,
    views: &Views,
    bytes: &mut [u8],
) -> Result<(), End>
    requires line { ready.IsLine views.now }
    requires placed { memory.ArePlaced views.now bytes.old }
    requires forms { ready.AreForms setting.now.forms.now }
    requires rows { ready.AreReady setting.now.forms.now views.now list.now }
    ensures { (s : Arrays) → Shows views.now bytes.old s → spec.Follows views.now bytes.new result
        (serial (spec.list_work (spec.form_work setting.now.forms.now calls) list.now k) s) }
{
    for s in list {
        match statement(s, k, setting, calls, left, views, bytes) {
            Ok(()) => {}
            Err(end) => return Err(end),
        }
    }
    Ok(())
}

#[cycle(run)]
fn statement(
    s: &Statement,
    k: usize,
    setting: &Setting<'_>,
    calls: usize,
    left: u32,
    views: &Views,
    bytes: &mut [u8],
) -> Result<(), End>
    requires line { ready.IsLine views.now }
    requires placed { memory.ArePlaced views.now bytes.old }
    requires forms { ready.AreForms setting.now.forms.now }
    requires rows { ready.AreReady setting.now.forms.now views.now (s.now ∷ []) }
    ensures { (a : Arrays) → Shows views.now bytes.old a → spec.Follows views.now bytes.new result
        (serial (statement_work (spec.form_work setting.now.forms.now calls) s.now k) a) }
{
    match s {
        Statement::Call {
            lower: _,
            instances,
        } => match at(instances.as_slice(), k) {
            None => Ok(()),
            Some(r) => call(r, setting, calls, left, views, bytes),
        },
        Statement::Map {
            place: _,
            kind,
            counts,
            starts,
            body,
        } => {
            let count = count_at(counts.as_slice(), k);
            let from = start_at(starts.as_slice(), k);
            let body = body.as_slice();
            turns(kind, body, count, from, setting, calls, left, views, bytes)
        }
    }
}

// Iterations one after another; the body is begun for the first time that has the number `from`.
#[cycle(run)]
fn turns(
    kind: &LoopKind,
    body: &[Statement],
    count: u32,
    from: usize,
    setting: &Setting<'_>,
    calls: usize,
    left: u32,
    views: &Views,
    bytes: &mut [u8],
) -> Result<(), End>
    requires line { ready.IsLine views.now }
    requires placed { memory.ArePlaced views.now bytes.old }
    requires forms { ready.AreForms setting.now.forms.now }
    requires rows { ready.AreReady setting.now.forms.now views.now body.now }
    ensures { (s : Arrays) → Shows views.now bytes.old s → spec.Follows views.now bytes.new result
        (in_turn count (λ t. spec.turn_of kind.now (serial (spec.list_work (spec.form_work setting.now.forms.now calls)
        body.now (from + t)))) s) }
{
    if left == 0 {
        return Err(End::NoMemory);
    }
    for t in 0..count {
        let Some(k) = from.checked_add(t as usize) else {
            return Err(End::NoMemory);
        };
        match turn(kind, body, k, setting, calls, left - 1, views, bytes) {
            Ok(()) => {}
            Err(end) => return Err(in_iteration(end, t)),
        }
    }
    Ok(())
}

// One of them, in which the body is begun for the k-th time.
#[cycle(run)]
fn turn(
    kind: &LoopKind,
    body: &[Statement],
    k: usize,
    setting: &Setting<'_>,
    calls: usize,
    left: u32,
    views: &Views,
    bytes: &mut [u8],
) -> Result<(), End>
    requires line { ready.IsLine views.now }
    requires placed { memory.ArePlaced views.now bytes.old }
    requires forms { ready.AreForms setting.now.forms.now }
    requires rows { ready.AreReady setting.now.forms.now views.now body.now }
    ensures { (s : Arrays) → Shows views.now bytes.old s → spec.Follows views.now bytes.new result
        (spec.turn_of kind.now (serial (spec.list_work (spec.form_work setting.now.forms.now calls) body.now k)) s) }
{
    match kind {
        LoopKind::Sequential | LoopKind::Parallel => {
            statements(body, k, setting, calls, left, views, bytes)
        }
        LoopKind::Reduction(r) => gather(r, body, k, setting, calls, left, views, bytes),
    }
}

// One of a reduction: the array that is reduced into holds the identity at its start.
#[cycle(run)]
fn gather(
    r: &Reduction,
    body: &[Statement],
    k: usize,
    setting: &Setting<'_>,
    calls: usize,
    left: u32,
    views: &Views,
    bytes: &mut [u8],
) -> Result<(), End>
    requires line { ready.IsLine views.now }
    requires placed { memory.ArePlaced views.now bytes.old }
    requires forms { ready.AreForms setting.now.forms.now }
    requires rows { ready.AreReady setting.now.forms.now views.now body.now }
    ensures { (s : Arrays) → Shows views.now bytes.old s → spec.Follows views.now bytes.new result
        (gathering r.now (serial (spec.list_work (spec.form_work setting.now.forms.now calls) body.now k)) s) }
{
    let Some(view) = at(views.as_slice(), r.array as usize) else {
        return Err(End::NoMemory);
    };
    if view.elem != r.elem {
        return Err(End::NoMemory);
    }
    let Ok(mut before) = saved(setting.alloc, view, bytes) else {
        return Err(End::NoMemory);
    };
    clear(r.op, view, bytes);
    match statements(body, k, setting, calls, left, views, bytes) {
        Ok(()) => {
            combine(r.op, view, before.as_mut_slice(), bytes);
            Ok(())
        }
        Err(end) => Err(end),
    }
}

#[cycle(run)]
fn call(
    r: &CallInstance,
    setting: &Setting<'_>,
    calls: usize,
    left: u32,
    views: &Views,
    bytes: &mut [u8],
) -> Result<(), End>
    requires line { ready.IsLine views.now }
    requires placed { memory.ArePlaced views.now bytes.old }
    requires forms { ready.AreForms setting.now.forms.now }
    requires row { ready.RowFits setting.now.forms.now views.now r.now }
    ensures { (lower : Bool) (s : Arrays) → Shows views.now bytes.old s
        → spec.Follows views.now bytes.new result (serial (Call r.now.form lower r.now.args
        (spec.form_work setting.now.forms.now calls r.now.form)) s) }
{
    if left == 0 || calls == 0 {
        return Err(End::NoMemory);
    }
    let Some(f) = at(setting.forms, r.form) else {
        return Err(End::NoMemory);
    };
    let args = r.args.as_slice();
    let inner = f.views.as_slice();
    let Ok(mut memory) = enter(setting.alloc, args, views.as_slice(), bytes, inner) else {
        return Err(End::NoMemory);
    };
    let inside = memory.as_mut_slice();
    match run(f, setting, calls - 1, left - 1, inside) {
        Ok(()) => {
            leave(args, 0, views.as_slice(), inner, inside, bytes);
            Ok(())
        }
        Err(end) => Err(end),
    }
}

// Runs a form over its memory.
#[cycle(run)]
fn run(
    f: &FormCode,
    setting: &Setting<'_>,
    calls: usize,
    left: u32,
    bytes: &mut [u8],
) -> Result<(), End>
    requires form { ready.IsForm setting.now.forms.now f.now }
    requires forms { ready.AreForms setting.now.forms.now }
    requires size { length bytes.old ≡ memory.total (map shape_of f.now.views) }
    ensures { (s : Arrays) → Shows f.now.views bytes.old s → spec.Follows f.now.views bytes.new result
        (serial (running (spec.form_work setting.now.forms.now calls) (map shape_of f.now.views) f.now.body) s) }
{
    match &f.body {
        Body::Leaf(code) => leaf(code, &f.views, bytes, setting.alloc),
        Body::Inner(list) => statements(list.as_slice(), 0, setting, calls, left, &f.views, bytes),
    }
}

// How many maps and calls may stand within one another while forms run; a program that is resolved has fewer.
const MOST_NESTED: u32 = 1024;

/// Calls one of these forms over a memory, which changes as the source means, or the trap is answered. NoMemory also
/// where the forms aren't ready (`are_ready`) or the form doesn't fit the call.
#[tactic(auto, using(crate::proofs::Checks::row_ready))]
pub fn run_call(
    alloc: Global,
    forms: &[FormCode],
    r: &CallInstance,
    views: &Views,
    bytes: &mut [u8],
) -> Result<(), End>
    requires line { ready.IsLine views.now }
    requires placed { memory.ArePlaced views.now bytes.old }
    ensures { (s : Arrays) → Shows views.now bytes.old s → spec.Follows views.now bytes.new result
        (serial (Call r.now.form false r.now.args (spec.form_work forms.now (length forms.now) r.now.form)) s) }
{
    if !are_ready(forms) || !reaches(views.as_slice(), r, at(forms, r.form)) {
        return Err(End::NoMemory);
    }
    let setting = Setting { alloc, forms };
    call(r, &setting, forms.len(), MOST_NESTED, views, bytes)
}
