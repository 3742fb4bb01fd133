//! Statements, as they would run.

ghost use Rattle.std.specs.Prelude.{◌≡◌, ◌≤◌, ◌<◌, ◌+◌, ◌∷◌, ◌++◌, List, [], Some, Ok, true, is_some, map, take, IfOk};
ghost use Rattle.std.specs.Prelude.{OnOk};
ghost use Rattle.sq_forms.specs.Faults.{fault_in};
ghost use Rattle.sq_forms.specs.Steps.{Tests};
ghost use Rattle.std.specs.Option.{option_copied};
ghost use Rattle.sq_forms.specs.Steps as steps;
ghost use Rattle.sq_forms.specs.Args as argued;
ghost use Rattle.sq_forms.specs.Worlds as worlds;
ghost use Rattle.sq_forms.specs.Calls as calls;
ghost use Rattle.sq_forms.specs.Stmts as spec;

use crate::call::{CallSite, make_call};
use crate::known::Known;
use crate::ranges::{bind_iteration, bounds, times};
use crate::tally::{Tally, behind, call_behind, calls_of, maps_of};
use crate::walk::Walk;
use crate::world::Frame;
use sq_ast::{MapKind, Range, Stmt};
use sq_blocks::{Bindings, Env};
use sq_text::{Name, Place, Stop};
use sqlite_items::Items;
use std::alloc::Global;

/// Where statements stand in their form, iterations left aside.
#[derive(Clone, Copy)]
pub struct At<'a> {
    /// The number of the first call.
    pub call: u32,
    /// The place of the outermost map round them.
    pub outer: Option<Place>,
    /// The array that the map round them reduces into.
    pub reduced: Option<&'a Name>,
    /// Of the maps among them, and of those behind.
    pub maps: &'a [Tally],
}

pub fn reduced_by(kind: &MapKind) -> Option<&Name>
    ensures { option_copied result ≡ spec.reduced_by kind.now }
{
    match kind {
        MapKind::Par | MapKind::Seq => None,
        MapKind::Reduce { array, .. } => Some(&array.name),
    }
}

fn open_outermost(walk: &mut Walk, outer: Option<Place>)
    ensures steps { (later : List steps.Step)
        → steps.run (steps.state_of walk.old) (spec.opens outer later) ≡ steps.run (steps.state_of walk.new) later }
    ensures left { is_some outer ≡ true → walk.new.left ≤ walk.old.left }
{
    if outer.is_none() {
        walk.open();
    }
}

fn outermost(outer: Option<Place>, place: Place) -> Place
    ensures { result ≡ spec.outermost outer place }
{
    match outer {
        None => place,
        Some(outer) => outer,
    }
}

// A map begins: its bounds.
fn head(
    alloc: Global,
    walk: &mut Walk,
    known: &Known,
    numbers: &Bindings,
    outer: Option<Place>,
    ranges: &[Range],
) -> Result<Items<i64>, Stop>
    ensures steps { steps.Walks result (steps.state_of walk.old) (steps.state_of walk.new)
        (λ later. spec.opens outer (Tests
        (fault_in (spec.bounds ranges.now numbers.now (argued.names_of known.now).lists)) ∷ later)) }
    ensures bounds { IfOk result (λ ns. spec.bounds ranges.now numbers.now (argued.names_of known.now).lists ≡ Ok ns) }
    ensures left { OnOk result (is_some outer ≡ true → walk.new.left ≤ walk.old.left) }
{
    open_outermost(walk, outer);
    let env = Env {
        numbers,
        lists: &known.lists,
    };
    let bounds = bounds(alloc, &env, ranges)?;
    Ok(bounds)
}

// An iteration begins.
fn begin(
    alloc: Global,
    walk: &mut Walk,
    numbers: &mut Bindings,
    path: &mut Items<u32>,
    outer: Place,
    ranges: &[Range],
    bounds: &[i64],
    t: u32,
) -> Result<(), Stop>
    ensures steps { steps.Walks result (steps.state_of walk.old) (steps.state_of walk.new)
        (argued.use_step (Some outer)) }
    ensures numbers { OnOk result (numbers.new ≡ spec.in_iteration ranges.now bounds.now t numbers.old) }
    ensures path { OnOk result (path.new ≡ path.old ++ t ∷ []) }
    ensures left { OnOk result (walk.new.left < walk.old.left) }
{
    walk.count(alloc, outer)?;
    bind_iteration(numbers, ranges, bounds, t)?;
    path.push(t)?;
    Ok(())
}

// An iteration ends: what was known before it, and the iterations round it.
fn end(numbers: &mut Bindings, path: &mut Items<u32>, outside: usize)
    ensures numbers { numbers.new ≡ take outside numbers.old }
    ensures path { spec.Ended path.old path.new }
{
    path.pop();
    numbers.truncate(outside);
}

/// A statement. The variables of a map are known in its body alone.
#[cycle(stmt)]
#[tactic(auto, using(crate::proofs::OpenedStmt::opened_stmt))]
pub fn stmt(
    alloc: Global,
    walk: &mut Walk,
    frame: &Frame<'_>,
    known: &Known,
    numbers: &mut Bindings,
    path: &mut Items<u32>,
    at: &At<'_>,
    s: &Stmt,
) -> Result<(), Stop>
    requires { spec.Begins (spec.portion s.now).maps at.now.maps.now }
    ensures steps { steps.Walks result (steps.state_of walk.old) (steps.state_of walk.new)
        (spec.stmt_steps s.now (worlds.frame_of frame.now) (argued.names_of known.now)
        (spec.site_at at.now path.old) numbers.old) }
    ensures numbers { OnOk result (numbers.new ≡ numbers.old) }
    ensures path { OnOk result (path.new ≡ path.old) }
    ensures left { OnOk result (is_some at.now.outer ≡ true → walk.new.left ≤ walk.old.left) }
{
    match s {
        Stmt::Call(c) => {
            let site = CallSite {
                call: at.call,
                outer: at.outer,
                reduced: at.reduced,
                iterations: path.as_slice(),
            };
            make_call(alloc, walk, frame, known, numbers, &site, c)?;
            Ok(())
        }
        Stmt::Map {
            place,
            kind,
            ranges,
            body,
        } => {
            let list = ranges.as_slice();
            let bounds = head(alloc, walk, known, numbers, at.outer, list)?;
            let outer = outermost(at.outer, *place);
            let inside = At {
                call: at.call,
                outer: Some(outer),
                reduced: reduced_by(kind),
                maps: behind(at.maps, 1),
            };
            iterations(
                alloc,
                walk,
                frame,
                known,
                numbers,
                path,
                outer,
                &inside,
                list,
                bounds.as_slice(),
                body.as_slice(),
            )?;
            Ok(())
        }
    }
}

#[cycle(stmt)]
fn iterations(
    alloc: Global,
    walk: &mut Walk,
    frame: &Frame<'_>,
    known: &Known,
    numbers: &mut Bindings,
    path: &mut Items<u32>,
    outer: Place,
    inside: &At<'_>,
    ranges: &[Range],
    bounds: &[i64],
    body: &[Stmt],
) -> Result<(), Stop>
    requires outer { inside.now.outer ≡ Some outer }
    requires maps { spec.Begins (spec.maps_of (map spec.portion body.now)) inside.now.maps.now }
    ensures steps { steps.Walks result (steps.state_of walk.old) (steps.state_of walk.new)
        (spec.each 0 (spec.times bounds.now)
        (spec.iteration_steps outer (λ t. spec.site_at inside.now (path.old ++ t ∷ [])) ranges.now
        (spec.stmts_steps body.now) bounds.now (worlds.frame_of frame.now) (argued.names_of known.now) numbers.old)) }
    ensures numbers { OnOk result (numbers.new ≡ numbers.old) }
    ensures path { OnOk result (path.new ≡ path.old) }
    ensures left { OnOk result (walk.new.left ≤ walk.old.left) }
{
    let outside = numbers.len();
    let count = times(bounds).min(u64::from(walk.left) + 1);
    for t in 0..count {
        begin(alloc, walk, numbers, path, outer, ranges, bounds, t as u32)?;
        stmts(alloc, walk, frame, known, numbers, path, inside, body)?;
        end(numbers, path, outside);
    }
    Ok(())
}

#[cycle(stmt)]
pub fn stmts(
    alloc: Global,
    walk: &mut Walk,
    frame: &Frame<'_>,
    known: &Known,
    numbers: &mut Bindings,
    path: &mut Items<u32>,
    at: &At<'_>,
    list: &[Stmt],
) -> Result<(), Stop>
    requires { spec.Begins (spec.maps_of (map spec.portion list.now)) at.now.maps.now }
    ensures steps { steps.Walks result (steps.state_of walk.old) (steps.state_of walk.new)
        (spec.stmts_steps list.now (worlds.frame_of frame.now) (argued.names_of known.now)
        (spec.site_at at.now path.old) numbers.old) }
    ensures numbers { OnOk result (numbers.new ≡ numbers.old) }
    ensures path { OnOk result (path.new ≡ path.old) }
    ensures left { OnOk result (is_some at.now.outer ≡ true → walk.new.left ≤ walk.old.left) }
{
    let mut call = at.call;
    let mut maps = at.maps;
    for s in list {
        let here = At {
            call,
            outer: at.outer,
            reduced: at.reduced,
            maps,
        };
        stmt(alloc, walk, frame, known, numbers, path, &here, s)?;
        call = call_behind(call, calls_of(maps, s))?;
        maps = behind(maps, maps_of(maps, s) as usize);
    }
    Ok(())
}
