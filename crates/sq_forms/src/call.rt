//! What is tested at a call, and the form that it reaches.

ghost use Rattle.std.specs.Prelude.{◌≡◌, ◌≤◌, ◌+◌, ◌++◌, ◌==◌, ◌∷◌, [], None, Some, map, length, false, IfOk, OnOk};
ghost use Rattle.std.specs.Map.{lookup};
ghost use Rattle.sq_text.specs.Names.{same_name};
ghost use Rattle.std.specs.List.{list_any};
ghost use Rattle.std.specs.Option.{option_copied};
ghost use Rattle.sq_ast.specs.Modes as modes;
ghost use Rattle.sq_blocks.specs.Arguments as arguments;
ghost use Rattle.sq_forms.specs.Faults.{Makes, Passes};
ghost use Rattle.sq_forms.specs.Steps as steps;
ghost use Rattle.sq_forms.specs.Steps.{Calls};
ghost use Rattle.sq_forms.specs.Args as argued;
ghost use Rattle.sq_forms.specs.Worlds as worlds;
ghost use Rattle.sq_forms.specs.Calls as spec;

use crate::args::args;
use crate::faults::refusal_named;
use crate::form::{Caller, Found, Key, Use};
use crate::known::Known;
use crate::walk::Walk;
use crate::world::{Callee, Frame, callee_of};
use sq_ast::{ArgUse, Call, Extent, Mode, Param};
use sq_blocks::views::{Dims, Rect, overlap};
use sq_blocks::{Argument, Bindings};
use sq_text::{Code, Name, Place, Span, Stop};
use sqlite_items::{Items, at};
use std::alloc::{AllocError, Global};

const MOST_ROUND: usize = 64;

/// Where a call stands in its form.
#[derive(Clone, Copy)]
pub struct CallSite<'a> {
    /// The number of the call; of a statement, that of its first one.
    pub call: u32,
    /// The place of the outermost map round it.
    pub outer: Option<Place>,
    /// The array that the map round it reduces into.
    pub reduced: Option<&'a Name>,
    /// Of the maps round it, outermost first.
    pub iterations: &'a [u32],
}

fn shares(x: &Argument, y: &Argument) -> bool
    ensures { result ≡ spec.shares x.now y.now }
{
    let dims = x.rect.as_slice().len();
    x.array == y.array && dims == y.rect.as_slice().len() && overlap(&x.rect, &y.rect)
}

pub fn is_written(mode: Mode) -> bool
    ensures { result ≡ modes.is_written mode }
{
    match mode {
        Mode::Input => false,
        Mode::Output | Mode::Both => true,
    }
}

// A written argument among these shares an element.
fn has_clash(x: &Argument, others: &[Argument]) -> bool
    ensures { result ≡ list_any (spec.clashes x.now) others.now }
{
    for y in others {
        if is_written(y.mode) && shares(x, y) {
            return true;
        }
    }
    false
}

// The first written argument that shares an element with a written one before it.
fn alias(list: &[Argument]) -> Option<usize>
    ensures { result ≡ spec.alias_from 0 [] list.now }
{
    for (i, x) in list.iter().enumerate() {
        if is_written(x.mode) && has_clash(x, &list[..i]) {
            return Some(i);
        }
    }
    None
}

fn meets(x: &Argument, y: &Argument) -> bool
    ensures { result ≡ spec.meets x.now y.now }
{
    shares(x, y) && (is_written(x.mode) || is_written(y.mode))
}

fn is_apart(x: &Argument, k: usize, list: &[Argument]) -> bool
    ensures { result ≡ spec.is_apart x.now k 0 list.now }
{
    for (j, y) in list.iter().enumerate() {
        if j != k && meets(x, y) {
            return false;
        }
    }
    true
}

// Which arguments of a call are in place; none where it isn't at the same level.
pub fn flags(
    alloc: Global,
    is_same_level: bool,
    list: &[Argument],
) -> Result<Items<bool>, AllocError>
    ensures { IfOk result (λ flags. flags ≡ spec.flags is_same_level list.now) }
{
    let mut flags = Items::new(alloc);
    for (k, x) in list.iter().enumerate() {
        let is_in_place = is_same_level && !x.is_reduced && is_apart(x, k, list);
        flags.push(is_in_place)?;
    }
    Ok(flags)
}

// The lengths of further spans, behind those of the first.
fn more_lengths(mut dims: Dims, spans: &[Span]) -> Dims
    requires { length dims + length spans.now ≤ 3 }
    ensures { result ≡ dims ++ arguments.lengths spans.now }
{
    let Some((s, spans)) = spans.split_first() else {
        return dims;
    };
    dims.push(s.hi.saturating_sub(s.lo));
    more_lengths(dims, spans)
}

pub fn lengths(rect: &Rect) -> Dims
    ensures { result ≡ arguments.lengths rect.now }
{
    let Some((s, spans)) = rect.as_slice().split_first() else {
        return Dims::new(0);
    };
    more_lengths(Dims::new(s.hi.saturating_sub(s.lo)), spans)
}

fn bind_extent(sizes: &mut Bindings, extent: &Extent, n: u32) -> Result<bool, AllocError>
    ensures { IfOk result (λ fits. spec.Binds (spec.bind_extent sizes.old extent.now n) fits sizes.new) }
{
    match extent {
        Extent::Size(_, name) => match sizes.get(name) {
            Some(m) => Ok(m == i64::from(n)),
            None => {
                sizes.bind(name, i64::from(n))?;
                Ok(true)
            }
        },
        Extent::Fixed(_, m) => Ok(*m == i64::from(n)),
    }
}

// Whether the extents fit a parameter's, with the sizes that they bind.
pub fn bind_extents(
    sizes: &mut Bindings,
    extents: &[Extent],
    dims: &[u32],
) -> Result<bool, AllocError>
    ensures { IfOk result (λ fits. spec.Binds (spec.bind_from sizes.old extents.now 0 dims.now) fits sizes.new) }
{
    for (i, extent) in extents.iter().enumerate() {
        let Some(n) = at(dims, i) else {
            return Ok(false);
        };
        if !bind_extent(sizes, extent, *n)? {
            return Ok(false);
        }
    }
    Ok(true)
}

fn bind_argument(
    sizes: &mut Bindings,
    param: &Param,
    x: Option<&Argument>,
) -> Result<bool, AllocError>
    ensures { IfOk result (λ fits. spec.Binds
        (spec.bind_there_all sizes.old param.now (option_copied x.entry)) fits sizes.new) }
{
    let Some(x) = x else {
        return Ok(true);
    };
    let dims = lengths(&x.rect);
    let fits = bind_extents(sizes, param.extents.as_slice(), dims.as_slice())?;
    Ok(fits)
}

// The first argument that doesn't fit its parameter.
fn shape(alloc: Global, params: &[Param], list: &[Argument]) -> Result<Option<usize>, AllocError>
    ensures { IfOk result (λ i. i ≡ spec.shape_from 0 [] params.now list.now) }
{
    let mut sizes = Bindings::new(alloc);
    for (i, param) in params.iter().enumerate() {
        if !bind_argument(&mut sizes, param, at(list, i))? {
            return Ok(Some(i));
        }
    }
    Ok(None)
}

// Refused at the argument in a position.
fn refuse_arg(alloc: Global, code: Code, list: &[ArgUse], i: Option<usize>) -> Result<(), Stop>
    ensures { Passes result (spec.fault_of_arg code list.now i) }
{
    let Some(i) = i else {
        return Ok(());
    };
    match at(list, i) {
        Some(a) => Err(refusal_named(alloc, code, a.place, &a.name)),
        None => Ok(()),
    }
}

#[tactic(auto, unfolding(crate::specs::Calls::most_round))]
fn is_too_deep(frame: &Frame<'_>, site: &CallSite<'_>) -> bool
    ensures { result ≡ spec.is_too_deep (worlds.frame_of frame.now) (spec.site_of site.now) }
{
    MOST_ROUND < frame.maps.saturating_add(site.iterations.len()) || MOST_ROUND < frame.depth
}

// The form that a call reaches.
#[tactic(auto, unfolding(crate::specs::Calls::most_round))]
fn form_of(
    alloc: Global,
    frame: &Frame<'_>,
    callee: &Callee<'_>,
    site: &CallSite<'_>,
    list: &[Argument],
) -> Result<Found, AllocError>
    requires { spec.is_too_deep (worlds.frame_of frame.now) (spec.site_of site.now) ≡ false }
    ensures { Makes result (spec.form_of (worlds.frame_of frame.now) (worlds.callee_by callee.now)
        (spec.site_of site.now) list.now) }
{
    let mut extents = Items::new(alloc);
    for x in list {
        extents.push(lengths(&x.rect))?;
    }
    let in_place = flags(alloc, callee.level == frame.level, list)?;
    Ok(Found {
        instance: callee.instance,
        level: callee.level,
        extents,
        in_place,
        caller: Some(Caller {
            form: frame.form,
            call: site.call,
        }),
        maps: frame.maps + site.iterations.len(),
        depth: frame.depth + 1,
    })
}

fn push_flags(numbers: &mut Items<u32>, flags: &[bool]) -> Result<(), AllocError>
    ensures { OnOk result (numbers.new ≡ numbers.old ++ map spec.bit flags.now) }
{
    for flag in flags {
        numbers.push(if *flag { 1 } else { 0 })?;
    }
    Ok(())
}

fn push_dims(numbers: &mut Items<u32>, dims: &Dims) -> Result<(), AllocError>
    ensures { OnOk result (numbers.new ≡ numbers.old ++ length dims.now ∷ dims.now) }
{
    let list = dims.as_slice();
    numbers.push(list.len() as u32)?;
    for n in list {
        numbers.push(*n)?;
    }
    Ok(())
}

fn push_extents(numbers: &mut Items<u32>, extents: &[Dims]) -> Result<(), AllocError>
    ensures { OnOk result (numbers.new ≡ numbers.old ++ spec.key_extents extents.now) }
{
    for dims in extents {
        push_dims(numbers, dims)?;
    }
    Ok(())
}

pub fn key_of(
    alloc: Global,
    form: u32,
    call: u32,
    instance: u32,
    in_place: &[bool],
    extents: &[Dims],
) -> Result<Key, AllocError>
    ensures { Makes result (spec.key_of form call instance in_place.now extents.now) }
{
    let mut numbers = Items::new(alloc);
    numbers.push(form)?;
    numbers.push(call)?;
    numbers.push(instance)?;
    push_flags(&mut numbers, in_place)?;
    numbers.push(2)?;
    push_extents(&mut numbers, extents)?;
    Ok(Key::new(numbers))
}

// Where it has 32 bits; else memory would have run out before.
fn narrow(n: usize) -> Result<u32, AllocError>
    ensures { Makes result n }
{
    match u32::try_from(n) {
        Ok(n) => Ok(n),
        Err(_) => Err(AllocError),
    }
}

fn push_uses(
    alloc: Global,
    uses: &mut Items<Use>,
    site: &CallSite<'_>,
    callee: u32,
    list: &[Argument],
) -> Result<(), AllocError>
    ensures { OnOk result (uses.new ≡ uses.old ++ spec.uses_from (spec.site_of site.now) callee 0 list.now) }
{
    for (arg, x) in list.iter().enumerate() {
        let arg = narrow(arg)?;
        let iterations = Items::from_slice(alloc, site.iterations)?;
        uses.push(Use {
            call: site.call,
            arg,
            iterations,
            array: x.array,
            rect: x.rect.copy(),
            mode: x.mode,
            callee,
        })?;
    }
    Ok(())
}

// The form that a call reaches, and the accesses.
fn enter(
    alloc: Global,
    walk: &mut Walk,
    frame: &Frame<'_>,
    callee: &Callee<'_>,
    site: &CallSite<'_>,
    c: &Call,
    list: &[Argument],
) -> Result<(), Stop>
    requires { spec.is_too_deep (worlds.frame_of frame.now) (spec.site_of site.now) ≡ false }
    ensures steps { steps.Walks result (steps.state_of walk.old) (steps.state_of walk.new)
        (λ later. Calls (spec.call_of (worlds.frame_of frame.now) (worlds.callee_by callee.now)
        (spec.site_of site.now) c.now list.now) ∷ later) }
    ensures left { OnOk result (walk.new.left ≤ walk.old.left) }
{
    let form = form_of(alloc, frame, callee, site, list)?;
    let key = key_of(
        alloc,
        frame.form,
        site.call,
        callee.instance,
        form.in_place.as_slice(),
        form.extents.as_slice(),
    )?;
    let Some(number) = walk.enter(key, form)? else {
        return Err(refusal_named(alloc, Code::LimitCalls, c.place, &c.task));
    };
    push_uses(alloc, &mut walk.uses, site, narrow(number)?, list)?;
    Ok(())
}

fn refuse_depth(alloc: Global, frame: &Frame<'_>, site: &CallSite<'_>, c: &Call) -> Result<(), Stop>
    ensures passes { Passes result (spec.depth_fault (worlds.frame_of frame.now) (spec.site_of site.now) c.now) }
    ensures few { OnOk result (spec.is_too_deep (worlds.frame_of frame.now) (spec.site_of site.now) ≡ false) }
{
    if is_too_deep(frame, site) {
        return Err(refusal_named(alloc, Code::LimitDepth, c.place, &c.task));
    }
    Ok(())
}

// What is tested once the arguments are examined, and the form.
fn reach(
    alloc: Global,
    walk: &mut Walk,
    frame: &Frame<'_>,
    callee: &Callee<'_>,
    site: &CallSite<'_>,
    c: &Call,
    list: &[Argument],
) -> Result<(), Stop>
    ensures steps { steps.Walks result (steps.state_of walk.old) (steps.state_of walk.new)
        (spec.reached_steps (worlds.frame_of frame.now) (worlds.callee_by callee.now)
        (spec.site_of site.now) c.now list.now) }
    ensures left { OnOk result (walk.new.left ≤ walk.old.left) }
{
    let uses = c.args.as_slice();
    let misfit = shape(alloc, callee.params, list)?;
    refuse_arg(alloc, Code::Shape, uses, misfit)?;
    refuse_arg(alloc, Code::Alias, uses, alias(list))?;
    refuse_depth(alloc, frame, site, c)?;
    enter(alloc, walk, frame, callee, site, c, list)
}

/// A call: its arguments, the tests, and the form that it reaches.
pub fn make_call(
    alloc: Global,
    walk: &mut Walk,
    frame: &Frame<'_>,
    known: &Known,
    numbers: &Bindings,
    site: &CallSite<'_>,
    c: &Call,
) -> Result<(), Stop>
    ensures steps { steps.Walks result (steps.state_of walk.old) (steps.state_of walk.new)
        (spec.call_steps (worlds.frame_of frame.now) (argued.names_of known.now)
        (spec.site_of site.now) numbers.now c.now) }
    ensures left { OnOk result (walk.new.left ≤ walk.old.left) }
{
    let Some(callee) = callee_of(frame, &c.task) else {
        return Ok(());
    };
    let list = args(
        alloc,
        walk,
        site.outer,
        known,
        numbers,
        site.reduced,
        callee.params,
        c.args.as_slice(),
    )?;
    reach(alloc, walk, frame, &callee, site, c, list.as_slice())
}
