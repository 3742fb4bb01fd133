//! The forms of a program under its mapping.

ghost use Rattle.std.specs.Prelude.{◌≡◌, ◌∷◌, [], Some, map, option_map, slice_get, IfOk, OnOk};
ghost use Rattle.std.specs.Option.{option_copied};
ghost use Rattle.sq_forms.specs.Faults.{Gives, Makes, Leaves};
ghost use Rattle.sq_forms.specs.Steps.{state_of, run};
ghost use Rattle.sq_forms.specs.Tables.{variant_of};
ghost use Rattle.sq_forms.specs.Stmts.{tallies_of, all_tallies, tallies_in};
ghost use Rattle.sq_forms.specs.Worlds as worlds;
ghost use Rattle.sq_forms.specs.Decls as decls;
ghost use Rattle.sq_forms.specs.Resolving as spec;

use crate::decls::{Scope, declare_all, dims_of, params};
use crate::faults::refusal_named;
use crate::form::{Form, Found, Key, LocalArray, Use};
use crate::stmt::{At, stmts};
use crate::tables::{RoutesByTask, SettingsByName, Variants};
use crate::tally::{Tally, all_tallies};
use crate::walk::Walk;
use crate::world::Frame;
use indexmap::IndexMap;
use sq_ast::{Body, Extent, Param, Variant};
use sq_blocks::views::Dims;
use sq_mapping::{Instance, Mapping, SizeSet};
use sq_text::{Code, Name, Stop};
use sqlite_items::{Items, at};
use std::alloc::{AllocError, Global};
use std::mem::replace;

const MOST_FORMS: u32 = 4_096;

/// The forms that are found so far, and those that were walked, with their accesses.
#[derive(Drop)]
pub struct Resolving {
    pub walk: Walk,
    pub forms: Items<Form>,
    pub uses: Items<Items<Use>>,
}

fn copy_dims(alloc: Global, list: &[Dims]) -> Result<Items<Dims>, AllocError>
    ensures { Makes result list.now }
{
    let mut copy = Items::new(alloc);
    for dims in list {
        copy.push(dims.copy())?;
    }
    Ok(copy)
}

fn copy_of(alloc: Global, form: &Found) -> Result<Found, AllocError>
    ensures { Makes result form.now }
{
    let extents = copy_dims(alloc, form.extents.as_slice())?;
    let in_place = Items::from_slice(alloc, form.in_place.as_slice())?;
    Ok(Found {
        instance: form.instance,
        level: form.level,
        extents,
        in_place,
        caller: form.caller,
        maps: form.maps,
        depth: form.depth,
    })
}

// The form with this number, where there is one.
fn form_at(
    alloc: Global,
    forms: &IndexMap<Key, Found>,
    k: usize,
) -> Result<Option<Found>, AllocError>
    ensures { Makes result (option_map (λ e. e.1) (slice_get forms.now.entries k)) }
{
    match forms.get_index(k) {
        Some((_, form)) => {
            let copy = copy_of(alloc, form)?;
            Ok(Some(copy))
        }
        None => Ok(None),
    }
}

fn walk_body(
    alloc: Global,
    walk: &mut Walk,
    frame: &Frame<'_>,
    scope: &mut Scope,
    body: &Body,
    maps: &[Tally],
) -> Result<(), Stop>
    requires { maps.now ≡ tallies_of body.now }
    ensures ran { Leaves result (run (state_of walk.old)
        (spec.body_steps body.now (worlds.frame_of frame.now) (decls.scope_of scope.old))) (state_of walk.new) }
    ensures locals { OnOk result (scope.new.locals ≡ scope.old.locals) }
{
    match body {
        Body::Inner(list) => {
            let mut path = Items::new(alloc);
            let at = At {
                call: 0,
                outer: None,
                reduced: None,
                maps,
            };
            stmts(
                alloc,
                walk,
                frame,
                &scope.known,
                &mut scope.numbers,
                &mut path,
                &at,
                list.as_slice(),
            )?;
            Ok(())
        }
        Body::Leaf(_) => Ok(()),
    }
}

// A form whose parameters are known.
fn walk_scope(
    alloc: Global,
    frame: &Frame<'_>,
    walk: &mut Walk,
    x: &Instance,
    v: &Variant,
    maps: &[Tally],
    mut scope: Scope,
) -> Result<Items<LocalArray>, Stop>
    requires left { walk.old.left ≡ 0 }
    requires uses { walk.old.uses ≡ [] }
    requires maps { maps.now ≡ tallies_of v.now.body }
    ensures { spec.Ends result (spec.walked_at (worlds.frame_of frame.now) x.now v.now walk.old.forms.entries
        (decls.scope_of scope)) walk.new }
{
    let settings = SettingsByName::new(alloc, x.tunings.as_slice())?;
    declare_all(alloc, &mut scope, &settings, v.decls.as_slice())?;
    walk_body(alloc, walk, frame, &mut scope, &v.body, maps)?;
    Ok(scope.into_locals())
}

// The tallies of the maps of the variant that an instance is of.
fn tallies_at<'a>(variants: &Variants<'_>, tallies: &'a [Items<Tally>], x: &Instance) -> &'a [Tally]
    requires { tallies.now ≡ all_tallies variants.now.list.now }
    ensures { result.now ≡ tallies_in (variant_of variants.now.list.now x.now.task x.now.kind) }
{
    match variants.number(&x.task, x.kind) {
        Some(i) => match at(tallies, i) {
            Some(maps) => maps.as_slice(),
            None => &[],
        },
        None => &[],
    }
}

// The form with this number, once it is found.
fn walk_form(
    alloc: Global,
    variants: &Variants<'_>,
    tallies: &[Items<Tally>],
    instances: &[Instance],
    walk: &mut Walk,
    k: u32,
    form: &Found,
) -> Result<Items<LocalArray>, Stop>
    requires left { walk.old.left ≡ 0 }
    requires uses { walk.old.uses ≡ [] }
    requires tallies { tallies.now ≡ all_tallies variants.now.list.now }
    ensures { spec.Ends result (spec.walk_of variants.now.list.now instances.now k form.now walk.old.forms.entries)
        walk.new }
{
    let Some(x) = at(instances, form.instance as usize) else {
        return Ok(Items::new(alloc));
    };
    let Some(v) = variants.get(&x.task, x.kind) else {
        return Ok(Items::new(alloc));
    };
    let mut scope = Scope::new(alloc);
    let list = v.params.as_slice();
    if !params(alloc, &mut scope, list, form.extents.as_slice())? {
        return Ok(Items::new(alloc));
    }
    let routes = RoutesByTask::new(alloc, x.routes.as_slice())?;
    let frame = Frame {
        variants,
        instances,
        routes: &routes,
        form: k,
        level: x.level,
        maps: form.maps,
        depth: form.depth,
    };
    let maps = tallies_at(variants, tallies, x);
    walk_scope(alloc, &frame, walk, x, v, maps, scope)
}

fn with_locals(found: Found, locals: Items<LocalArray>) -> Form
    ensures { result ≡ spec.with_locals found locals }
{
    let Found {
        instance,
        level,
        extents,
        in_place,
        caller,
        ..
    } = found;
    Form {
        instance,
        level,
        extents,
        in_place,
        caller,
        locals,
    }
}

// Keeps the form that was walked, and its accesses.
fn keep(
    alloc: Global,
    r: &mut Resolving,
    found: Found,
    locals: Items<LocalArray>,
) -> Result<(), AllocError>
    ensures kept { OnOk result (spec.resolving_of r.new ≡ spec.more (spec.resolving_of r.old) found
        (record { forms = r.old.walk.forms.entries; locals = locals; uses = r.old.walk.uses })) }
    ensures uses { OnOk result (r.new.walk.uses ≡ []) }
{
    r.forms.push(with_locals(found, locals))?;
    let uses = replace(&mut r.walk.uses, Items::new(alloc));
    r.uses.push(uses)?;
    Ok(())
}

// The next form, where there is one.
fn walk_next(
    alloc: Global,
    variants: &Variants<'_>,
    tallies: &[Items<Tally>],
    instances: &[Instance],
    r: &mut Resolving,
    k: u32,
) -> Result<(), Stop>
    requires uses { r.old.walk.uses ≡ [] }
    requires tallies { tallies.now ≡ all_tallies variants.now.list.now }
    ensures next { Leaves result (spec.walk_next variants.now.list.now instances.now k (spec.resolving_of r.old))
        (spec.resolving_of r.new) }
    ensures uses { OnOk result (r.new.walk.uses ≡ []) }
{
    let Some(form) = form_at(alloc, &r.walk.forms, k as usize)? else {
        return Ok(());
    };
    r.walk.left = 0;
    let locals = walk_form(alloc, variants, tallies, instances, &mut r.walk, k, &form)?;
    keep(alloc, r, form, locals)?;
    Ok(())
}

fn size_of(sizes: &[SizeSet], name: &Name) -> i64
    ensures { result ≡ spec.size_of sizes.now name.now }
{
    for size in sizes {
        if size.name == *name {
            return size.value;
        }
    }
    0
}

fn extent_of(sizes: &[SizeSet], extent: &Extent) -> i64
    ensures { result ≡ spec.extent_of sizes.now extent.now }
{
    match extent {
        Extent::Size(_, name) => size_of(sizes, name),
        Extent::Fixed(_, n) => *n,
    }
}

fn extents_of(
    alloc: Global,
    sizes: &[SizeSet],
    extents: &[Extent],
) -> Result<Items<i64>, AllocError>
    ensures { Makes result (map (spec.extent_of sizes.now) extents.now) }
{
    let mut numbers = Items::new(alloc);
    for extent in extents {
        numbers.push(extent_of(sizes, extent))?;
    }
    Ok(numbers)
}

fn param_dims(alloc: Global, sizes: &[SizeSet], p: &Param) -> Result<Dims, Stop>
    ensures { Gives result (spec.param_dims sizes.now p.now) }
{
    let extents = extents_of(alloc, sizes, p.extents.as_slice())?;
    match dims_of(extents.as_slice()) {
        Some(dims) => Ok(dims),
        None => Err(refusal_named(alloc, Code::LimitArray, p.place, &p.name)),
    }
}

// The entry's parameters are examined before all else.
fn entry_extents(alloc: Global, sizes: &[SizeSet], list: &[Param]) -> Result<Items<Dims>, Stop>
    ensures { Gives result (spec.entry_extents sizes.now list.now) }
{
    let mut extents = Items::new(alloc);
    for p in list {
        extents.push(param_dims(alloc, sizes, p)?)?;
    }
    Ok(extents)
}

fn none_in_place(alloc: Global, extents: &[Dims]) -> Result<Items<bool>, AllocError>
    ensures { Makes result (spec.none_in_place extents.now) }
{
    let mut flags = Items::new(alloc);
    for _dims in extents {
        flags.push(false)?;
    }
    Ok(flags)
}

fn begin(alloc: Global, instance: u32, extents: Items<Dims>) -> Result<Resolving, AllocError>
    ensures begun { IfOk result (λ r. spec.resolving_of r ≡ spec.with_entry instance extents) }
    ensures uses { IfOk result (λ r. r.walk.uses ≡ []) }
{
    let in_place = none_in_place(alloc, extents.as_slice())?;
    let entry = Found {
        instance,
        level: 0,
        extents,
        in_place,
        caller: None,
        maps: 0,
        depth: 1,
    };
    let mut forms = IndexMap::new(alloc);
    forms.insert(Key::new(Items::new(alloc)), entry)?;
    Ok(Resolving {
        walk: Walk {
            left: 0,
            forms,
            uses: Items::new(alloc),
        },
        forms: Items::new(alloc),
        uses: Items::new(alloc),
    })
}

/// The parameters of the entry.
pub fn entry_params<'a>(variants: &Variants<'a>, mapping: &Mapping) -> &'a [Param]
    ensures { result.now ≡ spec.entry_params variants.now.list.now (slice_get mapping.now.instances mapping.now.entry) }
{
    match at(mapping.instances.as_slice(), mapping.entry as usize) {
        Some(x) => match variants.get(&x.task, x.kind) {
            Some(v) => v.params.as_slice(),
            None => &[],
        },
        None => &[],
    }
}

/// The forms with their locals and accesses, or the first fault that the walk meets.
#[tactic(auto, unfolding(crate::specs::Steps::most_forms))]
pub fn resolve_forms(
    alloc: Global,
    variants: &Variants<'_>,
    mapping: &Mapping,
) -> Result<Resolving, Stop>
    ensures { spec.Resolves result (spec.resolution variants.now.list.now mapping.now) }
{
    let list = entry_params(variants, mapping);
    let extents = entry_extents(alloc, mapping.sizes.as_slice(), list)?;
    let mut r = begin(alloc, mapping.entry, extents)?;
    let tallies = all_tallies(alloc, variants.list)?;
    let maps = tallies.as_slice();
    let instances = mapping.instances.as_slice();
    for k in 0..MOST_FORMS {
        walk_next(alloc, variants, maps, instances, &mut r, k)?;
    }
    Ok(r)
}
