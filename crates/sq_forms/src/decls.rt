//! What the declarations of a form make known.

ghost use Rattle.std.specs.Prelude.{◌≡◌, ◌≤◌, ◌+◌, ◌++◌, ◌∷◌, [], None, length, option_map, IfOk, OnOk};
ghost use Rattle.std.specs.Map.{lookup};
ghost use Rattle.std.specs.Option.{option_copied};
ghost use Rattle.sq_text.specs.Names.{same_name};
ghost use Rattle.sq_blocks.specs.Names.{list_of};
ghost use Rattle.sq_blocks.specs.Spans.{judged};
ghost use Rattle.sq_forms.specs.Faults.{Gives, Makes, Leaves};
ghost use Rattle.sq_blocks.specs.declared.chop.Chop.TheVariants.{Regular, Irregular};
ghost use Rattle.sq_forms.specs.Args as argued;
ghost use Rattle.sq_forms.specs.Decls as spec;

use crate::args::worths;
use crate::call::bind_extents;
use crate::faults::refusal_named;
use crate::form::LocalArray;
use crate::known::{Array, Blocks, Known};
use crate::tables::SettingsByName;
use indexmap::IndexMap;
use sq_ast::{Decl, Elem, Expr, Param, Word};
use sq_blocks::views::Dims;
use sq_blocks::{Bindings, Chop, Env, ListBindings, Numbers, check_chop};
use sq_mapping::Setting;
use sq_text::{Code, Name, Place, Stop};
use sqlite_items::{Items, at};
use std::alloc::{AllocError, Global};

const MOST_EXTENT: u64 = 1 << 24;

const MOST_ELEMENTS: u64 = 1 << 26;

/// What is known in a form, how many arrays it has, and its locals.
pub struct Scope {
    pub known: Known,
    pub numbers: Bindings,
    pub arrays: u32,
    pub locals: Items<LocalArray>,
}

// By hand, so that a call stands wherever one is let go, and not its dozens of tables.
impl Drop for Scope {
    fn drop(self) {
        let Scope {
            known,
            numbers,
            arrays: _,
            locals,
        } = self;
        drop(known);
        drop(numbers);
        drop(locals);
    }
}

impl Scope {
    /// Its locals, and nothing else of it.
    pub fn into_locals(self) -> Items<LocalArray>
        ensures { result ≡ self.locals }
    {
        let Scope {
            known,
            numbers,
            arrays: _,
            locals,
        } = self;
        drop(known);
        drop(numbers);
        locals
    }

    pub fn new(alloc: Global) -> Scope
        ensures { spec.scope_of result ≡ spec.empty_scope }
    {
        Scope {
            known: Known {
                lists: ListBindings::new(alloc),
                arrays: IndexMap::new(alloc),
                blocks: IndexMap::new(alloc),
            },
            numbers: Bindings::new(alloc),
            arrays: 0,
            locals: Items::new(alloc),
        }
    }
}

fn bind_array(
    alloc: Global,
    arrays: &mut IndexMap<Name, Array>,
    name: &Name,
    array: Array,
) -> Result<(), AllocError>
    ensures { OnOk result (arrays.new.entries ≡ spec.with_first arrays.old.entries name.now array) }
{
    match arrays.get(name) {
        Some(_) => Ok(()),
        None => {
            arrays.insert(name.copy(alloc)?, array)?;
            Ok(())
        }
    }
}

fn bind_blocks(
    alloc: Global,
    blocks: &mut IndexMap<Name, Blocks>,
    name: &Name,
    more: Blocks,
) -> Result<(), AllocError>
    ensures { OnOk result (blocks.new.entries ≡ spec.with_first blocks.old.entries name.now more) }
{
    match blocks.get(name) {
        Some(_) => Ok(()),
        None => {
            blocks.insert(name.copy(alloc)?, more)?;
            Ok(())
        }
    }
}

fn number_in(setting: Option<&Setting>) -> i64
    ensures { result ≡ spec.number_in (option_copied setting.entry) }
{
    match setting {
        Some(Setting::One(n)) => *n,
        _ => 0,
    }
}

fn list_in(setting: Option<&Setting>) -> &[i64]
    ensures { result.now ≡ spec.list_in (option_copied setting.entry) }
{
    match setting {
        Some(Setting::Many(list)) => list.as_slice(),
        _ => &[],
    }
}

// Further extents, behind those of `n` elements.
#[tactic(auto, unfolding(crate::specs::Decls::most_extent, crate::specs::Decls::most_elements))]
fn more_dims(mut dims: Dims, n: u64, list: &[i64]) -> Option<Dims>
    requires room { length dims + length list.now ≤ 3 }
    requires few { n ≤ spec.most_elements }
    ensures { result ≡ option_map (λ ds. dims ++ ds) (spec.dims_from n list.now) }
{
    let Some((e, list)) = list.split_first() else {
        return Some(dims);
    };
    if *e < 1 || *e as u64 > MOST_EXTENT || n * *e as u64 > MOST_ELEMENTS {
        return None;
    }
    dims.push(*e as u32);
    more_dims(dims, n * *e as u64, list)
}

// One to three extents.
#[tactic(auto, unfolding(crate::specs::Decls::most_extent, crate::specs::Decls::most_elements))]
pub fn dims_of(list: &[i64]) -> Option<Dims>
    ensures { result ≡ spec.dims_of list.now }
{
    let (e, rest) = list.split_first()?;
    if rest.len() > 2 || *e < 1 || *e as u64 > MOST_EXTENT {
        return None;
    }
    more_dims(Dims::new(*e as u32), *e as u64, rest)
}

fn local(
    alloc: Global,
    scope: &mut Scope,
    place: Place,
    elem: Elem,
    name: &Name,
    dims: Option<Dims>,
) -> Result<(), Stop>
    ensures { Leaves result (spec.local_at (spec.scope_of scope.old) place elem name.now dims)
        (spec.scope_of scope.new) }
{
    let Some(dims) = dims else {
        return Err(refusal_named(alloc, Code::LimitArray, place, name));
    };
    let Some(arrays) = scope.arrays.checked_add(1) else {
        return Err(Stop::NoMemory);
    };
    let array = Array {
        number: scope.arrays,
        extents: dims.copy(),
    };
    bind_array(alloc, &mut scope.known.arrays, name, array)?;
    scope.locals.push(LocalArray {
        elem,
        extents: dims,
    })?;
    scope.arrays = arrays;
    Ok(())
}

fn with_blocks(
    alloc: Global,
    scope: &mut Scope,
    place: Place,
    name: &Name,
    array: u32,
    chop: Chop,
) -> Result<(), Stop>
    ensures { Leaves result (spec.with_blocks (spec.scope_of scope.old) place name.now array chop)
        (spec.scope_of scope.new) }
{
    if check_chop(&chop).is_err() {
        return Err(refusal_named(alloc, Code::BadChop, place, name));
    }
    bind_blocks(alloc, &mut scope.known.blocks, name, Blocks { array, chop })?;
    Ok(())
}

fn chop_regular(
    alloc: Global,
    scope: &mut Scope,
    place: Place,
    name: &Name,
    array: &Word,
    sizes: Numbers,
) -> Result<(), Stop>
    ensures { Leaves result (spec.with_chop (spec.scope_of scope.old) place name.now (λ extents. Regular extents sizes)
        (spec.array_of (spec.scope_of scope.old) array.now.name)) (spec.scope_of scope.new) }
{
    let Some(found) = scope.known.arrays.get(&array.name) else {
        return Err(refusal_named(alloc, Code::BadChop, place, name));
    };
    let number = found.number;
    let extents = found.extents.copy();
    with_blocks(
        alloc,
        scope,
        place,
        name,
        number,
        Chop::Regular { extents, sizes },
    )
}

fn list_copy(alloc: Global, lists: &ListBindings, name: &Name) -> Result<Numbers, AllocError>
    ensures { Makes result (list_of lists.now name.now) }
{
    match lists.get(name) {
        Some(list) => Items::from_slice(alloc, list),
        None => Ok(Items::new(alloc)),
    }
}

fn chop_listed(
    alloc: Global,
    scope: &mut Scope,
    place: Place,
    name: &Name,
    array: &Word,
    starts: Numbers,
    ends: Numbers,
) -> Result<(), Stop>
    ensures { Leaves result (spec.with_chop (spec.scope_of scope.old) place name.now
        (λ extents. Irregular extents starts ends) (spec.array_of (spec.scope_of scope.old) array.now.name))
        (spec.scope_of scope.new) }
{
    let Some(found) = scope.known.arrays.get(&array.name) else {
        return Err(refusal_named(alloc, Code::BadChop, place, name));
    };
    let number = found.number;
    let extents = found.extents.copy();
    with_blocks(
        alloc,
        scope,
        place,
        name,
        number,
        Chop::Irregular {
            extents,
            starts,
            ends,
        },
    )
}

fn numbers_of(alloc: Global, scope: &Scope, list: &[Expr]) -> Result<Numbers, Stop>
    ensures { Gives result (argued.worths list.now (spec.scope_of scope.now).numbers
        (spec.scope_of scope.now).names.lists) }
{
    let env = Env {
        numbers: &scope.numbers,
        lists: &scope.known.lists,
    };
    worths(alloc, &env, list)
}

fn declare(
    alloc: Global,
    scope: &mut Scope,
    settings: &SettingsByName<'_>,
    d: &Decl,
) -> Result<(), Stop>
    ensures { Leaves result (spec.after_decl settings.now.list.now (spec.scope_of scope.old) d.now)
        (spec.scope_of scope.new) }
{
    match d {
        Decl::Tunable(_, name) => {
            let n = number_in(settings.get(name));
            scope.numbers.bind(name, n)?;
            Ok(())
        }
        Decl::List(_, name) => {
            let list = list_in(settings.get(name));
            scope.known.lists.bind(name, list)?;
            Ok(())
        }
        Decl::Local {
            place,
            elem,
            name,
            extents,
        } => {
            let extents = numbers_of(alloc, scope, extents.as_slice())?;
            let dims = dims_of(extents.as_slice());
            local(alloc, scope, *place, *elem, name, dims)
        }
        Decl::Rchop {
            place,
            name,
            array,
            sizes,
        } => {
            let sizes = numbers_of(alloc, scope, sizes.as_slice())?;
            chop_regular(alloc, scope, *place, name, array, sizes)
        }
        Decl::Ichop {
            place,
            name,
            array,
            starts,
            ends,
        } => {
            let starts = list_copy(alloc, &scope.known.lists, &starts.name)?;
            let ends = list_copy(alloc, &scope.known.lists, &ends.name)?;
            chop_listed(alloc, scope, *place, name, array, starts, ends)
        }
    }
}

/// All declarations in text order, or the first fault.
pub fn declare_all(
    alloc: Global,
    scope: &mut Scope,
    settings: &SettingsByName<'_>,
    list: &[Decl],
) -> Result<(), Stop>
    ensures { Leaves result (spec.all_declared settings.now.list.now (spec.scope_of scope.old) list.now)
        (spec.scope_of scope.new) }
{
    for d in list {
        declare(alloc, scope, settings, d)?;
    }
    Ok(())
}

fn param(
    alloc: Global,
    scope: &mut Scope,
    p: &Param,
    dims: Option<&Dims>,
) -> Result<bool, AllocError>
    ensures { IfOk result (λ fits. spec.Fits
        (spec.param_at (spec.scope_of scope.old) p.now (option_copied dims.entry)) fits (spec.scope_of scope.new)) }
{
    let Some(dims) = dims else {
        return Ok(false);
    };
    let extents = p.extents.as_slice();
    if !bind_extents(&mut scope.numbers, extents, dims.as_slice())? {
        return Ok(false);
    }
    let Some(arrays) = scope.arrays.checked_add(1) else {
        return Err(AllocError);
    };
    let array = Array {
        number: scope.arrays,
        extents: dims.copy(),
    };
    bind_array(alloc, &mut scope.known.arrays, &p.name, array)?;
    scope.arrays = arrays;
    Ok(true)
}

/// The parameters, with the sizes that their extents bind; whether they fit.
pub fn params(
    alloc: Global,
    scope: &mut Scope,
    list: &[Param],
    extents: &[Dims],
) -> Result<bool, AllocError>
    ensures { IfOk result (λ fits. spec.Fits (spec.params_from (spec.scope_of scope.old) list.now 0 extents.now) fits
        (spec.scope_of scope.new)) }
{
    for (i, p) in list.iter().enumerate() {
        if !param(alloc, scope, p, at(extents, i))? {
            return Ok(false);
        }
    }
    Ok(true)
}
