//! The first race of a program's forms.

ghost use Rattle.std.specs.Prelude.{◌≡◌, ◌<◌, [], length, map, slice_get, get_or, Some, IfOk};
ghost use Rattle.std.specs.Option.{option_copied};
ghost use Rattle.sq_forms.specs.Tables.{at_index};
ghost use Rattle.sq_race.specs.Race as spec;

use crate::forms::{Found, first_of};
use crate::map::Map;
use crate::table::maps_in;
use sq_ast::{Body, Decl, Param, Variant};
use sq_forms::{Form, Use};
use sq_rect::Rect;
use sq_spec::Resolved;
use sq_text::{Name, Place};
use sqlite_items::{Items, at};
use std::alloc::{AllocError, Global};

/// Two accesses of different iterations of one run of a map that share an element of an array, and of which one
/// writes. `a` is the earlier one.
#[derive(Drop)]
pub struct Race {
    /// Its number.
    pub form: u32,
    /// The map's keyword's.
    pub place: Place,
    pub array: Name,
    /// The numbers of the map's iterations, and the blocks.
    pub iter_a: u32,
    pub rect_a: Rect,
    pub iter_b: u32,
    pub rect_b: Rect,
}

// The number of the form's variant.
fn number_in(r: &Resolved<'_>, form: &Form) -> Option<usize>
    ensures { result ≡ spec.number_in r.now form.now }
{
    let instance = at(r.mapping().instances.as_slice(), form.instance as usize)?;
    r.variant_number(&instance.task, instance.kind)
}

fn variant_at<'a>(variants: &'a [Variant], number: Option<usize>) -> Option<&'a Variant>
    ensures { option_copied result ≡ at_index variants.now number }
{
    let number = number?;
    at(variants, number)
}

// The maps of a variant; a leaf has none.
fn maps_of(alloc: Global, variant: &Variant) -> Result<Items<Map>, AllocError>
    ensures { IfOk result (λ maps. maps ≡ spec.maps_of_body variant.now.body) }
{
    match &variant.body {
        Body::Inner(list) => {
            let maps = maps_in(alloc, list.as_slice())?;
            Ok(maps)
        }
        Body::Leaf(_) => Ok(Items::new(alloc)),
    }
}

// The maps of each variant.
fn all_maps(alloc: Global, variants: &[Variant]) -> Result<Items<Items<Map>>, AllocError>
    ensures { IfOk result (λ all. all ≡ spec.all_maps variants.now) }
{
    let mut all = Items::new(alloc);
    for v in variants {
        all.push(maps_of(alloc, v)?)?;
    }
    Ok(all)
}

// The maps of the variant with this number.
fn maps_at<'a>(all: &'a [Items<Map>], number: Option<usize>) -> &'a [Map]
    ensures { result.now ≡ spec.listed (at_index all.now number) }
{
    match number {
        Some(i) => match at(all, i) {
            Some(maps) => maps.as_slice(),
            None => &[],
        },
        None => &[],
    }
}

// The name of the local with this number.
fn local_name(decls: &[Decl], number: usize) -> Option<&Name>
    ensures { option_copied result ≡ slice_get (spec.local_names decls.now) number }
{
    let mut left = number;
    for decl in decls {
        if let Decl::Local { name, .. } = decl {
            if left == 0 {
                return Some(name);
            }
            left -= 1;
        }
    }
    None
}

fn array_name(variant: Option<&Variant>, number: usize) -> Option<&Name>
    ensures { option_copied result ≡ slice_get (spec.array_names (option_copied variant.entry)) number }
{
    let variant = variant?;
    let params = variant.params.as_slice();
    match at(params, number) {
        Some(param) => Some(&param.name),
        None => local_name(variant.decls.as_slice(), number - params.len()),
    }
}

// A copy of the array's name.
fn name_of(alloc: Global, variant: Option<&Variant>, number: u32) -> Result<Name, AllocError>
    ensures { IfOk result (λ n. n ≡ get_or (spec.array_names (option_copied variant.entry)) number []) }
{
    match array_name(variant, number as usize) {
        Some(name) => {
            let name = name.copy(alloc)?;
            Ok(name)
        }
        None => Name::new(alloc, &[]),
    }
}

// The number of the map's iteration.
fn iteration_of(map: &Map, access: &Use) -> u32
    ensures { result ≡ get_or access.now.iterations map.now.depth 0 }
{
    let numbers = access.iterations.as_slice();
    let depth = map.depth as usize;
    if depth < numbers.len() {
        numbers[depth]
    } else {
        0
    }
}

fn told(
    alloc: Global,
    form: u32,
    variant: Option<&Variant>,
    map: &Map,
    a: &Use,
    b: &Use,
) -> Result<Race, AllocError>
    ensures { IfOk result (λ race. race ≡ spec.told form (option_copied variant.entry) map.now a.now b.now) }
{
    let array = name_of(alloc, variant, a.array)?;
    Ok(Race {
        form,
        place: map.place,
        array,
        iter_a: iteration_of(map, a),
        rect_a: a.rect.copy(),
        iter_b: iteration_of(map, b),
        rect_b: b.rect.copy(),
    })
}

// What is told of two accesses by their numbers.
fn told_of(
    alloc: Global,
    form: u32,
    variant: Option<&Variant>,
    maps: &[Map],
    uses: &[Use],
    found: Found,
) -> Result<Race, AllocError>
    requires map { found.map < length maps.now }
    requires earlier { found.earlier < length uses.now }
    requires later { found.later < length uses.now }
    ensures { IfOk result (λ race. spec.IsTold form (option_copied variant.entry) maps.now uses.now found race) }
{
    let map = &maps[found.map];
    let race = told(
        alloc,
        form,
        variant,
        map,
        &uses[found.earlier],
        &uses[found.later],
    )?;
    Ok(race)
}

fn form_at<'a>(r: &'a Resolved<'_>, number: u32) -> &'a Form
    requires { number < length r.now.forms }
    ensures { slice_get r.now.forms number ≡ Some result.now }
{
    &r.forms()[number as usize]
}

// The first race of the form with this number.
fn race_in(
    alloc: Global,
    r: &Resolved<'_>,
    all: &[Items<Map>],
    number: u32,
) -> Result<Option<Race>, AllocError>
    requires number { number < length r.now.forms }
    requires maps { all.now ≡ spec.all_maps r.now.typed.now.tasks }
    ensures { IfOk result (λ race. spec.IsFirstOfForm r.now number race) }
{
    let form = form_at(r, number);
    let chosen = number_in(r, form);
    let variant = variant_at(r.typed().program().tasks.as_slice(), chosen);
    let maps = maps_at(all, chosen);
    let uses = r.uses(number);
    match first_of(alloc, maps, uses)? {
        None => Ok(None),
        Some(found) => {
            let race = told_of(alloc, number, variant, maps, uses, found)?;
            Ok(Some(race))
        }
    }
}

// Counted where it has 32 bits; else memory would have run out before.
fn count_of(count: usize) -> Result<u32, AllocError>
    ensures { IfOk result (λ n. n ≡ count) }
{
    match u32::try_from(count) {
        Ok(count) => Ok(count),
        Err(_) => Err(AllocError),
    }
}

/// The first race of the forms, or none: the one of the least form, then of the map that stands first in the text, then
/// with the least numbers of the maps round it, then with the least later access, then with the least earlier one.
/// Accesses of an array that a `mapreduce` reduces into don't race in that map.
/// Maps are compared by their numbers; that these follow the text is the law `the_first_race_is_first_in_the_text`.
pub fn first_race(alloc: Global, r: &Resolved<'_>) -> Result<Option<Race>, AllocError>
    ensures { IfOk result (λ race. spec.IsFirstRace r.now race) }
{
    let all = all_maps(alloc, r.typed().program().tasks.as_slice())?;
    let all = all.as_slice();
    let count = count_of(r.forms().len())?;
    for number in 0..count {
        match race_in(alloc, r, all, number)? {
            Some(race) => return Ok(Some(race)),
            None => {}
        }
    }
    Ok(None)
}
