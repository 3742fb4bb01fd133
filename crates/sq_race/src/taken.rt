//! Lists of accesses that leave others out.

ghost use Rattle.std.specs.Prelude.{◌≡◌, ◌<◌, [], length, slice_get, Some, IfOk};
ghost use Rattle.sq_race.specs.Selection as spec;

use crate::map::{Map, is_write};
use sq_forms::Use;
use sq_text::Span;
use sqlite_items::at;
use std::alloc::{AllocError, Global};
use std::marker::Model;

/// An access of a list that leaves others out. Contracts see the access.
#[derive(Drop)]
pub struct Taken<'a> {
    access: &'a Use,
}

impl<'a> Model for Taken<'a> {
    ghost use Rattle.sq_forms.specs.declared.form.Use.{Use};

    ghost Value = { Use };

    ghost view = { λ t. t.access.now };
}

impl<'a> Taken<'a> {
    pub fn access(&self) -> &'a Use
        ensures { result.now ≡ self.now }
    {
        self.access
    }
}

/// The access with this number among those that are taken.
pub fn nth<'a>(uses: &[Taken<'a>], number: usize) -> &'a Use
    requires { number < length uses.now }
    ensures { slice_get uses.now number ≡ Some result.now }
{
    uses[number].access()
}

fn is_within(calls: Span, access: &Use) -> bool
    ensures { result ≡ spec.is_within calls access.now }
{
    calls.lo <= access.call && access.call < calls.hi
}

/// Of these numbers of accesses those of the calls.
pub fn of_calls(
    alloc: Global,
    calls: Span,
    uses: &[Use],
    numbers: &[usize],
) -> Result<Vec<usize>, AllocError>
    ensures { IfOk result (λ v. v.items ≡ spec.those (spec.is_within calls) uses.now numbers.now) }
{
    let mut kept = Vec::new(alloc);
    for number in numbers {
        if let Some(access) = at(uses, *number) {
            if is_within(calls, access) {
                kept.push(*number)?;
            }
        }
    }
    Ok(kept)
}

fn has(arrays: &[u32], array: u32) -> bool
    ensures { result ≡ spec.has arrays.now array }
{
    arrays.iter().any(|known| *known == array)
}

fn adds_write(map: &Map, arrays: &[u32], access: &Use) -> bool
    ensures { result ≡ spec.adds_write map.now arrays.now access.now }
{
    map.counts(access) && is_write(access) && !has(arrays, access.array)
}

/// The arrays that the map writes, each once.
pub fn written(
    alloc: Global,
    map: &Map,
    uses: &[Use],
    numbers: &[usize],
) -> Result<Vec<u32>, AllocError>
    ensures { IfOk result (λ v. v.items ≡ spec.written map.now uses.now [] numbers.now) }
{
    let mut arrays = Vec::new(alloc);
    for number in numbers {
        if let Some(access) = at(uses, *number) {
            if adds_write(map, &arrays, access) {
                arrays.push(access.array)?;
            }
        }
    }
    Ok(arrays)
}

fn is_of(map: &Map, arrays: &[u32], access: &Use) -> bool
    ensures { result ≡ spec.is_of map.now arrays.now access.now }
{
    map.counts(access) && has(arrays, access.array)
}

/// Of these numbers of accesses those of the map and of these arrays.
pub fn of_arrays(
    alloc: Global,
    map: &Map,
    arrays: &[u32],
    uses: &[Use],
    numbers: &[usize],
) -> Result<Vec<usize>, AllocError>
    ensures { IfOk result (λ v. v.items ≡ spec.those (spec.is_of map.now arrays.now) uses.now numbers.now) }
{
    let mut kept = Vec::new(alloc);
    for number in numbers {
        if let Some(access) = at(uses, *number) {
            if is_of(map, arrays, access) {
                kept.push(*number)?;
            }
        }
    }
    Ok(kept)
}

/// The accesses with these numbers.
pub fn accesses<'a>(
    alloc: Global,
    uses: &'a [Use],
    numbers: &[usize],
) -> Result<Vec<Taken<'a>>, AllocError>
    ensures { IfOk result (λ v. v.items ≡ spec.taken uses.now numbers.now) }
{
    let mut list = Vec::new(alloc);
    for number in numbers {
        if let Some(access) = at(uses, *number) {
            list.push(Taken { access })?;
        }
    }
    Ok(list)
}

/// The numbers below a count.
pub fn all_below(alloc: Global, count: usize) -> Result<Vec<usize>, AllocError>
    ensures { IfOk result (λ v. v.items ≡ spec.all_below count) }
{
    let mut numbers = Vec::new(alloc);
    for number in 0..count {
        numbers.push(number)?;
    }
    Ok(numbers)
}
