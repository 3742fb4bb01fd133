//! The tunables of instances, with their alternatives.

ghost use Rattle.std.specs.Prelude.{◌≡◌, IfOk, map, slice_get};
ghost use Rattle.sq_mapfile.specs.Chosen as spec;

use crate::digits::Digits;
use crate::resolve::copied;
use crate::text::{Alternatives, InstanceText, ItemText};
use sq_mapping::{Setting, Tuning, Tunings};
use sq_text::Name;
use sqlite_items::Items;
use std::alloc::{AllocError, Global};

/// A tunable and its alternatives.
#[derive(Drop)]
pub struct Ways {
    pub name: Name,
    pub values: Alternatives,
}

fn settings(alloc: Global, list: &[Setting]) -> Result<Items<Setting>, AllocError>
    ensures { IfOk result (λ copy. copy ≡ list.now) }
{
    let mut found = Items::new(alloc);
    for setting in list {
        let setting = copied(alloc, setting)?;
        found.push(setting)?;
    }
    Ok(found)
}

fn alternatives(alloc: Global, values: &Alternatives) -> Result<Alternatives, AllocError>
    ensures { IfOk result (λ copy. copy ≡ values.now) }
{
    let first = copied(alloc, &values.first)?;
    let others = settings(alloc, values.others.as_slice())?;
    Ok(Alternatives { first, others })
}

fn ways_in(alloc: Global, items: &[ItemText]) -> Result<Items<Ways>, AllocError>
    ensures { IfOk result (λ found. found ≡ spec.ways_of items.now) }
{
    let mut found = Items::new(alloc);
    for item in items {
        if let ItemText::Tunable { name, values } = item {
            let name = name.name.copy(alloc)?;
            let values = alternatives(alloc, values)?;
            found.push(Ways { name, values })?;
        }
    }
    Ok(found)
}

/// The tunables of each of these instances.
pub fn all_ways(alloc: Global, instances: &[InstanceText]) -> Result<Items<Items<Ways>>, AllocError>
    ensures { IfOk result (λ found. found ≡ map (λ x. spec.ways_of x.items) instances.now) }
{
    let mut found = Items::new(alloc);
    for x in instances {
        let its = ways_in(alloc, x.items.as_slice())?;
        found.push(its)?;
    }
    Ok(found)
}

/// The tunables of the instance at this index; none where there is none.
pub fn ways_at(all: &[Items<Ways>], instance: usize) -> &[Ways]
    ensures { result.now ≡ spec.listed (slice_get all.now instance) }
{
    match all.get(instance) {
        Some(list) => list.as_slice(),
        None => &[],
    }
}

// The next tunable with the alternative that is picked.
fn tuning(alloc: Global, digits: Digits, ways: &Ways) -> Result<Tuning, AllocError>
    ensures { IfOk result (λ found. found ≡ spec.tuning_at digits ways.now) }
{
    let name = ways.name.copy(alloc)?;
    let setting = copied(alloc, digits.pick(&ways.values))?;
    Ok(Tuning { name, setting })
}

/// These tunables with the alternatives that are picked.
pub fn tunings(alloc: Global, digits: Digits, list: &[Ways]) -> Result<Tunings, AllocError>
    ensures { IfOk result (λ found. found ≡ spec.tunings_at digits list.now) }
{
    let mut left = digits;
    let mut found = Items::new(alloc);
    for ways in list {
        let next = tuning(alloc, left, ways)?;
        found.push(next)?;
        left = left.past(&ways.values);
    }
    Ok(found)
}

/// What is left behind these tunables.
pub fn digits_past(digits: Digits, list: &[Ways]) -> Digits
    ensures { result ≡ spec.all_past digits list.now }
{
    let mut left = digits;
    for ways in list {
        left = left.past(&ways.values);
    }
    left
}
