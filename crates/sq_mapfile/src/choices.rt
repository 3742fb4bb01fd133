//! The mappings of a text with alternatives, one for each choice of them.

ghost use Rattle.std.specs.Prelude.{◌≡◌, ◌<◌, ◌≤◌, IfOk, map};
ghost use Rattle.sq_mapfile.specs.Choices.{most_choices};
ghost use Rattle.sq_mapfile.specs.Chosen as spec;
ghost use Rattle.sq_mapfile.specs.Resolving.{mapping_with};

use crate::digits::Digits;
use crate::resolve::resolve;
use crate::table::InstanceTable;
use crate::text::MappingText;
use crate::tunings::{Ways, all_ways, digits_past, tunings, ways_at};
use sq_mapping::{Instance, Instances, Mapping, Route, Routes, SizeSet, SizeSets, Tunings};
use sqlite_items::Items;
use std::alloc::{AllocError, Global};

/// The choices of a text with alternatives. They are numbered from 0, tunables in the order of the text, the last one
/// varying fastest.
#[derive(Drop)]
pub struct Choices {
    // The mapping of the first choice.
    pub(crate) first: Mapping,
    // The tunables of each of its instances.
    pub(crate) tunables: Items<Items<Ways>>,
    pub(crate) number: u32,
    ghost some: { 1 ≤ number },
    ghost few: { number ≤ most_choices },
}

fn routes(alloc: Global, list: &[Route]) -> Result<Routes, AllocError>
    ensures { IfOk result (λ copy. copy ≡ list.now) }
{
    let mut found = Items::new(alloc);
    for route in list {
        let task = route.task.copy(alloc)?;
        found.push(Route {
            task,
            instance: route.instance,
        })?;
    }
    Ok(found)
}

fn sizes(alloc: Global, list: &[SizeSet]) -> Result<SizeSets, AllocError>
    ensures { IfOk result (λ copy. copy ≡ list.now) }
{
    let mut found = Items::new(alloc);
    for size in list {
        let name = size.name.copy(alloc)?;
        found.push(SizeSet {
            name,
            value: size.value,
        })?;
    }
    Ok(found)
}

// The instance with other tunings.
fn instance(alloc: Global, x: &Instance, tunings: Tunings) -> Result<Instance, AllocError>
    ensures { IfOk result (λ found. found ≡ spec.with_tunings x.now tunings) }
{
    let name = x.name.copy(alloc)?;
    let task = x.task.copy(alloc)?;
    let routes = routes(alloc, x.routes.as_slice())?;
    Ok(Instance {
        name,
        task,
        kind: x.kind,
        level: x.level,
        tunings,
        routes,
        spread: x.spread,
    })
}

// The instance with the alternatives that are picked.
fn tuned(alloc: Global, digits: Digits, x: &Instance, list: &[Ways]) -> Result<Instance, AllocError>
    ensures { IfOk result (λ found. found ≡ spec.with_tunings x.now (spec.tunings_at digits list.now)) }
{
    let tunings = tunings(alloc, digits, list)?;
    let found = instance(alloc, x, tunings)?;
    Ok(found)
}

fn instances(
    alloc: Global,
    digits: Digits,
    list: &[Instance],
    all: &[Items<Ways>],
) -> Result<Instances, AllocError>
    ensures { IfOk result (λ found. found ≡ spec.instances_at all.now digits 0 list.now) }
{
    let mut left = digits;
    let mut found = Items::new(alloc);
    for (i, x) in list.iter().enumerate() {
        let its = ways_at(all, i);
        let next = tuned(alloc, left, x, its)?;
        found.push(next)?;
        left = digits_past(left, its);
    }
    Ok(found)
}

// Whether the tunable has more than one alternative.
fn is_varied(ways: &Ways) -> bool
    ensures { result ≡ spec.some_others ways.now.values.others }
{
    match ways.values.others.as_slice() {
        [] => false,
        [_, ..] => true,
    }
}

/// The choices of what the file says, whose instances these are; they are so many.
#[tactic(auto, unfolding(crate::specs::Choices::most_choices))]
pub fn made(
    alloc: Global,
    table: &InstanceTable<'_>,
    written: &MappingText,
    number: u64,
) -> Result<Choices, AllocError>
    requires instances { table.now.instances.now ≡ written.now.instances }
    requires some { 1 ≤ number }
    requires few { number ≤ most_choices }
    ensures first { IfOk result (λ choices. choices.first ≡ mapping_with table.now.levels.now written.now) }
    ensures tunables { IfOk result (λ choices. choices.tunables ≡ map (λ x. spec.ways_of x.items)
        written.now.instances) }
    ensures number { IfOk result (λ choices. choices.number ≡ number) }
{
    let first = resolve(alloc, table, written)?;
    let tunables = all_ways(alloc, written.instances.as_slice())?;
    Ok(Choices {
        first,
        tunables,
        number: number as u32,
    })
}

impl Choices {
    /// How many choices there are: 1 to 4096.
    pub fn count(&self) -> u32
        ensures number { result ≡ self.now.number }
        ensures some { 1 ≤ result }
        ensures few { result ≤ most_choices }
    {
        self.number
    }

    /// Whether this tunable of this instance, each counted from 0 in the order of the text, has more than one
    /// alternative.
    pub fn varied(&self, instance: u32, tuning: u32) -> bool
        ensures { result ≡ spec.is_varied self.now.tunables instance tuning }
    {
        match ways_at(self.tunables.as_slice(), instance as usize).get(tuning as usize) {
            Some(ways) => is_varied(ways),
            None => false,
        }
    }

    /// The mapping of a choice.
    pub fn mapping(&self, alloc: Global, n: u32) -> Result<Mapping, AllocError>
        requires { n < self.now.number }
        ensures { IfOk result (λ mapping. mapping ≡ spec.mapping_at self.now.first self.now.tunables self.now.number n) }
    {
        let digits = Digits {
            number: n as usize,
            choices: self.number as usize,
        };
        let sizes = sizes(alloc, self.first.sizes.as_slice())?;
        let instances = instances(
            alloc,
            digits,
            self.first.instances.as_slice(),
            self.tunables.as_slice(),
        )?;
        Ok(Mapping {
            entry: self.first.entry,
            sizes,
            instances,
        })
    }
}
