//! The mapping that a file says, with each name as the index of what it names.

ghost use Rattle.std.specs.Prelude.{◌≡◌, IfOk, map};
ghost use Rattle.sq_mapfile.specs.Mappings.{tunings_of, spread_of, size_set};
ghost use Rattle.sq_mapfile.specs.Resolving as spec;

use crate::table::{InstanceTable, level_of};
use crate::text::{InstanceText, ItemText, MappingText, SizeText};
use sq_mapping::{
    Instance, Instances, Mapping, Route, Routes, Setting, SizeSet, SizeSets, Tuning, Tunings,
};
use sq_text::SpreadRule;
use sqlite_items::Items;
use std::alloc::{AllocError, Global};

// The index; 0 where there is none, or where it passes 32 bits.
fn or_zero(index: Option<usize>) -> u32
    ensures { result ≡ spec.or_zero index }
{
    match index {
        Some(i) if i < 1 << 32 => i as u32,
        _ => 0,
    }
}

/// The same setting once more.
pub fn copied(alloc: Global, setting: &Setting) -> Result<Setting, AllocError>
    ensures { IfOk result (λ copy. copy ≡ setting.now) }
{
    match setting {
        Setting::One(value) => Ok(Setting::One(*value)),
        Setting::Many(values) => Ok(Setting::Many(Items::from_slice(alloc, values.as_slice())?)),
    }
}

fn tunings(alloc: Global, items: &[ItemText]) -> Result<Tunings, AllocError>
    ensures { IfOk result (λ found. found ≡ tunings_of items.now) }
{
    let mut found = Items::new(alloc);
    for item in items {
        if let ItemText::Tunable { name, values } = item {
            let name = name.name.copy(alloc)?;
            let setting = copied(alloc, &values.first)?;
            found.push(Tuning { name, setting })?;
        }
    }
    Ok(found)
}

fn routes(
    alloc: Global,
    table: &InstanceTable<'_>,
    items: &[ItemText],
) -> Result<Routes, AllocError>
    ensures { IfOk result (λ found. found ≡ spec.routes_of table.now.instances.now items.now) }
{
    let mut found = Items::new(alloc);
    for item in items {
        if let ItemText::Call { task, instance } = item {
            let task = task.name.copy(alloc)?;
            let instance = or_zero(table.index(&instance.name));
            found.push(Route { task, instance })?;
        }
    }
    Ok(found)
}

// The first rule that is chosen.
fn spread(items: &[ItemText]) -> SpreadRule
    ensures { result ≡ spread_of items.now }
{
    for item in items {
        if let ItemText::Spread { rule, .. } = item {
            return *rule;
        }
    }
    SpreadRule::Cyclic
}

fn instance(
    alloc: Global,
    table: &InstanceTable<'_>,
    text: &InstanceText,
) -> Result<Instance, AllocError>
    ensures { IfOk result (λ found. found ≡ spec.instance_with table.now.levels.now table.now.instances.now text.now) }
{
    let name = text.name.name.copy(alloc)?;
    let task = text.task.name.copy(alloc)?;
    let tunings = tunings(alloc, text.items.as_slice())?;
    let routes = routes(alloc, table, text.items.as_slice())?;
    Ok(Instance {
        name,
        task,
        kind: text.kind,
        level: or_zero(level_of(table.levels, &text.level.name)),
        tunings,
        routes,
        spread: spread(text.items.as_slice()),
    })
}

fn instances(alloc: Global, table: &InstanceTable<'_>) -> Result<Instances, AllocError>
    ensures { IfOk result (λ found. found ≡ map (spec.instance_with table.now.levels.now table.now.instances.now)
        table.now.instances.now) }
{
    let mut found = Items::new(alloc);
    for text in table.instances {
        let next = instance(alloc, table, text)?;
        found.push(next)?;
    }
    Ok(found)
}

fn size_sets(alloc: Global, sizes: &[SizeText]) -> Result<SizeSets, AllocError>
    ensures { IfOk result (λ found. found ≡ map size_set sizes.now) }
{
    let mut found = Items::new(alloc);
    for size in sizes {
        let name = size.name.name.copy(alloc)?;
        found.push(SizeSet {
            name,
            value: size.value,
        })?;
    }
    Ok(found)
}

/// What the file says, whose instances these are. A name that stands for nothing has the index 0.
pub fn resolve(
    alloc: Global,
    table: &InstanceTable<'_>,
    text: &MappingText,
) -> Result<Mapping, AllocError>
    requires { table.now.instances.now ≡ text.now.instances }
    ensures { IfOk result (λ mapping. mapping ≡ spec.mapping_with table.now.levels.now text.now) }
{
    let sizes = size_sets(alloc, text.sizes.as_slice())?;
    let instances = instances(alloc, table)?;
    Ok(Mapping {
        entry: or_zero(table.index(&text.entry.name)),
        sizes,
        instances,
    })
}
