//! The instances of a file by their names, with their levels.

ghost use Rattle.std.specs.Prelude.{◌≡◌, map, IfOk};
ghost use Rattle.std.specs.Option.{option_copied};
ghost use Rattle.sq_text.specs.Names.{Bytes, item_of};
ghost use Rattle.sq_mapfile.specs.Names as spec;
ghost use Rattle.sq_mapfile.specs.Faults.{level_in};

use crate::text::InstanceText;
use sq_machfile::Level;
use sq_text::{FirstItems, Name};
use std::alloc::{AllocError, Global};

/// The index of the level of this name.
pub fn level_of(levels: &[Level], name: &Name) -> Option<usize>
    ensures { result ≡ spec.level_of levels.now name.now }
{
    for (i, level) in levels.iter().enumerate() {
        if *name == level.name {
            return Some(i);
        }
    }
    None
}

fn first_instances(alloc: Global, instances: &[InstanceText]) -> Result<FirstItems, AllocError>
    ensures { IfOk result (λ first. (n : Bytes) → item_of first n ≡ spec.index_of instances.now n) }
{
    let mut first = FirstItems::new(alloc);
    for (i, x) in instances.iter().enumerate() {
        first.enter(alloc, &x.name.name, i)?;
    }
    Ok(first)
}

// The level of each instance.
fn level_numbers(
    alloc: Global,
    levels: &[Level],
    instances: &[InstanceText],
) -> Result<Vec<Option<usize>>, AllocError>
    ensures { IfOk result (λ numbers. numbers.items ≡ map (λ x. spec.level_of levels.now x.level.name) instances.now) }
{
    let mut numbers = Vec::new(alloc);
    for x in instances {
        numbers.push(level_of(levels, &x.level.name))?;
    }
    Ok(numbers)
}

/// The instances of a file, with the first of each name and the level of each, which is looked up once.
#[derive(Drop)]
pub struct InstanceTable<'a> {
    pub levels: &'a [Level],
    pub instances: &'a [InstanceText],
    first: FirstItems,
    level_numbers: Vec<Option<usize>>,
    ghost firsts: { (n : Bytes) → item_of first n ≡ spec.index_of instances.now n },
    ghost numbers: { level_numbers.items ≡ map (λ x. spec.level_of levels.now x.level.name) instances.now },
}

impl<'a> InstanceTable<'a> {
    pub fn new(
        alloc: Global,
        levels: &'a [Level],
        instances: &'a [InstanceText],
    ) -> Result<InstanceTable<'a>, AllocError>
        ensures levels { IfOk result (λ t. t.levels.now ≡ levels.now) }
        ensures instances { IfOk result (λ t. t.instances.now ≡ instances.now) }
    {
        let first = first_instances(alloc, instances)?;
        let level_numbers = level_numbers(alloc, levels, instances)?;
        Ok(InstanceTable {
            levels,
            instances,
            first,
            level_numbers,
        })
    }

    /// The index of the first instance of this name.
    pub fn index(&self, name: &Name) -> Option<usize>
        ensures { result ≡ spec.index_of self.now.instances.now name.now }
    {
        self.first.get(name)
    }

    /// The first instance of this name.
    pub fn get(&self, name: &Name) -> Option<&'a InstanceText>
        ensures { option_copied result ≡ spec.instance_of self.now.instances.now name.now }
    {
        let i = self.index(name)?;
        self.instances.get(i)
    }

    /// The level of the first instance of this name, where both are known.
    pub fn level(&self, name: &Name) -> Option<usize>
        ensures { result ≡ level_in self.now.levels.now (spec.instance_of self.now.instances.now name.now) }
    {
        let i = self.index(name)?;
        let level = self.level_numbers.get(i)?;
        *level
    }
}
