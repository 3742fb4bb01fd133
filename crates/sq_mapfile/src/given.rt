//! The names that are given in a list, with the first item of each.

ghost use Rattle.std.specs.Prelude.{◌≡◌, ℕ, max, length, map, if◌then◌else◌, Some, None, IfOk, OnOk, []};
ghost use Rattle.std.specs.Option.{option_copied};
ghost use Rattle.sq_text.specs.Names.{Bytes, item_of, kept, only_at};
ghost use Rattle.sq_mapfile.specs.Names as names;
ghost use Rattle.sq_mapfile.specs.Faults as spec;
ghost use Rattle.sq_mapfile.specs.Given.{AreWithin};

use crate::text::{ItemText, SizeText};
use indexmap::IndexMap;
use sq_text::{FirstItems, Name};
use std::alloc::{AllocError, Global};

// Names as they are entered, and the length of the longest.
#[derive(Drop)]
struct Names {
    first: FirstItems,
    longest: usize,
}

impl Names {
    fn new(alloc: Global) -> Names
        ensures first { result.first ≡ [] }
        ensures longest { result.longest ≡ 0 }
    {
        Names {
            first: FirstItems::new(alloc),
            longest: 0,
        }
    }

    fn add(&mut self, alloc: Global, name: &Name, item: usize) -> Result<(), AllocError>
        requires { AreWithin self.old.first self.old.longest }
        ensures first { OnOk result ((n : Bytes) → item_of self.new.first n ≡ kept (item_of self.old.first n)
            (only_at name.now item n)) }
        ensures within { OnOk result (AreWithin self.new.first self.new.longest) }
    {
        self.first.enter(alloc, name, item)?;
        self.longest = self.longest.max(name.bytes().len());
        Ok(())
    }

    fn add_tunable(&mut self, alloc: Global, text: &ItemText, item: usize) -> Result<(), AllocError>
        requires { AreWithin self.old.first self.old.longest }
        ensures first { OnOk result ((n : Bytes) → item_of self.new.first n ≡ kept (item_of self.old.first n)
            (if names.is_tunable n text.now then Some item else None)) }
        ensures within { OnOk result (AreWithin self.new.first self.new.longest) }
    {
        match text {
            ItemText::Tunable { name, .. } => {
                self.add(alloc, &name.name, item)?;
                Ok(())
            }
            _ => Ok(()),
        }
    }

    fn add_call(&mut self, alloc: Global, text: &ItemText, item: usize) -> Result<(), AllocError>
        requires { AreWithin self.old.first self.old.longest }
        ensures first { OnOk result ((n : Bytes) → item_of self.new.first n ≡ kept (item_of self.old.first n)
            (if names.is_call n text.now then Some item else None)) }
        ensures within { OnOk result (AreWithin self.new.first self.new.longest) }
    {
        match text {
            ItemText::Call { task, .. } => {
                self.add(alloc, &task.name, item)?;
                Ok(())
            }
            _ => Ok(()),
        }
    }
}

/// The first item of each name of a list. A name that is longer than all of them isn't looked for among them, so that a
/// search costs no more than they do, however long the names are that are looked for.
#[derive(Drop)]
pub struct Given {
    first: FirstItems,
    longest: usize,
    ghost within: { AreWithin first longest },
}

impl Given {
    /// The tunables of these items.
    fn tunables(alloc: Global, items: &[ItemText]) -> Result<Given, AllocError>
        ensures { IfOk result (λ given. (n : Bytes) → item_of given.first n ≡ names.tunable_index items.now n) }
    {
        let mut found = Names::new(alloc);
        for (i, item) in items.iter().enumerate() {
            found.add_tunable(alloc, item, i)?;
        }
        Ok(Given {
            first: found.first,
            longest: found.longest,
        })
    }

    /// The tasks that these items name instances for.
    pub fn calls(alloc: Global, items: &[ItemText]) -> Result<Given, AllocError>
        ensures { IfOk result (λ given. (n : Bytes) → item_of given.first n ≡ names.call_index items.now n) }
    {
        let mut found = Names::new(alloc);
        for (i, item) in items.iter().enumerate() {
            found.add_call(alloc, item, i)?;
        }
        Ok(Given {
            first: found.first,
            longest: found.longest,
        })
    }

    fn sizes(alloc: Global, sizes: &[SizeText]) -> Result<Given, AllocError>
        ensures { IfOk result (λ given. (n : Bytes) → item_of given.first n ≡ names.size_index sizes.now n) }
    {
        let mut found = Names::new(alloc);
        for (i, size) in sizes.iter().enumerate() {
            found.add(alloc, &size.name.name, i)?;
        }
        Ok(Given {
            first: found.first,
            longest: found.longest,
        })
    }

    /// The index of the first item of this name.
    pub fn get(&self, name: &Name) -> Option<usize>
        ensures { result ≡ item_of self.now.first name.now }
    {
        if name.bytes().len() > self.longest {
            return None;
        }
        self.first.get(name)
    }
}

fn spread_index(items: &[ItemText]) -> Option<usize>
    ensures { result ≡ names.spread_index items.now }
{
    for (i, item) in items.iter().enumerate() {
        if matches!(item, ItemText::Spread { .. }) {
            return Some(i);
        }
    }
    None
}

/// The items of an instance, with the first of each name.
#[derive(Drop)]
pub struct ItemTable<'a> {
    pub items: &'a [ItemText],
    tunables: Given,
    calls: Given,
    spread: Option<usize>,
    ghost first_tunables: { (n : Bytes) → item_of tunables.first n ≡ names.tunable_index items.now n },
    ghost first_calls: { (n : Bytes) → item_of calls.first n ≡ names.call_index items.now n },
    ghost first_spread: { spread ≡ names.spread_index items.now },
}

impl<'a> ItemTable<'a> {
    pub fn new(alloc: Global, items: &'a [ItemText]) -> Result<ItemTable<'a>, AllocError>
        ensures { IfOk result (λ t. t.items.now ≡ items.now) }
    {
        let tunables = Given::tunables(alloc, items)?;
        let calls = Given::calls(alloc, items)?;
        let spread = spread_index(items);
        Ok(ItemTable {
            items,
            tunables,
            calls,
            spread,
        })
    }

    /// The first item for this tunable.
    pub fn tunable(&self, name: &Name) -> Option<usize>
        ensures { result ≡ names.tunable_index self.now.items.now name.now }
    {
        self.tunables.get(name)
    }

    /// The first item for this task.
    pub fn call(&self, task: &Name) -> Option<usize>
        ensures { result ≡ names.call_index self.now.items.now task.now }
    {
        self.calls.get(task)
    }

    /// The first item that chooses how to spread.
    pub fn spread(&self) -> Option<usize>
        ensures { result ≡ names.spread_index self.now.items.now }
    {
        self.spread
    }

    /// The first of these tasks for which there is no item.
    pub fn missing_call<'r>(&self, tasks: &'r [Name]) -> Option<&'r Name>
        ensures { option_copied result ≡ spec.first_missing (spec.has_call self.now.items.now) tasks.now }
    {
        for task in tasks {
            if self.call(task).is_none() {
                return Some(task);
            }
        }
        None
    }

    /// The first of these tunables for which there is no item.
    pub fn missing_tunable<'r>(&self, tunables: &'r IndexMap<Name, bool>) -> Option<&'r Name>
        ensures { option_copied result ≡ spec.first_missing (spec.has_tunable self.now.items.now)
            (map (λ t. t.0) tunables.now.entries) }
    {
        for name in tunables.keys() {
            if self.tunable(name).is_none() {
                return Some(name);
            }
        }
        None
    }
}

/// The sizes of the entry, with the first of each name.
#[derive(Drop)]
pub struct SizeTable<'a> {
    pub sizes: &'a [SizeText],
    given: Given,
    ghost first_sizes: { (n : Bytes) → item_of given.first n ≡ names.size_index sizes.now n },
}

impl<'a> SizeTable<'a> {
    pub fn new(alloc: Global, sizes: &'a [SizeText]) -> Result<SizeTable<'a>, AllocError>
        ensures { IfOk result (λ t. t.sizes.now ≡ sizes.now) }
    {
        let given = Given::sizes(alloc, sizes)?;
        Ok(SizeTable { sizes, given })
    }

    /// The first size of this name.
    pub fn get(&self, name: &Name) -> Option<usize>
        ensures { result ≡ names.size_index self.now.sizes.now name.now }
    {
        self.given.get(name)
    }

    /// The first of these names that has no value.
    pub fn missing<'r>(&self, wanted: &'r [Name]) -> Option<&'r Name>
        ensures { option_copied result ≡ spec.first_missing (spec.has_size self.now.sizes.now) wanted.now }
    {
        for name in wanted {
            if self.get(name).is_none() {
                return Some(name);
            }
        }
        None
    }
}
