//! Tables of what has a name: variants of a program, routes and values of an instance.

ghost use Rattle.std.specs.Prelude.{◌≡◌, ℕ, List, map, IfOk};
ghost use Rattle.std.specs.Option.{option_copied};
ghost use Rattle.sq_text.specs.Names.{item_of, first_from};
ghost use Rattle.sq_ast.specs.declared.program.VariantKind.TheVariants.{Inner, Leaf};
ghost use Rattle.sq_forms.specs.Tables as spec;

use sq_ast::{Variant, VariantKind};
use sq_mapping::{Route, Setting, Tuning};
use sq_text::{FirstItems, Name};
use sqlite_items::at;
use std::alloc::{AllocError, Global};

/// The variants of a program, with the first of each task and kind.
#[derive(Drop)]
pub struct Variants<'a> {
    pub list: &'a [Variant],
    inner: FirstItems,
    leaf: FirstItems,
    ghost inners: { (n : List ℕ) → item_of inner n ≡ spec.first_of_kind Inner 0 list.now n },
    ghost leaves: { (n : List ℕ) → item_of leaf n ≡ spec.first_of_kind Leaf 0 list.now n },
}

fn is_same_kind(kind: VariantKind, other: VariantKind) -> bool
    ensures { result ≡ spec.same_kind kind other }
{
    kind == other
}

fn first_of_kind(
    alloc: Global,
    list: &[Variant],
    kind: VariantKind,
) -> Result<FirstItems, AllocError>
    ensures { IfOk result (λ first. (n : List ℕ) → item_of first n ≡ spec.first_of_kind kind 0 list.now n) }
{
    let mut first = FirstItems::new(alloc);
    for (i, v) in list.iter().enumerate() {
        if is_same_kind(v.kind, kind) {
            first.enter(alloc, &v.task, i)?;
        }
    }
    Ok(first)
}

impl<'a> Variants<'a> {
    pub fn new(alloc: Global, list: &'a [Variant]) -> Result<Variants<'a>, AllocError>
        ensures { IfOk result (λ v. v.list.now ≡ list.now) }
    {
        let inner = first_of_kind(alloc, list, VariantKind::Inner)?;
        let leaf = first_of_kind(alloc, list, VariantKind::Leaf)?;
        Ok(Variants { list, inner, leaf })
    }

    /// The number of the variant of a task and kind.
    pub fn number(&self, task: &Name, kind: VariantKind) -> Option<usize>
        ensures { result ≡ spec.first_of_kind kind 0 self.now.list.now task.now }
    {
        match kind {
            VariantKind::Inner => self.inner.get(task),
            VariantKind::Leaf => self.leaf.get(task),
        }
    }

    /// The variant of a task and kind.
    pub fn get(&self, task: &Name, kind: VariantKind) -> Option<&'a Variant>
        ensures { option_copied result ≡ spec.variant_of self.now.list.now task.now kind }
    {
        let i = self.number(task, kind)?;
        self.list.get(i)
    }
}

/// The routes of an instance, by their tasks.
#[derive(Drop)]
pub struct RoutesByTask<'a> {
    pub list: &'a [Route],
    first: FirstItems,
    ghost firsts: { (n : List ℕ) → item_of first n ≡ first_from 0 (map (λ r. r.task) list.now) n },
}

impl<'a> RoutesByTask<'a> {
    pub fn new(alloc: Global, list: &'a [Route]) -> Result<RoutesByTask<'a>, AllocError>
        ensures { IfOk result (λ t. t.list.now ≡ list.now) }
    {
        let mut first = FirstItems::new(alloc);
        for (i, route) in list.iter().enumerate() {
            first.enter(alloc, &route.task, i)?;
        }
        Ok(RoutesByTask { list, first })
    }

    /// The instance that serves calls of a task.
    pub fn get(&self, task: &Name) -> Option<u32>
        ensures { result ≡ spec.route_of self.now.list.now task.now }
    {
        let i = self.first.get(task)?;
        let route = self.list.get(i)?;
        Some(route.instance)
    }
}

/// The values of an instance's tunables, by their names.
#[derive(Drop)]
pub struct SettingsByName<'a> {
    pub list: &'a [Tuning],
    first: FirstItems,
    ghost firsts: { (n : List ℕ) → item_of first n ≡ first_from 0 (map (λ t. t.name) list.now) n },
}

impl<'a> SettingsByName<'a> {
    pub fn new(alloc: Global, list: &'a [Tuning]) -> Result<SettingsByName<'a>, AllocError>
        ensures { IfOk result (λ t. t.list.now ≡ list.now) }
    {
        let mut first = FirstItems::new(alloc);
        for (i, tuning) in list.iter().enumerate() {
            first.enter(alloc, &tuning.name, i)?;
        }
        Ok(SettingsByName { list, first })
    }

    /// The value of a tunable.
    pub fn get(&self, name: &Name) -> Option<&'a Setting>
        ensures { option_copied result ≡ spec.setting_of self.now.list.now name.now }
    {
        let i = self.first.get(name)?;
        let tuning = self.list.get(i)?;
        Some(&tuning.setting)
    }
}
