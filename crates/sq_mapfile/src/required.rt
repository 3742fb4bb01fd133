//! What a variant requires of its instances and of the entry, as sets.

ghost use Rattle.std.specs.Prelude.{◌≡◌, [], map, IfOk, OnOk};
ghost use Rattle.std.specs.Map.{lookup};
ghost use Rattle.std.specs.Option.{option_copied};
ghost use Rattle.sq_text.specs.Names.{same_name};
ghost use Rattle.sq_mapping.specs.Names.{is_among};
ghost use Rattle.sq_mapfile.specs.Faults.{first_missing, has_tunable};
ghost use Rattle.sq_mapfile.specs.Gathering as gather;
ghost use Rattle.sq_mapping.specs.Required as spec;

use crate::given::ItemTable;
use indexmap::{IndexMap, IndexSet};
use sq_ast::{Body, Decl, Extent, Param, Stmt, Variant};
use sq_text::Name;
use std::alloc::{AllocError, Global};
use std::marker::Model;

/// What a variant requires.
#[derive(Drop)]
pub struct Required {
    /// The tasks that are called, in the order of their first calls.
    calls: IndexSet<Name>,
    /// The tunables, and whether each is a list.
    tunables: IndexMap<Name, bool>,
    /// The size names of the parameters.
    sizes: IndexSet<Name>,
}

impl Model for Required {
    ghost use Rattle.sq_mapping.specs.Required.{Required};

    ghost Value = { Required };

    ghost view = { λ r. record { calls = r.calls.keys; tunables = r.tunables.entries; sizes = r.sizes.keys } };
}

// Adds a name to a set.
fn enter(alloc: Global, names: &mut IndexSet<Name>, name: &Name) -> Result<(), AllocError>
    ensures { OnOk result (names.new.keys ≡ spec.with_name names.old.keys name.now) }
{
    if names.contains(name) {
        return Ok(());
    }
    names.insert(name.copy(alloc)?)?;
    Ok(())
}

#[cycle(calls)]
#[tactic(auto, using(crate::proofs::OpenedCalls::opened_calls))]
fn stmt_calls(alloc: Global, names: &mut IndexSet<Name>, s: &Stmt) -> Result<(), AllocError>
    ensures { OnOk result (names.new.keys ≡ gather.stmt_calls s.now names.old.keys) }
{
    match s {
        Stmt::Call(c) => {
            enter(alloc, names, &c.task)?;
            Ok(())
        }
        Stmt::Map { body, .. } => {
            stmts_calls(alloc, names, body.as_slice())?;
            Ok(())
        }
    }
}

#[cycle(calls)]
fn stmts_calls(alloc: Global, names: &mut IndexSet<Name>, list: &[Stmt]) -> Result<(), AllocError>
    ensures { OnOk result (names.new.keys ≡ gather.stmts_calls list.now names.old.keys) }
{
    for s in list {
        stmt_calls(alloc, names, s)?;
    }
    Ok(())
}

fn body_calls(alloc: Global, body: &Body) -> Result<IndexSet<Name>, AllocError>
    ensures { IfOk result (λ names. names.keys ≡ gather.body_calls body.now) }
{
    let mut names = IndexSet::new(alloc);
    match body {
        Body::Inner(list) => {
            stmts_calls(alloc, &mut names, list.as_slice())?;
            Ok(names)
        }
        Body::Leaf(_) => Ok(names),
    }
}

// The first declaration of a name counts.
fn enter_tunable(
    alloc: Global,
    known: &mut IndexMap<Name, bool>,
    name: &Name,
    is_list: bool,
) -> Result<(), AllocError>
    ensures { OnOk result (known.new.entries ≡ spec.with_tunable known.old.entries name.now is_list) }
{
    match known.get(name) {
        Some(_) => Ok(()),
        None => {
            known.insert(name.copy(alloc)?, is_list)?;
            Ok(())
        }
    }
}

fn tunables(alloc: Global, decls: &[Decl]) -> Result<IndexMap<Name, bool>, AllocError>
    ensures { IfOk result (λ known. known.entries ≡ gather.decls_tunables decls.now []) }
{
    let mut known = IndexMap::new(alloc);
    for decl in decls {
        match decl {
            Decl::Tunable(_, name) => enter_tunable(alloc, &mut known, name, false)?,
            Decl::List(_, name) => enter_tunable(alloc, &mut known, name, true)?,
            _ => {}
        }
    }
    Ok(known)
}

fn extents_sizes(
    alloc: Global,
    names: &mut IndexSet<Name>,
    extents: &[Extent],
) -> Result<(), AllocError>
    ensures { OnOk result (names.new.keys ≡ gather.extents_sizes extents.now names.old.keys) }
{
    for extent in extents {
        match extent {
            Extent::Size(_, name) => {
                enter(alloc, names, name)?;
            }
            Extent::Fixed(_, _) => {}
        }
    }
    Ok(())
}

fn sizes(alloc: Global, params: &[Param]) -> Result<IndexSet<Name>, AllocError>
    ensures { IfOk result (λ names. names.keys ≡ gather.params_sizes params.now []) }
{
    let mut names = IndexSet::new(alloc);
    for p in params {
        extents_sizes(alloc, &mut names, p.extents.as_slice())?;
    }
    Ok(names)
}

impl Required {
    #[tactic(auto, using(crate::proofs::Onces::gathered_once))]
    pub fn new(alloc: Global, variant: &Variant) -> Result<Required, AllocError>
        ensures { IfOk result (λ r. r ≡ spec.required_by variant.now) }
    {
        let calls = body_calls(alloc, &variant.body)?;
        let tunables = tunables(alloc, variant.decls.as_slice())?;
        let sizes = sizes(alloc, variant.params.as_slice())?;
        Ok(Required {
            calls,
            tunables,
            sizes,
        })
    }

    /// The tasks that are called.
    pub fn calls(&self) -> &[Name]
        ensures { result.now ≡ self.now.calls }
    {
        self.calls.as_slice()
    }

    /// The size names of the parameters.
    pub fn sizes(&self) -> &[Name]
        ensures { result.now ≡ self.now.sizes }
    {
        self.sizes.as_slice()
    }

    /// Whether this task is called.
    pub fn is_called(&self, task: &Name) -> bool
        ensures { result ≡ is_among self.now.calls task.now }
    {
        self.calls.contains(task)
    }

    /// Whether this is a size name of a parameter.
    pub fn has_size(&self, name: &Name) -> bool
        ensures { result ≡ is_among self.now.sizes name.now }
    {
        self.sizes.contains(name)
    }

    /// Whether the tunable of this name, where there is one, is a list.
    pub fn tunable(&self, name: &Name) -> Option<bool>
        ensures { result ≡ lookup (same_name name.now) self.now.tunables }
    {
        self.tunables.get(name).copied()
    }

    /// The first tunable for which there is no item.
    pub fn missing_tunable(&self, items: &ItemTable<'_>) -> Option<&Name>
        ensures { option_copied result ≡ first_missing (has_tunable items.now.items.now)
            (map (λ t. t.0) self.now.tunables) }
    {
        items.missing_tunable(&self.tunables)
    }
}
