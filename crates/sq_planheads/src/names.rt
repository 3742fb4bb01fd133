//! The numbers of a leaf: whether its size names and tunables have one each, and no other name has one.

ghost use Rattle.std.specs.Prelude.{◌≡◌, [], IfOk, OnOk};
ghost use Rattle.std.specs.List.{list_all, flat_map};
ghost use Rattle.sq_planfile.specs.Written.{sizes_in, tunables_in, names_in};
ghost use Rattle.sq_planheads.specs.Leaves as spec;

use sq_ast::{Decl, Extent, Param, Variant};
use sq_blocks::Bindings as Numbers;
use sq_plantext::Binding;
use sq_text::Name;
use std::alloc::{AllocError, Global};

fn is_bound(numbers: &Numbers, name: &Name) -> bool
    ensures { result ≡ spec.is_bound numbers.now name.now }
{
    numbers.get(name).is_some()
}

/// The numbers by their names, unless a name stands twice.
pub(crate) fn numbers_of(alloc: Global, bindings: &[Binding]) -> Result<Option<Numbers>, AllocError>
    ensures { IfOk result (λ numbers. numbers ≡ spec.with_bindings [] bindings.now) }
{
    let mut numbers = Numbers::new(alloc);
    for binding in bindings {
        if is_bound(&numbers, &binding.name) {
            return Ok(None);
        }
        numbers.bind(&binding.name, binding.value)?;
    }
    Ok(Some(numbers))
}

fn is_size_bound(numbers: &Numbers, extent: &Extent) -> bool
    ensures { result ≡ spec.is_size_bound numbers.now extent.now }
{
    match extent {
        Extent::Size(_, name) => is_bound(numbers, name),
        Extent::Fixed(_, _) => true,
    }
}

fn are_sizes_bound(numbers: &Numbers, param: &Param) -> bool
    ensures { result ≡ spec.are_sizes_bound numbers.now param.now }
{
    let extents = param.extents.as_slice();
    extents.iter().all(|extent| is_size_bound(numbers, extent))
}

fn is_tunable_bound(numbers: &Numbers, decl: &Decl) -> bool
    ensures { result ≡ spec.is_tunable_bound numbers.now decl.now }
{
    match decl {
        Decl::Tunable(_, name) => is_bound(numbers, name),
        _ => true,
    }
}

fn are_all_sizes_bound(numbers: &Numbers, params: &[Param]) -> bool
    ensures { result ≡ list_all (spec.are_sizes_bound numbers.now) params.now }
{
    params.iter().all(|param| are_sizes_bound(numbers, param))
}

fn are_tunables_bound(numbers: &Numbers, decls: &[Decl]) -> bool
    ensures { result ≡ list_all (spec.is_tunable_bound numbers.now) decls.now }
{
    decls.iter().all(|decl| is_tunable_bound(numbers, decl))
}

/// Whether each size name and tunable of a task has a number.
pub(crate) fn are_names_bound(numbers: &Numbers, task: &Variant) -> bool
    ensures { result ≡ spec.are_names_bound numbers.now task.now }
{
    are_all_sizes_bound(numbers, task.params.as_slice())
        && are_tunables_bound(numbers, task.decls.as_slice())
}

// A table is a set of names here: each of them has the number 0.
fn put_size(table: &mut Numbers, extent: &Extent) -> Result<(), AllocError>
    ensures { OnOk result (table.new ≡ spec.with_names table.old (sizes_in extent.now)) }
{
    match extent {
        Extent::Size(_, name) => table.bind(name, 0),
        Extent::Fixed(_, _) => Ok(()),
    }
}

fn put_sizes(table: &mut Numbers, extents: &[Extent]) -> Result<(), AllocError>
    ensures { OnOk result (table.new ≡ spec.with_names table.old (flat_map sizes_in extents.now)) }
{
    for extent in extents {
        put_size(table, extent)?;
    }
    Ok(())
}

fn put_all_sizes(table: &mut Numbers, params: &[Param]) -> Result<(), AllocError>
    ensures { OnOk result (table.new
        ≡ spec.with_names table.old (flat_map (λ p. flat_map sizes_in p.extents) params.now)) }
{
    for param in params {
        put_sizes(table, param.extents.as_slice())?;
    }
    Ok(())
}

fn put_tunable(table: &mut Numbers, decl: &Decl) -> Result<(), AllocError>
    ensures { OnOk result (table.new ≡ spec.with_names table.old (tunables_in decl.now)) }
{
    match decl {
        Decl::Tunable(_, name) => table.bind(name, 0),
        _ => Ok(()),
    }
}

fn put_tunables(table: &mut Numbers, decls: &[Decl]) -> Result<(), AllocError>
    ensures { OnOk result (table.new ≡ spec.with_names table.old (flat_map tunables_in decls.now)) }
{
    for decl in decls {
        put_tunable(table, decl)?;
    }
    Ok(())
}

/// The set of the size names and tunables of a task.
#[tactic(auto, using(crate::proofs::NameTables::names_append))]
pub(crate) fn names_of(alloc: Global, task: &Variant) -> Result<Numbers, AllocError>
    ensures { IfOk result (λ table. table ≡ spec.with_names [] (names_in task.now)) }
{
    let mut table = Numbers::new(alloc);
    put_all_sizes(&mut table, task.params.as_slice())?;
    put_tunables(&mut table, task.decls.as_slice())?;
    Ok(table)
}

/// Whether each name that has a number is in the set.
pub(crate) fn are_wanted(table: &Numbers, bindings: &[Binding]) -> bool
    ensures { result ≡ spec.are_wanted table.now bindings.now }
{
    bindings
        .iter()
        .all(|binding| is_bound(table, &binding.name))
}
