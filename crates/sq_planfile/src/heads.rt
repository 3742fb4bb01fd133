//! The numbers of a leaf, as the head of its line has them.

ghost use Rattle.std.specs.Prelude.{◌≡◌, ◌++◌, ◌∷◌, [], map, IfOk, OnOk};
ghost use Rattle.std.specs.List.{flat_map};
ghost use Rattle.sq_blocks.specs.Names.{number_of};
ghost use Rattle.sq_plantext.specs.Grammar.{binding};
ghost use Rattle.sq_planfile.specs.Written as written;
ghost use Rattle.sq_planfile.specs.Written.{sizes_in, tunables_in, names_in, has, firsts};

use sq_ast::{Decl, Extent, Param, Variant};
use sq_blocks::Bindings as Numbers;
use sq_plantext::{Binding, Bindings};
use sq_text::Name;
use sqlite_items::Items;
use std::alloc::{AllocError, Global};

fn has(names: &[Name], name: &Name) -> bool
    ensures { result ≡ has names.now name.now }
{
    for other in names {
        if *other == *name {
            return true;
        }
    }
    false
}

// Puts a name behind others, unless it stands there.
fn put_name(alloc: Global, names: &mut Items<Name>, name: &Name) -> Result<(), AllocError>
    ensures { OnOk result (names.new ≡ firsts names.old (name.now ∷ [])) }
{
    if has(names.as_slice(), name) {
        return Ok(());
    }
    names.push(name.copy(alloc)?)
}

fn put_size(alloc: Global, names: &mut Items<Name>, extent: &Extent) -> Result<(), AllocError>
    ensures { OnOk result (names.new ≡ firsts names.old (sizes_in extent.now)) }
{
    match extent {
        Extent::Size(_, name) => put_name(alloc, names, name),
        Extent::Fixed(_, _) => Ok(()),
    }
}

fn put_sizes(alloc: Global, names: &mut Items<Name>, extents: &[Extent]) -> Result<(), AllocError>
    ensures { OnOk result (names.new ≡ firsts names.old (flat_map sizes_in extents.now)) }
{
    for extent in extents {
        put_size(alloc, names, extent)?;
    }
    Ok(())
}

// The size names of parameters.
fn put_all_sizes(alloc: Global, names: &mut Items<Name>, params: &[Param]) -> Result<(), AllocError>
    ensures { OnOk result (names.new ≡ firsts names.old (flat_map (λ p. flat_map sizes_in p.extents) params.now)) }
{
    for param in params {
        put_sizes(alloc, names, param.extents.as_slice())?;
    }
    Ok(())
}

fn put_tunable(alloc: Global, names: &mut Items<Name>, decl: &Decl) -> Result<(), AllocError>
    ensures { OnOk result (names.new ≡ firsts names.old (tunables_in decl.now)) }
{
    match decl {
        Decl::Tunable(_, name) => put_name(alloc, names, name),
        _ => Ok(()),
    }
}

fn put_tunables(alloc: Global, names: &mut Items<Name>, decls: &[Decl]) -> Result<(), AllocError>
    ensures { OnOk result (names.new ≡ firsts names.old (flat_map tunables_in decls.now)) }
{
    for decl in decls {
        put_tunable(alloc, names, decl)?;
    }
    Ok(())
}

// The size names of a task, and its tunables.
#[tactic(auto, using(crate::proofs::Firsts::firsts_append))]
fn names_of(alloc: Global, variant: &Variant) -> Result<Items<Name>, AllocError>
    ensures { IfOk result (λ ns. ns ≡ firsts [] (names_in variant.now)) }
{
    let mut names = Items::new(alloc);
    put_all_sizes(alloc, &mut names, variant.params.as_slice())?;
    put_tunables(alloc, &mut names, variant.decls.as_slice())?;
    Ok(names)
}

fn number_of(numbers: &Numbers, name: &Name) -> i64
    ensures { result ≡ number_of numbers.now name.now }
{
    match numbers.get(name) {
        Some(number) => number,
        None => 0,
    }
}

fn put_binding(
    alloc: Global,
    bindings: &mut Bindings,
    name: &Name,
    numbers: &Numbers,
) -> Result<(), AllocError>
    ensures { OnOk result (bindings.new ≡ bindings.old ++ binding name.now (number_of numbers.now name.now) ∷ []) }
{
    let name_copy = name.copy(alloc)?;
    bindings.push(Binding {
        name: name_copy,
        value: number_of(numbers, name),
    })
}

fn bound(alloc: Global, names: &[Name], numbers: &Numbers) -> Result<Bindings, AllocError>
    ensures { IfOk result (λ bs. bs ≡ map (λ n. binding n (number_of numbers.now n)) names.now) }
{
    let mut bindings = Items::new(alloc);
    for name in names {
        put_binding(alloc, &mut bindings, name, numbers)?;
    }
    Ok(bindings)
}

/// Each size name and tunable of a task, with its number.
pub(crate) fn bindings_of(
    alloc: Global,
    variant: &Variant,
    numbers: &Numbers,
) -> Result<Bindings, AllocError>
    ensures { IfOk result (λ bs. bs ≡ written.bindings_of variant.now numbers.now) }
{
    let names = names_of(alloc, variant)?;
    bound(alloc, names.as_slice(), numbers)
}
