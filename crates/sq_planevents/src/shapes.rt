//! The arrays of leaves.

ghost use Rattle.std.specs.Prelude.{◌≡◌, ◌++◌, ◌∷◌, [], map, IfOk, OnOk};
ghost use Rattle.std.specs.List.{All};
ghost use Rattle.sq_ast.specs.Modes.{is_written};
ghost use Rattle.sq_leaf.specs.Leaf.{local_flags, written_of};
ghost use Rattle.sq_ir.specs.DraftLeaves.{nat_of, nat_worth, extent_of, param_shape, local_shapes};
ghost use Rattle.sq_blocks.specs.Constants.{worth};
ghost use Rattle.sq_planfile.specs.Sound.{Once, IsLeafText};
ghost use Rattle.sq_planevents.specs.Shapes as spec;

use sq_ast::{Decl, Expr, Extent, Param, Variant};
use sq_blocks::{Bindings as Numbers, Env, ListBindings, cval};
use sq_num::Elem;
use sq_plantext::{Binding, LeafText, Naturals};
use sqlite_items::Items;
use std::alloc::{AllocError, Global};

/// The element type and the extents of a leaf's array.
#[derive(Drop)]
pub(crate) struct Shape {
    pub elem: Elem,
    pub extents: Naturals,
}

/// The arrays of a leaf, and which of them it may write.
#[derive(Drop)]
pub(crate) struct LeafShapes {
    pub shapes: Items<Shape>,
    pub written: Items<bool>,
}

// A number that isn't negative; a negative one is 0.
fn natural(n: i64) -> u64
    ensures { result ≡ nat_of n }
{
    if n < 0 { 0 } else { n as u64 }
}

// What a size name or a number is as an extent.
fn extent_of(numbers: &Numbers, extent: &Extent) -> u64
    ensures { result ≡ extent_of numbers.now extent.now }
{
    match extent {
        Extent::Size(_, name) => match numbers.get(name) {
            Some(n) => natural(n),
            None => 0,
        },
        Extent::Fixed(_, n) => natural(*n),
    }
}

// What a constant expression is as an extent; 0 where it has no worth.
fn extent_worth(alloc: Global, numbers: &Numbers, e: &Expr) -> u64
    ensures { result ≡ nat_worth (worth e.now numbers.now []) }
{
    let lists = ListBindings::new(alloc);
    let env = Env {
        numbers,
        lists: &lists,
    };
    match cval(e, &env) {
        Ok(n) => natural(n),
        Err(_) => 0,
    }
}

fn extents_of(alloc: Global, numbers: &Numbers, extents: &[Extent]) -> Result<Naturals, AllocError>
    ensures { IfOk result (λ ns. ns ≡ map (extent_of numbers.now) extents.now) }
{
    let mut found = Items::new(alloc);
    for extent in extents {
        found.push(extent_of(numbers, extent))?;
    }
    Ok(found)
}

fn extent_worths(alloc: Global, numbers: &Numbers, extents: &[Expr]) -> Result<Naturals, AllocError>
    ensures { IfOk result (λ ns. ns ≡ map (λ e. nat_worth (worth e numbers.now [])) extents.now) }
{
    let mut found = Items::new(alloc);
    for extent in extents {
        found.push(extent_worth(alloc, numbers, extent))?;
    }
    Ok(found)
}

// Puts the arrays of parameters behind others.
fn put_params(
    alloc: Global,
    numbers: &Numbers,
    params: &[Param],
    shapes: &mut Items<Shape>,
) -> Result<(), AllocError>
    ensures { OnOk result (shapes.new ≡ shapes.old ++ map spec.kept (map (param_shape numbers.now) params.now)) }
{
    for param in params {
        let extents = extents_of(alloc, numbers, param.extents.as_slice())?;
        shapes.push(Shape {
            elem: param.elem,
            extents,
        })?;
    }
    Ok(())
}

// Puts the array of a local behind others.
fn put_local(
    alloc: Global,
    numbers: &Numbers,
    decl: &Decl,
    shapes: &mut Items<Shape>,
) -> Result<(), AllocError>
    ensures { OnOk result (shapes.new ≡ shapes.old ++ map spec.kept (local_shapes numbers.now (decl.now ∷ []))) }
{
    match decl {
        Decl::Local {
            place: _,
            elem,
            name: _,
            extents,
        } => {
            let extents = extent_worths(alloc, numbers, extents.as_slice())?;
            shapes.push(Shape {
                elem: *elem,
                extents,
            })
        }
        _ => Ok(()),
    }
}

// Puts the arrays of locals behind others.
fn put_locals(
    alloc: Global,
    numbers: &Numbers,
    decls: &[Decl],
    shapes: &mut Items<Shape>,
) -> Result<(), AllocError>
    ensures { OnOk result (shapes.new ≡ shapes.old ++ map spec.kept (local_shapes numbers.now decls.now)) }
{
    for decl in decls {
        put_local(alloc, numbers, decl, shapes)?;
    }
    Ok(())
}

// Puts a flag for each parameter behind others.
fn put_param_flags(params: &[Param], flags: &mut Items<bool>) -> Result<(), AllocError>
    ensures { OnOk result (flags.new ≡ flags.old ++ map (λ p. is_written p.mode) params.now) }
{
    for param in params {
        flags.push(param.mode.is_written())?;
    }
    Ok(())
}

// Puts a flag for a local behind others.
fn put_local_flag(decl: &Decl, flags: &mut Items<bool>) -> Result<(), AllocError>
    ensures { OnOk result (flags.new ≡ flags.old ++ local_flags (decl.now ∷ [])) }
{
    match decl {
        Decl::Local {
            place: _,
            elem: _,
            name: _,
            extents: _,
        } => flags.push(true),
        _ => Ok(()),
    }
}

// Puts a flag for each local behind others.
fn put_local_flags(decls: &[Decl], flags: &mut Items<bool>) -> Result<(), AllocError>
    ensures { OnOk result (flags.new ≡ flags.old ++ local_flags decls.now) }
{
    for decl in decls {
        put_local_flag(decl, flags)?;
    }
    Ok(())
}

// For each array of a leaf whether it may be written.
fn flags_of(alloc: Global, variant: &Variant) -> Result<Items<bool>, AllocError>
    ensures { IfOk result (λ fs. fs ≡ written_of variant.now) }
{
    let mut flags = Items::new(alloc);
    put_param_flags(variant.params.as_slice(), &mut flags)?;
    put_local_flags(variant.decls.as_slice(), &mut flags)?;
    Ok(flags)
}

// The arrays of a leaf.
fn shapes_of(
    alloc: Global,
    numbers: &Numbers,
    variant: &Variant,
) -> Result<Items<Shape>, AllocError>
    ensures { IfOk result (λ ss. ss ≡ spec.shapes_in variant.now numbers.now) }
{
    let mut shapes = Items::new(alloc);
    put_params(alloc, numbers, variant.params.as_slice(), &mut shapes)?;
    put_locals(alloc, numbers, variant.decls.as_slice(), &mut shapes)?;
    Ok(shapes)
}

// A leaf's numbers, of which none is given twice.
fn numbers_of(alloc: Global, bindings: &[Binding]) -> Result<Numbers, AllocError>
    requires { Once (map (λ b. b.name) bindings.now) }
    ensures { IfOk result (λ ns. ns ≡ spec.pairs bindings.now) }
{
    let mut numbers = Numbers::new(alloc);
    for binding in bindings {
        numbers.bind(&binding.name, binding.value)?;
    }
    Ok(numbers)
}

fn leaf_shapes(alloc: Global, leaf: &LeafText) -> Result<LeafShapes, AllocError>
    requires { IsLeafText leaf.now }
    ensures { IfOk result (λ l. l ≡ spec.table_of leaf.now) }
{
    let numbers = numbers_of(alloc, leaf.numbers.as_slice())?;
    let shapes = shapes_of(alloc, &numbers, &leaf.task)?;
    drop(numbers);
    let written = flags_of(alloc, &leaf.task)?;
    Ok(LeafShapes { shapes, written })
}

/// The arrays of each leaf of a plan file.
pub(crate) fn all_shapes(
    alloc: Global,
    leaves: &[LeafText],
) -> Result<Items<LeafShapes>, AllocError>
    requires { All IsLeafText leaves.now }
    ensures { IfOk result (λ ls. ls ≡ map spec.table_of leaves.now) }
{
    let mut all = Items::new(alloc);
    for leaf in leaves {
        all.push(leaf_shapes(alloc, leaf)?)?;
    }
    Ok(all)
}
