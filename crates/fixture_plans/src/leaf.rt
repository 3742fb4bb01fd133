//! Leaves from texts.

ghost use Rattle.std.specs.Prelude.{◌≡◌, ◌∷◌, ◌&&◌, [], true, map, IfOk, IfSome};
ghost use Rattle.sq_num.specs.declared.Elem.TheVariants.{Int};
ghost use Rattle.sq_blocks.specs.Names.{Numbers};
ghost use Rattle.sq_ir.specs.DraftLeaves.{extent_of, param_shape, shapes_of};
ghost use Rattle.sq_leaf.specs.Leaf.{IsLeaf};
ghost use Rattle.fixture_plans.specs.Turns.{squares, AreSquares};

use sq_ast::{Extent, Param, Variant};
use sq_blocks::{Bindings, Env, ListBindings};
use sq_ir::Leaf;
use sq_leaf::{LeafCode, Typed, compile_leaf, leaf_variant};
use sq_num::Elem;
use sq_source::read_program;
use sq_text::Name;
use std::alloc::{AllocError, Global};

// Whether it is this number and no size.
fn is_fixed(extent: &Extent, n: u32) -> bool
    ensures { result ≡ true → (numbers : Numbers) → extent_of numbers extent.now ≡ n }
{
    match extent {
        Extent::Fixed(_, k) => *k == i64::from(n),
        Extent::Size(_, _) => false,
    }
}

// Whether a parameter is a single int.
fn is_int(param: &Param) -> bool
    ensures { result ≡ true → (numbers : Numbers) →
        param_shape numbers param.now ≡ record { elem = Int; extents = 1 ∷ [] } }
{
    match param.extents.as_slice() {
        [extent] => param.elem == Elem::Int && is_fixed(extent, 1),
        _ => false,
    }
}

fn declares_nothing(variant: &Variant) -> bool
    ensures { result ≡ true → variant.now.decls ≡ [] }
{
    match variant.decls.as_slice() {
        [] => true,
        _ => false,
    }
}

fn has_int(variant: &Variant) -> bool
    ensures { result ≡ true → (numbers : Numbers) →
        map (param_shape numbers) variant.now.params ≡ record { elem = Int; extents = 1 ∷ [] } ∷ [] }
{
    match variant.params.as_slice() {
        [param] => is_int(param),
        _ => false,
    }
}

// Whether a variant takes a single int, and has no declarations.
fn takes_int(variant: &Variant) -> bool
    ensures { result ≡ true → (numbers : Numbers) →
        shapes_of (record { variant = variant.now; numbers = numbers }) ≡ record { elem = Int; extents = 1 ∷ [] } ∷ [] }
{
    if declares_nothing(variant) {
        return has_int(variant);
    }
    false
}

// Whether a parameter is a square of 4 by 4 ints.
fn is_square(param: &Param) -> bool
    ensures { result ≡ true → (numbers : Numbers) →
        param_shape numbers param.now ≡ record { elem = Int; extents = 4 ∷ 4 ∷ [] } }
{
    match param.extents.as_slice() {
        [a, b] => param.elem == Elem::Int && is_fixed(a, 4) && is_fixed(b, 4),
        _ => false,
    }
}

fn all_three(a: bool, b: bool, c: bool) -> bool
    ensures { result ≡ ((a && b) && c) }
{
    a && b && c
}

fn are_squares(a: &Param, b: &Param, c: &Param) -> bool
    ensures { result ≡ true → (numbers : Numbers) →
        AreSquares (param_shape numbers a.now) (param_shape numbers b.now) (param_shape numbers c.now) }
{
    let first = is_square(a);
    let second = is_square(b);
    let third = is_square(c);
    all_three(first, second, third)
}

fn has_squares(variant: &Variant) -> bool
    ensures { result ≡ true → (numbers : Numbers) → map (param_shape numbers) variant.now.params ≡ squares }
{
    match variant.params.as_slice() {
        [a, b, c] => are_squares(a, b, c),
        _ => false,
    }
}

// Whether a variant takes three such squares, and has no declarations.
fn takes_squares(variant: &Variant) -> bool
    ensures { result ≡ true → (numbers : Numbers) →
        shapes_of (record { variant = variant.now; numbers = numbers }) ≡ squares }
{
    if declares_nothing(variant) {
        return has_squares(variant);
    }
    false
}

// The code of a checked variant without sizes.
fn code_of(alloc: Global, variant: &Variant) -> Result<LeafCode, AllocError>
    requires { IsLeaf variant.now }
    ensures { IfOk result (λ code. code.variant ≡ variant.now) }
{
    let numbers = Bindings::new(alloc);
    let lists = ListBindings::new(alloc);
    let env = Env {
        numbers: &numbers,
        lists: &lists,
    };
    let code = compile_leaf(alloc, variant, &env);
    drop(lists);
    drop(numbers);
    code
}

fn compiled(alloc: Global, name: &[u8], variant: &Variant) -> Result<Leaf, AllocError>
    requires { IsLeaf variant.now }
    ensures { IfOk result (λ leaf. leaf.code.variant ≡ variant.now) }
{
    let instance = Name::new(alloc, name)?;
    let code = code_of(alloc, variant)?;
    Ok(Leaf { instance, code })
}

// The leaf that the first variant is, where it takes a single int.
fn int_leaf_of(alloc: Global, name: &[u8], typed: &Typed) -> Result<Option<Leaf>, AllocError>
    ensures { IfOk result (λ l. IfSome l (λ leaf. shapes_of leaf.code ≡ record { elem = Int; extents = 1 ∷ [] } ∷ [])) }
{
    match leaf_variant(typed, 0) {
        Some(variant) if takes_int(variant) => Ok(Some(compiled(alloc, name, variant)?)),
        _ => Ok(None),
    }
}

// The leaf that the first variant is, where it takes three squares.
fn square_leaf_of(alloc: Global, name: &[u8], typed: &Typed) -> Result<Option<Leaf>, AllocError>
    ensures { IfOk result (λ l. IfSome l (λ leaf. shapes_of leaf.code ≡ squares)) }
{
    match leaf_variant(typed, 0) {
        Some(variant) if takes_squares(variant) => Ok(Some(compiled(alloc, name, variant)?)),
        _ => Ok(None),
    }
}

/// The leaf that a text's first variant is, where it takes a single int.
pub fn int_leaf(alloc: Global, name: &[u8], text: &[u8]) -> Result<Option<Leaf>, AllocError>
    ensures { IfOk result (λ l. IfSome l (λ leaf. shapes_of leaf.code ≡ record { elem = Int; extents = 1 ∷ [] } ∷ [])) }
{
    match read_program(alloc, text) {
        Ok(typed) => {
            let leaf = int_leaf_of(alloc, name, &typed);
            drop(typed);
            leaf
        }
        Err(stop) => {
            drop(stop);
            Ok(None)
        }
    }
}

/// The leaf that a text's first variant is, where it takes three arrays of 4 by 4 ints.
pub fn square_leaf(alloc: Global, name: &[u8], text: &[u8]) -> Result<Option<Leaf>, AllocError>
    ensures { IfOk result (λ l. IfSome l (λ leaf. shapes_of leaf.code ≡ squares)) }
{
    match read_program(alloc, text) {
        Ok(typed) => {
            let leaf = square_leaf_of(alloc, name, &typed);
            drop(typed);
            leaf
        }
        Err(stop) => {
            drop(stop);
            Ok(None)
        }
    }
}
