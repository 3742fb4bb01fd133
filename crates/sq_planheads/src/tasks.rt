//! Whether the arrays of a leaf's task have extents within the limits.

ghost use Rattle.std.specs.Prelude.{◌≡◌, [], is_some, map};
ghost use Rattle.std.specs.List.{list_all};
ghost use Rattle.sq_blocks.specs.Constants.{worth};
ghost use Rattle.sq_ir.specs.DraftLeaves.{nat_of, nat_worth};
ghost use Rattle.sq_planheads.specs.Extents.{elements_of};
ghost use Rattle.sq_planheads.specs.Leaves as spec;

use crate::extents::{are_few, widened};
use sq_ast::{Decl, Expr, Extent, Param, Variant};
use sq_blocks::{Bindings as Numbers, Env, ListBindings, cval};
use std::alloc::Global;

// What is below 0 is no extent, as 0 is none.
fn natural(n: i64) -> u64
    ensures { result ≡ nat_of n }
{
    if n < 0 { 0 } else { n as u64 }
}

fn extent_of(numbers: &Numbers, extent: &Extent) -> u64
    ensures { result ≡ spec.extent_of numbers.now extent.now }
{
    match extent {
        Extent::Size(_, name) => match numbers.get(name) {
            Some(n) => natural(n),
            None => 0,
        },
        Extent::Fixed(_, n) => natural(*n),
    }
}

fn param_fits(numbers: &Numbers, param: &Param) -> bool
    ensures { result ≡ spec.param_fits numbers.now param.now }
{
    let extents = param.extents.as_slice();
    if !are_few(extents.len()) {
        return false;
    }
    let mut elements = 1;
    for extent in extents {
        match widened(elements, extent_of(numbers, extent)) {
            None => return false,
            Some(wider) => elements = wider,
        }
    }
    true
}

// The worth of a constant; 0 where it has none.
fn worth_of(env: &Env<'_>, constant: &Expr) -> u64
    ensures { result ≡ nat_worth (worth constant.now env.now.numbers.now env.now.lists.now) }
{
    match cval(constant, env) {
        Ok(n) => natural(n),
        Err(_) => 0,
    }
}

fn extents_fit(env: &Env<'_>, extents: &[Expr]) -> bool
    ensures { result ≡ is_some (elements_of
        (map (λ e. nat_worth (worth e env.now.numbers.now env.now.lists.now)) extents.now)) }
{
    if !are_few(extents.len()) {
        return false;
    }
    let mut elements = 1;
    for extent in extents {
        match widened(elements, worth_of(env, extent)) {
            None => return false,
            Some(wider) => elements = wider,
        }
    }
    true
}

fn decl_fits(env: &Env<'_>, decl: &Decl) -> bool
    ensures { result ≡ spec.decl_fits env.now.numbers.now env.now.lists.now decl.now }
{
    match decl {
        Decl::Local {
            place: _,
            elem: _,
            name: _,
            extents,
        } => extents_fit(env, extents.as_slice()),
        _ => true,
    }
}

fn decls_fit(env: &Env<'_>, decls: &[Decl]) -> bool
    ensures { result ≡ list_all (spec.decl_fits env.now.numbers.now env.now.lists.now) decls.now }
{
    decls.iter().all(|decl| decl_fits(env, decl))
}

fn params_fit(numbers: &Numbers, params: &[Param]) -> bool
    ensures { result ≡ list_all (spec.param_fits numbers.now) params.now }
{
    params.iter().all(|param| param_fits(numbers, param))
}

/// Whether the extents of parameters and locals are within the limits; leaf code has no lists.
pub(crate) fn arrays_fit(alloc: Global, numbers: &Numbers, task: &Variant) -> bool
    ensures { result ≡ spec.arrays_fit numbers.now task.now }
{
    let lists = ListBindings::new(alloc);
    let env = Env {
        numbers,
        lists: &lists,
    };
    params_fit(numbers, task.params.as_slice()) && decls_fit(&env, task.decls.as_slice())
}
