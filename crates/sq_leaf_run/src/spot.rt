//! Elements of arrays as places in a memory.

ghost use Rattle.std.specs.Prelude.{◌≡◌, ◌+◌, ◌-◌, ◌*◌, ◌^◌, ◌<◌, ◌≤◌, [], ◌∷◌, IfSome, IfOk, Option, ℕ};
ghost use Rattle.sq_num.specs.Elements.{width};
ghost use Rattle.sq_leaf.specs.Places as spec;
ghost use Rattle.sq_leaf.specs.Spots as running;

use sq_leaf::{Trap, TrapKind};
use sq_num::width;
use sq_rect::View;
use sq_text::Place;

/// How many elements before it, along one dimension.
#[inline(always)]
fn along(index: i64, extent: u32, stride: u32, rest: Option<usize>) -> Option<usize>
    requires { IfSome rest (λ o. o + (extent - 1) * stride < 2 ^ 62) }
    ensures value { result ≡ spec.along index extent stride rest }
    ensures within { (r : ℕ) → IfSome rest (λ o. o ≤ r) → IfSome result (λ o. o ≤ (extent - 1) * stride + r) }
{
    match rest {
        Some(offset) => {
            if 0 <= index && index < i64::from(extent) {
                Some(index as usize * stride as usize + offset)
            } else {
                None
            }
        }
        None => None,
    }
}

/// How many elements before the element of these indices, where each is inside its extent.
pub(crate) fn located(extents: &[u32], strides: &[u32], index: &[i64]) -> Option<usize>
    requires { spec.reach extents.now strides.now < 2 ^ 62 }
    ensures value { result ≡ spec.located extents.now strides.now index.now }
    ensures within { IfSome result (λ o. o ≤ spec.reach extents.now strides.now) }
{
    match extents {
        [] => none_left(strides, index),
        [extent, extents @ ..] => match strides {
            [] => None,
            [stride, strides @ ..] => match index {
                [] => None,
                [i, index @ ..] => { along(*i, *extent, *stride, located(extents, strides, index)) }
            },
        },
    }
}

/// The same for one index.
#[inline(always)]
pub(crate) fn located_one(extents: &[u32], strides: &[u32], i: i64) -> Option<usize>
    requires { spec.reach extents.now strides.now < 2 ^ 62 }
    ensures value { result ≡ spec.located extents.now strides.now (i ∷ []) }
    ensures within { IfSome result (λ o. o ≤ spec.reach extents.now strides.now) }
{
    match extents {
        [n] => match strides {
            [s] => along(i, *n, *s, Some(0)),
            _ => located(extents, strides, &[i]),
        },
        _ => located(extents, strides, &[i]),
    }
}

/// The same for two indices.
#[inline(always)]
pub(crate) fn located_two(extents: &[u32], strides: &[u32], i: i64, j: i64) -> Option<usize>
    requires { spec.reach extents.now strides.now < 2 ^ 62 }
    ensures value { result ≡ spec.located extents.now strides.now (i ∷ j ∷ []) }
    ensures within { IfSome result (λ o. o ≤ spec.reach extents.now strides.now) }
{
    match extents {
        [] => None,
        [n, extents @ ..] => match strides {
            [] => None,
            [s, strides @ ..] => along(i, *n, *s, located_one(extents, strides, j)),
        },
    }
}

/// The same for three indices.
#[inline(always)]
pub(crate) fn located_three(
    extents: &[u32],
    strides: &[u32],
    i: i64,
    j: i64,
    k: i64,
) -> Option<usize>
    requires { spec.reach extents.now strides.now < 2 ^ 62 }
    ensures value { result ≡ spec.located extents.now strides.now (i ∷ j ∷ k ∷ []) }
    ensures within { IfSome result (λ o. o ≤ spec.reach extents.now strides.now) }
{
    match extents {
        [] => None,
        [n, extents @ ..] => match strides {
            [] => None,
            [s, strides @ ..] => along(i, *n, *s, located_two(extents, strides, j, k)),
        },
    }
}

/// Where no dimension is left.
fn none_left(strides: &[u32], index: &[i64]) -> Option<usize>
    ensures value { result ≡ spec.located [] strides.now index.now }
    ensures within { IfSome result (λ o. o ≤ 0) }
{
    match strides {
        [] => match index {
            [] => Some(0),
            [_, ..] => None,
        },
        [_, ..] => None,
    }
}

/// The first byte of the view's element that has so many before it, or the trap.
#[inline(always)]
pub(crate) fn first_byte(
    view: &View,
    place: Place,
    offset: Option<usize>,
    size: usize,
) -> Result<usize, Trap>
    requires inside { running.IsInside size view.now }
    requires within { IfSome offset (λ o. o ≤ spec.reach view.now.extents view.now.strides) }
    ensures value { result ≡ running.first_of (running.spot_or_trap view.now place offset) }
    ensures inside { IfOk result (λ at. at + width view.now.elem ≤ size) }
{
    match offset {
        Some(offset) => Ok(view.at as usize + width(view.elem) * offset),
        None => Err(Trap {
            kind: TrapKind::Index,
            place,
        }),
    }
}
