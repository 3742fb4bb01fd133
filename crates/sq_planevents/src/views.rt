//! Views of leaf calls.

ghost use Rattle.std.specs.Prelude.{◌≡◌, ◌+◌, ◌<◌, ◌≤◌, ◌^◌, ◌++◌, true, length, IfOk, OnOk};
ghost use Rattle.std.specs.List.{All};
ghost use Rattle.sq_planevents.specs.Twice as twice;
ghost use Rattle.sq_planevents.specs.First.{Decides};
ghost use Rattle.sq_planevents.specs.Views as spec;

use crate::lines::Lines;
use crate::standing::Standing;
use crate::twice::{is_twice, order};
use sq_areas::{Area, Step};
use sq_num::width;
use sq_plantext::ViewText;
use sq_rect::{Dims, View};
use sqlite_items::Items;
use std::alloc::{AllocError, Global};

/// Whether all of these have 32 bits.
pub(crate) fn are_words(numbers: &[u64]) -> bool
    ensures { result ≡ spec.are_words numbers.now }
{
    for n in numbers {
        if *n >= WORDS {
            return false;
        }
    }
    true
}

// Whether none of these is 0.
fn are_some(numbers: &[u64]) -> bool
    ensures { result ≡ spec.are_some numbers.now }
{
    for n in numbers {
        if *n == 0 {
            return false;
        }
    }
    true
}

// Whether a view has elements, by 1 to 3 extents and strides of 32 bits.
fn is_strided(view: &ViewText) -> bool
    ensures { result ≡ spec.is_strided view.now }
{
    let extents = view.extents.as_slice();
    let strides = view.strides.as_slice();
    1 <= extents.len()
        && extents.len() <= 3
        && strides.len() == extents.len()
        && are_words(extents)
        && are_words(strides)
        && are_some(extents)
}

// How far behind the first element the last one stands.
fn span_of(extents: &[u64], strides: &[u64]) -> u128
    requires { spec.span_of extents.now strides.now < 2 ^ 70 }
    ensures { result ≡ spec.span_of extents.now strides.now }
{
    let Some((extent, extents)) = extents.split_first() else {
        return 0;
    };
    let Some((stride, strides)) = strides.split_first() else {
        return 0;
    };
    u128::from(extent.saturating_sub(1)) * u128::from(*stride) + span_of(extents, strides)
}

// From its first byte to its last one.
fn bytes_over(view: &ViewText) -> u128
    requires { spec.is_strided view.now ≡ true }
    ensures is { result ≡ spec.bytes_over view.now }
    ensures small { result < 2 ^ 70 }
{
    let width = width(view.elem) as u128;
    width * span_of(view.extents.as_slice(), view.strides.as_slice()) + width
}

// A number of 32 bits; one that has none is 0.
fn word(n: u128) -> u32
    ensures { n < 2 ^ 32 → result ≡ n }
{
    if n < 4_294_967_296 { n as u32 } else { 0 }
}

// The numbers of 1 to 3 dimensions.
fn dims(numbers: &[u64]) -> Dims
    requires some { 1 ≤ length numbers.now }
    requires few { length numbers.now ≤ 3 }
    requires words { All (λ n. n < 2 ^ 32) numbers.now }
    ensures { result ≡ numbers.now }
{
    match numbers {
        [a, b, c] => {
            let mut dims = Dims::new(word(u128::from(*a)));
            dims.push(word(u128::from(*b)));
            dims.push(word(u128::from(*c)));
            dims
        }
        [a, b] => {
            let mut dims = Dims::new(word(u128::from(*a)));
            dims.push(word(u128::from(*b)));
            dims
        }
        [a, ..] => Dims::new(word(u128::from(*a))),
        [] => Dims::new(0),
    }
}

// Puts a step for each dimension behind others.
fn put_steps(extents: &[u64], strides: &[u64], steps: &mut Items<Step>) -> Result<(), AllocError>
    ensures { OnOk result (steps.new ≡ steps.old ++ twice.turns_of extents.now strides.now) }
{
    let Some((extent, extents)) = extents.split_first() else {
        return Ok(());
    };
    let Some((stride, strides)) = strides.split_first() else {
        return Ok(());
    };
    steps.push(Step {
        count: *extent,
        step: *stride,
    })?;
    put_steps(extents, strides, steps)
}

/// Whether a view gives each byte to one of its elements alone.
pub(crate) fn is_once(alloc: Global, view: &ViewText) -> Result<bool, AllocError>
    requires { spec.IsSmall view.now }
    ensures { IfOk result (λ b. Decides b (spec.IsOnce view.now)) }
{
    let mut steps = Items::new(alloc);
    put_steps(view.extents.as_slice(), view.strides.as_slice(), &mut steps)?;
    order(&mut steps);
    let is_twice = is_twice(steps.as_slice());
    Ok(!is_twice)
}

impl Lines<'_> {
    /// Whether a view has elements and lies in its buffer, which is in scope at the node in force, and in that node.
    pub fn is_view(&self, at: &Standing, view: &ViewText) -> bool
        ensures { result ≡ spec.is_view self.now.text.now at.now.nodes at.now.scopes view.now }
    {
        is_strided(view)
            && self.room(view.slot.buffer).level == at.level()
            && self.is_row(at, view.slot, bytes_over(view))
    }

    /// Whether all of them do.
    pub fn are_views(&self, at: &Standing, views: &[ViewText]) -> bool
        ensures { result ≡ spec.are_views self.now.text.now at.now.nodes at.now.scopes views.now }
    {
        for view in views {
            if !self.is_view(at, view) {
                return false;
            }
        }
        true
    }

    // The view of a leaf call.
    fn seen(&self, view: &ViewText) -> View
        requires small { spec.IsSmall view.now }
        requires near { spec.IsNear self.now.text.now view.now }
        ensures { result ≡ spec.seen self.now.text.now view.now }
    {
        View {
            at: word(self.place(view.slot)),
            elem: view.elem,
            extents: dims(view.extents.as_slice()),
            strides: dims(view.strides.as_slice()),
        }
    }

    /// Its bytes.
    pub fn area(&self, view: &ViewText) -> Result<Area, AllocError>
        requires small { spec.IsSmall view.now }
        requires near { spec.IsNear self.now.text.now view.now }
        ensures { IfOk result (λ a. spec.IsShown self.now.text.now view.now a) }
    {
        let view = self.seen(view);
        Area::of_view(self.alloc, &view)
    }
}

// Numbers below it have 32 bits.
const WORDS: u64 = 1 << 32;
