//! The arrays of a form in one memory.

ghost use Rattle.std.specs.Prelude.{◌≡◌, ◌*◌, ◌+◌, ◌^◌, ◌<◌, ◌≤◌, ◌++◌, Option, Some, ℕ, length, replicate, slice_get};
ghost use Rattle.std.specs.Prelude.{OnOk, IfOk};
ghost use Rattle.std.specs.Option.{option_copied};
ghost use Rattle.sq_rect.specs.declared.view.View.{View as SpecView};
ghost use Rattle.sq_blocks.specs.declared.argument.Argument.{Argument as SpecArgument};
ghost use Rattle.sq_blocks.specs.Arguments.{lengths};
ghost use Rattle.sq_num.specs.Elements.{width};
ghost use Rattle.sq_num.specs.Reductions.{identity};
ghost use Rattle.sq_kern.specs.Rows.{cells, reduced};
ghost use Rattle.sq_rect.specs.Extents.{product};
ghost use Rattle.sq_flat.specs.Blocks.{Fits};
ghost use Rattle.sq_flat.specs.Memory as spec;

use crate::block::{push_block, put_block};
use sq_blocks::Argument;
use sq_kern::{acc_cells, fill_cells};
use sq_num::{Elem, RedOp, identity, width};
use sq_rect::View;
use sqlite_items::at;
use std::alloc::{AllocError, Global};

/// Puts so many zeros behind the bytes that are there.
pub fn push_zeros(count: usize, into: &mut Vec<u8>) -> Result<(), AllocError>
    ensures { OnOk result (into.new.items ≡ into.old.items ++ spec.zeros count) }
{
    let length = into.len();
    match length.checked_add(count) {
        Some(length) => into.resize(length, 0),
        None => Err(AllocError),
    }
}

// How many bytes the array has.
fn size(view: &View, bytes: &[u8]) -> usize
    requires { spec.IsPlaced view.now bytes.now }
    ensures { result ≡ spec.size view.now }
{
    width(view.elem) * view.extents.elements() as usize
}

/// The bytes of the array that the view shows.
pub fn bytes_of<'a>(view: &View, bytes: &'a [u8]) -> &'a [u8]
    requires { spec.IsPlaced view.now bytes.now }
    ensures { result.now ≡ spec.bytes_of view.now bytes.now }
{
    let at = view.at as usize;
    &bytes[at..at + size(view, bytes)]
}

fn push_argument(
    a: &Argument,
    outer: &[View],
    bytes: &[u8],
    into: &mut Vec<u8>,
) -> Result<(), AllocError>
    requires placed { spec.ArePlaced outer.now bytes.now }
    requires fits { (v : SpecView) → slice_get outer.now a.now.array ≡ Some v → Fits a.now.rect v.extents }
    ensures { OnOk result (into.new.items ≡ into.old.items ++ spec.block_in bytes.now a.now
        (slice_get outer.now a.now.array)) }
{
    match at(outer, a.array as usize) {
        None => Ok(()),
        Some(view) => push_block(
            a.rect.as_slice(),
            view.extents.as_slice(),
            width(view.elem),
            bytes_of(view, bytes),
            into,
        ),
    }
}

// An array of a callee at its start, which is a parameter where there is an argument.
fn push_array(
    a: Option<&Argument>,
    view: &View,
    outer: &[View],
    bytes: &[u8],
    into: &mut Vec<u8>,
) -> Result<(), AllocError>
    requires placed { spec.ArePlaced outer.now bytes.now }
    requires fits { (x : SpecArgument) (v : SpecView) → option_copied a ≡ Some x → slice_get outer.now x.array ≡ Some v
        → Fits x.rect v.extents }
    requires small { spec.size view.now < 2 ^ 32 }
    ensures { OnOk result (into.new.items ≡ into.old.items ++ spec.param_bytes outer.now bytes.now
        (option_copied a.entry) view.now) }
{
    match a {
        Some(a) if a.mode.is_read() => push_argument(a, outer, bytes, into),
        _ => push_zeros(width(view.elem) * view.extents.elements() as usize, into),
    }
}

/// The memory of a callee at its start: the values of the arguments that are read, and zeros in all else.
pub fn enter(
    alloc: Global,
    args: &[Argument],
    outer: &[View],
    bytes: &[u8],
    inner: &[View],
) -> Result<Vec<u8>, AllocError>
    requires placed { spec.ArePlaced outer.now bytes.now }
    requires fit { spec.ArgsFit outer.now inner.now args.now }
    requires small { spec.AreSmall inner.now }
    ensures { IfOk result (λ memory. memory.items ≡ spec.start_bytes outer.now bytes.now args.now 0 inner.now) }
{
    let mut memory = Vec::new(alloc);
    for (k, view) in inner.iter().enumerate() {
        push_array(at(args, k), view, outer, bytes, &mut memory)?;
    }
    Ok(memory)
}

// The block's values are those of the parameter.
fn put_param(a: &Argument, of: &View, to: &View, memory: &[u8], bytes: &mut [u8])
    requires of { spec.IsPlaced of.now bytes.old }
    requires to { spec.IsPlaced to.now memory.now }
    requires fits { Fits a.now.rect of.now.extents }
    requires block { length (spec.bytes_of to.now memory.now) ≡ width of.now.elem * product (lengths a.now.rect) }
    ensures { bytes.new ≡ spec.put_param a.now (Some of.now) (Some to.now) memory.now bytes.old }
{
    let at = of.at as usize;
    let end = at + size(of, bytes);
    put_block(
        a.rect.as_slice(),
        of.extents.as_slice(),
        width(of.elem),
        bytes_of(to, memory),
        &mut bytes[at..end],
    );
}

fn put_written(
    k: usize,
    a: &Argument,
    outer: &[View],
    inner: &[View],
    memory: &[u8],
    bytes: &mut [u8],
)
    requires outer { spec.ArePlaced outer.now bytes.old }
    requires inner { spec.ArePlaced inner.now memory.now }
    requires fit { spec.ArgFits outer.now inner.now k a.now }
    ensures { bytes.new ≡ spec.put_written outer.now inner.now k a.now memory.now bytes.old }
{
    if !a.mode.is_written() {
        return;
    }
    let Some(of) = at(outer, a.array as usize) else {
        return;
    };
    let Some(to) = at(inner, k) else {
        return;
    };
    put_param(a, of, to, memory, bytes);
}

/// The caller's memory at its callee's end: the values of the parameters that are written stand in their blocks.
pub fn leave(
    args: &[Argument],
    k: usize,
    outer: &[View],
    inner: &[View],
    memory: &[u8],
    bytes: &mut [u8],
)
    requires outer { spec.ArePlaced outer.now bytes.old }
    requires inner { spec.ArePlaced inner.now memory.now }
    requires fit { spec.FitFrom outer.now inner.now k args.now }
    requires few { k + length args.now < 2 ^ 32 }
    ensures { bytes.new ≡ spec.end_bytes outer.now inner.now memory.now k args.now bytes.old }
{
    let Some((a, rest)) = args.split_first() else {
        return;
    };
    leave(rest, k + 1, outer, inner, memory, bytes);
    put_written(k, a, outer, inner, memory, bytes);
}

/// The bytes of an array, apart.
pub fn saved(alloc: Global, view: &View, bytes: &[u8]) -> Result<Vec<u8>, AllocError>
    requires { spec.IsPlaced view.now bytes.now }
    ensures { IfOk result (λ made. made.items ≡ spec.bytes_of view.now bytes.now) }
{
    let mut made = Vec::new(alloc);
    made.extend_from_slice(bytes_of(view, bytes))?;
    Ok(made)
}

// Fills the elements with the operator's identity.
fn fill(op: RedOp, elem: Elem, array: &mut [u8])
    requires { (n : ℕ) × (length array.old ≡ width elem * n) }
    ensures { (n : ℕ) → length array.old ≡ width elem * n → array.new ≡ cells elem (replicate n (identity op elem)) }
{
    fill_cells(elem, identity(op, elem), array);
}

/// Fills the array that is reduced into with the operator's identity.
pub fn clear(op: RedOp, view: &View, bytes: &mut [u8])
    requires { spec.IsPlaced view.now bytes.old }
    ensures { bytes.new ≡ spec.cleared_bytes op view.now bytes.old }
{
    let at = view.at as usize;
    let end = at + size(view, bytes);
    fill(op, view.elem, &mut bytes[at..end]);
}

// Combines the values of an iteration into those before it.
fn reduce(op: RedOp, elem: Elem, from: &[u8], into: &mut [u8])
    requires same { length from.now ≡ length into.old }
    requires whole { (n : ℕ) × (length into.old ≡ width elem * n) }
    ensures { (n : ℕ) → length into.old ≡ width elem * n → into.new ≡ reduced op elem n from.now into.old }
{
    acc_cells(op, elem, from, into);
}

/// Combines the values that an iteration left in the array into those before it, which stand there then.
pub fn combine(op: RedOp, view: &View, before: &mut [u8], bytes: &mut [u8])
    requires placed { spec.IsPlaced view.now bytes.old }
    requires same { length before.old ≡ spec.size view.now }
    ensures { bytes.new ≡ spec.combined_bytes op view.now before.old bytes.old }
{
    reduce(op, view.elem, bytes_of(view, bytes), before);
    let at = view.at as usize;
    let end = at + size(view, bytes);
    bytes[at..end].copy_from_slice(before);
}
