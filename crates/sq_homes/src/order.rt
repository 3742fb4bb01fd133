//! The arrays of a form in the order of their buffers.

ghost use Rattle.std.specs.Prelude.{◌≡◌, ◌-◌, ◌==◌, ◌++◌, length, IfOk, OnOk};
ghost use Rattle.std.specs.List.{filter, range_with_len};
ghost use Rattle.sq_chosen.specs.Arrays as spec;

use sq_chosen::{Choice, is_moved, number_at};
use sq_ir::Shape;
use sqlite_items::Items;
use std::alloc::{AllocError, Global};

fn deepest(numbers: &[u32]) -> u32
    ensures { result ≡ spec.deepest numbers.now }
{
    let Some((n, rest)) = numbers.split_first() else {
        return 0;
    };
    let m = deepest(rest);
    if *n < m { m } else { *n }
}

// Of so many parameters from the i-th on those that are neither in place nor leave a loop.
fn push_moved(out: &mut Items<usize>, c: &Choice, i: usize, n: usize) -> Result<(), AllocError>
    ensures { OnOk result (out.new ≡ out.old ++ filter (spec.is_moved c.now) (range_with_len i n)) }
{
    if n == 0 {
        return Ok(());
    }
    if is_moved(c, i) {
        out.push(i)?;
    }
    let Some(next) = i.checked_add(1) else {
        return Err(AllocError);
    };
    push_moved(out, c, next, n - 1)?;
    Ok(())
}

// Of so many parameters from the i-th on those that leave d loops.
fn push_leaving(
    out: &mut Items<usize>,
    c: &Choice,
    d: u32,
    i: usize,
    n: usize,
) -> Result<(), AllocError>
    ensures { OnOk result (out.new ≡ out.old ++ filter (λ j. spec.left_by c.now j == d) (range_with_len i n)) }
{
    if n == 0 {
        return Ok(());
    }
    if number_at(c.leaves.as_slice(), i) == d {
        out.push(i)?;
    }
    let Some(next) = i.checked_add(1) else {
        return Err(AllocError);
    };
    push_leaving(out, c, d, next, n - 1)?;
    Ok(())
}

fn push_hoisted(out: &mut Items<usize>, c: &Choice, d: u32) -> Result<(), AllocError>
    ensures { OnOk result (out.new ≡ out.old ++ spec.hoisted_from d c.now) }
{
    if d == 0 {
        return Ok(());
    }
    push_leaving(out, c, d, 0, c.in_place.as_slice().len())?;
    push_hoisted(out, c, d - 1)?;
    Ok(())
}

fn others(alloc: Global, c: &Choice) -> Result<Items<usize>, AllocError>
    ensures { IfOk result (λ ps. ps ≡ spec.others c.now) }
{
    let mut out = Items::new(alloc);
    push_moved(&mut out, c, 0, c.in_place.as_slice().len())?;
    Ok(out)
}

fn hoisted(alloc: Global, c: &Choice) -> Result<Items<usize>, AllocError>
    ensures { IfOk result (λ ps. ps ≡ spec.hoisted c.now) }
{
    let mut out = Items::new(alloc);
    push_hoisted(&mut out, c, deepest(c.leaves.as_slice()))?;
    Ok(out)
}

/// The parameters of a form that have buffers: those that leave loops, and the others.
#[derive(Drop)]
pub struct BufferedParams {
    pub hoisted: Items<usize>,
    pub others: Items<usize>,
}

/// The parameters that have buffers.
pub fn params_of(alloc: Global, c: &Choice) -> Result<BufferedParams, AllocError>
    ensures hoisted { IfOk result (λ ps. ps.hoisted ≡ spec.hoisted c.now) }
    ensures others { IfOk result (λ ps. ps.others ≡ spec.others c.now) }
{
    let hoisted = hoisted(alloc, c)?;
    let others = others(alloc, c)?;
    Ok(BufferedParams { hoisted, others })
}

/// How many locals a form has, behind its parameters.
pub fn locals_count(shapes: &[Shape], c: &Choice) -> usize
    ensures { result ≡ length shapes.now - length c.now.in_place }
{
    shapes.len().saturating_sub(c.in_place.len())
}

fn push_all(out: &mut Items<usize>, list: &[usize]) -> Result<(), AllocError>
    ensures { OnOk result (out.new ≡ out.old ++ list.now) }
{
    for i in list {
        out.push(*i)?;
    }
    Ok(())
}

fn push_again(out: &mut Items<usize>, c: &Choice, others: &[usize]) -> Result<(), AllocError>
    requires { others.now ≡ spec.others c.now }
    ensures { OnOk result (out.new ≡ out.old ++ spec.again c.now) }
{
    if !c.overlaps {
        return Ok(());
    }
    push_all(out, others)?;
    Ok(())
}

fn push_range(out: &mut Items<usize>, first: usize, n: usize) -> Result<(), AllocError>
    ensures { OnOk result (out.new ≡ out.old ++ range_with_len first n) }
{
    if n == 0 {
        return Ok(());
    }
    out.push(first)?;
    let Some(next) = first.checked_add(1) else {
        return Err(AllocError);
    };
    push_range(out, next, n - 1)?;
    Ok(())
}

/// The arrays of a form in the order of their buffers.
pub fn standing(
    alloc: Global,
    shapes: &[Shape],
    c: &Choice,
    params: &BufferedParams,
) -> Result<Items<usize>, AllocError>
    requires hoisted { params.now.hoisted ≡ spec.hoisted c.now }
    requires others { params.now.others ≡ spec.others c.now }
    ensures { IfOk result (λ list. list ≡ spec.standing_of shapes.now c.now) }
{
    let mut out = Items::new(alloc);
    push_all(&mut out, params.hoisted.as_slice())?;
    push_all(&mut out, params.others.as_slice())?;
    push_again(&mut out, c, params.others.as_slice())?;
    push_range(&mut out, c.in_place.len(), locals_count(shapes, c))?;
    Ok(out)
}
