//! Where blocks begin in the rows of a call.

ghost use Rattle.std.specs.Prelude.{◌≡◌, ◌*◌, IfOk, map, pos, []};
ghost use Rattle.std.specs.Option.{option_copied};
ghost use Rattle.sq_num.specs.Elements as elements;
ghost use Rattle.sq_term.specs.Rect.Placing.{offset};
ghost use Rattle.sq_term.specs.Placed.Seats.{firsts};
ghost use Rattle.sq_term.specs.Terms as terms;

use sq_num::width;
use sq_spec::{Argument, CallInstance};
use sq_term::parts::{LeafView, Numbers};
use sq_text::Span;
use sqlite_items::at;
use std::alloc::{AllocError, Global};

/// A number as one of 64 bits.
pub fn signed(n: u64) -> Result<i64, AllocError>
    ensures { IfOk result (λ k. k ≡ pos n) }
{
    match i64::try_from(n) {
        Ok(k) => Ok(k),
        Err(_) => Err(AllocError),
    }
}

fn far(strides: &[u32], spans: &[Span]) -> Result<u64, AllocError>
    ensures { IfOk result (λ n. n ≡ offset strides.now (firsts spans.now)) }
{
    match strides {
        [] => Ok(0),
        [s, more @ ..] => match spans {
            [] => Ok(0),
            [x, others @ ..] => {
                let rest = far(more, others)?;
                match (u64::from(x.lo) * u64::from(*s)).checked_add(rest) {
                    Some(n) => Ok(n),
                    None => Err(AllocError),
                }
            }
        },
    }
}

fn bytes_in(view: Option<&LeafView>, a: &Argument) -> Result<u64, AllocError>
    ensures { IfOk result (λ n. n ≡ terms.bytes_in (option_copied view.entry) a.now) }
{
    match view {
        None => Ok(0),
        Some(v) => {
            let elements = far(v.strides.as_slice(), a.rect.as_slice())?;
            match (width(v.elem) as u64).checked_mul(elements) {
                Some(n) => Ok(n),
                None => Err(AllocError),
            }
        }
    }
}

fn bytes_at(views: &[LeafView], i: usize, r: &CallInstance) -> Result<u64, AllocError>
    ensures { IfOk result (λ n. n ≡ terms.bytes_at views.now i r.now) }
{
    match at(r.args.as_slice(), i) {
        None => Ok(0),
        Some(a) => bytes_in(at(views, a.array as usize), a),
    }
}

/// How many bytes the block of the i-th argument begins behind its array, in each row, unless all are 0.
pub fn offsets(
    alloc: Global,
    views: &[LeafView],
    instances: &[CallInstance],
    i: usize,
) -> Result<Option<Numbers>, AllocError>
    ensures { IfOk result (λ o. o ≡ terms.offsets views.now instances.now i) }
{
    let mut out = Vec::new(alloc);
    let mut is_zero = true;
    for row in instances {
        let bytes = bytes_at(views, i, row)?;
        is_zero = is_zero && bytes == 0;
        out.push(signed(bytes)?)?;
    }
    if is_zero {
        return Ok(None);
    }
    let numbers = Numbers::new(alloc, out)?;
    Ok(Some(numbers))
}

fn held_bytes(v: &LeafView, i: usize, row: &CallInstance) -> Result<u64, AllocError>
    ensures { IfOk result (λ n. n ≡ terms.held_bytes v.now i row.now) }
{
    match at(row.args.as_slice(), i) {
        None => no_bytes(v),
        Some(a) => {
            let elements = far(v.strides.as_slice(), a.rect.as_slice())?;
            match (width(v.elem) as u64).checked_mul(elements) {
                Some(n) => Ok(n),
                None => Err(AllocError),
            }
        }
    }
}

fn no_bytes(v: &LeafView) -> Result<u64, AllocError>
    ensures { IfOk result (λ n. n ≡ elements.width v.now.elem * offset v.now.strides (firsts [])) }
{
    let elements = far(v.strides.as_slice(), &[])?;
    match (width(v.elem) as u64).checked_mul(elements) {
        Some(n) => Ok(n),
        None => Err(AllocError),
    }
}

/// The same of an argument that leaves a loop, behind this array.
pub fn held_offsets(
    alloc: Global,
    v: &LeafView,
    rows: &[CallInstance],
    i: usize,
) -> Result<Option<Numbers>, AllocError>
    ensures { IfOk result (λ o. o ≡ terms.unless_zero (map (terms.held_bytes v.now i) rows.now)) }
{
    let mut out = Vec::new(alloc);
    let mut is_zero = true;
    for row in rows {
        let bytes = held_bytes(v, i, row)?;
        is_zero = is_zero && bytes == 0;
        out.push(signed(bytes)?)?;
    }
    if is_zero {
        return Ok(None);
    }
    let numbers = Numbers::new(alloc, out)?;
    Ok(Some(numbers))
}
