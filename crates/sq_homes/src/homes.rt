//! The homes of a form's arrays.

ghost use Rattle.std.specs.Prelude.{◌≡◌, ◌+◌, ◌++◌, length, map, IfOk, OnOk};
ghost use Rattle.std.specs.List.{range_with_len};
ghost use Rattle.sq_chosen.specs.Arrays as arrays;
ghost use Rattle.sq_homes.specs.Numbering as spec;

use crate::order::{BufferedParams, locals_count};
use sq_chosen::{Choice, FormBody, flag_at, number_at};
use sq_draft::{Home, Homes};
use sq_text::SpreadRule;
use sqlite_items::Items;
use std::alloc::{AllocError, Global};

// Where the number stands; the length if it doesn't.
fn position(i: usize, list: &[usize]) -> usize
    ensures { result ≡ spec.position i list.now }
{
    for (k, j) in list.iter().enumerate() {
        if i == *j {
            return k;
        }
    }
    list.len()
}

/// A number, so many on. More buffers than have numbers are answered as want of memory.
pub fn behind(base: u32, n: usize) -> Result<u32, AllocError>
    ensures { IfOk result (λ m. m ≡ base + n) }
{
    let Ok(more) = u32::try_from(n) else {
        return Err(AllocError);
    };
    match base.checked_add(more) {
        Some(m) => Ok(m),
        None => Err(AllocError),
    }
}

fn moved_home(base: u32, c: &Choice, params: &BufferedParams, i: usize) -> Result<Home, AllocError>
    requires hoisted { params.now.hoisted ≡ arrays.hoisted c.now }
    requires others { params.now.others ≡ arrays.others c.now }
    ensures { IfOk result (λ h. h ≡ spec.moved_home base c.now i) }
{
    let start = behind(base, params.hoisted.len())?;
    let first = behind(start, position(i, params.others.as_slice()))?;
    if c.overlaps {
        let second = behind(first, params.others.len())?;
        Ok(Home::Twin { first, second })
    } else {
        Ok(Home::Own(first))
    }
}

fn home_of(base: u32, c: &Choice, params: &BufferedParams, i: usize) -> Result<Home, AllocError>
    requires hoisted { params.now.hoisted ≡ arrays.hoisted c.now }
    requires others { params.now.others ≡ arrays.others c.now }
    ensures { IfOk result (λ h. h ≡ spec.home_of base c.now i) }
{
    if flag_at(c.in_place.as_slice(), i) {
        return Ok(Home::InPlace);
    }
    let loops = number_at(c.leaves.as_slice(), i);
    if loops == 0 {
        let home = moved_home(base, c, params, i)?;
        return Ok(home);
    }
    let buffer = behind(base, position(i, params.hoisted.as_slice()))?;
    Ok(Home::Held { buffer, loops })
}

// Of so many parameters from the i-th on.
fn push_homes(
    out: &mut Items<Home>,
    base: u32,
    c: &Choice,
    params: &BufferedParams,
    i: usize,
    n: usize,
) -> Result<(), AllocError>
    requires hoisted { params.now.hoisted ≡ arrays.hoisted c.now }
    requires others { params.now.others ≡ arrays.others c.now }
    ensures { OnOk result (out.new ≡ out.old ++ map (spec.home_of base c.now) (range_with_len i n)) }
{
    if n == 0 {
        return Ok(());
    }
    out.push(home_of(base, c, params, i)?)?;
    let Some(next) = i.checked_add(1) else {
        return Err(AllocError);
    };
    push_homes(out, base, c, params, next, n - 1)?;
    Ok(())
}

fn push_numbers(out: &mut Items<u32>, first: u32, n: usize) -> Result<(), AllocError>
    ensures { OnOk result (out.new ≡ out.old ++ range_with_len first n) }
{
    if n == 0 {
        return Ok(());
    }
    out.push(first)?;
    let next = behind(first, 1)?;
    push_numbers(out, next, n - 1)?;
    Ok(())
}

// How many buffers stand before the locals, of those that have this many before them.
fn local_base(base: u32, c: &Choice, params: &BufferedParams) -> Result<u32, AllocError>
    requires hoisted { params.now.hoisted ≡ arrays.hoisted c.now }
    requires others { params.now.others ≡ arrays.others c.now }
    ensures { IfOk result (λ n. n ≡ spec.local_base base c.now) }
{
    let start = behind(base, params.hoisted.len())?;
    let once = behind(start, params.others.len())?;
    if c.overlaps {
        behind(once, params.others.len())
    } else {
        behind(once, 0)
    }
}

/// The homes of a form's arrays. `base` is the number of its first buffer, `code` that of its code if it is a leaf.
pub fn form_homes(
    alloc: Global,
    base: u32,
    rule: SpreadRule,
    code: u32,
    body: &FormBody,
    c: &Choice,
    params: &BufferedParams,
) -> Result<Homes, AllocError>
    requires hoisted { params.now.hoisted ≡ arrays.hoisted c.now }
    requires others { params.now.others ≡ arrays.others c.now }
    ensures { IfOk result (λ h. h ≡ spec.form_homes base rule code body.now c.now) }
{
    let mut homes = Items::new(alloc);
    push_homes(&mut homes, base, c, params, 0, c.in_place.len())?;
    let mut locals = Items::new(alloc);
    let first = local_base(base, c, params)?;
    push_numbers(&mut locals, first, locals_count(body.arrays.as_slice(), c))?;
    Ok(Homes {
        rule,
        code,
        params: homes,
        locals,
        overlaps: c.overlaps,
    })
}
