//! Numbers that are read off tables.

ghost use Rattle.std.specs.Prelude.{◌≡◌, IfOk, pos};
ghost use Rattle.sq_ir.specs.declared.num.Num.TheVariants as num;
ghost use Rattle.sq_term.specs.Terms as terms;

use sq_ir::{Num, Numbers};
use sq_term::Context;
use std::alloc::{AllocError, Global};

/// A number as one of 64 bits.
pub fn signed(n: u64) -> Result<i64, AllocError>
    ensures { IfOk result (λ k. k ≡ pos n) }
{
    match i64::try_from(n) {
        Ok(k) => Ok(k),
        Err(_) => Err(AllocError),
    }
}

fn count_table(alloc: Global, counts: &[u32]) -> Result<Numbers, AllocError>
    ensures { IfOk result (λ ns. ns ≡ terms.numbers counts.now) }
{
    let mut out = Vec::new(alloc);
    for count in counts {
        out.push(i64::from(*count))?;
    }
    Numbers::new(alloc, out)
}

/// A table of numbers.
pub fn start_table(alloc: Global, starts: &[usize]) -> Result<Numbers, AllocError>
    ensures { IfOk result (λ ns. ns ≡ terms.numbers starts.now) }
{
    let mut out = Vec::new(alloc);
    for start in starts {
        let number = signed(*start as u64)?;
        out.push(number)?;
    }
    Numbers::new(alloc, out)
}

/// The item of a table for the time at which a statement is begun.
pub fn pick_at(alloc: Global, table: Numbers, c: &Context) -> Result<Num, AllocError>
    ensures { IfOk result (λ n. n ≡ num.Pick table c.now.ordinal) }
{
    let ordinal = c.ordinal.copy(alloc)?;
    Num::pick(alloc, table, ordinal)
}

/// How many iterations a map has.
pub fn count_num(alloc: Global, counts: &[u32], c: &Context) -> Result<Num, AllocError>
    ensures { IfOk result (λ n. n ≡ terms.count_num counts.now c.now) }
{
    if counts.is_empty() {
        return Ok(Num::Const(0));
    }
    let table = count_table(alloc, counts)?;
    pick_at(alloc, table, c)
}
