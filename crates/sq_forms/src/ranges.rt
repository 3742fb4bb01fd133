//! The iterations of a map.

ghost use Rattle.std.specs.Prelude.{◌≡◌, min, slice_get, IfOk, OnOk};
ghost use Rattle.sq_blocks.specs.Names.{with_number};
ghost use Rattle.sq_forms.specs.Faults.{Gives};
ghost use Rattle.sq_forms.specs.Stmts as spec;

use crate::args::worth;
use sq_ast::Range;
use sq_blocks::{Bindings, Env};
use sq_text::{Name, Stop};
use sqlite_items::{Items, at};
use std::alloc::{AllocError, Global};

/// The bounds of all ranges, or the first fault.
pub fn bounds(alloc: Global, env: &Env<'_>, ranges: &[Range]) -> Result<Items<i64>, Stop>
    ensures { Gives result (spec.bounds ranges.now env.now.numbers.now env.now.lists.now) }
{
    let mut numbers = Items::new(alloc);
    for range in ranges {
        numbers.push(worth(alloc, env, &range.bound)?)?;
    }
    Ok(numbers)
}

fn count_of(bound: i64) -> u64
    ensures { result ≡ spec.count_of bound }
{
    if bound < 0 { 0 } else { bound as u64 }
}

fn count_at(bounds: &[i64], i: usize) -> u64
    ensures { result ≡ spec.count_or_none (slice_get bounds.now i) }
{
    match at(bounds, i) {
        Some(bound) => count_of(*bound),
        None => 0,
    }
}

/// How many iterations there are, as far as a number holds them.
pub fn times(bounds: &[i64]) -> u64
    ensures { result ≡ min (spec.times bounds.now) u64.MAX }
{
    let mut times = 1u64;
    for i in 0..bounds.len() {
        times = times.saturating_mul(count_at(bounds, i));
    }
    times
}

fn turn(numbers: &mut Bindings, name: &Name, count: u64, left: u32) -> Result<u32, AllocError>
    ensures { IfOk result (λ less. spec.bind_variable name.now count (record { numbers = numbers.old; left = left })
        ≡ record { numbers = numbers.new; left = less }) }
{
    if count == 0 {
        return Ok(left);
    }
    let value = u64::from(left) % count;
    numbers.bind(name, value as i64)?;
    Ok((u64::from(left) / count) as u32)
}

/// The numbers with those of the variables in an iteration; the last range varies fastest.
pub fn bind_iteration(
    numbers: &mut Bindings,
    ranges: &[Range],
    bounds: &[i64],
    t: u32,
) -> Result<(), AllocError>
    ensures { OnOk result (numbers.new ≡ spec.in_iteration ranges.now bounds.now t numbers.old) }
{
    let mut left = t;
    let mut i = ranges.len();
    while i > 0 {
        i -= 1;
        left = turn(numbers, &ranges[i].name, count_at(bounds, i), left)?;
    }
    Ok(())
}
