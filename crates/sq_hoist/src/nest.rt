//! Calls in plain loops, and which arguments leave these.

ghost use Rattle.std.specs.Prelude.{◌≡◌, ◌+◌, ◌==◌, nat_le, map, take, drop, IfOk};
ghost use Rattle.std.specs.List.{list_all};
ghost use Rattle.sq_hoist.specs.Loops as spec;
ghost use Rattle.sq_hoist.specs.Counts as counted;

use crate::blocks::stays_always;
use sq_blocks::Argument;
use sq_spec::{CallInstance, LoopKind};
use sq_text::Place;
use sqlite_items::Items;
use std::alloc::{AllocError, Global};
use std::marker::Model;

/// The rows of a call.
#[derive(Drop)]
pub struct Rows<'a> {
    list: &'a [CallInstance],
}

impl<'a> Model for Rows<'a> {
    ghost use Rattle.std.specs.Prelude.{List};
    ghost use Rattle.std.specs.Coded.{coded_list};
    ghost use Rattle.sq_spec.specs.contracts.statement.CallInstance as contract;
    ghost use Rattle.sq_spec.specs.declared.statement.CallInstance.{CallInstance};

    ghost Value = { List CallInstance };

    ghost coded = { coded_list contract.the_row.coded };

    ghost view = { λ r. r.list.now };
}

/// One lower call that has one form, in plain loops: its rows, and how many of them there are each time that the
/// outermost loop is begun; the loops from the inside, and of each argument how many of them it leaves.
#[derive(Drop)]
pub struct Counted<'a> {
    pub form: usize,
    pub rows: Rows<'a>,
    pub times: Items<usize>,
    pub loops: Items<Place>,
    pub leaves: Items<u32>,
}

fn have_form(form: usize, rows: &[CallInstance]) -> bool
    ensures { result ≡ list_all (λ q. q.form == form) rows.now }
{
    for row in rows {
        if row.form != form {
            return false;
        }
    }
    true
}

fn are_positive(counts: &[u32]) -> bool
    ensures { result ≡ list_all (λ c. nat_le 1 c) counts.now }
{
    for count in counts {
        if *count < 1 {
            return false;
        }
    }
    true
}

fn is_sequential(kind: LoopKind) -> bool
    ensures { result ≡ spec.is_sequential kind }
{
    match kind {
        LoopKind::Sequential => true,
        LoopKind::Parallel | LoopKind::Reduction(_) => false,
    }
}

/// Whether a map is a `mapseq` that has at least one iteration each time.
pub fn may_be_plain(kind: LoopKind, counts: &[u32]) -> bool
    ensures { result ≡ spec.may_be_plain kind counts.now }
{
    is_sequential(kind) && are_positive(counts)
}

// A one for each row.
fn ones(alloc: Global, rows: &[CallInstance]) -> Result<Items<usize>, AllocError>
    ensures { IfOk result (λ ns. ns ≡ map (λ r. 1) rows.now) }
{
    let mut ns = Items::new(alloc);
    for _ in rows {
        ns.push(1)?;
    }
    Ok(ns)
}

// At first an argument leaves no loop.
fn zeros(alloc: Global, args: &[Argument]) -> Result<Items<u32>, AllocError>
    ensures { IfOk result (λ ns. ns ≡ map (λ a. 0) args.now) }
{
    let mut ns = Items::new(alloc);
    for _ in args {
        ns.push(0)?;
    }
    Ok(ns)
}

// Sums that don't fit are want of memory: so many calls there can't be.
fn total_of(sizes: &[usize]) -> Result<usize, AllocError>
    ensures { IfOk result (λ n. n ≡ counted.total sizes.now) }
{
    let mut sum: usize = 0;
    for size in sizes {
        match sum.checked_add(*size) {
            Some(more) => sum = more,
            None => return Err(AllocError),
        }
    }
    Ok(sum)
}

fn first_sizes(sizes: &[usize], n: usize) -> &[usize]
    ensures { result.now ≡ take n sizes.now }
{
    if n < sizes.len() { &sizes[..n] } else { sizes }
}

fn more_sizes(sizes: &[usize], n: usize) -> &[usize]
    ensures { result.now ≡ drop n sizes.now }
{
    if n < sizes.len() { &sizes[n..] } else { &[] }
}

// How many calls there are each time that a map of these counts is begun, out of those in each iteration.
fn sums(alloc: Global, each: &[u32], sizes: &[usize]) -> Result<Items<usize>, AllocError>
    ensures { IfOk result (λ ns. ns ≡ counted.sums each.now sizes.now) }
{
    let mut ns = Items::new(alloc);
    let mut rest = sizes;
    for count in each {
        let n = *count as usize;
        let sum = total_of(first_sizes(rest, n))?;
        ns.push(sum)?;
        rest = more_sizes(rest, n);
    }
    Ok(ns)
}

fn one_more(inside: u32) -> Result<u32, AllocError>
    ensures { IfOk result (λ n. n ≡ inside + 1) }
{
    match inside.checked_add(1) {
        Some(n) => Ok(n),
        None => Err(AllocError),
    }
}

// How many loops each argument leaves, with one that has so many inside it.
fn leaving(
    alloc: Global,
    inside: u32,
    times: &[usize],
    leaves: &[u32],
    rows: &[CallInstance],
) -> Result<Items<u32>, AllocError>
    ensures { IfOk result (λ ns. ns ≡ spec.leaving inside (spec.cut times.now rows.now) 0 leaves.now) }
{
    let mut out = Items::new(alloc);
    for (i, left) in leaves.iter().enumerate() {
        if *left == inside && stays_always(i, times, rows) {
            out.push(one_more(inside)?)?;
        } else {
            out.push(*left)?;
        }
    }
    Ok(out)
}

fn small(n: usize) -> Result<u32, AllocError>
    ensures { IfOk result (λ m. m ≡ n) }
{
    match u32::try_from(n) {
        Ok(m) => Ok(m),
        Err(_) => Err(AllocError),
    }
}

// A plain loop more.
fn looped<'a>(
    alloc: Global,
    place: Place,
    each: &[u32],
    nest: Counted<'a>,
) -> Result<Counted<'a>, AllocError>
    ensures { IfOk result (λ c. c ≡ counted.counted_loop place each.now nest.entry) }
{
    let Counted {
        form,
        rows,
        times,
        mut loops,
        leaves,
    } = nest;
    let inside = small(loops.len())?;
    let all = sums(alloc, each, times.as_slice())?;
    let leaves = leaving(alloc, inside, all.as_slice(), leaves.as_slice(), rows.list)?;
    loops.push(place)?;
    Ok(Counted {
        form,
        rows,
        times: all,
        loops,
        leaves,
    })
}

/// A plain loop more, if there is a call in it.
#[tactic(auto, using(crate::proofs::Counting::loop_counted))]
pub fn looped_by<'a>(
    alloc: Global,
    place: Place,
    each: &[u32],
    nest: Option<Counted<'a>>,
) -> Result<Option<Counted<'a>>, AllocError>
    ensures { IfOk result (λ o. counted.nest_of o ≡ spec.looped_by place each.now (counted.nest_of nest.entry)) }
{
    match nest {
        None => Ok(None),
        Some(nest) => {
            let nest = looped(alloc, place, each, nest)?;
            Ok(Some(nest))
        }
    }
}

fn counted_call<'a>(
    alloc: Global,
    lower: bool,
    list: &'a [CallInstance],
) -> Result<Option<Counted<'a>>, AllocError>
    ensures { IfOk result (λ o. o ≡ counted.counted_call lower list.now) }
{
    if !lower {
        return Ok(None);
    }
    let Some((row, more)) = list.split_first() else {
        return Ok(None);
    };
    if !have_form(row.form, more) {
        return Ok(None);
    }
    let times = ones(alloc, list)?;
    let leaves = zeros(alloc, row.args.as_slice())?;
    Ok(Some(Counted {
        form: row.form,
        rows: Rows { list },
        times,
        loops: Items::new(alloc),
        leaves,
    }))
}

/// A lower call that has one form, with no loop round it yet.
#[tactic(auto, using(crate::proofs::Counting::call_counted))]
pub fn call_nest<'a>(
    alloc: Global,
    lower: bool,
    list: &'a [CallInstance],
) -> Result<Option<Counted<'a>>, AllocError>
    ensures { IfOk result (λ o. counted.nest_of o ≡ spec.call_nest lower list.now) }
{
    let nest = counted_call(alloc, lower, list)?;
    Ok(nest)
}
