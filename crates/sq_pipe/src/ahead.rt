//! Blocks of iterations in turn: what one writes may not be in the way of the next two.

ghost use Rattle.std.specs.Prelude.{◌≡◌};
ghost use Rattle.std.specs.List.{list_all};
ghost use Rattle.sq_hoist.specs.Loops.{cut};
ghost use Rattle.sq_pipe.specs.Candidates as spec;

use sq_forms::call::is_written;
use sq_hoist::{behind, front, shares};
use sq_ir::Argument;
use sq_spec::CallInstance;

fn is_held(leaves: &[u32], i: usize) -> bool
    ensures { result ≡ spec.is_held leaves.now i }
{
    match leaves.get(i) {
        None => false,
        Some(n) => 0 < *n,
    }
}

fn is_clear_of(leaves: &[u32], x: &Argument, list: &[Argument]) -> bool
    ensures { result ≡ spec.is_clear_of leaves.now x.now 0 list.now }
{
    for (j, y) in list.iter().enumerate() {
        if !is_held(leaves, j) && shares(x, y) {
            return false;
        }
    }
    true
}

fn are_clear_of(leaves: &[u32], written: &[Argument], list: &[Argument]) -> bool
    ensures { result ≡ spec.are_clear_of leaves.now 0 written.now list.now }
{
    for (i, x) in written.iter().enumerate() {
        if !is_held(leaves, i) && is_written(x.mode) && !is_clear_of(leaves, x, list) {
            return false;
        }
    }
    true
}

fn is_clear(leaves: &[u32], row: &CallInstance, next: &CallInstance) -> bool
    ensures { result ≡ spec.is_clear leaves.now row.now next.now }
{
    are_clear_of(leaves, row.args.as_slice(), next.args.as_slice())
}

fn is_ahead(leaves: &[u32], row: &CallInstance, rows: &[CallInstance]) -> bool
    ensures { result ≡ spec.is_ahead leaves.now row.now rows.now }
{
    let Some((next, more)) = rows.split_first() else {
        return true;
    };
    match more.first() {
        None => is_clear(leaves, row, next),
        Some(after) => is_clear(leaves, row, next) && is_clear(leaves, row, after),
    }
}

fn are_ahead(leaves: &[u32], rows: &[CallInstance]) -> bool
    ensures { result ≡ spec.are_ahead leaves.now rows.now }
{
    for (t, row) in rows.iter().enumerate() {
        if !is_ahead(leaves, row, behind(rows, t + 1)) {
            return false;
        }
    }
    true
}

/// Of a loop with so many iterations each time that it is begun.
pub fn are_all_ahead(leaves: &[u32], counts: &[u32], rows: &[CallInstance]) -> bool
    ensures { result ≡ list_all (spec.are_ahead leaves.now) (cut counts.now rows.now) }
{
    let mut rest = rows;
    for count in counts {
        let n = *count as usize;
        if !are_ahead(leaves, front(rest, n)) {
            return false;
        }
        rest = behind(rest, n);
    }
    true
}
