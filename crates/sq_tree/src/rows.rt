//! Rows in the memories of nodes.
ghost use Rattle.std.specs.Prelude.{◌≡◌, ◌+◌, ◌*◌, ◌<◌, ◌≤◌, length, replicate, set, take, drop};
ghost use Rattle.sq_num.specs.Elements.{width};
ghost use Rattle.sq_kern.specs.Rows.{cells};
ghost use Rattle.sq_raw.specs.Memory.{AreApart};
ghost use Rattle.sq_tree.specs.Bank.{bytes_at, size_in, put_at, put_first};
ghost use Rattle.sq_tree.specs.Raw.{IsWhole, taken, taken_to, taken_in};

use sq_kern::{acc_cells, copy_cells, fill_cells};
use sq_num::{Elem, RedOp, width};
use sq_raw::RawMem;

/// How a row is taken to another of its length.
#[derive(Clone, Copy, Drop)]
pub(crate) enum Way {
    Copy,
    /// Each element is reduced with that of the other row.
    Add(RedOp, Elem),
}

/// A row of so many bytes that is taken to another one.
#[derive(Clone, Copy, Drop)]
pub(crate) struct Rows {
    pub(crate) from: usize,
    pub(crate) to: usize,
    pub(crate) len: usize,
}

// Takes a row to another.
fn take_row(way: Way, from: &[u8], into: &mut [u8])
    requires same { length from.now ≡ length into.old }
    requires whole { IsWhole way (length into.old) }
    ensures { into.new ≡ taken way from.now into.old }
{
    match way {
        Way::Copy => copy_cells(from, into),
        Way::Add(op, e) => acc_cells(op, e, from, into),
    }
}

// From one memory to another.
fn take_between(way: Way, rows: Rows, from: &RawMem, into: &mut RawMem)
    requires inside { (rows.from + rows.len ≤ length from.now) × (rows.to + rows.len ≤ length into.old) }
    requires whole { IsWhole way rows.len }
    ensures { into.new ≡ taken_to way rows.from rows.to rows.len from.now into.old }
{
    take_row(
        way,
        from.bytes(rows.from, rows.len),
        into.window(rows.to, rows.len),
    );
}

// Inside one memory, the first row before the other.
fn take_back(way: Way, rows: Rows, bytes: &mut [u8])
    requires inside { rows.to + rows.len ≤ length bytes.old }
    requires apart { rows.from + rows.len ≤ rows.to }
    requires whole { IsWhole way rows.len }
    ensures { bytes.new ≡ taken_to way rows.from rows.to rows.len bytes.old bytes.old }
{
    let (front, back) = bytes.split_at_mut(rows.to);
    take_row(
        way,
        &front[rows.from..rows.from + rows.len],
        &mut back[..rows.len],
    );
}

// Inside one memory, the first row behind the other.
fn take_front(way: Way, rows: Rows, bytes: &mut [u8])
    requires inside { rows.from + rows.len ≤ length bytes.old }
    requires apart { rows.to + rows.len ≤ rows.from }
    requires whole { IsWhole way rows.len }
    ensures { bytes.new ≡ taken_to way rows.from rows.to rows.len bytes.old bytes.old }
{
    let (front, back) = bytes.split_at_mut(rows.from);
    take_row(
        way,
        &back[..rows.len],
        &mut front[rows.to..rows.to + rows.len],
    );
}

// Inside one memory.
fn take_inside(way: Way, rows: Rows, memory: &mut RawMem)
    requires inside { (rows.from + rows.len ≤ length memory.old) × (rows.to + rows.len ≤ length memory.old) }
    requires apart { AreApart rows.from rows.to rows.len }
    requires whole { IsWhole way rows.len }
    ensures { memory.new ≡ taken_to way rows.from rows.to rows.len memory.old memory.old }
{
    let len = memory.len();
    if rows.from + rows.len <= rows.to {
        take_back(way, rows, memory.window(0, len))
    } else {
        take_front(way, rows, memory.window(0, len))
    }
}

// From a node to a later one.
fn take_later(way: Way, rows: Rows, from: usize, to: usize, nodes: &mut [RawMem])
    requires order { (from < to) × (to < length nodes.old) }
    requires inside { (rows.from + rows.len ≤ size_in nodes.old from) × (rows.to + rows.len ≤ size_in nodes.old to) }
    requires whole { IsWhole way rows.len }
    ensures { nodes.new ≡ taken_in way from rows.from to rows.to rows.len nodes.old }
{
    let (front, back) = nodes.split_at_mut(to);
    take_between(way, rows, &front[from], &mut back[0]);
}

// From a node to an earlier one.
fn take_earlier(way: Way, rows: Rows, from: usize, to: usize, nodes: &mut [RawMem])
    requires order { (to < from) × (from < length nodes.old) }
    requires inside { (rows.from + rows.len ≤ size_in nodes.old from) × (rows.to + rows.len ≤ size_in nodes.old to) }
    requires whole { IsWhole way rows.len }
    ensures { nodes.new ≡ taken_in way from rows.from to rows.to rows.len nodes.old }
{
    let (front, back) = nodes.split_at_mut(from);
    take_between(way, rows, &back[0], &mut front[to]);
}

// Inside one node.
fn take_here(way: Way, rows: Rows, node: usize, nodes: &mut [RawMem])
    requires there { node < length nodes.old }
    requires inside { (rows.from + rows.len ≤ size_in nodes.old node) × (rows.to + rows.len ≤ size_in nodes.old node) }
    requires apart { AreApart rows.from rows.to rows.len }
    requires whole { IsWhole way rows.len }
    ensures { nodes.new ≡ taken_in way node rows.from node rows.to rows.len nodes.old }
{
    take_inside(way, rows, &mut nodes[node]);
}

// Between two nodes that are there.
fn take_there(way: Way, rows: Rows, from: usize, to: usize, nodes: &mut [RawMem])
    requires there { (from < length nodes.old) × (to < length nodes.old) }
    requires inside { (rows.from + rows.len ≤ size_in nodes.old from) × (rows.to + rows.len ≤ size_in nodes.old to) }
    requires apart { from ≡ to → AreApart rows.from rows.to rows.len }
    requires whole { IsWhole way rows.len }
    ensures { nodes.new ≡ taken_in way from rows.from to rows.to rows.len nodes.old }
{
    if from == to {
        return take_here(way, rows, to, nodes);
    }
    if from < to {
        return take_later(way, rows, from, to, nodes);
    }
    take_earlier(way, rows, from, to, nodes)
}

/// Takes a row of a node to one of a node. A node that is not there has no bytes.
pub(crate) fn take_rows(way: Way, rows: Rows, from: usize, to: usize, nodes: &mut [RawMem])
    requires inside { (rows.from + rows.len ≤ size_in nodes.old from) × (rows.to + rows.len ≤ size_in nodes.old to) }
    requires apart { from ≡ to → AreApart rows.from rows.to rows.len }
    requires whole { IsWhole way rows.len }
    ensures { nodes.new ≡ taken_in way from rows.from to rows.to rows.len nodes.old }
{
    if from.max(to) < nodes.len() {
        take_there(way, rows, from, to, nodes);
    }
}

// Fills a row of a memory.
fn fill_in(elem: Elem, count: usize, value: i64, at: usize, memory: &mut RawMem)
    requires { at + width elem * count ≤ length memory.old }
    ensures { memory.new ≡ put_at at (cells elem (replicate count value)) memory.old }
{
    let _len = memory.len();
    fill_cells(elem, value, memory.window(at, width(elem) * count));
}

/// Fills a row of a node. A node that is not there has no bytes.
pub(crate) fn fill_row(
    elem: Elem,
    count: usize,
    value: i64,
    node: usize,
    at: usize,
    nodes: &mut [RawMem],
)
    requires { at + width elem * count ≤ size_in nodes.old node }
    ensures { nodes.new ≡ set nodes.old node
        (put_at at (cells elem (replicate count value)) (bytes_at nodes.old node)) }
{
    if node < nodes.len() {
        fill_in(elem, count, value, at, &mut nodes[node]);
    }
}

/// Makes bytes of the first node those of `from`.
pub(crate) fn put_first(at: usize, from: &[u8], nodes: &mut [RawMem])
    requires { at + length from.now ≤ size_in nodes.old 0 }
    ensures { nodes.new ≡ put_first (put_at at from.now) nodes.old }
{
    if 0 < nodes.len() {
        nodes[0].write_row(at, from);
    }
}

/// Bytes of the first node.
pub(crate) fn first_bytes(nodes: &[RawMem], at: usize, len: usize) -> &[u8]
    requires { at + len ≤ size_in nodes.now 0 }
    ensures { result.now ≡ take len (drop at (bytes_at nodes.now 0)) }
{
    if 0 < nodes.len() {
        nodes[0].bytes(at, len)
    } else {
        &[]
    }
}
