//! One assignment of numbers that turns carry.

ghost use Rattle.std.specs.Prelude.{◌≡◌, ◌+◌, ◌^◌, ◌<◌, ◌≤◌, true, ℕ, length};
ghost use Rattle.std.specs.List.{All};
ghost use Rattle.sq_ast.specs.declared.leaf.AssignOp.TheVariants as ops;
ghost use Rattle.sq_deeds.specs.Deeds.{LinkFits, IsRoomy};
ghost use Rattle.sq_deeds.specs.Loops.{in_turn, carry_turn};

use crate::chain::chain;
use crate::deeds::{Carried, Link, Put, Row};
use crate::elements::load;
use crate::puts::put;
use crate::turn::{along_links, byte_at};
use sq_ast::AssignOp;

/// Each turn puts what the operators make of an element as it meets it.
pub(crate) fn carry(put: &Put, carried: &Carried, columns: &[i64], turns: usize, bytes: &mut [u8])
    requires few { turns ≤ 256 }
    requires to { IsRoomy turns (length bytes.old) put.now.elem put.now.to }
    requires read { IsRoomy turns (length bytes.old) carried.now.elem carried.now.read }
    requires links { All (LinkFits (length columns.now)) carried.now.links.items }
    ensures { bytes.new ≡ in_turn (carry_turn columns.now put.now.elem put.now.op put.now.to carried.now.elem
        carried.now.read carried.now.links.items) turns 0 bytes.old }
{
    let to = Row {
        elem: put.elem,
        rise: put.to,
    };
    let from = Row {
        elem: carried.elem,
        rise: carried.read,
    };
    carry_along(
        to,
        put.op,
        from,
        carried.links.as_slice(),
        columns,
        turns,
        bytes,
    );
}

fn carry_along(
    to: Row,
    op: AssignOp,
    from: Row,
    links: &[Link],
    columns: &[i64],
    turns: usize,
    bytes: &mut [u8],
)
    requires few { turns ≤ 256 }
    requires to { IsRoomy turns (length bytes.old) to.elem to.rise }
    requires read { IsRoomy turns (length bytes.old) from.elem from.rise }
    requires links { All (LinkFits (length columns.now)) links.now }
    ensures { bytes.new ≡ in_turn (carry_turn columns.now to.elem op to.rise from.elem from.rise links.now) turns 0
        bytes.old }
{
    if turns != 0 && is_next(to, op, from) {
        chain(from, links, columns, turns, bytes);
    } else {
        carry_each(to, op, from, links, columns, turns, bytes);
    }
}

/// Whether each turn puts the element that the next one reads.
fn is_next(to: Row, op: AssignOp, from: Row) -> bool
    requires near { from.rise.at < 2 ^ 62 }
    requires slow { from.rise.step ≤ 2 ^ 32 }
    ensures elem { result ≡ true → from.elem ≡ to.elem }
    ensures op { result ≡ true → op ≡ ops.Set }
    ensures at { result ≡ true → to.rise.at ≡ from.rise.at + from.rise.step }
    ensures step { result ≡ true → to.rise.step ≡ from.rise.step }
{
    to.elem == from.elem
        && op == AssignOp::Set
        && to.rise.at == from.rise.at + from.rise.step
        && to.rise.step == from.rise.step
}

fn carry_each(
    to: Row,
    op: AssignOp,
    from: Row,
    links: &[Link],
    columns: &[i64],
    turns: usize,
    bytes: &mut [u8],
)
    requires few { turns ≤ 256 }
    requires to { IsRoomy turns (length bytes.old) to.elem to.rise }
    requires read { IsRoomy turns (length bytes.old) from.elem from.rise }
    requires links { All (LinkFits (length columns.now)) links.now }
    ensures { bytes.new ≡ in_turn (carry_turn columns.now to.elem op to.rise from.elem from.rise links.now) turns 0
        bytes.old }
{
    for j in 0..turns {
        carry_one(to, op, from, links, columns, turns, j, bytes);
    }
}

#[inline(always)]
fn carry_one(
    to: Row,
    op: AssignOp,
    from: Row,
    links: &[Link],
    columns: &[i64],
    turns: usize,
    j: usize,
    bytes: &mut [u8],
)
    requires few { turns ≤ 256 }
    requires here { j < turns }
    requires to { IsRoomy turns (length bytes.old) to.elem to.rise }
    requires read { IsRoomy turns (length bytes.old) from.elem from.rise }
    requires links { All (LinkFits (length columns.now)) links.now }
    ensures { bytes.new ≡ carry_turn columns.now to.elem op to.rise from.elem from.rise links.now j bytes.old }
{
    let at = byte_at(from.elem, from.rise, turns, j, bytes.len());
    let x = along_links(links, load(from.elem, at, bytes), columns, j);
    put(
        to.elem,
        op,
        byte_at(to.elem, to.rise, turns, j, bytes.len()),
        x,
        bytes,
    );
}
