//! Elements of which each is made of the one before.

ghost use Rattle.std.specs.Prelude.{◌≡◌, ◌+◌, ◌^◌, ◌<◌, ◌≤◌, ℕ, length, [], ◌∷◌};
ghost use Rattle.std.specs.List.{All};
ghost use Rattle.sq_ast.specs.declared.expr.BinOp.TheVariants as binary;
ghost use Rattle.sq_deeds.specs.declared.deeds.Link.TheVariants as link_of;
ghost use Rattle.sq_deeds.specs.Deeds.{LinkFits, IsRoomy, column};
ghost use Rattle.sq_deeds.specs.Loops.{in_turn, next_turn};

use crate::deeds::{Link, Numbers, Row};
use crate::elements::{load, store};
use crate::pairs::chain_pair;
use crate::rise::Rise;
use crate::turn::{along_links, byte_at, linked};
use sq_ast::BinOp;
use sq_columns::Line;
use sq_num::{Elem, cut, width};

/// Each turn puts what the operators make of the element before, and the first reads the first.
pub(crate) fn chain(row: Row, links: &[Link], columns: &[i64], turns: usize, bytes: &mut [u8])
    requires few { turns ≤ 256 }
    requires room { IsRoomy (turns + 1) (length bytes.old) row.elem row.rise }
    requires links { All (LinkFits (length columns.now)) links.now }
    ensures { bytes.new ≡ in_turn (next_turn columns.now row.elem row.rise links.now) turns 0 bytes.old }
{
    match links {
        [link] => next_one(row, *link, columns, turns, bytes),
        [first, second] => chain_pair(row, *first, *second, columns, turns, bytes),
        links => next_more(row, links, columns, turns, bytes),
    }
}

#[inline(never)]
fn next_more(row: Row, links: &[Link], columns: &[i64], turns: usize, bytes: &mut [u8])
    requires few { turns ≤ 256 }
    requires room { IsRoomy (turns + 1) (length bytes.old) row.elem row.rise }
    requires links { All (LinkFits (length columns.now)) links.now }
    ensures { bytes.new ≡ in_turn (next_turn columns.now row.elem row.rise links.now) turns 0 bytes.old }
{
    match row.elem {
        Elem::Byte => next_along(Elem::Byte, row.rise, links, columns, turns, bytes),
        Elem::Int => next_along(Elem::Int, row.rise, links, columns, turns, bytes),
        Elem::Long => next_along(Elem::Long, row.rise, links, columns, turns, bytes),
    }
}

#[inline(always)]
fn next_along(
    elem: Elem,
    rise: Rise,
    links: &[Link],
    columns: &[i64],
    turns: usize,
    bytes: &mut [u8],
)
    requires few { turns ≤ 256 }
    requires room { IsRoomy (turns + 1) (length bytes.old) elem rise }
    requires links { All (LinkFits (length columns.now)) links.now }
    ensures { bytes.new ≡ in_turn (next_turn columns.now elem rise links.now) turns 0 bytes.old }
{
    let mut x = load(elem, rise.at, bytes);
    for j in 0..turns {
        x = cut(elem, along_links(links, x, columns, j));
        let at = byte_at(elem, rise, turns + 1, j + 1, bytes.len());
        store(elem, at, x, bytes);
    }
}

fn next_one(row: Row, link: Link, columns: &[i64], turns: usize, bytes: &mut [u8])
    requires few { turns ≤ 256 }
    requires room { IsRoomy (turns + 1) (length bytes.old) row.elem row.rise }
    requires link { LinkFits (length columns.now) link }
    ensures { bytes.new ≡ in_turn (next_turn columns.now row.elem row.rise (link ∷ [])) turns 0 bytes.old }
{
    match link {
        Link::Onto(op, y) => match y.line {
            Line::Column => match op {
                BinOp::Add => next_sum(row, y.from, columns, turns, bytes),
                BinOp::Sub => next_difference(row, y.from, columns, turns, bytes),
                BinOp::Mul => next_product(row, y.from, columns, turns, bytes),
                _ => next_any(row, link, columns, turns, bytes),
            },
            _ => next_any(row, link, columns, turns, bytes),
        },
        Link::Least(y) => match y.line {
            Line::Column => next_least(row, y.from, columns, turns, bytes),
            _ => next_any(row, link, columns, turns, bytes),
        },
        Link::Most(y) => match y.line {
            Line::Column => next_most(row, y.from, columns, turns, bytes),
            _ => next_any(row, link, columns, turns, bytes),
        },
        _ => next_any(row, link, columns, turns, bytes),
    }
}

// Loops for one operator and a column, a function for each, with the calls for each type within it (see puts.rt).
#[inline(never)]
fn next_sum(row: Row, from: usize, columns: &[i64], turns: usize, bytes: &mut [u8])
    requires few { turns ≤ 256 }
    requires room { IsRoomy (turns + 1) (length bytes.old) row.elem row.rise }
    requires column { from + 256 ≤ length columns.now }
    ensures { bytes.new ≡ in_turn (next_turn columns.now row.elem row.rise (link_of.Onto binary.Add (column from) ∷ []))
        turns 0 bytes.old }
{
    let link = Link::Onto(BinOp::Add, Numbers::column(from));
    match row.elem {
        Elem::Byte => next_steps(Elem::Byte, row.rise, link, columns, turns, bytes),
        Elem::Int => next_steps(Elem::Int, row.rise, link, columns, turns, bytes),
        Elem::Long => next_steps(Elem::Long, row.rise, link, columns, turns, bytes),
    }
}

#[inline(never)]
fn next_difference(row: Row, from: usize, columns: &[i64], turns: usize, bytes: &mut [u8])
    requires few { turns ≤ 256 }
    requires room { IsRoomy (turns + 1) (length bytes.old) row.elem row.rise }
    requires column { from + 256 ≤ length columns.now }
    ensures { bytes.new ≡ in_turn (next_turn columns.now row.elem row.rise (link_of.Onto binary.Sub (column from) ∷ []))
        turns 0 bytes.old }
{
    let link = Link::Onto(BinOp::Sub, Numbers::column(from));
    match row.elem {
        Elem::Byte => next_steps(Elem::Byte, row.rise, link, columns, turns, bytes),
        Elem::Int => next_steps(Elem::Int, row.rise, link, columns, turns, bytes),
        Elem::Long => next_steps(Elem::Long, row.rise, link, columns, turns, bytes),
    }
}

#[inline(never)]
fn next_product(row: Row, from: usize, columns: &[i64], turns: usize, bytes: &mut [u8])
    requires few { turns ≤ 256 }
    requires room { IsRoomy (turns + 1) (length bytes.old) row.elem row.rise }
    requires column { from + 256 ≤ length columns.now }
    ensures { bytes.new ≡ in_turn (next_turn columns.now row.elem row.rise (link_of.Onto binary.Mul (column from) ∷ []))
        turns 0 bytes.old }
{
    let link = Link::Onto(BinOp::Mul, Numbers::column(from));
    match row.elem {
        Elem::Byte => next_steps(Elem::Byte, row.rise, link, columns, turns, bytes),
        Elem::Int => next_steps(Elem::Int, row.rise, link, columns, turns, bytes),
        Elem::Long => next_steps(Elem::Long, row.rise, link, columns, turns, bytes),
    }
}

#[inline(never)]
fn next_least(row: Row, from: usize, columns: &[i64], turns: usize, bytes: &mut [u8])
    requires few { turns ≤ 256 }
    requires room { IsRoomy (turns + 1) (length bytes.old) row.elem row.rise }
    requires column { from + 256 ≤ length columns.now }
    ensures { bytes.new ≡ in_turn (next_turn columns.now row.elem row.rise (link_of.Least (column from) ∷ [])) turns 0
        bytes.old }
{
    let link = Link::Least(Numbers::column(from));
    match row.elem {
        Elem::Byte => next_steps(Elem::Byte, row.rise, link, columns, turns, bytes),
        Elem::Int => next_steps(Elem::Int, row.rise, link, columns, turns, bytes),
        Elem::Long => next_steps(Elem::Long, row.rise, link, columns, turns, bytes),
    }
}

#[inline(never)]
fn next_most(row: Row, from: usize, columns: &[i64], turns: usize, bytes: &mut [u8])
    requires few { turns ≤ 256 }
    requires room { IsRoomy (turns + 1) (length bytes.old) row.elem row.rise }
    requires column { from + 256 ≤ length columns.now }
    ensures { bytes.new ≡ in_turn (next_turn columns.now row.elem row.rise (link_of.Most (column from) ∷ [])) turns 0
        bytes.old }
{
    let link = Link::Most(Numbers::column(from));
    match row.elem {
        Elem::Byte => next_steps(Elem::Byte, row.rise, link, columns, turns, bytes),
        Elem::Int => next_steps(Elem::Int, row.rise, link, columns, turns, bytes),
        Elem::Long => next_steps(Elem::Long, row.rise, link, columns, turns, bytes),
    }
}

#[inline(never)]
fn next_any(row: Row, link: Link, columns: &[i64], turns: usize, bytes: &mut [u8])
    requires few { turns ≤ 256 }
    requires room { IsRoomy (turns + 1) (length bytes.old) row.elem row.rise }
    requires link { LinkFits (length columns.now) link }
    ensures { bytes.new ≡ in_turn (next_turn columns.now row.elem row.rise (link ∷ [])) turns 0 bytes.old }
{
    match row.elem {
        Elem::Byte => next_each(Elem::Byte, row.rise, link, columns, turns, bytes),
        Elem::Int => next_each(Elem::Int, row.rise, link, columns, turns, bytes),
        Elem::Long => next_each(Elem::Long, row.rise, link, columns, turns, bytes),
    }
}

/// Elements beside one another, and a single one, by loops of their own.
#[inline(always)]
fn next_steps(elem: Elem, rise: Rise, link: Link, columns: &[i64], turns: usize, bytes: &mut [u8])
    requires few { turns ≤ 256 }
    requires room { IsRoomy (turns + 1) (length bytes.old) elem rise }
    requires link { LinkFits (length columns.now) link }
    ensures { bytes.new ≡ in_turn (next_turn columns.now elem rise (link ∷ [])) turns 0 bytes.old }
{
    let wide = width(elem);
    if rise.step == 0 {
        next_each(elem, Rise { step: 0, ..rise }, link, columns, turns, bytes);
    } else if rise.step == wide {
        next_each(
            elem,
            Rise { step: wide, ..rise },
            link,
            columns,
            turns,
            bytes,
        );
    } else {
        next_each(elem, rise, link, columns, turns, bytes);
    }
}

#[inline(always)]
fn next_each(elem: Elem, rise: Rise, link: Link, columns: &[i64], turns: usize, bytes: &mut [u8])
    requires few { turns ≤ 256 }
    requires room { IsRoomy (turns + 1) (length bytes.old) elem rise }
    requires link { LinkFits (length columns.now) link }
    ensures { bytes.new ≡ in_turn (next_turn columns.now elem rise (link ∷ [])) turns 0 bytes.old }
{
    let mut x = load(elem, rise.at, bytes);
    for j in 0..turns {
        x = cut(elem, linked(link, x, x, columns, j));
        let at = byte_at(elem, rise, turns + 1, j + 1, bytes.len());
        store(elem, at, x, bytes);
    }
}
