//! Numbers that an assignment reads where another one of the same turn has put them.

ghost use Rattle.std.specs.Prelude.{◌≡◌, ◌+◌, ◌^◌, ◌<◌, ◌≤◌, ℕ, [], ◌∷◌, pos, true, length, get_or};
ghost use Rattle.std.specs.List.{All};
ghost use Rattle.sq_num.specs.Elements as elements;
ghost use Rattle.sq_ast.specs.declared.leaf.AssignOp.TheVariants as ops;
ghost use Rattle.sq_ast.specs.declared.expr.BinOp.TheVariants as binary;
ghost use Rattle.sq_deeds.specs.declared.deeds.Link.TheVariants as link_of;
ghost use Rattle.sq_deeds.specs.Deeds as spec;
ghost use Rattle.sq_deeds.specs.Deeds.{HasColumn, LinkFits};
ghost use Rattle.sq_deeds.specs.Loops.{AreLinksFirst, IsLinkFirst, IsReadFirst};

use crate::choose::is_read_first;
use crate::deeds::{Carried, Link, Numbers, Put};
use crate::turn::{along_links, linked, number_at};
use sq_ast::{AssignOp, BinOp};
use sq_num::{Elem, cut};

/// Whether the second reads what the first sets in the same turn, and what it makes of it can be put in the place of the
/// first one's numbers.
pub(crate) fn is_forward(first: &Put, x: Numbers, carried: &Carried) -> bool
    ensures op { result ≡ true → first.now.op ≡ ops.Set }
    ensures elem { result ≡ true → carried.now.elem ≡ first.now.elem }
    ensures at { result ≡ true → carried.now.read.at ≡ first.now.to.at }
    ensures step { result ≡ true → carried.now.read.step ≡ first.now.to.step }
    ensures links { result ≡ true → AreLinksFirst x.from carried.now.links.items }
{
    first.op == AssignOp::Set
        && carried.elem == first.elem
        && carried.read.at == first.to.at
        && carried.read.step == first.to.step
        && are_links_first(x.from, carried.links.as_slice())
}

fn are_links_first(at: usize, links: &[Link]) -> bool
    ensures { result ≡ true → AreLinksFirst at links.now }
{
    match links {
        [] => true,
        [link, rest @ ..] => is_link_first(at, *link) && are_links_first(at, rest),
    }
}

fn is_link_first(at: usize, link: Link) -> bool
    ensures { result ≡ true → IsLinkFirst at link }
{
    match link {
        Link::Unary(_) | Link::Itself(_) => true,
        Link::Onto(_, y) => is_read_first(at, y),
        Link::Under(_, y) => is_read_first(at, y),
        Link::Least(y) => is_read_first(at, y),
        Link::Most(y) => is_read_first(at, y),
    }
}

/// Puts into the column of these numbers, at each turn, what the operators make of the number as the element holds it.
pub(crate) fn forward(elem: Elem, x: Numbers, carried: &Carried, columns: &mut [i64], turns: usize)
    requires few { turns ≤ 256 }
    requires number { HasColumn (length columns.old) x }
    requires links { All (LinkFits (length columns.old)) carried.now.links.items }
    requires first { AreLinksFirst x.from carried.now.links.items }
    ensures size { length columns.new ≡ length columns.old }
    ensures each { (j : ℕ) → j < turns → get_or columns.new (x.from + j) (pos 0) ≡ spec.along_links columns.old
        carried.now.links.items j (elements.cut elem (spec.number_at columns.old x j)) }
{
    forward_links(elem, x, carried.links.as_slice(), columns, turns);
}

fn forward_links(elem: Elem, x: Numbers, links: &[Link], columns: &mut [i64], turns: usize)
    requires few { turns ≤ 256 }
    requires number { HasColumn (length columns.old) x }
    requires links { All (LinkFits (length columns.old)) links.now }
    requires first { AreLinksFirst x.from links.now }
    ensures size { length columns.new ≡ length columns.old }
    ensures each { (j : ℕ) → j < turns → get_or columns.new (x.from + j) (pos 0) ≡ spec.along_links columns.old
        links.now j (elements.cut elem (spec.number_at columns.old x j)) }
{
    match links {
        [link] => forward_one(elem, x, *link, columns, turns),
        links => forward_more(elem, x, links, columns, turns),
    }
}

#[inline(never)]
fn forward_more(elem: Elem, x: Numbers, links: &[Link], columns: &mut [i64], turns: usize)
    requires few { turns ≤ 256 }
    requires number { HasColumn (length columns.old) x }
    requires links { All (LinkFits (length columns.old)) links.now }
    requires first { AreLinksFirst x.from links.now }
    ensures size { length columns.new ≡ length columns.old }
    ensures each { (j : ℕ) → j < turns → get_or columns.new (x.from + j) (pos 0) ≡ spec.along_links columns.old
        links.now j (elements.cut elem (spec.number_at columns.old x j)) }
{
    match elem {
        Elem::Byte => forward_along(Elem::Byte, x, links, columns, turns),
        Elem::Int => forward_along(Elem::Int, x, links, columns, turns),
        Elem::Long => forward_along(Elem::Long, x, links, columns, turns),
    }
}

#[inline(always)]
fn forward_along(elem: Elem, x: Numbers, links: &[Link], columns: &mut [i64], turns: usize)
    requires few { turns ≤ 256 }
    requires number { HasColumn (length columns.old) x }
    requires links { All (LinkFits (length columns.old)) links.now }
    requires first { AreLinksFirst x.from links.now }
    ensures size { length columns.new ≡ length columns.old }
    ensures each { (j : ℕ) → j < turns → get_or columns.new (x.from + j) (pos 0) ≡ spec.along_links columns.old
        links.now j (elements.cut elem (spec.number_at columns.old x j)) }
{
    for j in 0..turns {
        columns[x.from + j] = forwarded(elem, x, links, columns, j);
    }
}

#[inline(always)]
fn forwarded(elem: Elem, x: Numbers, links: &[Link], columns: &[i64], j: usize) -> i64
    requires few { j < 256 }
    requires number { HasColumn (length columns.now) x }
    requires links { All (LinkFits (length columns.now)) links.now }
    ensures { result ≡ spec.along_links columns.now links.now j (elements.cut elem (spec.number_at columns.now x j)) }
{
    along_links(links, cut(elem, number_at(x, columns, j)), columns, j)
}

fn forward_one(elem: Elem, x: Numbers, link: Link, columns: &mut [i64], turns: usize)
    requires few { turns ≤ 256 }
    requires number { HasColumn (length columns.old) x }
    requires link { LinkFits (length columns.old) link }
    requires first { IsLinkFirst x.from link }
    ensures size { length columns.new ≡ length columns.old }
    ensures each { (j : ℕ) → j < turns → get_or columns.new (x.from + j) (pos 0) ≡ spec.along_links columns.old
        (link ∷ []) j (elements.cut elem (spec.number_at columns.old x j)) }
{
    match link {
        Link::Onto(BinOp::Add, y) => forward_sum(elem, x, y, columns, turns),
        Link::Onto(BinOp::Mul, y) => forward_product(elem, x, y, columns, turns),
        Link::Itself(BinOp::Mul) => forward_square(elem, x, columns, turns),
        _ => forward_any(elem, x, link, columns, turns),
    }
}

// Loops for one operator, a function for each.
#[inline(never)]
fn forward_sum(elem: Elem, x: Numbers, y: Numbers, columns: &mut [i64], turns: usize)
    requires few { turns ≤ 256 }
    requires number { HasColumn (length columns.old) x }
    requires side { HasColumn (length columns.old) y }
    requires first { IsReadFirst x.from y }
    ensures size { length columns.new ≡ length columns.old }
    ensures each { (j : ℕ) → j < turns → get_or columns.new (x.from + j) (pos 0) ≡ spec.along_links columns.old
        (link_of.Onto binary.Add y ∷ []) j (elements.cut elem (spec.number_at columns.old x j)) }
{
    forward_types(elem, x, Link::Onto(BinOp::Add, y), columns, turns);
}

#[inline(never)]
fn forward_product(elem: Elem, x: Numbers, y: Numbers, columns: &mut [i64], turns: usize)
    requires few { turns ≤ 256 }
    requires number { HasColumn (length columns.old) x }
    requires side { HasColumn (length columns.old) y }
    requires first { IsReadFirst x.from y }
    ensures size { length columns.new ≡ length columns.old }
    ensures each { (j : ℕ) → j < turns → get_or columns.new (x.from + j) (pos 0) ≡ spec.along_links columns.old
        (link_of.Onto binary.Mul y ∷ []) j (elements.cut elem (spec.number_at columns.old x j)) }
{
    forward_types(elem, x, Link::Onto(BinOp::Mul, y), columns, turns);
}

#[inline(never)]
fn forward_square(elem: Elem, x: Numbers, columns: &mut [i64], turns: usize)
    requires few { turns ≤ 256 }
    requires number { HasColumn (length columns.old) x }
    ensures size { length columns.new ≡ length columns.old }
    ensures each { (j : ℕ) → j < turns → get_or columns.new (x.from + j) (pos 0) ≡ spec.along_links columns.old
        (link_of.Itself binary.Mul ∷ []) j (elements.cut elem (spec.number_at columns.old x j)) }
{
    forward_types(elem, x, Link::Itself(BinOp::Mul), columns, turns);
}

#[inline(never)]
fn forward_any(elem: Elem, x: Numbers, link: Link, columns: &mut [i64], turns: usize)
    requires few { turns ≤ 256 }
    requires number { HasColumn (length columns.old) x }
    requires link { LinkFits (length columns.old) link }
    requires first { IsLinkFirst x.from link }
    ensures size { length columns.new ≡ length columns.old }
    ensures each { (j : ℕ) → j < turns → get_or columns.new (x.from + j) (pos 0) ≡ spec.along_links columns.old
        (link ∷ []) j (elements.cut elem (spec.number_at columns.old x j)) }
{
    forward_types(elem, x, link, columns, turns);
}

/// Each type by a loop of its own.
#[inline(always)]
fn forward_types(elem: Elem, x: Numbers, link: Link, columns: &mut [i64], turns: usize)
    requires few { turns ≤ 256 }
    requires number { HasColumn (length columns.old) x }
    requires link { LinkFits (length columns.old) link }
    requires first { IsLinkFirst x.from link }
    ensures size { length columns.new ≡ length columns.old }
    ensures each { (j : ℕ) → j < turns → get_or columns.new (x.from + j) (pos 0) ≡ spec.along_links columns.old
        (link ∷ []) j (elements.cut elem (spec.number_at columns.old x j)) }
{
    match elem {
        Elem::Byte => forward_each(Elem::Byte, x, link, columns, turns),
        Elem::Int => forward_each(Elem::Int, x, link, columns, turns),
        Elem::Long => forward_each(Elem::Long, x, link, columns, turns),
    }
}

#[inline(always)]
fn forward_each(elem: Elem, x: Numbers, link: Link, columns: &mut [i64], turns: usize)
    requires few { turns ≤ 256 }
    requires number { HasColumn (length columns.old) x }
    requires link { LinkFits (length columns.old) link }
    requires first { IsLinkFirst x.from link }
    ensures size { length columns.new ≡ length columns.old }
    ensures each { (j : ℕ) → j < turns → get_or columns.new (x.from + j) (pos 0) ≡ spec.along_links columns.old
        (link ∷ []) j (elements.cut elem (spec.number_at columns.old x j)) }
{
    for j in 0..turns {
        columns[x.from + j] = forwarded_one(elem, x, link, columns, j);
    }
}

#[inline(always)]
fn forwarded_one(elem: Elem, x: Numbers, link: Link, columns: &[i64], j: usize) -> i64
    requires few { j < 256 }
    requires number { HasColumn (length columns.now) x }
    requires link { LinkFits (length columns.now) link }
    ensures { result ≡ spec.along_links columns.now (link ∷ []) j (elements.cut elem (spec.number_at columns.now x j)) }
{
    let first = cut(elem, number_at(x, columns, j));
    linked(link, first, first, columns, j)
}
