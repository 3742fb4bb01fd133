//! What an assignment puts at the turns of a block: numbers that are known before it, or one element that each turn
//! reads as it meets it, and the operators behind it.

ghost use Rattle.std.specs.Prelude.{◌≡◌, ◌+◌, ◌<◌, ◌≤◌, true, false, ℕ, ℤ, List, [], length, drop, slice_get};
ghost use Rattle.std.specs.Prelude.{IfSome};
ghost use Rattle.sq_leaf.specs.Spots.{IsInside};
ghost use Rattle.sq_leaf.specs.Numbers as spec;
ghost use Rattle.sq_leaf.specs.Running as running;
ghost use Rattle.sq_columns.specs.Lines.{line_at, divides};
ghost use Rattle.sq_deeds.specs.declared.deeds.Link.TheVariants.{Onto};
ghost use Rattle.sq_deeds.specs.Puts.{IsRise};
ghost use Rattle.sq_turns.specs.Settings.{Gives, Follows, value_alone, extreme_of, load_of};
ghost use Rattle.sq_deeds.specs.Deeds.{number_at, HasColumn, LinkFits, ValueFits, AreKept};
ghost use Rattle.sq_turns.specs.Values.{AreNumbers, IsValue, IsCarried, Leads, Starts, IsPath, IsLonger};
ghost use Rattle.sq_turns.specs.Values.{extreme_link, extreme_read, unary_of};

use crate::lines::{COLUMN, column, spots};
use crate::setting::Setting;
use arrayvec::ArrayVec;
use sq_ast::{BinOp, UnOp};
use sq_columns::{Line, binary_line};
use sq_deeds::{Carried, LINKS, Link, Numbers, Rise, Value, rise_of};
use sq_leaf::{Cell, Code, Step};
use sq_num::Elem;
use sq_rect::View;
use sqlite_items::at;

/// A value and the first column that is free behind its own.
#[derive(Drop)]
pub(crate) struct Made {
    pub value: Value,
    pub free: usize,
}

/// The element with which a path of operators begins, and the first column that is free behind those of their numbers.
#[derive(Clone, Copy)]
pub(crate) struct Hole {
    pub elem: Elem,
    pub read: Rise,
    pub free: usize,
}

/// The line of the first operators of a chain, and how many these are.
#[derive(Clone, Copy)]
struct Prefix {
    line: Line,
    count: usize,
}

/// What an assignment of this expression puts at the turns. None: more than one of its elements may be written by an
/// earlier turn of the block, or this one's places don't go up evenly; something may trap, or there are too many
/// operators or too few columns.
pub(crate) fn value(
    code: &Code,
    setting: &Setting<'_>,
    columns: &mut [i64],
    next: usize,
) -> Option<Made>
    ensures gives { IfSome result (λ m. IsValue setting.now (running.run_code code.now) columns.new m.value) }
    ensures fits { IfSome result (λ m. ValueFits setting.now.block.now.turns m.free (length setting.now.bytes.now)
        m.value) }
    ensures after { IfSome result (λ m. next ≤ m.free) }
    ensures within { IfSome result (λ m. m.free ≤ length columns.new) }
    ensures kept { AreKept next columns.old columns.new }
{
    match numbers(code, setting, columns, next) {
        Some(x) => Some(Made {
            value: Value::Known(x),
            free: free_behind(x, next, columns),
        }),
        None => carried_value(code, setting, columns, next),
    }
}

/// The numbers of an expression at the turns, in the columns from `next` on. None: it may trap, or may read what an
/// earlier turn of the block writes, or there is no column left.
pub(crate) fn numbers(
    code: &Code,
    setting: &Setting<'_>,
    columns: &mut [i64],
    next: usize,
) -> Option<Numbers>
    ensures gives { IfSome result (AreNumbers setting.now (running.run_code code.now) columns.new) }
    ensures has { IfSome result (HasColumn (length columns.new)) }
    ensures within { IfSome result (λ x. next ≤ length columns.new) }
    ensures kept { AreKept next columns.old columns.new }
{
    match line(code, setting, columns, next) {
        Some(x) => Some(numbers_of(x, next)),
        None => None,
    }
}

/// The line of an expression's values, whose column begins with `next`.
fn line(code: &Code, setting: &Setting<'_>, columns: &mut [i64], next: usize) -> Option<Line>
    ensures gives { IfSome result (λ l. Gives setting.now (running.run_code code.now) l (drop next columns.new)) }
    ensures room { IfSome result (λ l. next + 256 ≤ length columns.new) }
    ensures kept { AreKept next columns.old columns.new }
{
    if columns.len() < COLUMN || columns.len() - COLUMN < next {
        return None;
    }
    let (_front, free) = columns.split_at_mut(next);
    column(code, setting, free)
}

/// The numbers of a line whose column begins with `next`.
fn numbers_of(line: Line, next: usize) -> Numbers
    ensures same { (columns : List ℤ) (j : ℕ) → number_at columns result j ≡ line_at line (drop next columns) j }
    ensures from { result.from ≤ next }
{
    match line {
        Line::Column => Numbers { line, from: next },
        line => Numbers { line, from: 0 },
    }
}

/// The first column that is free behind the numbers' own, and behind those that are taken.
fn free_behind(x: Numbers, next: usize, columns: &[i64]) -> usize
    requires has { HasColumn (length columns.now) x }
    requires within { next ≤ length columns.now }
    ensures has { HasColumn result x }
    ensures next { next ≤ result }
    ensures within { result ≤ length columns.now }
{
    let _columns = columns;
    next.max(x.from + COLUMN)
}

fn carried_value(
    code: &Code,
    setting: &Setting<'_>,
    columns: &mut [i64],
    next: usize,
) -> Option<Made>
    ensures gives { IfSome result (λ m. IsValue setting.now (running.run_code code.now) columns.new m.value) }
    ensures fits { IfSome result (λ m. ValueFits setting.now.block.now.turns m.free (length setting.now.bytes.now)
        m.value) }
    ensures after { IfSome result (λ m. next ≤ m.free) }
    ensures within { IfSome result (λ m. m.free ≤ length columns.new) }
    ensures kept { AreKept next columns.old columns.new }
{
    let mut links = ArrayVec::new();
    match carried(code, setting, columns, next, &mut links) {
        Some(hole) => Some(Made {
            value: Value::Carried(Carried {
                elem: hole.elem,
                read: hole.read,
                links,
            }),
            free: hole.free,
        }),
        None => None,
    }
}

/// The element that each turn reads as it meets it, and the links that lead from it to the expression's value.
#[cycle(carried)]
fn carried(
    code: &Code,
    setting: &Setting<'_>,
    columns: &mut [i64],
    next: usize,
    links: &mut ArrayVec<Link, LINKS>,
) -> Option<Hole>
    ensures gives { IfSome result (λ h. IsCarried setting.now (running.run_code code.now) columns.new h
        links.new.items) }
    ensures path { IfSome result (λ h. IsPath setting.now next columns.new h links.new.items) }
    ensures kept { AreKept next columns.old columns.new }
{
    match code {
        Code::Constant(_) | Code::Counter(_) => None,
        Code::Element(cell) => element(cell, setting, columns, next, links),
        Code::Unary(op, inner) => {
            match carried(inner.get(), setting, columns, next, links) {
                Some(hole) => changed(*op, hole, setting, columns, next, links),
                None => None,
            }
        }
        Code::Chain(first, rest) => {
            match line(first.get(), setting, columns, next) {
                Some(x) => behind(x, rest.as_slice(), setting, columns, next, links),
                None => match carried(first.get(), setting, columns, next, links) {
                    Some(hole) => steps(hole, rest.as_slice(), setting, columns, next, links),
                    None => None,
                },
            }
        }
        Code::Least(x, y) => extreme(false, x.get(), y.get(), setting, columns, next, links),
        Code::Most(x, y) => extreme(true, x.get(), y.get(), setting, columns, next, links),
    }
}

/// A path that begins with this element, and has no operator yet.
fn element(
    cell: &Cell,
    setting: &Setting<'_>,
    columns: &mut [i64],
    next: usize,
    links: &mut ArrayVec<Link, LINKS>,
) -> Option<Hole>
    ensures gives { IfSome result (λ h. IsCarried setting.now (load_of (running.run_cell cell.now)) columns.new h
        links.new.items) }
    ensures none { IfSome result (λ h. links.new.items ≡ []) }
    ensures path { IfSome result (λ h. IsPath setting.now next columns.new h links.new.items) }
    ensures kept { AreKept next columns.old columns.new }
{
    match at(setting.frame.views(), cell.array) {
        Some(view) => element_of(cell, view, setting, columns, next, links),
        None => None,
    }
}

fn element_of(
    cell: &Cell,
    view: &View,
    setting: &Setting<'_>,
    columns: &mut [i64],
    next: usize,
    links: &mut ArrayVec<Link, LINKS>,
) -> Option<Hole>
    requires one { IsInside (length setting.now.bytes.now) view.now }
    requires there { Some view.now ≡ slice_get setting.now.frame.now.views cell.now.array }
    ensures gives { IfSome result (λ h. IsCarried setting.now (load_of (running.run_cell cell.now)) columns.new h
        links.new.items) }
    ensures none { IfSome result (λ h. links.new.items ≡ []) }
    ensures path { IfSome result (λ h. IsPath setting.now next columns.new h links.new.items) }
    ensures kept { AreKept next columns.old columns.new }
{
    if columns.len() < next {
        return None;
    }
    links.clear();
    let (_front, free) = columns.split_at_mut(next);
    match spots(cell, view, setting, free) {
        Some(spots) => hole_of(view.elem, spots, next),
        None => None,
    }
}

/// The elements with these first bytes, where they are known to go up.
fn hole_of(elem: Elem, spots: Line, next: usize) -> Option<Hole>
    ensures elem { IfSome result (λ h. h.elem ≡ elem) }
    ensures read { IfSome result (λ h. IsRise h.read spots) }
    ensures free { IfSome result (λ h. h.free ≡ next) }
{
    match rise_of(spots) {
        Some(read) => Some(Hole {
            elem,
            read,
            free: next,
        }),
        None => None,
    }
}

/// One more operator behind a path, where there is room.
fn lengthened(
    hole: Hole,
    link: Link,
    free: usize,
    columns: &[i64],
    links: &mut ArrayVec<Link, LINKS>,
) -> Option<Hole>
    requires fits { LinkFits free link }
    requires before { hole.free ≤ free }
    requires within { free ≤ length columns.now }
    ensures { IfSome result (λ h. IsLonger (length columns.now) link hole links.old.items h links.new.items) }
{
    let _columns = columns;
    if links.is_full() {
        return None;
    }
    links.push(link);
    Some(Hole {
        elem: hole.elem,
        read: hole.read,
        free,
    })
}

/// An operator of one side behind a path.
fn changed(
    op: UnOp,
    hole: Hole,
    setting: &Setting<'_>,
    columns: &[i64],
    next: usize,
    links: &mut ArrayVec<Link, LINKS>,
) -> Option<Hole>
    requires path { IsPath setting.now next columns.now hole links.old.items }
    ensures leads { IfSome result (λ h. Leads setting.now value_alone (unary_of op) columns.now h links.new.items
        columns.now hole links.old.items) }
    ensures path { IfSome result (λ h. IsPath setting.now next columns.now h links.new.items) }
{
    let (_setting, _next) = (setting, next);
    lengthened(hole, Link::Unary(op), hole.free, columns, links)
}

/// The operators behind a line, one of whose right sides is carried.
#[cycle(carried)]
fn behind(
    x: Line,
    list: &[Step],
    setting: &Setting<'_>,
    columns: &mut [i64],
    next: usize,
    links: &mut ArrayVec<Link, LINKS>,
) -> Option<Hole>
    requires room { next + 256 ≤ length columns.old }
    ensures gives { IfSome result (λ h. Starts setting.now value_alone (running.run_each_step list.now) columns.new h
        links.new.items x (drop next columns.old)) }
    ensures path { IfSome result (λ h. IsPath setting.now next columns.new h links.new.items) }
    ensures kept { AreKept next columns.old columns.new }
{
    match front(x, list, setting, columns, next) {
        Some(prefix) => {
            let rest = &list[prefix.count..];
            behind_front(prefix.line, rest, setting, columns, next, links)
        }
        None => None,
    }
}

/// The line of the first operators, as far as their right sides are known. None: one may trap, or all are known.
fn front(
    first: Line,
    list: &[Step],
    setting: &Setting<'_>,
    columns: &mut [i64],
    next: usize,
) -> Option<Prefix>
    requires room { next + 256 ≤ length columns.old }
    ensures count { IfSome result (λ f. f.count ≤ length list.now) }
    ensures follows { IfSome result (λ f. Follows setting.now (running.run_each_step (drop f.count list.now))
        (running.run_each_step list.now) f.line (drop next columns.new) first (drop next columns.old)) }
    ensures kept { AreKept next columns.old columns.new }
{
    let mut x = first;
    let mut count = 0;
    for step in list {
        match line(&step.right, setting, columns, next + COLUMN) {
            Some(y) => match joined(step.op, x, y, columns, next, setting.block.turns) {
                Some(z) => {
                    x = z;
                    count += 1;
                }
                None => return None,
            },
            None => return Some(Prefix { line: x, count }),
        }
    }
    None
}

/// The operators behind a line; the right side of the first one is carried.
#[cycle(carried)]
fn behind_front(
    x: Line,
    list: &[Step],
    setting: &Setting<'_>,
    columns: &mut [i64],
    next: usize,
    links: &mut ArrayVec<Link, LINKS>,
) -> Option<Hole>
    requires room { next + 256 ≤ length columns.old }
    ensures gives { IfSome result (λ h. Starts setting.now value_alone (running.run_each_step list.now) columns.new h
        links.new.items x (drop next columns.old)) }
    ensures path { IfSome result (λ h. IsPath setting.now next columns.new h links.new.items) }
    ensures kept { AreKept next columns.old columns.new }
{
    match list {
        [] => None,
        [step, rest @ ..] => match under(step, x, setting, columns, next, links) {
            Some(hole) => steps(hole, rest, setting, columns, next, links),
            None => None,
        },
    }
}

/// The line of an operator on two lines, whose columns follow one another.
fn joined(
    op: BinOp,
    x: Line,
    y: Line,
    columns: &mut [i64],
    next: usize,
    turns: usize,
) -> Option<Line>
    requires few { turns ≤ 256 }
    requires room { next + 512 ≤ length columns.old }
    ensures gives { IfSome result (λ l. (j : ℕ) → j < turns → line_at l (drop next columns.new) j ≡ spec.binary op
        (line_at x (drop next columns.old) j) (line_at y (drop (next + 256) columns.old) j)) }
    ensures divides { IfSome result (λ l. divides op ≡ true → (j : ℕ) → j < turns → spec.is_zero (line_at y (drop (next
        + 256) columns.old) j) ≡ false) }
    ensures kept { AreKept next columns.old columns.new }
{
    let (_front, free) = columns.split_at_mut(next);
    joined_first(op, x, y, free, turns)
}

/// The same in the first two columns.
fn joined_first(op: BinOp, x: Line, y: Line, columns: &mut [i64], turns: usize) -> Option<Line>
    requires few { turns ≤ 256 }
    requires room { 512 ≤ length columns.old }
    ensures gives { IfSome result (λ l. (j : ℕ) → j < turns → line_at l columns.new j ≡ spec.binary op (line_at x
        columns.old j) (line_at y (drop 256 columns.old) j)) }
    ensures divides { IfSome result (λ l. divides op ≡ true → (j : ℕ) → j < turns → spec.is_zero (line_at y (drop 256
        columns.old) j) ≡ false) }
{
    let (xs, ys) = columns.split_at_mut(COLUMN);
    binary_line(op, x, xs, y, ys, turns)
}

/// An operator behind a line, whose right side is carried.
#[cycle(carried)]
fn under(
    step: &Step,
    x: Line,
    setting: &Setting<'_>,
    columns: &mut [i64],
    next: usize,
    links: &mut ArrayVec<Link, LINKS>,
) -> Option<Hole>
    requires room { next + 256 ≤ length columns.old }
    ensures gives { IfSome result (λ h. Starts setting.now value_alone (running.run_step step.now) columns.new h
        links.new.items x (drop next columns.old)) }
    ensures path { IfSome result (λ h. IsPath setting.now next columns.new h links.new.items) }
    ensures kept { AreKept next columns.old columns.new }
{
    if !may_stand_before(step.op) {
        return None;
    }
    let left = numbers_of(x, next);
    let free = free_behind(left, next, columns);
    match carried(&step.right, setting, columns, free, links) {
        Some(hole) => lengthened(hole, Link::Under(step.op, left), hole.free, columns, links),
        None => None,
    }
}

/// Whether a right side that isn't known is always computed, and can't be a divisor.
fn may_stand_before(op: BinOp) -> bool
    ensures { result ≡ true → divides op ≡ false }
{
    match op {
        BinOp::AndAlso | BinOp::OrElse | BinOp::Div | BinOp::Rem => false,
        _ => true,
    }
}

/// Operators behind a path.
fn steps(
    first: Hole,
    list: &[Step],
    setting: &Setting<'_>,
    columns: &mut [i64],
    next: usize,
    links: &mut ArrayVec<Link, LINKS>,
) -> Option<Hole>
    requires path { IsPath setting.now next columns.old first links.old.items }
    ensures leads { IfSome result (λ h. Leads setting.now value_alone (running.run_each_step list.now) columns.new h
        links.new.items columns.old first links.old.items) }
    ensures path { IfSome result (λ h. IsPath setting.now next columns.new h links.new.items) }
    ensures kept { AreKept next columns.old columns.new }
{
    let mut hole = first;
    for step in list {
        match onto(step, hole, setting, columns, next, links) {
            Some(longer) => hole = longer,
            None => return None,
        }
    }
    Some(hole)
}

/// An operator behind a path, whose right side is known, or is the element with which the path begins.
fn onto(
    step: &Step,
    hole: Hole,
    setting: &Setting<'_>,
    columns: &mut [i64],
    next: usize,
    links: &mut ArrayVec<Link, LINKS>,
) -> Option<Hole>
    requires path { IsPath setting.now next columns.old hole links.old.items }
    ensures leads { IfSome result (λ h. Leads setting.now value_alone (running.run_step step.now) columns.new h
        links.new.items columns.old hole links.old.items) }
    ensures path { IfSome result (λ h. IsPath setting.now next columns.new h links.new.items) }
    ensures kept { AreKept next columns.old columns.new }
{
    match numbers(&step.right, setting, columns, hole.free) {
        Some(y) => onto_numbers(step.op, y, hole, columns, setting.block.turns, links),
        None => {
            if may_stand_before(step.op) && is_start(&step.right, hole, setting, columns) {
                lengthened(hole, Link::Itself(step.op), hole.free, columns, links)
            } else {
                None
            }
        }
    }
}

/// Whether an expression is the element with which the path begins. The columns behind the path's are used up.
fn is_start(code: &Code, hole: Hole, setting: &Setting<'_>, columns: &mut [i64]) -> bool
    ensures is { result ≡ true → IsCarried setting.now (running.run_code code.now) columns.new hole [] }
    ensures kept { AreKept hole.free columns.old columns.new }
{
    match code {
        Code::Element(cell) => is_element(cell, hole, setting, columns),
        _ => false,
    }
}

fn is_element(cell: &Cell, hole: Hole, setting: &Setting<'_>, columns: &mut [i64]) -> bool
    ensures is { result ≡ true → IsCarried setting.now (load_of (running.run_cell cell.now)) columns.new hole [] }
    ensures kept { AreKept hole.free columns.old columns.new }
{
    let mut links = ArrayVec::new();
    match element(cell, setting, columns, hole.free, &mut links) {
        Some(other) => is_same(other, hole),
        None => false,
    }
}

fn is_same(other: Hole, hole: Hole) -> bool
    ensures elem { result ≡ true → other.elem ≡ hole.elem }
    ensures at { result ≡ true → other.read.at ≡ hole.read.at }
    ensures step { result ≡ true → other.read.step ≡ hole.read.step }
{
    other.elem == hole.elem && other.read.at == hole.read.at && other.read.step == hole.read.step
}

fn onto_numbers(
    op: BinOp,
    y: Numbers,
    hole: Hole,
    columns: &[i64],
    turns: usize,
    links: &mut ArrayVec<Link, LINKS>,
) -> Option<Hole>
    requires few { turns ≤ 256 }
    requires has { HasColumn (length columns.now) y }
    requires within { hole.free ≤ length columns.now }
    ensures longer { IfSome result (λ h. IsLonger (length columns.now) (Onto op y) hole links.old.items h
        links.new.items) }
    ensures divides { IfSome result (λ h. divides op ≡ true → (j : ℕ) → j < turns → spec.is_zero (number_at columns.now
        y j) ≡ false) }
{
    if may_stand_behind(op, y, columns, turns) {
        let free = free_behind(y, hole.free, columns);
        lengthened(hole, Link::Onto(op, y), free, columns, links)
    } else {
        None
    }
}

/// Whether the numbers on the right are always computed, and are no zero divisors.
fn may_stand_behind(op: BinOp, y: Numbers, columns: &[i64], turns: usize) -> bool
    requires few { turns ≤ 256 }
    requires has { HasColumn (length columns.now) y }
    ensures { result ≡ true → divides op ≡ true → (j : ℕ) → j < turns → spec.is_zero (number_at columns.now y j) ≡
        false }
{
    match op {
        BinOp::AndAlso | BinOp::OrElse => false,
        BinOp::Div | BinOp::Rem => has_no_zero(y.line, &columns[y.from..], turns),
        _ => true,
    }
}

fn has_no_zero(y: Line, ys: &[i64], turns: usize) -> bool
    requires few { turns ≤ 256 }
    requires room { turns ≤ length ys.now }
    ensures { result ≡ true → (j : ℕ) → j < turns → spec.is_zero (line_at y ys.now j) ≡ false }
{
    for j in 0..turns {
        if y.at(ys, j) == 0 {
            return false;
        }
    }
    true
}

/// The lesser or the greater of two sides, of which one is carried.
#[cycle(carried)]
fn extreme(
    most: bool,
    x: &Code,
    y: &Code,
    setting: &Setting<'_>,
    columns: &mut [i64],
    next: usize,
    links: &mut ArrayVec<Link, LINKS>,
) -> Option<Hole>
    ensures gives { IfSome result (λ h. IsCarried setting.now (extreme_read most (running.run_code x.now)
        (running.run_code y.now)) columns.new h links.new.items) }
    ensures path { IfSome result (λ h. IsPath setting.now next columns.new h links.new.items) }
    ensures kept { AreKept next columns.old columns.new }
{
    match numbers(x, setting, columns, next) {
        Some(x) => under_extreme(most, x, y, setting, columns, next, links),
        None => match carried(x, setting, columns, next, links) {
            Some(hole) => onto_extreme(most, hole, y, setting, columns, next, links),
            None => None,
        },
    }
}

/// The lesser or the greater of numbers and of what is carried.
#[cycle(carried)]
fn under_extreme(
    most: bool,
    x: Numbers,
    code: &Code,
    setting: &Setting<'_>,
    columns: &mut [i64],
    next: usize,
    links: &mut ArrayVec<Link, LINKS>,
) -> Option<Hole>
    requires has { HasColumn (length columns.old) x }
    requires within { next ≤ length columns.old }
    ensures gives { IfSome result (λ h. Starts setting.now value_alone (extreme_of most (running.run_code code.now))
        columns.new h links.new.items x.line (drop x.from columns.old)) }
    ensures path { IfSome result (λ h. IsPath setting.now next columns.new h links.new.items) }
    ensures kept { AreKept next columns.old columns.new }
{
    let free = free_behind(x, next, columns);
    match carried(code, setting, columns, free, links) {
        Some(hole) => lengthened(hole, extreme_link(most, x), hole.free, columns, links),
        None => None,
    }
}

/// The lesser or the greater of what is carried and of what is known.
fn onto_extreme(
    most: bool,
    hole: Hole,
    code: &Code,
    setting: &Setting<'_>,
    columns: &mut [i64],
    next: usize,
    links: &mut ArrayVec<Link, LINKS>,
) -> Option<Hole>
    requires path { IsPath setting.now next columns.old hole links.old.items }
    ensures leads { IfSome result (λ h. Leads setting.now value_alone (extreme_of most (running.run_code code.now))
        columns.new h links.new.items columns.old hole links.old.items) }
    ensures path { IfSome result (λ h. IsPath setting.now next columns.new h links.new.items) }
    ensures kept { AreKept next columns.old columns.new }
{
    match numbers(code, setting, columns, hole.free) {
        Some(y) => {
            let free = free_behind(y, hole.free, columns);
            lengthened(hole, extreme_link(most, y), free, columns, links)
        }
        None => None,
    }
}

fn extreme_link(most: bool, y: Numbers) -> Link
    ensures { result ≡ extreme_link most y }
{
    if most { Link::Most(y) } else { Link::Least(y) }
}
