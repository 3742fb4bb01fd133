//! The numbers that expressions have at the turns of a block.

ghost use Rattle.std.specs.Prelude.{◌≡◌, ◌+◌, ◌-◌, ◌*◌, ◌^◌, ◌<◌, ◌≤◌, ℕ, ℤ, List, [], length, slice_get};
ghost use Rattle.std.specs.Prelude.{IfSome};
ghost use Rattle.sq_num.specs.Elements.{width};
ghost use Rattle.sq_leaf.specs.Places as spec;
ghost use Rattle.sq_leaf.specs.Spots.{IsInside};
ghost use Rattle.sq_leaf.specs.Numbers as numbers;
ghost use Rattle.sq_leaf.specs.Running as running;
ghost use Rattle.sq_columns.specs.Lines.{line_at};
ghost use Rattle.sq_turns.specs.declared.setting.Setting.{Setting};
ghost use Rattle.sq_turns.specs.Settings.{counters_at, value_alone, extreme, extreme_of, load_of, Gives, Follows};
ghost use Rattle.sq_turns.specs.Settings.{times_of, Places, LieIn, Offset, AreSpots, offset_of, offset_along};
ghost use Rattle.sq_turns.specs.Blocks.{end_of};

use crate::block::{end_of, is_clear};
use crate::setting::Setting;
use sq_ast::{BinOp, UnOp};
use sq_columns::{
    Line, along_line, binary_line, least_line, load_line, most_line, times_elements, unary_line,
};
use sq_leaf::{Cell, Code, Step};
use sq_num::Elem;
use sq_rect::View;
use sqlite_items::at;

/// How many numbers a column has.
pub const COLUMN: usize = 256;

/// The line of an expression's values, in the first of the columns. None: it may trap, or may read what an earlier turn
/// of the block writes.
#[cycle(column)]
pub(crate) fn column(code: &Code, setting: &Setting<'_>, columns: &mut [i64]) -> Option<Line>
    ensures { IfSome result (λ l. Gives setting.now (running.run_code code.now) l columns.new) }
{
    match code {
        Code::Constant(n) => Some(Line::Same(*n)),
        Code::Counter(k) => Some(counter(*k, setting)),
        Code::Element(cell) => element(cell, setting, columns),
        Code::Chain(first, rest) => {
            match column(first.get(), setting, columns) {
                Some(x) => steps(x, rest.as_slice(), setting, columns),
                None => None,
            }
        }
        Code::Unary(op, inner) => {
            match column(inner.get(), setting, columns) {
                Some(x) => changed(*op, x, setting, columns),
                None => None,
            }
        }
        Code::Least(x, y) => {
            match column(x.get(), setting, columns) {
                Some(first) => extreme(false, first, y.get(), setting, columns),
                None => None,
            }
        }
        Code::Most(x, y) => {
            match column(x.get(), setting, columns) {
                Some(first) => extreme(true, first, y.get(), setting, columns),
                None => None,
            }
        }
    }
}

/// An operator of one side.
fn changed(op: UnOp, x: Line, setting: &Setting<'_>, columns: &mut [i64]) -> Option<Line>
    ensures { IfSome result (λ l. (j : ℕ) → j < setting.now.block.now.turns → line_at l columns.new j ≡ numbers.unary op
        (line_at x columns.old j)) }
{
    if columns.len() < COLUMN {
        return None;
    }
    Some(unary_line(op, x, columns, setting.block.turns))
}

/// The lesser or the greater of two sides.
#[cycle(column)]
fn extreme(
    most: bool,
    x: Line,
    code: &Code,
    setting: &Setting<'_>,
    columns: &mut [i64],
) -> Option<Line>
    ensures { IfSome result (λ l. Follows setting.now value_alone (extreme_of most (running.run_code code.now)) l
        columns.new x columns.old) }
{
    if columns.len() < 2 * COLUMN {
        return None;
    }
    let (front, rest) = columns.split_at_mut(COLUMN);
    extreme_in(most, x, code, setting, front, rest)
}

#[cycle(column)]
fn extreme_in(
    most: bool,
    x: Line,
    code: &Code,
    setting: &Setting<'_>,
    front: &mut [i64],
    rest: &mut [i64],
) -> Option<Line>
    requires front { setting.now.block.now.turns ≤ length front.old }
    requires rest { setting.now.block.now.turns ≤ length rest.old }
    ensures { IfSome result (λ l. Follows setting.now value_alone (extreme_of most (running.run_code code.now)) l
        front.new x front.old) }
{
    match column(code, setting, rest) {
        Some(y) => Some(extreme_line(most, x, front, y, rest, setting.block.turns)),
        None => None,
    }
}

fn extreme_line(most: bool, x: Line, xs: &mut [i64], y: Line, ys: &mut [i64], n: usize) -> Line
    requires few { n ≤ 256 }
    requires left { n ≤ length xs.old }
    requires right { n ≤ length ys.old }
    ensures { (j : ℕ) → j < n → line_at result xs.new j ≡ extreme most (line_at x xs.old j) (line_at y ys.old j) }
{
    if most {
        most_line(x, xs, y, ys, n)
    } else {
        least_line(x, xs, y, ys, n)
    }
}

/// Operators and their right sides, from the left.
#[cycle(column)]
fn steps(first: Line, list: &[Step], setting: &Setting<'_>, columns: &mut [i64]) -> Option<Line>
    ensures { IfSome result (λ l. Follows setting.now value_alone (running.run_each_step list.now) l columns.new first
        columns.old) }
{
    let mut x = first;
    for step in list {
        match next(x, step, setting, columns) {
            Some(y) => x = y,
            None => return None,
        }
    }
    Some(x)
}

/// An operator and its right side. `&&` and `||` compute the right side at each turn, and nothing where it may trap.
#[cycle(column)]
fn next(x: Line, step: &Step, setting: &Setting<'_>, columns: &mut [i64]) -> Option<Line>
    ensures { IfSome result (λ l. Follows setting.now value_alone (running.run_step step.now) l columns.new x
        columns.old) }
{
    if columns.len() < 2 * COLUMN {
        return None;
    }
    let (front, rest) = columns.split_at_mut(COLUMN);
    next_in(x, step, setting, front, rest)
}

#[cycle(column)]
#[inline(always)]
fn next_in(
    x: Line,
    step: &Step,
    setting: &Setting<'_>,
    front: &mut [i64],
    rest: &mut [i64],
) -> Option<Line>
    requires front { setting.now.block.now.turns ≤ length front.old }
    requires rest { setting.now.block.now.turns ≤ length rest.old }
    ensures { IfSome result (λ l. Follows setting.now value_alone (running.run_step step.now) l front.new x front.old) }
{
    match step.op {
        BinOp::Mul => match &step.right {
            Code::Element(cell) => times_element(x, cell, setting, front, rest),
            _ => next_line(x, step, setting, front, rest),
        },
        _ => next_line(x, step, setting, front, rest),
    }
}

#[cycle(column)]
fn next_line(
    x: Line,
    step: &Step,
    setting: &Setting<'_>,
    front: &mut [i64],
    rest: &mut [i64],
) -> Option<Line>
    requires front { setting.now.block.now.turns ≤ length front.old }
    requires rest { setting.now.block.now.turns ≤ length rest.old }
    ensures { IfSome result (λ l. Follows setting.now value_alone (running.run_step step.now) l front.new x front.old) }
{
    match column(&step.right, setting, rest) {
        Some(y) => binary_line(step.op, x, front, y, rest, setting.block.turns),
        None => None,
    }
}

/// The products with an element.
#[cycle(column)]
fn times_element(
    x: Line,
    cell: &Cell,
    setting: &Setting<'_>,
    front: &mut [i64],
    rest: &mut [i64],
) -> Option<Line>
    requires front { setting.now.block.now.turns ≤ length front.old }
    requires rest { setting.now.block.now.turns ≤ length rest.old }
    ensures { IfSome result (λ l. Follows setting.now value_alone (times_of (running.run_cell cell.now)) l front.new x
        front.old) }
{
    match at(setting.frame.views(), cell.array) {
        Some(view) => match spots(cell, view, setting, rest) {
            Some(spots) => times_loaded(x, spots, view, setting, front, rest),
            None => None,
        },
        None => None,
    }
}

/// The products with these elements of a view. None: one may be written by an earlier turn of the block.
fn times_loaded(
    x: Line,
    spots: Line,
    view: &View,
    setting: &Setting<'_>,
    front: &mut [i64],
    rest: &mut [i64],
) -> Option<Line>
    requires front { setting.now.block.now.turns ≤ length front.old }
    requires rest { setting.now.block.now.turns ≤ length rest.old }
    requires one { IsInside (length setting.now.bytes.now) view.now }
    requires lies { LieIn setting.now view.now.at (end_of view.now) view.now.elem spots rest.old }
    ensures { (f : running.CellRun) → Places setting.now f view.now.elem spots rest.old → IfSome result (λ l. Follows
        setting.now value_alone (times_of f) l front.new x front.old) }
{
    let turns = setting.block.turns;
    let high = end_of(view, setting.bytes.len());
    if is_clear(
        view.elem,
        spots,
        rest,
        view.at as usize,
        high,
        setting.block,
    ) {
        match spots {
            Line::Same(_) => {
                let y = load_line(view.elem, spots, rest, setting.bytes, turns);
                binary_line(BinOp::Mul, x, front, y, rest, turns)
            }
            _ => {
                times_elements(x, front, view.elem, spots, rest, setting.bytes, turns);
                Some(Line::Column)
            }
        }
    } else {
        None
    }
}

/// The line of an element's numbers.
#[cycle(column)]
fn element(cell: &Cell, setting: &Setting<'_>, columns: &mut [i64]) -> Option<Line>
    ensures { IfSome result (λ l. Gives setting.now (load_of (running.run_cell cell.now)) l columns.new) }
{
    match at(setting.frame.views(), cell.array) {
        Some(view) => match spots(cell, view, setting, columns) {
            Some(spots) => loaded(spots, view, setting, columns),
            None => None,
        },
        None => None,
    }
}

/// The line of the numbers at these elements of a view. None: one may be written by an earlier turn of the block.
fn loaded(spots: Line, view: &View, setting: &Setting<'_>, columns: &mut [i64]) -> Option<Line>
    requires one { IsInside (length setting.now.bytes.now) view.now }
    requires lies { LieIn setting.now view.now.at (end_of view.now) view.now.elem spots columns.old }
    ensures { (f : running.CellRun) → Places setting.now f view.now.elem spots columns.old → IfSome result (λ l. Gives
        setting.now (load_of f) l columns.new) }
{
    let high = end_of(view, setting.bytes.len());
    if columns.len() < COLUMN {
        return None;
    }
    if is_clear(
        view.elem,
        spots,
        columns,
        view.at as usize,
        high,
        setting.block,
    ) {
        Some(load_line(
            view.elem,
            spots,
            columns,
            setting.bytes,
            setting.block.turns,
        ))
    } else {
        None
    }
}

/// The line of a counter.
fn counter(k: usize, setting: &Setting<'_>) -> Line
    ensures { (column : List ℤ) (j : ℕ) → j < setting.now.block.now.turns → running.counter (counters_at setting.now j)
        k ≡ line_at result column j }
{
    if k == setting.frame.depth() {
        Line::Ramp(setting.block.from, 1)
    } else {
        Line::Same(setting.frame.counter(k))
    }
}

/// The first bytes of a cell's elements in its view. None: an index may trap, or lie outside.
#[cycle(column)]
pub(crate) fn spots(
    cell: &Cell,
    view: &View,
    setting: &Setting<'_>,
    columns: &mut [i64],
) -> Option<Line>
    requires one { IsInside (length setting.now.bytes.now) view.now }
    requires there { Some view.now ≡ slice_get setting.now.frame.now.views cell.now.array }
    ensures places { IfSome result (λ l. Places setting.now (running.run_cell cell.now) view.now.elem l columns.new) }
    ensures lies { IfSome result (λ l. LieIn setting.now view.now.at (end_of view.now) view.now.elem l columns.new) }
{
    let extents = view.extents.as_slice();
    let strides = view.strides.as_slice();
    let (at, elem) = (view.at, view.elem);
    let index = cell.index.as_slice();
    match index.len() {
        1 => places_one(extents, strides, index, at, elem, setting, columns),
        2 => places_two(extents, strides, index, at, elem, setting, columns),
        3 => places_three(extents, strides, index, at, elem, setting, columns),
        _ => None,
    }
}

/// The first bytes of elements by one index.
#[cycle(column)]
fn places_one(
    extents: &[u32],
    strides: &[u32],
    index: &[Code],
    at: u32,
    elem: Elem,
    setting: &Setting<'_>,
    columns: &mut [i64],
) -> Option<Line>
    ensures { at + width elem * spec.reach extents.now strides.now < 2 ^ 62 → IfSome result (λ l. AreSpots setting.now
        (offset_of extents.now strides.now index.now) at (width elem) (spec.reach extents.now strides.now) l
        columns.new) }
{
    let ([x], [n], [s]) = (index, extents, strides) else {
        return None;
    };
    along(first(at), x, *n, *s, elem, setting, columns)
}

/// The same by two indices.
#[cycle(column)]
fn places_two(
    extents: &[u32],
    strides: &[u32],
    index: &[Code],
    at: u32,
    elem: Elem,
    setting: &Setting<'_>,
    columns: &mut [i64],
) -> Option<Line>
    ensures { at + width elem * spec.reach extents.now strides.now < 2 ^ 62 → IfSome result (λ l. AreSpots setting.now
        (offset_of extents.now strides.now index.now) at (width elem) (spec.reach extents.now strides.now) l
        columns.new) }
{
    let ([x, y], [n, m], [s, t]) = (index, extents, strides) else {
        return None;
    };
    let spots = along(first(at), y, *m, *t, elem, setting, columns)?;
    along(spots, x, *n, *s, elem, setting, columns)
}

/// The same by three indices.
#[cycle(column)]
fn places_three(
    extents: &[u32],
    strides: &[u32],
    index: &[Code],
    at: u32,
    elem: Elem,
    setting: &Setting<'_>,
    columns: &mut [i64],
) -> Option<Line>
    ensures { at + width elem * spec.reach extents.now strides.now < 2 ^ 62 → IfSome result (λ l. AreSpots setting.now
        (offset_of extents.now strides.now index.now) at (width elem) (spec.reach extents.now strides.now) l
        columns.new) }
{
    let ([x, y, z], [n, m, k], [s, t, u]) = (index, extents, strides) else {
        return None;
    };
    let spots = along(first(at), z, *k, *u, elem, setting, columns)?;
    let spots = along(spots, y, *m, *t, elem, setting, columns)?;
    along(spots, x, *n, *s, elem, setting, columns)
}

/// The line of an index, without a call where it is a counter or a number.
#[cycle(column)]
#[inline(always)]
fn index(code: &Code, setting: &Setting<'_>, columns: &mut [i64]) -> Option<Line>
    ensures { IfSome result (λ l. Gives setting.now (running.run_code code.now) l columns.new) }
{
    match code {
        Code::Constant(n) => Some(Line::Same(*n)),
        Code::Counter(k) => Some(counter(*k, setting)),
        code => column(code, setting, columns),
    }
}

/// The first byte where no dimension is left.
fn first(at: u32) -> Line
    ensures { (t : Setting) (w : ℕ) (column : List ℤ) → AreSpots t (offset_of [] [] []) at w 0 result column }
{
    Line::Same(i64::from(at))
}

/// One more dimension in front.
#[cycle(column)]
fn along(
    spots: Line,
    code: &Code,
    extent: u32,
    stride: u32,
    elem: Elem,
    setting: &Setting<'_>,
    columns: &mut [i64],
) -> Option<Line>
    ensures { (at most : ℕ) (off : Offset) → at + width elem * ((extent - 1) * stride + most) < 2 ^ 62 → AreSpots
        setting.now off at (width elem) most spots columns.old → IfSome result (λ l. AreSpots setting.now (offset_along
        (running.run_code code.now) extent stride off) at (width elem) ((extent - 1) * stride + most) l columns.new) }
{
    if columns.len() < 2 * COLUMN {
        return None;
    }
    let (front, rest) = columns.split_at_mut(COLUMN);
    along_in(spots, code, extent, stride, elem, setting, front, rest)
}

#[cycle(column)]
#[inline(always)]
fn along_in(
    spots: Line,
    code: &Code,
    extent: u32,
    stride: u32,
    elem: Elem,
    setting: &Setting<'_>,
    front: &mut [i64],
    rest: &mut [i64],
) -> Option<Line>
    requires front { setting.now.block.now.turns ≤ length front.old }
    requires rest { setting.now.block.now.turns ≤ length rest.old }
    ensures { (at most : ℕ) (off : Offset) → at + width elem * ((extent - 1) * stride + most) < 2 ^ 62 → AreSpots
        setting.now off at (width elem) most spots front.old → IfSome result (λ l. AreSpots setting.now (offset_along
        (running.run_code code.now) extent stride off) at (width elem) ((extent - 1) * stride + most) l front.new) }
{
    match index(code, setting, rest) {
        Some(index) => along_line(
            spots,
            front,
            index,
            rest,
            extent,
            stride,
            elem,
            setting.block.turns,
        ),
        None => None,
    }
}
