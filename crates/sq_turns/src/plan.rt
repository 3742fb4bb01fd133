//! What the statements of a loop's body do at the turns of a block, as far as it is known before the block.
//!
//! Each statement is looked at by what it may meet: the bytes before the block, but for those that the turns before it
//! and the statements before it in its own turn may have written. Where nothing is known of a statement so, no byte is
//! changed, as nothing is put here.

ghost use Rattle.std.specs.Prelude.{◌≡◌, ◌+◌, ◌*◌, ◌^◌, ◌<◌, ◌≤◌, ◌+ℤ◌, ◌≤ℤ◌, [], ◌∷◌, ◌++◌, true, pos, length, map};
ghost use Rattle.std.specs.Prelude.{slice_get, IfSome};
ghost use Rattle.std.specs.List.{All};
ghost use Rattle.sq_num.specs.Elements.{width};
ghost use Rattle.sq_leaf.specs.Spots.{IsInside};
ghost use Rattle.sq_leaf.specs.Running as running;
ghost use Rattle.sq_deeds.specs.Deeds.{IsRoomy, DeedFits, AreKept, turns_done};
ghost use Rattle.sq_turns.specs.Settings.{all_turns};
ghost use Rattle.sq_turns.specs.Plans as spec;
ghost use Rattle.sq_turns.specs.Plans.{AimsAt, StaysIn, IsPut, IsBranch, IsDeed, IsNext, block_past};

use crate::block::{Block, MOST, WRITES, Write, rising};
use crate::frame::Frame;
use crate::lines::{COLUMN, spots};
use crate::setting::Setting;
use crate::values::{numbers, value};
use arrayvec::ArrayVec;
use sq_ast::AssignOp;
use sq_deeds::{Deed, Put, Rise, rise_of};
use sq_leaf::{Action, Cell, Code};
use sq_num::{Elem, width};
use sq_rect::View;
use sqlite_items::at;

/// How many statements a body may have.
pub(crate) const DEEDS: usize = 4;

/// An assignment, and the first of the columns' numbers that is free behind its own.
#[derive(Drop)]
struct PlannedPut {
    put: Put,
    free: usize,
}

/// The same of at most one assignment.
#[derive(Drop)]
struct PlannedBranch {
    put: Option<Put>,
    free: usize,
}

/// The same of a statement.
#[derive(Drop)]
struct Planned {
    deed: Deed,
    free: usize,
}

/// What the statements do at the turns, in order. False: one may trap, or it isn't known what it does.
pub(crate) fn plan(
    body: &[Action],
    frame: &Frame<'_>,
    bytes: &[u8],
    from: i64,
    turns: usize,
    columns: &mut [i64],
    deeds: &mut ArrayVec<Deed, DEEDS>,
) -> bool
    requires few { turns ≤ 256 }
    requires some { 0 < turns }
    requires last { (from +ℤ pos turns) ≤ℤ pos 9223372036854775807 }
    requires inside { All (IsInside (length bytes.now)) frame.now.views }
    requires none { deeds.old.items ≡ [] }
    ensures fits { result ≡ true → All (DeedFits turns (length columns.new) (length bytes.now)) deeds.new.items }
    ensures runs { result ≡ true → running.repeats turns from (λ k. running.run_actions body.now frame.now.views
        (frame.now.counters ++ k ∷ [])) bytes.now ≡ running.Goes (turns_done columns.new deeds.new.items turns 0
        bytes.now) }
{
    if MOST <= bytes.len() {
        return false;
    }
    let mut writes = ArrayVec::new();
    let block = Block {
        from,
        turns,
        writes: ArrayVec::new(),
    };
    let setting = Setting {
        block: &block,
        frame: &*frame,
        bytes: &*bytes,
    };
    if !guess(body, &setting, columns, &mut writes) {
        return false;
    }
    let block = Block {
        from,
        turns,
        writes,
    };
    let setting = Setting {
        block: &block,
        frame: &*frame,
        bytes: &*bytes,
    };
    plan_each(body, &setting, columns, deeds)
}

fn plan_each(
    body: &[Action],
    setting: &Setting<'_>,
    columns: &mut [i64],
    deeds: &mut ArrayVec<Deed, DEEDS>,
) -> bool
    requires none { deeds.old.items ≡ [] }
    ensures fits { result ≡ true → All (DeedFits setting.now.block.now.turns (length columns.new) (length
        setting.now.bytes.now)) deeds.new.items }
    ensures runs { result ≡ true → all_turns setting.now (running.run_actions body.now) ≡ running.Goes (turns_done
        columns.new deeds.new.items setting.now.block.now.turns 0 setting.now.bytes.now) }
{
    let mut next = 0;
    for action in body {
        let k = 2 * deeds.len();
        if 2 * DEEDS <= k {
            return false;
        }
        match next_deed(action, k, setting, columns, next) {
            Some(Planned { deed, free }) => {
                deeds.push(deed);
                next = free;
            }
            None => return false,
        }
    }
    true
}

/// The statement that has the writes k and k + 1, where those before it are done.
fn next_deed(
    action: &Action,
    k: usize,
    setting: &Setting<'_>,
    columns: &mut [i64],
    next: usize,
) -> Option<Planned>
    requires low { k < 8 }
    ensures is { IfSome result (λ m. IsNext setting.now k (running.run_action action.now) columns.new next m.free
        m.deed) }
    ensures kept { AreKept next columns.old columns.new }
{
    let writes = setting.block.writes.as_slice();
    match at(writes, k) {
        Some(v) => match at(writes, k + 1) {
            Some(w) => match past(setting.block, k) {
                Some(block) => {
                    let setting = Setting {
                        block: &block,
                        frame: setting.frame,
                        bytes: setting.bytes,
                    };
                    deed(action, &setting, v, w, columns, next)
                }
                None => None,
            },
            None => None,
        },
        None => None,
    }
}

/// The block whose first k writes are done.
fn past(block: &Block, k: usize) -> Option<Block>
    ensures { IfSome result (λ t. t ≡ block_past block.now k) }
{
    let mut list = ArrayVec::new();
    if push_past(block.writes.as_slice(), k, &mut list) {
        Some(Block {
            from: block.from,
            turns: block.turns,
            writes: list,
        })
    } else {
        None
    }
}

fn push_past(writes: &[Write], k: usize, list: &mut ArrayVec<Write, WRITES>) -> bool
    requires { length list.old.items + length writes.now ≤ 8 }
    ensures { result ≡ true → list.new.items ≡ list.old.items ++ spec.past k writes.now }
{
    match writes {
        [] => true,
        [write, rest @ ..] => {
            if k == 0 {
                list.push(*write);
                push_past(rest, 0, list)
            } else if write.front < MOST && write.step < MOST {
                list.push(passed(write));
                push_past(rest, k - 1, list)
            } else {
                false
            }
        }
    }
}

fn passed(write: &Write) -> Write
    requires front { write.now.front < 2 ^ 62 }
    requires step { write.now.step < 2 ^ 62 }
    ensures { result ≡ spec.passed write.now }
{
    Write {
        low: write.low,
        high: write.high,
        front: write.front + write.step,
        step: write.step,
    }
}

/// What a statement does.
fn deed(
    action: &Action,
    setting: &Setting<'_>,
    v: &Write,
    w: &Write,
    columns: &mut [i64],
    next: usize,
) -> Option<Planned>
    ensures is { IfSome result (λ m. IsDeed setting.now v.now w.now (running.run_action action.now) columns.new next
        m.free m.deed) }
    ensures kept { AreKept next columns.old columns.new }
{
    match action {
        Action::Assign(cell, op, code) => always(cell, *op, code, setting, v, w, columns, next),
        Action::If(test, taken, other) => {
            choice(
                test,
                taken.as_slice(),
                other.as_slice(),
                setting,
                v,
                w,
                columns,
                next,
            )
        }
        Action::For(_, _, _) => None,
    }
}

fn always(
    cell: &Cell,
    op: AssignOp,
    code: &Code,
    setting: &Setting<'_>,
    v: &Write,
    w: &Write,
    columns: &mut [i64],
    next: usize,
) -> Option<Planned>
    ensures is { IfSome result (λ m. IsDeed setting.now v.now w.now (running.assigns cell.now op code.now) columns.new
        next m.free m.deed) }
    ensures kept { AreKept next columns.old columns.new }
{
    let _w = w;
    match assignment(cell, op, code, setting, v, columns, next) {
        Some(PlannedPut { put, free }) => Some(Planned {
            deed: Deed::Always(put),
            free,
        }),
        None => None,
    }
}

/// One or the other, by the test.
fn choice(
    test: &Code,
    taken: &[Action],
    other: &[Action],
    setting: &Setting<'_>,
    v: &Write,
    w: &Write,
    columns: &mut [i64],
    next: usize,
) -> Option<Planned>
    ensures is { IfSome result (λ m. IsDeed setting.now v.now w.now (spec.chooses test.now (map running.run_action
        taken.now) (map running.run_action other.now)) columns.new next m.free m.deed) }
    ensures kept { AreKept next columns.old columns.new }
{
    match numbers(test, setting, columns, next) {
        Some(x) => {
            let free = behind(x.from, next);
            if columns.len() < free {
                return None;
            }
            match branch(taken, setting, v, columns, free) {
                Some(PlannedBranch { put: first, free }) => {
                    match branch(other, setting, w, columns, free) {
                        Some(PlannedBranch { put: second, free }) => Some(Planned {
                            deed: Deed::Choice(x, first, second),
                            free,
                        }),
                        None => None,
                    }
                }
                None => None,
            }
        }
        None => None,
    }
}

/// The first number that is free behind a column and this one.
fn behind(from: usize, next: usize) -> usize
    requires { from < 2 ^ 63 }
    ensures column { from + 256 ≤ result }
    ensures after { next ≤ result }
{
    next.max(from + COLUMN)
}

/// At most one assignment.
fn branch(
    list: &[Action],
    setting: &Setting<'_>,
    write: &Write,
    columns: &mut [i64],
    next: usize,
) -> Option<PlannedBranch>
    requires next { next ≤ length columns.old }
    ensures is { IfSome result (λ m. IsBranch setting.now write.now (map running.run_action list.now) columns.new next
        m.free m.put) }
    ensures kept { AreKept next columns.old columns.new }
{
    match list {
        [] => Some(PlannedBranch {
            put: None,
            free: next,
        }),
        [Action::Assign(cell, op, code)] => {
            match assignment(cell, *op, code, setting, write, columns, next) {
                Some(PlannedPut { put, free }) => Some(PlannedBranch {
                    put: Some(put),
                    free,
                }),
                None => None,
            }
        }
        _ => None,
    }
}

/// An assignment.
fn assignment(
    cell: &Cell,
    op: AssignOp,
    code: &Code,
    setting: &Setting<'_>,
    write: &Write,
    columns: &mut [i64],
    next: usize,
) -> Option<PlannedPut>
    ensures is { IfSome result (λ m. IsPut setting.now write.now (running.assigns cell.now op code.now) columns.new next
        m.free m.put) }
    ensures kept { AreKept next columns.old columns.new }
{
    match at(setting.frame.views(), cell.array) {
        Some(view) => match target(cell, view, setting, columns, next) {
            Some(to) => put_to(view.elem, to, cell, op, code, setting, write, columns, next),
            None => None,
        },
        None => None,
    }
}

/// The same where it is known where it puts.
fn put_to(
    elem: Elem,
    to: Rise,
    cell: &Cell,
    op: AssignOp,
    code: &Code,
    setting: &Setting<'_>,
    write: &Write,
    columns: &mut [i64],
    next: usize,
) -> Option<PlannedPut>
    requires aims { AimsAt setting.now (running.run_cell cell.now) elem to }
    requires room { IsRoomy setting.now.block.now.turns (length setting.now.bytes.now) elem to }
    ensures is { IfSome result (λ m. IsPut setting.now write.now (running.assigns cell.now op code.now) columns.new next
        m.free m.put) }
    ensures kept { AreKept next columns.old columns.new }
{
    let _cell = cell;
    if !stays_in(elem, to, setting.block.turns, write) {
        return None;
    }
    match value(code, setting, columns, next) {
        Some(made) => Some(PlannedPut {
            put: Put {
                elem,
                op,
                to,
                value: made.value,
            },
            free: made.free,
        }),
        None => None,
    }
}

/// Whether so many turns put their elements where this write has them.
fn stays_in(elem: Elem, rise: Rise, turns: usize, write: &Write) -> bool
    requires few { turns ≤ 256 }
    requires some { 0 < turns }
    requires near { rise.at < 2 ^ 62 }
    requires slow { rise.step ≤ 2 ^ 32 }
    ensures { result ≡ true → StaysIn write.now turns elem rise }
{
    let end = rise.at + rise.step * (turns - 1) + width(elem);
    write.low <= rise.at
        && end <= write.high
        && (end <= write.front
            || (rise.step == write.step
                && (rise.at + width(elem)).saturating_sub(write.step) <= write.front))
}

/// Where the cell's elements go up from, by the numbers behind the first ones.
fn target(
    cell: &Cell,
    view: &View,
    setting: &Setting<'_>,
    columns: &mut [i64],
    next: usize,
) -> Option<Rise>
    requires one { IsInside (length setting.now.bytes.now) view.now }
    requires there { Some view.now ≡ slice_get setting.now.frame.now.views cell.now.array }
    ensures aims { IfSome result (AimsAt setting.now (running.run_cell cell.now) view.now.elem) }
    ensures room { IfSome result (IsRoomy setting.now.block.now.turns (length setting.now.bytes.now) view.now.elem) }
    ensures kept { AreKept next columns.old columns.new }
{
    if columns.len() < next {
        return None;
    }
    let (_front, rest) = columns.split_at_mut(next);
    rising_spots(cell, view, setting, rest)
}

fn rising_spots(
    cell: &Cell,
    view: &View,
    setting: &Setting<'_>,
    columns: &mut [i64],
) -> Option<Rise>
    requires one { IsInside (length setting.now.bytes.now) view.now }
    requires there { Some view.now ≡ slice_get setting.now.frame.now.views cell.now.array }
    ensures aims { IfSome result (AimsAt setting.now (running.run_cell cell.now) view.now.elem) }
    ensures room { IfSome result (IsRoomy setting.now.block.now.turns (length setting.now.bytes.now) view.now.elem) }
{
    match spots(cell, view, setting, columns) {
        Some(spots) => rise_of(spots),
        None => None,
    }
}

/// Where the assignments of the statements may write, two for each statement. What is told here is tested later.
fn guess(
    body: &[Action],
    setting: &Setting<'_>,
    columns: &mut [i64],
    writes: &mut ArrayVec<Write, WRITES>,
) -> bool {
    for action in body {
        if !guess_statement(action, setting, columns, writes) {
            return false;
        }
    }
    true
}

fn guess_statement(
    action: &Action,
    setting: &Setting<'_>,
    columns: &mut [i64],
    writes: &mut ArrayVec<Write, WRITES>,
) -> bool {
    match action {
        Action::Assign(cell, _, _) => {
            guess_cell(cell, setting, columns, writes) && add(Write::default(), writes)
        }
        Action::If(_, taken, other) => {
            guess_branch(taken.as_slice(), setting, columns, writes)
                && guess_branch(other.as_slice(), setting, columns, writes)
        }
        Action::For(_, _, _) => false,
    }
}

fn guess_branch(
    list: &[Action],
    setting: &Setting<'_>,
    columns: &mut [i64],
    writes: &mut ArrayVec<Write, WRITES>,
) -> bool {
    match list {
        [] => add(Write::default(), writes),
        [Action::Assign(cell, _, _)] => guess_cell(cell, setting, columns, writes),
        _ => false,
    }
}

fn guess_cell(
    cell: &Cell,
    setting: &Setting<'_>,
    columns: &mut [i64],
    writes: &mut ArrayVec<Write, WRITES>,
) -> bool {
    match at(setting.frame.views(), cell.array) {
        Some(view) => match rising_spots(cell, view, setting, columns) {
            Some(rise) => add(rising(view.elem, rise, setting.block.turns), writes),
            None => false,
        },
        None => false,
    }
}

fn add(write: Write, writes: &mut ArrayVec<Write, WRITES>) -> bool {
    if writes.len() < WRITES {
        writes.push(write);
        true
    } else {
        false
    }
}
