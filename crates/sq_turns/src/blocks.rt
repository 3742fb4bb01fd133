//! Turns of a loop, run together.
//!
//! Where its body is one assignment, all elements and all numbers of the turns are computed before any is put, from the
//! bytes before the block. A turn reads no byte that an earlier one of the block writes, so that each computes what it
//! would compute in its turn, and as nothing traps each turn comes to its put. Where it isn't known that a turn doesn't
//! trap, or that it doesn't read what an earlier one writes, no byte is changed, and the turns may still be known as
//! deeds, as those of other bodies may.

ghost use Rattle.std.specs.Prelude.{◌≡◌, ◌<◌, ◌≤◌, ◌+ℤ◌, ◌≤ℤ◌, [], ◌∷◌, pos, length};
ghost use Rattle.std.specs.Prelude.{IfSome};
ghost use Rattle.std.specs.List.{All};
ghost use Rattle.sq_leaf.specs.Spots.{IsInside};
ghost use Rattle.sq_leaf.specs.Running as running;
ghost use Rattle.sq_leaf.specs.declared.code.Cell.{Cell};
ghost use Rattle.sq_leaf.specs.Source as source;
ghost use Rattle.sq_columns.specs.Lines.{line_at, first_byte};
ghost use Rattle.sq_ast.specs.declared.leaf.AssignOp.{AssignOp};
ghost use Rattle.sq_deeds.specs.Puts.{puts};
ghost use Rattle.sq_turns.specs.Blocks.{block_or_nothing};
ghost use Rattle.sq_turns.specs.Settings.{all_turns, Places, LieIn};

use crate::block::{Block, MOST, Write, narrowed};
use crate::frame::Frame;
use crate::history::Memo;
use crate::lines::{COLUMN, column, spots};
use crate::setting::Setting;
use crate::works::try_deeds;
use sq_ast::AssignOp;
use sq_columns::Line;
use sq_deeds::put_all;
use sq_leaf::{Action, Cell, Code};
use sq_num::Elem;
use sqlite_items::at;

/// Runs so many turns of a loop together, from this value of its counter on, or changes nothing. The memo is of this
/// loop: it tells whether they are to be tried, and notes what they came to.
pub fn try_turns(
    body: &[Action],
    from: i64,
    turns: usize,
    memo: &mut Memo,
    frame: &Frame<'_>,
    bytes: &mut [u8],
    columns: &mut [i64],
) -> bool
    requires few { turns ≤ 256 }
    requires some { 0 < turns }
    requires last { (from +ℤ pos turns) ≤ℤ pos 9223372036854775807 }
    requires inside { All (IsInside (length bytes.old)) frame.now.views }
    ensures { running.Goes bytes.new ≡ block_or_nothing result turns from (running.run_actions body.now)
        frame.now.views frame.now.counters bytes.old }
{
    if !memo.is_due(turns) {
        false
    } else if clear_block(body, from, turns, memo, frame, bytes, columns) {
        memo.note(true);
        true
    } else if try_deeds(body, from, turns, frame, bytes, columns) {
        memo.note_carried();
        true
    } else {
        memo.note(false);
        false
    }
}

/// One assignment whose turns read nothing that an earlier one writes. It isn't tried where the last block carried an
/// element.
#[inline(always)]
fn clear_block(
    body: &[Action],
    from: i64,
    turns: usize,
    memo: &Memo,
    frame: &Frame<'_>,
    bytes: &mut [u8],
    columns: &mut [i64],
) -> bool
    requires few { turns ≤ 256 }
    requires some { 0 < turns }
    requires last { (from +ℤ pos turns) ≤ℤ pos 9223372036854775807 }
    requires inside { All (IsInside (length bytes.old)) frame.now.views }
    ensures { running.Goes bytes.new ≡ block_or_nothing result turns from (running.run_actions body.now)
        frame.now.views frame.now.counters bytes.old }
{
    if memo.is_carried() {
        return false;
    }
    match body {
        [Action::Assign(cell, op, code)] => {
            run_block(cell, *op, code, from, turns, frame, bytes, columns)
        }
        _ => false,
    }
}

/// Runs the turns from this value of the counter on, or changes nothing.
fn run_block(
    cell: &Cell,
    op: AssignOp,
    code: &Code,
    from: i64,
    turns: usize,
    frame: &Frame<'_>,
    bytes: &mut [u8],
    columns: &mut [i64],
) -> bool
    requires few { turns ≤ 256 }
    requires some { 0 < turns }
    requires last { (from +ℤ pos turns) ≤ℤ pos 9223372036854775807 }
    requires inside { All (IsInside (length bytes.old)) frame.now.views }
    ensures { running.Goes bytes.new ≡ block_or_nothing result turns from (running.assigns cell.now op code.now)
        frame.now.views frame.now.counters bytes.old }
{
    if MOST <= bytes.len() || columns.len() < 2 * COLUMN {
        return false;
    }
    let Some(view) = at(frame.views(), cell.array) else {
        return false;
    };
    let write = Write::over(view, bytes.len());
    let block = Block::of(from, turns, write);
    let setting = Setting {
        block: &block,
        frame,
        bytes,
    };
    let Some(spots) = spots(cell, view, &setting, columns) else {
        return false;
    };
    let (places, numbers) = columns.split_at_mut(COLUMN);
    let Some(x) = assigned(view.elem, spots, places, code, write, &setting, numbers) else {
        return false;
    };
    put_all(view.elem, op, spots, places, x, numbers, turns, bytes);
    true
}

/// The line of the numbers that the turns put at these elements. None: it may trap, or may read what an earlier turn
/// puts.
fn assigned(
    elem: Elem,
    spots: Line,
    places: &[i64],
    code: &Code,
    write: Write,
    setting: &Setting<'_>,
    numbers: &mut [i64],
) -> Option<Line>
    requires lies { LieIn setting.now write.low write.high elem spots places.now }
    requires one { setting.now.block.now.writes.items ≡ write ∷ [] }
    requires within { write.high ≤ length setting.now.bytes.now }
    requires whole { write.high ≤ write.front }
    ensures { (cell : Cell) (op : AssignOp) → Places setting.now (running.run_cell cell) elem spots places.now → IfSome
        result (λ x. running.Goes (puts elem (source.assigned op) (first_byte spots places.now) (line_at x numbers.new)
        setting.now.block.now.turns 0 setting.now.bytes.now) ≡ all_turns setting.now (running.assigns cell op
        code.now)) }
{
    let block = setting.block;
    let narrow = narrowed(elem, spots, places, block.turns, write);
    let narrow = Block::of(block.from, block.turns, narrow);
    let setting = Setting {
        block: &narrow,
        frame: setting.frame,
        bytes: setting.bytes,
    };
    column(code, &setting, numbers)
}
