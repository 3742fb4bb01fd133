//! Running loops: by blocks of turns where they are worth it and sq_turns knows what they do, else turn after turn.
//!
//! All ways give the same, so that which of them is taken needs no clause.

ghost use Rattle.std.specs.Prelude.{◌≡◌, ◌+◌, ◌<◌, ◌≤◌, ◌+ℤ◌, ◌<ℤ◌, ◌≤ℤ◌, [], ◌∷◌, ◌++◌, pos, length, map};
ghost use Rattle.std.specs.Int.{int_gap};
ghost use Rattle.std.specs.List.{All};
ghost use Rattle.sq_leaf.specs.Spots.{IsInside};
ghost use Rattle.sq_leaf.specs.Running as running;

use crate::act::{act_all, act_each, assign};
use crate::run::index;
use sq_ast::AssignOp;
use sq_leaf::{Action, Cell, Code, Trap};
use sq_turns::{COLUMN, FEW, Frame, Memo, may_plan, try_turns};

/// How many columns there are.
const COLUMNS: usize = 8;

/// The least number of turns that are worth columns for themselves alone.
const ALONE: usize = 32;

/// Runs the body of a loop for each number from the first up to but not including the bound: few statements by blocks of
/// turns, where these are worth it.
// What few loops need isn't inlined into it, so that loops of few turns don't feel it. It computes the bounds, since the
// compiler would drop `inline(always)` from a larger `act`.
#[cycle(act)]
pub(crate) fn repeat(
    body: &[Action],
    first: &Code,
    bound: &Code,
    frame: &mut Frame<'_>,
    bytes: &mut [u8],
    columns: &mut [i64],
) -> Result<(), Trap>
    requires inside { All (IsInside (length bytes.old)) frame.old.views }
    requires room { length frame.old.counters + 1 + running.depths body.now ≤ 64 }
    ensures ran { running.ran bytes.new result ≡ running.once (running.run_code first.now frame.old.views
        frame.old.counters bytes.old) bytes.old (λ from. running.once (running.run_code bound.now frame.old.views
        frame.old.counters bytes.old) bytes.old (λ end. running.loop_from (map running.run_action body.now) from end
        frame.old.views frame.old.counters bytes.old)) }
    ensures kept { frame.new ≡ frame.old }
{
    let from = index(first, frame, bytes)?;
    let end = index(bound, frame, bytes)?;
    loop_from(body, from, end, frame, bytes, columns)
}

/// Runs the body of a loop for each number from `from` up to but not including `end`.
#[cycle(act)]
#[inline(always)]
fn loop_from(
    body: &[Action],
    from: i64,
    end: i64,
    frame: &mut Frame<'_>,
    bytes: &mut [u8],
    columns: &mut [i64],
) -> Result<(), Trap>
    requires inside { All (IsInside (length bytes.old)) frame.old.views }
    requires room { length frame.old.counters + 1 + running.depths body.now ≤ 64 }
    ensures ran { running.ran bytes.new result ≡ running.loop_from (map running.run_action body.now) from end
        frame.old.views frame.old.counters bytes.old }
    ensures kept { frame.new ≡ frame.old }
{
    if are_few(from, end, frame, columns) {
        few_turns(body, from, end, frame, bytes, columns)
    } else if may_plan(body) {
        planned(body, from, end, frame, bytes, columns)
    } else {
        nest(body, from, end, frame, bytes, columns)
    }
}

/// Turns that are worth no block.
#[cycle(act)]
#[inline(always)]
fn few_turns(
    body: &[Action],
    from: i64,
    end: i64,
    frame: &mut Frame<'_>,
    bytes: &mut [u8],
    columns: &mut [i64],
) -> Result<(), Trap>
    requires inside { All (IsInside (length bytes.old)) frame.old.views }
    requires room { length frame.old.counters + 1 + running.depths body.now ≤ 64 }
    ensures ran { running.ran bytes.new result ≡ running.loop_from (map running.run_action body.now) from end
        frame.old.views frame.old.counters bytes.old }
    ensures kept { frame.new ≡ frame.old }
{
    match body {
        [Action::Assign(cell, op, code)] => {
            assign_turns(cell, *op, code, from, end, frame, bytes)
        }
        list => {
            if may_plan(list) {
                each_turn(list, from, end, frame, bytes, columns)
            } else {
                nest(list, from, end, frame, bytes, columns)
            }
        }
    }
}

/// Whether so many turns are worth no block, with columns that are there or with their own.
#[inline(always)]
fn are_few(from: i64, end: i64, frame: &Frame<'_>, columns: &[i64]) -> bool {
    let is_alone = columns.is_empty() && frame.depth() == 0;
    let least = if is_alone { ALONE } else { FEW };
    end.wrapping_sub(from) < least as i64
}

/// The turns of a loop without loops in it.
#[cycle(act)]
#[inline(always)]
fn planned(
    body: &[Action],
    from: i64,
    end: i64,
    frame: &mut Frame<'_>,
    bytes: &mut [u8],
    columns: &mut [i64],
) -> Result<(), Trap>
    requires inside { All (IsInside (length bytes.old)) frame.old.views }
    requires room { length frame.old.counters + 1 + running.depths body.now ≤ 64 }
    ensures ran { running.ran bytes.new result ≡ running.loop_from (map running.run_action body.now) from end
        frame.old.views frame.old.counters bytes.old }
    ensures kept { frame.new ≡ frame.old }
{
    if !columns.is_empty() {
        in_blocks(body, from, end, frame, bytes, columns)
    } else if from < end && ALONE as i64 <= end.wrapping_sub(from) {
        alone(body, from, end, frame, bytes)
    } else {
        if from < end {
            ask(body, next_count(from, end), frame);
        }
        turns(body, from, end, frame, bytes, &mut [])
    }
}

/// The same of turns that may be worth columns of their own. The first of them runs before anything is looked at, so
/// that an index or a divisor that is wrong from the begin on costs no block.
#[cycle(act)]
#[inline(always)]
fn alone(
    body: &[Action],
    from: i64,
    end: i64,
    frame: &mut Frame<'_>,
    bytes: &mut [u8],
) -> Result<(), Trap>
    requires some { from <ℤ end }
    requires inside { All (IsInside (length bytes.old)) frame.old.views }
    requires room { length frame.old.counters + 1 + running.depths body.now ≤ 64 }
    ensures ran { running.ran bytes.new result ≡ running.loop_from (map running.run_action body.now) from end
        frame.old.views frame.old.counters bytes.old }
    ensures kept { frame.new ≡ frame.old }
{
    match turns(body, from, from + 1, frame, bytes, &mut []) {
        Ok(()) => {
            if ask(body, next_count(from, end), frame) {
                with_columns(body, from + 1, end, frame, bytes)
            } else {
                turns(body, from + 1, end, frame, bytes, &mut [])
            }
        }
        Err(trap) => Err(trap),
    }
}

/// Whether a block of so many turns is to be tried. The loops round it hear that it wants columns.
#[inline(never)]
fn ask(body: &[Action], count: usize, frame: &mut Frame<'_>) -> bool
    ensures { frame.new ≡ frame.old }
{
    let mut memo = frame.recall(body, count as u64);
    let is_due = memo.is_due(count);
    frame.keep(memo);
    if is_due {
        frame.want(count);
    }
    is_due
}

// Columns aren't to lie in the frames of loops that stand round loops.
#[cycle(act)]
#[inline(never)]
fn with_columns(
    body: &[Action],
    from: i64,
    end: i64,
    frame: &mut Frame<'_>,
    bytes: &mut [u8],
) -> Result<(), Trap>
    requires inside { All (IsInside (length bytes.old)) frame.old.views }
    requires room { length frame.old.counters + 1 + running.depths body.now ≤ 64 }
    ensures ran { running.ran bytes.new result ≡ running.loop_from (map running.run_action body.now) from end
        frame.old.views frame.old.counters bytes.old }
    ensures kept { frame.new ≡ frame.old }
{
    let mut columns = [0; COLUMNS * COLUMN];
    in_blocks(body, from, end, frame, bytes, &mut columns)
}

/// The turns of a loop with loops in it. Where these have many turns to run by blocks, it makes columns for them.
#[cycle(act)]
#[inline(never)]
fn nest(
    body: &[Action],
    from: i64,
    end: i64,
    frame: &mut Frame<'_>,
    bytes: &mut [u8],
    columns: &mut [i64],
) -> Result<(), Trap>
    requires inside { All (IsInside (length bytes.old)) frame.old.views }
    requires room { length frame.old.counters + 1 + running.depths body.now ≤ 64 }
    ensures ran { running.ran bytes.new result ≡ running.loop_from (map running.run_action body.now) from end
        frame.old.views frame.old.counters bytes.old }
    ensures kept { frame.new ≡ frame.old }
{
    for i in from..end {
        if columns.is_empty() && frame.is_worth_columns() {
            return turns_with_columns(body, i, end, frame, bytes);
        }
        match round(body, i, frame, bytes, columns) {
            Ok(()) => {}
            Err(trap) => return Err(trap),
        }
    }
    Ok(())
}

/// A turn of a loop with loops in it.
#[cycle(act)]
fn round(
    body: &[Action],
    i: i64,
    frame: &mut Frame<'_>,
    bytes: &mut [u8],
    columns: &mut [i64],
) -> Result<(), Trap>
    requires inside { All (IsInside (length bytes.old)) frame.old.views }
    requires room { length frame.old.counters + 1 + running.depths body.now ≤ 64 }
    ensures ran { running.ran bytes.new result ≡ running.run_actions body.now frame.old.views
        (frame.old.counters ++ i ∷ []) bytes.old }
    ensures kept { frame.new ≡ frame.old }
{
    frame.enter(i);
    let ended = act_all(body, frame, bytes, columns);
    frame.leave();
    ended
}

#[cycle(act)]
#[inline(never)]
fn turns_with_columns(
    body: &[Action],
    from: i64,
    end: i64,
    frame: &mut Frame<'_>,
    bytes: &mut [u8],
) -> Result<(), Trap>
    requires inside { All (IsInside (length bytes.old)) frame.old.views }
    requires room { length frame.old.counters + 1 + running.depths body.now ≤ 64 }
    ensures ran { running.ran bytes.new result ≡ running.loop_from (map running.run_action body.now) from end
        frame.old.views frame.old.counters bytes.old }
    ensures kept { frame.new ≡ frame.old }
{
    let mut columns = [0; COLUMNS * COLUMN];
    turns(body, from, end, frame, bytes, &mut columns)
}

/// Blocks of turns.
#[cycle(act)]
#[inline(never)]
fn in_blocks(
    body: &[Action],
    from: i64,
    end: i64,
    frame: &mut Frame<'_>,
    bytes: &mut [u8],
    columns: &mut [i64],
) -> Result<(), Trap>
    requires inside { All (IsInside (length bytes.old)) frame.old.views }
    requires room { length frame.old.counters + 1 + running.depths body.now ≤ 64 }
    ensures ran { running.ran bytes.new result ≡ running.loop_from (map running.run_action body.now) from end
        frame.old.views frame.old.counters bytes.old }
    ensures kept { frame.new ≡ frame.old }
{
    let mut memo = frame.recall(body, end.abs_diff(from));
    let mut i = from;
    while i < end {
        let count = next_count(i, end);
        match block(body, i, count, &mut memo, frame, bytes, columns) {
            Ok(()) => i += count as i64,
            Err(trap) => return Err(trap),
        }
    }
    frame.keep(memo);
    Ok(())
}

/// So many turns, together where that may be.
#[cycle(act)]
#[inline(always)]
fn block(
    body: &[Action],
    from: i64,
    count: usize,
    memo: &mut Memo,
    frame: &mut Frame<'_>,
    bytes: &mut [u8],
    columns: &mut [i64],
) -> Result<(), Trap>
    requires inside { All (IsInside (length bytes.old)) frame.old.views }
    requires room { length frame.old.counters + 1 + running.depths body.now ≤ 64 }
    requires few { count ≤ 256 }
    requires some { 0 < count }
    requires last { (from +ℤ pos count) ≤ℤ pos 9223372036854775807 }
    ensures ran { running.ran bytes.new result ≡ running.repeats count from
        (λ k. running.run_actions body.now frame.old.views (frame.old.counters ++ k ∷ [])) bytes.old }
    ensures kept { frame.new ≡ frame.old }
{
    if try_turns(body, from, count, memo, frame, bytes, columns) {
        Ok(())
    } else {
        turns(body, from, from + count as i64, frame, bytes, columns)
    }
}

/// One turn after another.
#[cycle(act)]
#[inline(always)]
fn turns(
    body: &[Action],
    from: i64,
    end: i64,
    frame: &mut Frame<'_>,
    bytes: &mut [u8],
    columns: &mut [i64],
) -> Result<(), Trap>
    requires inside { All (IsInside (length bytes.old)) frame.old.views }
    requires room { length frame.old.counters + 1 + running.depths body.now ≤ 64 }
    ensures ran { running.ran bytes.new result ≡ running.loop_from (map running.run_action body.now) from end
        frame.old.views frame.old.counters bytes.old }
    ensures kept { frame.new ≡ frame.old }
{
    match body {
        [Action::Assign(cell, op, code)] => {
            assign_turns(cell, *op, code, from, end, frame, bytes)
        }
        list => each_turn(list, from, end, frame, bytes, columns),
    }
}

#[cycle(act)]
#[inline(never)]
fn each_turn(
    body: &[Action],
    from: i64,
    end: i64,
    frame: &mut Frame<'_>,
    bytes: &mut [u8],
    columns: &mut [i64],
) -> Result<(), Trap>
    requires inside { All (IsInside (length bytes.old)) frame.old.views }
    requires room { length frame.old.counters + 1 + running.depths body.now ≤ 64 }
    ensures ran { running.ran bytes.new result ≡ running.loop_from (map running.run_action body.now) from end
        frame.old.views frame.old.counters bytes.old }
    ensures kept { frame.new ≡ frame.old }
{
    for i in from..end {
        match turn(body, i, frame, bytes, columns) {
            Ok(()) => {}
            Err(trap) => return Err(trap),
        }
    }
    Ok(())
}

/// Runs the body of a loop with this value of the counter.
// With one caller it stands within it, and no turn makes a call.
#[cycle(act)]
#[inline(always)]
fn turn(
    body: &[Action],
    i: i64,
    frame: &mut Frame<'_>,
    bytes: &mut [u8],
    columns: &mut [i64],
) -> Result<(), Trap>
    requires inside { All (IsInside (length bytes.old)) frame.old.views }
    requires room { length frame.old.counters + 1 + running.depths body.now ≤ 64 }
    ensures ran { running.ran bytes.new result ≡ running.run_actions body.now frame.old.views
        (frame.old.counters ++ i ∷ []) bytes.old }
    ensures kept { frame.new ≡ frame.old }
{
    frame.enter(i);
    let ended = act_each(body, frame, bytes, columns);
    frame.leave();
    ended
}

/// Runs the assignment for each number from `from` up to but not including `end`, one turn after another.
fn assign_turns(
    cell: &Cell,
    op: AssignOp,
    code: &Code,
    from: i64,
    end: i64,
    frame: &mut Frame<'_>,
    bytes: &mut [u8],
) -> Result<(), Trap>
    requires inside { All (IsInside (length bytes.old)) frame.old.views }
    requires room { length frame.old.counters < 64 }
    ensures ran { running.ran bytes.new result ≡ running.repeats (int_gap from end) from (λ k. running.assigns cell.now
        op code.now frame.old.views (frame.old.counters ++ k ∷ [])) bytes.old }
    ensures kept { frame.new ≡ frame.old }
{
    for i in from..end {
        match one_turn(cell, op, code, i, frame, bytes) {
            Ok(()) => {}
            Err(trap) => return Err(trap),
        }
    }
    Ok(())
}

/// Runs the assignment with this value of the counter.
#[inline(always)]
fn one_turn(
    cell: &Cell,
    op: AssignOp,
    code: &Code,
    i: i64,
    frame: &mut Frame<'_>,
    bytes: &mut [u8],
) -> Result<(), Trap>
    requires inside { All (IsInside (length bytes.old)) frame.old.views }
    requires room { length frame.old.counters < 64 }
    ensures ran { running.ran bytes.new result ≡ running.assigns cell.now op code.now frame.old.views
        (frame.old.counters ++ i ∷ []) bytes.old }
    ensures kept { frame.new ≡ frame.old }
{
    frame.enter(i);
    let ended = assign(cell, op, code, frame, bytes);
    frame.leave();
    ended
}

/// How many turns the next block has.
fn next_count(i: i64, end: i64) -> usize
    requires { i <ℤ end }
    ensures some { 0 < result }
    ensures few { result ≤ 256 }
    ensures within { (i +ℤ pos result) ≤ℤ end }
{
    let left = end.abs_diff(i);
    if left < 256 { left as usize } else { 256 }
}
