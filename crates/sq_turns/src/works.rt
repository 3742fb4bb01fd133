//! Turns of a loop whose body has few statements, run together by what is known of them before the first.

ghost use Rattle.std.specs.Prelude.{◌≡◌, ◌<◌, ◌≤◌, ◌+ℤ◌, ◌≤ℤ◌, pos, length};
ghost use Rattle.std.specs.List.{All};
ghost use Rattle.sq_leaf.specs.Spots.{IsInside};
ghost use Rattle.sq_leaf.specs.Running as running;
ghost use Rattle.sq_turns.specs.Blocks.{block_or_nothing};

use crate::frame::Frame;
use crate::history::SOME;
use crate::plan::{DEEDS, plan};
use arrayvec::ArrayVec;
use sq_deeds::perform::perform;
use sq_leaf::Action;

/// Runs the turns from this value of the counter on, or changes nothing.
pub(crate) fn try_deeds(
    body: &[Action],
    from: i64,
    turns: usize,
    frame: &Frame<'_>,
    bytes: &mut [u8],
    columns: &mut [i64],
) -> bool
    requires few { turns ≤ 256 }
    requires last { (from +ℤ pos turns) ≤ℤ pos 9223372036854775807 }
    requires inside { All (IsInside (length bytes.old)) frame.now.views }
    ensures { running.Goes bytes.new ≡ block_or_nothing result turns from (running.run_actions body.now)
        frame.now.views frame.now.counters bytes.old }
{
    SOME <= turns && run_deeds(body, from, turns, frame, bytes, columns)
}

// The deeds aren't to lie in the frames of callers that recurse.
#[inline(never)]
fn run_deeds(
    body: &[Action],
    from: i64,
    turns: usize,
    frame: &Frame<'_>,
    bytes: &mut [u8],
    columns: &mut [i64],
) -> bool
    requires few { turns ≤ 256 }
    requires some { 0 < turns }
    requires last { (from +ℤ pos turns) ≤ℤ pos 9223372036854775807 }
    requires inside { All (IsInside (length bytes.old)) frame.now.views }
    ensures { running.Goes bytes.new ≡ block_or_nothing result turns from (running.run_actions body.now)
        frame.now.views frame.now.counters bytes.old }
{
    let mut deeds = ArrayVec::new();
    if plan(body, frame, bytes, from, turns, columns, &mut deeds) {
        perform(deeds.as_slice(), columns, turns, bytes);
        true
    } else {
        false
    }
}

/// Whether the statements are few, and each an assignment or a choice of assignments.
#[inline(always)]
pub fn may_plan(list: &[Action]) -> bool {
    match list {
        [Action::Assign(_, _, _)] => true,
        list => list.len() <= DEEDS && are_simple(list),
    }
}

fn are_simple(list: &[Action]) -> bool {
    for action in list {
        if !is_simple(action) {
            return false;
        }
    }
    true
}

fn is_simple(action: &Action) -> bool {
    match action {
        Action::Assign(_, _, _) => true,
        Action::If(_, taken, other) => {
            is_assignment_at_most(taken.as_slice()) && is_assignment_at_most(other.as_slice())
        }
        Action::For(_, _, _) => false,
    }
}

fn is_assignment_at_most(list: &[Action]) -> bool {
    match list {
        [] => true,
        [Action::Assign(_, _, _)] => true,
        _ => false,
    }
}
