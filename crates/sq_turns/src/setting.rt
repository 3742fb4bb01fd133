//! What the turns of a block begin with.

ghost use Rattle.std.specs.Prelude.{◌<◌, ◌≤◌, ◌^◌, ◌+ℤ◌, ◌≤ℤ◌, pos, length};
ghost use Rattle.std.specs.List.{All};
ghost use Rattle.sq_leaf.specs.Spots.{IsInside};

use crate::block::Block;
use crate::frame::Frame;

/// A block of turns, and what is there before the first of them: the views and the counters of the loops round it, and
/// the bytes.
#[derive(Clone, Copy)]
pub(crate) struct Setting<'a> {
    pub block: &'a Block,
    pub frame: &'a Frame<'a>,
    pub bytes: &'a [u8],
    ghost few: { block.now.turns ≤ 256 },
    ghost some: { 0 < block.now.turns },
    ghost last: { (block.now.from +ℤ pos block.now.turns) ≤ℤ pos 9223372036854775807 },
    ghost near: { length bytes.now < 2 ^ 62 },
    ghost inside: { All (IsInside (length bytes.now)) frame.now.views },
}
