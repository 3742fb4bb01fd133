//! A run of a leaf.

ghost use Rattle.std.specs.Prelude.{map, length};
ghost use Rattle.sq_leaf.specs.Leaf.{IsMeant, leaf_value, written_of};
ghost use Rattle.sq_leaf.specs.Source.{Arrays};
ghost use Rattle.sq_leaf.specs.Views.{CanRun, Keeps, Shows, shape_of};

use crate::act::act_all;
use sq_leaf::{LeafCode, Trap};
use sq_rect::Views;
use sq_turns::Frame;

/// Runs the leaf over the bytes of one memory. It keeps its loop counters by itself.
// What it keeps isn't to lie in the frames of callers that recurse.
#[inline(never)]
pub fn run_leaf(code: &LeafCode, bytes: &mut [u8], views: &Views) -> Result<(), Trap>
    requires { CanRun (length bytes.old) views.now (written_of code.now.variant) }
    ensures meant { (a : Arrays) → Shows views.now bytes.old a → IsMeant views.now bytes.new result
        (leaf_value code.now (map shape_of views.now) a) }
    ensures kept { Keeps views.now (written_of code.now.variant) bytes.old bytes.new }
{
    let mut frame = Frame::new(views.as_slice());
    act_all(code.body(), &mut frame, bytes, &mut [])
}
