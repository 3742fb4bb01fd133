//! Colors in which events reach bytes. Two touches of one byte get along where they are of one color.

ghost use Rattle.std.specs.Prelude.{◌≡◌, ◌<◌};
ghost use Rattle.sq_clashes.specs.Colors as spec;

use sq_num::{Elem, RedOp};
use sq_touches::Way;

fn op_number(op: RedOp) -> u32
    ensures { result ≡ spec.op_number op }
{
    match op {
        RedOp::Add => 0,
        RedOp::Mul => 1,
        RedOp::Min => 2,
        RedOp::Max => 3,
        RedOp::And => 4,
        RedOp::Or => 5,
        RedOp::Xor => 6,
    }
}

fn elem_number(elem: Elem) -> u32
    ensures { result ≡ spec.elem_number elem }
{
    match elem {
        Elem::Byte => 0,
        Elem::Int => 1,
        Elem::Long => 2,
    }
}

// The color of sums that have elements of one another.
fn sum_color(op: RedOp, elem: Elem, place: u32) -> u32
    requires { place < 8 }
    ensures { result ≡ spec.sum_color op elem place }
{
    1 + (op_number(op) * 24 + (elem_number(elem) * 8 + place))
}

/// A color that no other event has.
pub(crate) fn own_color(event: usize) -> u32
    requires { event < 65536 }
    ensures { result ≡ spec.own_color event }
{
    256 + event as u32
}

/// The color of what an event with this own color touches. No element has more than 8 bytes.
pub(crate) fn color_of(way: Way, own: u32) -> u32
    ensures { result ≡ spec.color_of way own }
{
    match way {
        Way::Reads => 0,
        Way::Adds { op, elem, place } => {
            if place < 8 {
                sum_color(op, elem, place)
            } else {
                own
            }
        }
        Way::Writes => own,
    }
}
