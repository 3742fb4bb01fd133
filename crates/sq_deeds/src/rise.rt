//! First bytes of elements that go up from turn to turn.

ghost use Rattle.std.specs.Prelude.{◌≡◌, ◌^◌, ◌<◌, ◌≤◌, IfSome};
ghost use Rattle.sq_deeds.specs.Puts.{IsRise, IsRiseFrom};

use sq_columns::Line;

/// First bytes that go up by the same step from turn to turn.
#[derive(Clone, Copy)]
pub struct Rise {
    pub at: usize,
    pub step: usize,
}

/// The line as first bytes that go up, where it is known to be that.
pub fn rise_of(spots: Line) -> Option<Rise>
    ensures { IfSome result (λ r. IsRise r spots) }
{
    match spots {
        Line::Same(x) => rise_from(x, 0),
        Line::Ramp(a, d) => rise_from(a, d),
        Line::Column => None,
    }
}

fn rise_from(a: i64, d: i64) -> Option<Rise>
    ensures { IfSome result (λ r. IsRiseFrom r a d) }
{
    if 0 <= a && a < 4_611_686_018_427_387_904 && 0 <= d && d <= 4_294_967_296 {
        Some(Rise {
            at: a as usize,
            step: d as usize,
        })
    } else {
        None
    }
}
