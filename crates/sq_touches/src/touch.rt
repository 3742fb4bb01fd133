//! Bytes that events touch.

ghost use Rattle.std.specs.Prelude.{◌≡◌, true, false};
ghost use Rattle.sq_check_laws.specs.Touches.{agree};
ghost use Rattle.sq_touches.specs.Acts.{IsNear, AreNear, seen_way, Conflict, ConflictAny, ConflictAll};

use sq_areas::Area;
use sq_num::{Elem, RedOp};
use sqlite_items::Items;

/// How an event touches bytes. Rows that are added to by one operator and element type have elements of one another
/// where their first bytes have one place modulo the width.
#[derive(Clone, Copy, Debug, PartialEq, Eq, Drop)]
pub enum Way {
    Reads,
    Adds { op: RedOp, elem: Elem, place: u32 },
    Writes,
}

/// Bytes of a node that an event touches in one way.
#[derive(Drop)]
pub struct Touch {
    pub node: u32,
    pub way: Way,
    pub area: Area,
}

pub type Touches = Items<Touch>;

impl Way {
    // Whether two events may touch a byte in these ways, in either order.
    fn agrees(self, other: Way) -> bool
        ensures { result ≡ agree (seen_way self) (seen_way other) }
    {
        match self {
            Way::Reads => match other {
                Way::Reads => true,
                Way::Adds {
                    op: _,
                    elem: _,
                    place: _,
                } => false,
                Way::Writes => false,
            },
            Way::Adds { op, elem, place } => match other {
                Way::Reads => false,
                Way::Adds {
                    op: by,
                    elem: of,
                    place: at,
                } => op == by && elem == of && place == at,
                Way::Writes => false,
            },
            Way::Writes => false,
        }
    }
}

// Whether there is a byte that two events touch in ways that don't agree.
#[tactic(auto, using(crate::proofs::Conflicts::conflict_is, crate::proofs::Conflicts::no_node, crate::proofs::Conflicts::no_way, crate::proofs::Conflicts::no_share))]
fn conflict(one: &Touch, other: &Touch) -> bool
    requires { IsNear one.now × IsNear other.now }
    ensures yes { result ≡ true → Conflict one.now other.now }
    ensures none { result ≡ false → ¬ Conflict one.now other.now }
{
    if one.node != other.node {
        return false;
    }
    if one.way.agrees(other.way) {
        return false;
    }
    one.area.meets(&other.area)
}

// Whether one of some touches is in conflict with this one.
#[tactic(auto, using(crate::proofs::Conflicts::near_first, crate::proofs::Conflicts::near_rest, crate::proofs::Conflicts::any_first, crate::proofs::Conflicts::any_rest, crate::proofs::Conflicts::any_none, crate::proofs::Conflicts::any_empty))]
fn conflict_any(one: &Touch, others: &[Touch]) -> bool
    requires { IsNear one.now × AreNear others.now }
    ensures yes { result ≡ true → ConflictAny one.now others.now }
    ensures none { result ≡ false → ¬ ConflictAny one.now others.now }
{
    let Some((first, rest)) = others.split_first() else {
        return false;
    };
    if conflict(one, first) {
        return true;
    }
    conflict_any(one, rest)
}

/// Whether one of some touches is in conflict with one of the others.
#[tactic(auto, using(crate::proofs::Conflicts::near_first, crate::proofs::Conflicts::near_rest, crate::proofs::Conflicts::all_first, crate::proofs::Conflicts::all_rest, crate::proofs::Conflicts::all_none, crate::proofs::Conflicts::all_empty))]
pub(crate) fn conflict_all(some: &[Touch], others: &[Touch]) -> bool
    requires { AreNear some.now × AreNear others.now }
    ensures yes { result ≡ true → ConflictAll some.now others.now }
    ensures none { result ≡ false → ¬ ConflictAll some.now others.now }
{
    let Some((first, rest)) = some.split_first() else {
        return false;
    };
    if conflict_any(first, others) {
        return true;
    }
    conflict_all(rest, others)
}
