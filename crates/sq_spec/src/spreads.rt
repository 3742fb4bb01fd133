//! Which calls stand in statements, and which maps are spread.

ghost use Rattle.std.specs.Prelude.{◌≡◌, map};
ghost use Rattle.sq_spec.specs.Spreads as spec;

use crate::statement::{LoopKind, Statement};

#[cycle(lower)]
#[tactic(auto, using(crate::proofs::InStatements::kinds))]
fn lower_in(x: &Statement) -> bool
    ensures { result ≡ spec.lower_in x.now }
{
    match x {
        Statement::Call { lower, .. } => *lower,
        Statement::Map { body, .. } => any_lower(body.as_slice()),
    }
}

/// Whether statements have a lower call in them.
#[cycle(lower)]
pub fn any_lower(list: &[Statement]) -> bool
    ensures { result ≡ spec.any_of (map spec.lower_in list.now) }
{
    for x in list {
        if lower_in(x) {
            return true;
        }
    }
    false
}

#[cycle(same)]
#[tactic(auto, using(crate::proofs::InStatements::kinds))]
fn same_in(x: &Statement) -> bool
    ensures { result ≡ spec.same_in x.now }
{
    match x {
        Statement::Call { lower, .. } => !*lower,
        Statement::Map { body, .. } => any_same(body.as_slice()),
    }
}

/// Whether statements have a same-level call in them.
#[cycle(same)]
pub fn any_same(list: &[Statement]) -> bool
    ensures { result ≡ spec.any_of (map spec.same_in list.now) }
{
    for x in list {
        if same_in(x) {
            return true;
        }
    }
    false
}

/// Whether a map is spread: its iterations stand beside one another, it stands in no other spread map of its form
/// (`inside`), and has in its body a lower call and no same-level call.
pub fn is_spread(kind: LoopKind, inside: bool, body: &[Statement]) -> bool
    ensures { result ≡ spec.is_spread kind inside (spec.any_of (map spec.lower_in body.now))
        (spec.any_of (map spec.same_in body.now)) }
{
    match kind {
        LoopKind::Sequential => false,
        LoopKind::Parallel | LoopKind::Reduction(_) => {
            !inside && (any_lower(body) && !any_same(body))
        }
    }
}
