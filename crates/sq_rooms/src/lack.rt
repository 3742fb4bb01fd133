//! The first buffers that lack room.

ghost use Rattle.std.specs.Prelude.{◌≡◌, true, None, IfOk};
ghost use Rattle.sq_ir.specs.Plans.{setting_of};
ghost use Rattle.sq_rooms.specs.Bounds.{NoneBelow};
ghost use Rattle.sq_rooms.specs.Lacks as spec;
ghost use Rattle.sq_rooms.specs.Lacks.{IsFirstIn, IsFirstOf};
ghost use Rattle.sq_rooms.specs.Terms.{is_flat};

use crate::bound::{Bound, bound_behind, comes_first, is_below};
use crate::clear::clear_to;
use crate::named::Named;
use crate::rivals::earliest;
use crate::walk::names_of;
use sq_ir::Plan;
use std::alloc::{AllocError, Global};

/// Two buffers that meet at a node; or one that passes its capacity, as a pair with itself.
#[derive(Clone, Copy, Debug, PartialEq, Eq)]
pub struct Lack {
    pub node: u32,
    pub earlier: u32,
    pub later: u32,
}

fn sooner(best: Option<Named>, name: Named) -> Option<Named>
    ensures { result ≡ spec.sooner best name }
{
    match best {
        None => Some(name),
        Some(known) => {
            if comes_first(name, known) {
                Some(name)
            } else {
                Some(known)
            }
        }
    }
}

fn sooner_from(from: Bound, best: Option<Named>, name: Named) -> Option<Named>
    ensures { result ≡ spec.sooner_from from best name }
{
    if is_below(name, from) {
        best
    } else {
        sooner(best, name)
    }
}

// The first name that isn't below the bound.
fn next(names: &[Named], from: Bound) -> Option<Named>
    ensures { result ≡ spec.next from None names.now }
{
    let mut best = None;
    for name in names {
        best = sooner_from(from, best, *name);
    }
    best
}

fn lack_of(earlier: u32, later: Named) -> Lack
    ensures { result ≡ record { node = later.node; earlier = earlier; later = later.buffer } }
{
    Lack {
        node: later.node,
        earlier,
        later: later.buffer,
    }
}

// The first lack, where there is none below the bound. With a good bound the first name is one that lacks room.
fn first_from(plan: &Plan, names: &[Named], from: Bound) -> Option<Lack>
    requires { NoneBelow (setting_of plan.now) names.now from }
    ensures { IsFirstIn (setting_of plan.now) names.now result }
{
    let mut bound = from;
    while let Some(later) = next(names, bound) {
        if let Some(earlier) = earliest(plan, names, later) {
            return Some(lack_of(earlier, later));
        }
        bound = bound_behind(later);
    }
    None
}

/// The first buffers that lack room, if there are any: by the node, then by the later buffer, and then by the earlier
/// one. The plan's term has neither loops nor choices, as that of a plan file.
pub fn first_lack(alloc: Global, plan: &Plan) -> Result<Option<Lack>, AllocError>
    requires { is_flat plan.now.draft.term ≡ true }
    ensures { IfOk result (IsFirstOf plan.now) }
{
    let names = names_of(alloc, plan)?;
    let names = names.as_slice();
    let from = clear_to(alloc, plan, names)?;
    Ok(first_from(plan, names, from))
}
