//! What an event of a plan touches.

ghost use Rattle.std.specs.Prelude.{◌≡◌, ◌<◌, ◌*◌, ◌%◌, ◌^◌, [], ◌∷◌, IfOk, Some, None};
ghost use Rattle.sq_num.specs.Elements as elements;
ghost use Rattle.sq_check_laws.specs.Touches.{view_touches};
ghost use Rattle.sq_touches.specs.Acts.{AreNear};
ghost use Rattle.sq_ir.specs.DraftLeaves.{leaves_of};
ghost use Rattle.sq_touches.specs.ActLaws.{ShowsTouches, Shows};
ghost use Rattle.sq_touches.specs.Puts.{HaveStrides, AreBelow};
ghost use Rattle.sq_plan_check.specs.Walked.{seen_deed};
ghost use Rattle.sq_plan_check.specs.Shown.{ShowsBy, HaveViews, HaveWords, code_in};

use crate::entry::Deed;
use crate::flags::flags_of;
use sq_ir::Plan;
use sq_num::Elem;
use sq_rect::View;
use sq_touches::{Act, Touch, Way, put_views, row};
use sqlite_items::Items;
use std::alloc::{AllocError, Global};

// How many bytes so many elements have.
fn bytes_of(elem: Elem, count: u32) -> u64
    ensures is { result ≡ count * elements.width elem }
    ensures small { result < 2 ^ 40 }
{
    match elem {
        Elem::Byte => u64::from(count),
        Elem::Int => u64::from(count) * 4,
        Elem::Long => u64::from(count) * 8,
    }
}

// The place of a byte modulo the width of an element.
fn place_in(elem: Elem, at: u32) -> u32
    ensures { result ≡ at % elements.width elem }
{
    match elem {
        Elem::Byte => at % 1,
        Elem::Int => at % 4,
        Elem::Long => at % 8,
    }
}

// An event that touches one row.
fn act_of_row(alloc: Global, only: Touch) -> Result<Act, AllocError>
    ensures { IfOk result (λ a. (a.touches ≡ only ∷ []) × (a.path ≡ None)) }
{
    let mut touches = Items::new(alloc);
    touches.push(only)?;
    Ok(Act {
        touches,
        path: None,
    })
}

// An event that touches two rows.
fn act_of_rows(alloc: Global, first: Touch, second: Touch) -> Result<Act, AllocError>
    ensures { IfOk result (λ a. (a.touches ≡ first ∷ second ∷ []) × (a.path ≡ None)) }
{
    let mut touches = Items::new(alloc);
    touches.push(first)?;
    touches.push(second)?;
    Ok(Act {
        touches,
        path: None,
    })
}

// A leaf call.
fn act_of_call(
    alloc: Global,
    node: u32,
    flags: &[bool],
    views: &[View],
    path: &[u32],
) -> Result<Act, AllocError>
    requires { HaveStrides views.now }
    ensures shows { IfOk result (λ a. ShowsTouches a.touches (view_touches node flags.now views.now) × (a.path ≡ Some
        path.now)) }
    ensures near { IfOk result (λ a. AreBelow views.now → AreNear a.touches) }
{
    let path = Items::from_slice(alloc, path)?;
    let mut touches = Items::new(alloc);
    put_views(alloc, node, flags, views, &mut touches)?;
    Ok(Act {
        touches,
        path: Some(path),
    })
}

// What an event touches. The flags tell of each view of a leaf call whether the leaf may write it.
fn act_of(alloc: Global, deed: &Deed, flags: &[bool]) -> Result<Act, AllocError>
    requires { HaveViews deed.now }
    ensures shows { IfOk result (λ a. ShowsBy flags.now a (seen_deed deed.now)) }
    ensures near { IfOk result (λ a. HaveWords deed.now → AreNear a.touches) }
{
    match deed {
        Deed::Copy { from, to, bytes } => {
            let bytes = u64::from(*bytes);
            let read = row(alloc, from.node, from.at, bytes, Way::Reads);
            let written = row(alloc, to.node, to.at, bytes, Way::Writes);
            act_of_rows(alloc, read, written)
        }
        Deed::Fill {
            to,
            elem,
            count,
            value: _,
        } => {
            let bytes = bytes_of(*elem, *count);
            let written = row(alloc, to.node, to.at, bytes, Way::Writes);
            act_of_row(alloc, written)
        }
        Deed::Acc {
            op,
            elem,
            from,
            to,
            count,
        } => {
            let bytes = bytes_of(*elem, *count);
            let read = row(alloc, from.node, from.at, bytes, Way::Reads);
            let (op, elem, place) = (*op, *elem, place_in(*elem, to.at));
            let added = row(alloc, to.node, to.at, bytes, Way::Adds { op, elem, place });
            act_of_rows(alloc, read, added)
        }
        Deed::Call {
            node,
            code: _,
            views,
            path,
        } => act_of_call(alloc, *node, flags, views.as_slice(), path.as_slice()),
    }
}

// The number of a leaf call's leaf.
fn code_of(deed: &Deed) -> u32
    ensures { result ≡ code_in (seen_deed deed.now) }
{
    match deed {
        Deed::Call { code, .. } => *code,
        _ => 0,
    }
}

/// What an event of a plan touches.
pub fn act_in(alloc: Global, plan: &Plan, deed: &Deed) -> Result<Act, AllocError>
    requires { HaveViews deed.now }
    ensures shows { IfOk result (λ a. Shows (leaves_of plan.now.draft) a (seen_deed deed.now)) }
    ensures near { IfOk result (λ a. HaveWords deed.now → AreNear a.touches) }
{
    let flags = flags_of(alloc, plan, code_of(deed))?;
    let act = act_of(alloc, deed, flags.as_slice())?;
    Ok(act)
}
