//! The events of a plan, each with its number in the second order.

ghost use Rattle.std.specs.Prelude.{◌≡◌, ◌+◌, ◌++◌, [], ◌∷◌, map, IfOk, OnOk};
ghost use Rattle.sq_ir.specs.Events as events;
ghost use Rattle.sq_sched.specs.Seen.{seen};
ghost use Rattle.sq_sched.specs.Words as words;
ghost use Rattle.sq_sched.specs.Words.{env_of};
ghost use Rattle.sq_plan_check.specs.Walked.{seen_deed, seen_entries};

use sq_ir::Action;
use sq_num::{Elem, RedOp};
use sq_rect::View;
use sq_sched::{Env, Event, Spot, tell};
use sqlite_items::Items;
use std::alloc::{AllocError, Global};

/// What an event does. It is an event that takes no more room than it has views and numbers.
#[derive(Drop)]
pub enum Deed {
    Copy {
        from: Spot,
        to: Spot,
        bytes: u32,
    },
    Fill {
        to: Spot,
        elem: Elem,
        count: u32,
        value: i64,
    },
    Acc {
        op: RedOp,
        elem: Elem,
        from: Spot,
        to: Spot,
        count: u32,
    },
    /// A leaf call.
    Call {
        node: u32,
        code: u32,
        views: Items<View>,
        path: Items<u32>,
    },
}

/// An event, and its number in the order in which the parts of each `Par` stand from right to left.
#[derive(Drop)]
pub struct Entry {
    pub deed: Deed,
    pub second: u32,
}

/// Events from left to right.
pub type Entries = Items<Entry>;

// The same views.
fn views_of(alloc: Global, list: &[View]) -> Result<Items<View>, AllocError>
    ensures { IfOk result (λ views. views ≡ list.now) }
{
    let mut views = Items::new(alloc);
    for view in list {
        views.push(view.copy())?;
    }
    Ok(views)
}

// A leaf call.
fn call_of(
    alloc: Global,
    node: u32,
    code: u32,
    views: &[View],
    path: &[u32],
) -> Result<Deed, AllocError>
    ensures { IfOk result (λ d. seen_deed d ≡ events.Leaf node code views.now path.now) }
{
    let path = Items::from_slice(alloc, path)?;
    let views = views_of(alloc, views)?;
    Ok(Deed::Call {
        node,
        code,
        views,
        path,
    })
}

// What an event does.
fn deed_of(alloc: Global, event: &Event) -> Result<Deed, AllocError>
    ensures { IfOk result (λ d. seen_deed d ≡ seen event.now) }
{
    match event {
        Event::Copy { from, to, bytes } => Ok(Deed::Copy {
            from: *from,
            to: *to,
            bytes: *bytes,
        }),
        Event::Fill {
            to,
            elem,
            count,
            value,
        } => Ok(Deed::Fill {
            to: *to,
            elem: *elem,
            count: *count,
            value: *value,
        }),
        Event::Acc {
            op,
            elem,
            from,
            to,
            count,
        } => Ok(Deed::Acc {
            op: *op,
            elem: *elem,
            from: *from,
            to: *to,
            count: *count,
        }),
        Event::Leaf {
            node,
            code,
            views,
            path,
        } => call_of(alloc, *node, *code, views.as_slice(), path.as_slice()),
    }
}

// What an action does where it stands.
fn act_of(alloc: Global, action: &Action, env: &Env<'_>) -> Result<Deed, AllocError>
    ensures { IfOk result (λ d. seen_deed d ≡ words.event env.now.plan.now action.now (env_of env.now)) }
{
    let mut event = Event::untold();
    tell(action, env, &mut event);
    deed_of(alloc, &event)
}

/// Puts an action where it stands behind others.
pub(crate) fn put_action(
    alloc: Global,
    action: &Action,
    env: &Env<'_>,
    second: u32,
    entries: &mut Entries,
) -> Result<(), AllocError>
    ensures { OnOk result (seen_entries entries.new ≡ seen_entries entries.old ++ record {
      event =
          words.event env.now.plan.now action.now (env_of env.now);
      second = second;
    } ∷ []) }
{
    let deed = act_of(alloc, action, env)?;
    entries.push(Entry { deed, second })
}

/// The number behind so many more events. A plan with more than there are numbers is want of memory.
pub(crate) fn behind(second: u32, more: usize) -> Result<u32, AllocError>
    ensures { IfOk result (λ n. n ≡ second + more) }
{
    let Ok(more) = u32::try_from(more) else {
        return Err(AllocError);
    };
    match second.checked_add(more) {
        Some(second) => Ok(second),
        None => Err(AllocError),
    }
}
