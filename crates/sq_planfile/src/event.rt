//! The line of an event.

ghost use Rattle.std.specs.Prelude.{◌≡◌, map, IfOk};
ghost use Rattle.sq_sched.specs.Words.{env_of, count};
ghost use Rattle.sq_ir.specs.declared.term.Action.TheVariants as action;
ghost use Rattle.sq_planfile.specs.Written as written;

use sq_ir::{Action, LeafView, Num, Slot};
use sq_plantext::{EventText, Naturals, SlotText, ViewText, ViewTexts};
use sq_sched::{Env, count_of};
use sqlite_items::Items;
use std::alloc::{AllocError, Global};

/// The same numbers as words of 64 bits.
pub(crate) fn naturals(alloc: Global, numbers: &[u32]) -> Result<Naturals, AllocError>
    ensures { IfOk result (λ ns. ns ≡ numbers.now) }
{
    let mut naturals = Items::new(alloc);
    for number in numbers {
        naturals.push(u64::from(*number))?;
    }
    Ok(naturals)
}

fn slot_text(slot: &Slot, env: &Env<'_>) -> SlotText
    ensures { result ≡ written.slot_text (λ n. count env.now.plan.now n (env_of env.now)) slot.now }
{
    SlotText {
        buffer: u64::from(slot.buffer),
        at: count_of(&slot.at, env),
    }
}

fn view_text(alloc: Global, view: &LeafView, env: &Env<'_>) -> Result<ViewText, AllocError>
    ensures { IfOk result (λ v. v ≡ written.view_text (λ n. count env.now.plan.now n (env_of env.now)) view.now) }
{
    let extents = naturals(alloc, view.extents.as_slice())?;
    let strides = naturals(alloc, view.strides.as_slice())?;
    Ok(ViewText {
        slot: slot_text(&view.slot, env),
        elem: view.elem,
        extents,
        strides,
    })
}

fn view_texts(alloc: Global, views: &[LeafView], env: &Env<'_>) -> Result<ViewTexts, AllocError>
    ensures { IfOk result (λ vs. vs ≡ map (written.view_text (λ n. count env.now.plan.now n (env_of env.now)))
        views.now) }
{
    let mut texts = Items::new(alloc);
    for view in views {
        let text = view_text(alloc, view, env)?;
        texts.push(text)?;
    }
    Ok(texts)
}

// The numbers of a path.
fn path_text(alloc: Global, path: &[Num], env: &Env<'_>) -> Result<Naturals, AllocError>
    ensures { IfOk result (λ ks. ks ≡ map (λ n. count env.now.plan.now n (env_of env.now)) path.now) }
{
    let mut numbers = Items::new(alloc);
    for number in path {
        numbers.push(count_of(number, env))?;
    }
    Ok(numbers)
}

fn call_text(
    alloc: Global,
    code: u32,
    views: &[LeafView],
    path: &[Num],
    env: &Env<'_>,
) -> Result<EventText, AllocError>
    ensures { IfOk result (λ e. e ≡ written.event_text (λ n. count env.now.plan.now n (env_of env.now))
        (action.Leaf code views.now path.now)) }
{
    let views = view_texts(alloc, views, env)?;
    let path = path_text(alloc, path, env)?;
    Ok(EventText::Run {
        leaf: u64::from(code),
        views,
        path,
    })
}

/// What the line of an action's event says where it stands.
pub(crate) fn event_text(
    alloc: Global,
    action: &Action,
    env: &Env<'_>,
) -> Result<EventText, AllocError>
    ensures { IfOk result (λ e. e ≡ written.event_text (λ n. count env.now.plan.now n (env_of env.now))
        action.now) }
{
    match action {
        Action::CopyRow { from, to, bytes } => Ok(EventText::Copy {
            from: slot_text(from, env),
            to: slot_text(to, env),
            bytes: u64::from(*bytes),
        }),
        Action::FillRow {
            to,
            elem,
            count,
            value,
        } => Ok(EventText::Fill {
            to: slot_text(to, env),
            elem: *elem,
            count: u64::from(*count),
            value: *value,
        }),
        Action::AccRow {
            op,
            elem,
            from,
            to,
            count,
        } => Ok(EventText::Acc {
            op: *op,
            elem: *elem,
            from: slot_text(from, env),
            to: slot_text(to, env),
            count: u64::from(*count),
        }),
        Action::Leaf { code, views, path } => {
            call_text(alloc, *code, views.as_slice(), path.as_slice(), env)
        }
    }
}
