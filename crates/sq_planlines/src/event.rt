//! The actions of events.

ghost use Rattle.std.specs.Prelude.{◌≡◌, map, IfOk};
ghost use Rattle.sq_planlines.specs.Narrow as narrow;
ghost use Rattle.sq_plantext.specs.declared.text.EventText.TheVariants as event;

use crate::words::{dims_of, long, word};
use sq_ir::{Action, LeafView, LeafViews, Num, Nums, Slot};
use sq_plantext::{EventText, SlotText, ViewText};
use sqlite_items::Items;
use std::alloc::{AllocError, Global};

fn slot_of(slot: &SlotText) -> Slot
    ensures { result ≡ narrow.slot_of slot.now }
{
    Slot {
        buffer: word(slot.buffer),
        at: Num::Const(long(slot.at)),
    }
}

fn view_of(view: &ViewText) -> LeafView
    ensures { result ≡ narrow.view_of view.now }
{
    LeafView {
        slot: slot_of(&view.slot),
        elem: view.elem,
        extents: dims_of(view.extents.as_slice()),
        strides: dims_of(view.strides.as_slice()),
    }
}

fn views_of(alloc: Global, texts: &[ViewText]) -> Result<LeafViews, AllocError>
    ensures { IfOk result (λ vs. vs ≡ map narrow.view_of texts.now) }
{
    let mut views = Items::new(alloc);
    for text in texts {
        views.push(view_of(text))?;
    }
    Ok(views)
}

fn path_of(alloc: Global, numbers: &[u64]) -> Result<Nums, AllocError>
    ensures { IfOk result (λ ns. ns ≡ map narrow.constant numbers.now) }
{
    let mut path = Items::new(alloc);
    for number in numbers {
        path.push(Num::Const(long(*number)))?;
    }
    Ok(path)
}

fn call_of(alloc: Global, leaf: u64, views: &[ViewText], path: &[u64]) -> Result<Action, AllocError>
    ensures { IfOk result (λ a. a ≡ narrow.action_of (event.Run leaf views.now path.now)) }
{
    let views = views_of(alloc, views)?;
    let path = path_of(alloc, path)?;
    Ok(Action::Leaf {
        code: word(leaf),
        views,
        path,
    })
}

/// What an event does.
pub fn action_of(alloc: Global, text: &EventText) -> Result<Action, AllocError>
    ensures { IfOk result (λ a. a ≡ narrow.action_of text.now) }
{
    match text {
        EventText::Copy { from, to, bytes } => Ok(Action::CopyRow {
            from: slot_of(from),
            to: slot_of(to),
            bytes: word(*bytes),
        }),
        EventText::Fill {
            to,
            elem,
            count,
            value,
        } => Ok(Action::FillRow {
            to: slot_of(to),
            elem: *elem,
            count: word(*count),
            value: *value,
        }),
        EventText::Acc {
            op,
            elem,
            from,
            to,
            count,
        } => Ok(Action::AccRow {
            op: *op,
            elem: *elem,
            from: slot_of(from),
            to: slot_of(to),
            count: word(*count),
        }),
        EventText::Run { leaf, views, path } => {
            call_of(alloc, *leaf, views.as_slice(), path.as_slice())
        }
    }
}
