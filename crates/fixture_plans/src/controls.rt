//! Controls of plans: which events are ready, in which orders they may be performed, and which trap counts.

ghost use Rattle.std.specs.Prelude.{◌<◌, ◌^◌};
ghost use Rattle.sq_ir.specs.Tree.{ready};

use crate::mixed::mixed;
use crate::turns::fills;
use crate::words::{rule_of, small, whole, word_at};
use sq_ir::{Trap, TrapKind};
use sq_leaf::Place;
use sq_sched::{Control, Event, Outcome};
use std::alloc::{AllocError, Global};
use std::fmt::Write;

/// The control of so many times so many fills of four bytes, on one memory.
pub fn filling(alloc: Global, outer: u32, inner: u64) -> Result<Control<Trap>, AllocError>
    requires { inner < 2 ^ 63 }
{
    let plan = fills(alloc, 16, outer, inner, 4)?;
    let control = Control::new(alloc, plan)?;
    Ok(control)
}

/// Tells steps of the control of a plan, both in words: `fills 1 1000` is a loop of 1,000 fills, and `cyclic 2 3 2 7 4`
/// has beside one another the leaf calls with the paths 7 and 4, three fills spread over two children, and two fills.
pub fn tell_steps(
    alloc: Global,
    plan: &str,
    steps: &str,
    out: &mut String,
) -> Result<(), AllocError> {
    let mut control = control_of(alloc, plan)?;
    let told = tell_all(&mut control, steps, out);
    drop(control);
    told
}

fn control_of(alloc: Global, plan: &str) -> Result<Control<Trap>, AllocError> {
    let name = word_at(plan, 0);
    let first = small(word_at(plan, 1));
    if name == "fills" {
        return filling(alloc, first, whole(word_at(plan, 2)).min(1 << 62));
    }
    mixed(
        alloc,
        rule_of(name),
        first,
        small(word_at(plan, 2)).min(13),
        small(word_at(plan, 3)).min(13),
        small(word_at(plan, 4)),
        small(word_at(plan, 5)),
    )
}

// How many events are ready, and then each step with what it tells and how many are ready behind it; at the end the trap.
fn tell_all(control: &mut Control<Trap>, steps: &str, out: &mut String) -> Result<(), AllocError> {
    let ready = control.ready();
    let nodes = control.plan().nodes.len();
    write!(out, " {nodes} nodes, {ready} ready")?;
    for word in steps.split_whitespace() {
        write!(out, ", {word}")?;
        let (name, count) = word.split_once(':').unwrap_or((word, "1"));
        for _ in 0..small(count) {
            step(control, name, out)?;
        }
        let ready = control.ready();
        write!(out, " {ready} ready")?;
    }
    tell_trap(control, out)
}

// A step, if an event is ready: `first` tells the first of them, and performs it unless it is a leaf call; `last` tells
// and performs the last; `done` ends the first, and `trap` too, by the cause 1 or 2 where it is a leaf call.
fn step(control: &mut Control<Trap>, name: &str, out: &mut String) -> Result<(), AllocError> {
    let ready = control.ready();
    if ready == 0 {
        return Ok(());
    }
    match name {
        "first" => {
            let mut event = Event::untold();
            control.step(0, &mut event);
            tell_event(&event, out)
        }
        "last" => {
            let event = control.event(ready - 1);
            control.done(ready - 1, Outcome::Finished);
            tell_event(&event, out)
        }
        "done" => {
            control.done(0, Outcome::Finished);
            Ok(())
        }
        _ => {
            trap(control, small(name));
            Ok(())
        }
    }
}

// The first event traps by a cause, where it is a leaf call.
fn trap(control: &mut Control<Trap>, cause: u32)
    requires { 0 < ready control.old.left }
{
    if let Event::Leaf { .. } = control.event(0) {
        let trap = Trap {
            kind: TrapKind::DivZero,
            place: Place {
                line: cause,
                col: 1,
            },
        };
        control.done(0, Outcome::Trapped(trap));
    }
}

// Of a fill its value and its first byte.
fn tell_event(event: &Event, out: &mut String) -> Result<(), AllocError> {
    match event {
        Event::Fill { to, value, .. } => {
            let at = to.at;
            write!(out, " {value}@{at}")
        }
        Event::Leaf { .. } => out.push_str(" leaf"),
        _ => out.push_str(" other"),
    }
}

fn tell_trap(control: &Control<Trap>, out: &mut String) -> Result<(), AllocError> {
    match control.ended() {
        None => Ok(()),
        Some(ended) => {
            let cause = ended.trap.place.line;
            let path = ended.path.as_slice();
            write!(out, ", trap {cause} at {path:?}")
        }
    }
}
