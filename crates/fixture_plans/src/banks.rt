//! Runs of plans on banks: what they leave in the root, their traps, their traces, and the events that a bank tells.

ghost use Rattle.std.specs.Prelude.{IfOk};
ghost use Rattle.sq_ir.specs.Plans.{IsGood};
ghost use Rattle.sq_ir.specs.DraftLeaves.{leaves_of};

use crate::lanes::three_lanes;
use crate::leaf::int_leaf;
use crate::runs::{Ran, run_on};
use crate::turns::fills;
use crate::words::{rule_of, small, whole, word_at};
use fixture_cases::Case;
use sq_ir::Plan;
use sq_port::{FirstOrder, LastOrder, ListOrder, MemSink, Order, Picks, SeedOrder};
use sq_tree::{Bank, LogBank, RunEnd, put_event};
use std::alloc::{AllocError, Global};
use std::fmt::Write;
use std::rc::Rc;

// Its division is at column 46.
const LEAF: &[u8] = b"task share::leaf(inout int X[1]) { X[0] = 12 / X[0]; }";

// An order that answers the greatest number each time.
#[derive(Drop)]
struct GreatestOrder;

impl Order for GreatestOrder {
    ghost use Rattle.std.specs.Prelude.{Some, [], ◌^◌, ◌-◌};

    ghost held = { λ o. Some [] };

    ghost answer = { λ h ready. 2 ^ 64 - 1 };

    ghost next = { λ h ready. [] };

    fn pick(&mut self, _ready: u64) -> u64 {
        u64::MAX
    }
}

// `fills 16 3` is a memory of 16 bytes whose first four are filled three times, `cyclic` and `blocked` are three
// iterations that are spread so.
fn plan_of(alloc: Global, words: &str) -> Result<Rc<Plan>, AllocError>
    ensures { IfOk result (λ p. IsGood (leaves_of p.value.draft) p.value) }
{
    let name = word_at(words, 0);
    if name == "fills" {
        let size = whole(word_at(words, 1)).max(4).min(1 << 30);
        let plan = fills(alloc, size, small(word_at(words, 2)), 1, 4)?;
        return Ok(plan);
    }
    match int_leaf(alloc, b"share", LEAF)? {
        Some(leaf) => {
            let plan = three_lanes(alloc, rule_of(name), leaf)?;
            Ok(plan)
        }
        None => Err(AllocError),
    }
}

// The numbers behind the first word.
fn picks(alloc: Global, text: &str) -> Result<Picks, AllocError> {
    let mut picks = Vec::new(alloc);
    for word in text.split_whitespace().skip(1) {
        picks.push(small(word))?;
    }
    Ok(Picks::new(picks))
}

fn run_by<B: Bank, O: Order>(
    alloc: Global,
    case: &Case,
    bank: &mut B,
    order: &mut O,
    trace: &mut MemSink,
) -> Result<Ran, AllocError> {
    let plan = plan_of(alloc, case.words("plan"))?;
    let start = case.text("start").unwrap_or(b"");
    run_on(alloc, plan, start, bank, order, true, trace)
}

// Runs the plan of a case in its order.
fn run_case<B: Bank>(
    alloc: Global,
    case: &Case,
    bank: &mut B,
    trace: &mut MemSink,
) -> Result<Ran, AllocError> {
    let order = case.words("order");
    match word_at(order, 0) {
        "last" => run_by(alloc, case, bank, &mut LastOrder, trace),
        "greatest" => run_by(alloc, case, bank, &mut GreatestOrder, trace),
        "seed" => {
            let mut seed = SeedOrder::new(whole(word_at(order, 1)));
            run_by(alloc, case, bank, &mut seed, trace)
        }
        "list" => {
            let mut list = ListOrder::new(picks(alloc, order)?);
            run_by(alloc, case, bank, &mut list, trace)
        }
        _ => run_by(alloc, case, bank, &mut FirstOrder, trace),
    }
}

/// Runs a case on a bank, and tells the root's bytes behind it or why it ended, and its trace, where it is asked for.
pub fn tell_run<B: Bank>(
    alloc: Global,
    case: &Case,
    bank: &mut B,
    out: &mut String,
) -> Result<(), AllocError> {
    let mut trace = MemSink::new(alloc, 1_000)?;
    trace.fail_at(whole(case.words("fail")));
    let ran = run_case(alloc, case, bank, &mut trace)?;
    tell_end(&ran, out)?;
    if case.text("traced").is_some() {
        tell_text(&trace, out)?;
    }
    Ok(())
}

fn tell_end(ran: &Ran, out: &mut String) -> Result<(), AllocError> {
    match &ran.end {
        Ok(()) => {
            let root = ran.root.as_slice();
            write!(out, " {root:?}\n")
        }
        Err(RunEnd::Trapped { trap, path }) => {
            let path = path.as_slice();
            write!(out, " {trap:?} {path:?}\n")
        }
        Err(RunEnd::SinkFault) => out.push_str(" a put failed\n"),
    }
}

fn tell_text(text: &MemSink, out: &mut String) -> Result<(), AllocError> {
    out.push_str(str::from_utf8(text.written()).unwrap_or("?"))
}

/// The same on a bank that has room for so many events as the case says, and the lines of those that it tells.
pub fn tell_logged(alloc: Global, case: &Case, out: &mut String) -> Result<(), AllocError> {
    let mut bank = LogBank::new(alloc, small(case.words("room")) as usize)?;
    tell_run(alloc, case, &mut bank, out)?;
    let plan = plan_of(alloc, case.words("plan"))?;
    tell_events(alloc, &plan, &bank, out)
}

fn tell_events(
    alloc: Global,
    plan: &Plan,
    bank: &LogBank,
    out: &mut String,
) -> Result<(), AllocError> {
    let Some(events) = bank.events() else {
        return out.push_str("untold\n");
    };
    let mut told = MemSink::new(alloc, 1_000)?;
    for event in events {
        if put_event(&mut told, plan, event).is_err() {
            return Err(AllocError);
        }
    }
    out.push_str("told\n")?;
    tell_text(&told, out)
}
