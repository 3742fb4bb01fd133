//! The run of a plan on a bank, in the order that is asked.
ghost use Rattle.std.specs.Prelude.{◌≡◌, ◌<◌, ◌≤◌, if◌then◌else◌, None, Some, Ok, true, false, []};
ghost use Rattle.sq_port.specs.Ports.{Wrote};
ghost use Rattle.sq_port.specs.Lines.{nothing_gathered};
ghost use Rattle.sq_tree.specs.Trace.{event_line};
ghost use Rattle.sq_ir.specs.Tree.{ready, event_at, rest_at};
ghost use Rattle.sq_ir.specs.Plans.{tree_of, IsGood};
ghost use Rattle.sq_ir.specs.Runs.{least};
ghost use Rattle.sq_sched.specs.Seen.{seen};
ghost use Rattle.sq_sched.specs.Ends.{is_call};
ghost use Rattle.sq_sched.specs.Rests.{trap_of, has_trapped, MayEnd};
ghost use Rattle.sq_tree.specs.Bank.{IsPrepared, IsAsked, Performs, TrapsAs, bytes_in, leaves_in};
ghost use Rattle.sq_tree.specs.Runs.{answer_of, state_of, HasRun, HasTrace, Tells, TellsFirst, KeepsRoom, is_stopped};
ghost use Rattle.sq_tree.specs.Runs.{IsStep, MayPerform, AreSmall};

use crate::bank::Bank;
use crate::trace::put_line;
use sq_ir::Plan;
use sq_leaf::Trap;
use sq_port::{Failed, Line, Order, Sink};
use sq_rect::Path;
use sq_sched::{Control, Ended, Event, Outcome};

/// How a run ends that is not done.
#[derive(Drop)]
pub enum RunEnd {
    /// Leaf calls trapped; this is the trap with the least path.
    Trapped { trap: Trap, path: Path },
    /// A put to the trace failed.
    SinkFault,
}

// Performs an event on a bank.
fn perform<B: Bank>(bank: &mut B, event: &Event) -> Outcome<Trap>
    requires asked { IsAsked (seen event.now) (B.seen bank.old) }
    requires small { AreSmall (B.seen bank.old) }
    ensures performs { Performs (seen event.now) (B.seen bank.old) (B.seen bank.new) }
    ensures traps { TrapsAs (seen event.now) (B.seen bank.old) (trap_of (Some (seen event.now)) result) }
    ensures may { MayEnd (Some (seen event.now)) result }
{
    match event {
        Event::Copy { from, to, bytes } => {
            bank.copy_row(*from, *to, *bytes);
            Outcome::Finished
        }
        Event::Fill {
            to,
            elem,
            count,
            value,
        } => {
            let value = *value;
            bank.fill_row(*to, *elem, *count, value);
            Outcome::Finished
        }
        Event::Acc {
            op,
            elem,
            from,
            to,
            count,
        } => {
            bank.acc_row(*op, *elem, *from, *to, *count);
            Outcome::Finished
        }
        Event::Leaf {
            node,
            code,
            views,
            path,
        } => match bank.leaf(*node, *code, views, path) {
            Ok(()) => Outcome::Finished,
            Err(trap) => Outcome::Trapped(trap),
        },
    }
}

// Whether it is a leaf call.
fn is_call(event: &Event) -> bool
    ensures { result ≡ is_call (seen event.now) }
{
    match event {
        Event::Leaf { .. } => true,
        _ => false,
    }
}

// Tells the control how an event that it has told ended: it waits for that of leaf calls alone.
fn end_call(ctl: &mut Control<Trap>, k: u64, event: &Event, outcome: Outcome<Trap>)
    requires there { is_call (seen event.now) ≡ true → k < ready ctl.old.left }
    requires may { is_call (seen event.now) ≡ true → MayEnd (event_at ctl.old.left k) outcome }
    ensures left { ctl.new.left ≡ (if is_call (seen event.now) then rest_at ctl.old.left k (has_trapped outcome)
        else ctl.old.left) }
    ensures ended { ctl.new.ended ≡ (if is_call (seen event.now) then
        least ctl.old.ended (trap_of (event_at ctl.old.left k) outcome) else ctl.old.ended) }
    ensures plan { ctl.new.plan ≡ ctl.old.plan }
{
    if is_call(event) {
        ctl.done(k, outcome);
    }
}

// Performs one of the ready events, of which there are some, and tells it.
fn step<B: Bank, O: Order>(
    bank: &mut B,
    ctl: &mut Control<Trap>,
    order: &mut O,
    count: u64,
    event: &mut Event,
)
    requires some { (count ≡ ready ctl.old.left) × (0 < count) }
    requires may { MayPerform ctl.old (B.seen bank.old) }
    ensures { IsStep O.answer O.next (O.held order.old) (O.held order.new) (B.seen bank.old) (B.seen bank.new) ctl.old
        ctl.new (seen event.new) }
{
    let k = order.pick(count) % count;
    ctl.step(k, event);
    let outcome = perform(bank, event);
    end_call(ctl, k, event, outcome);
}

// Puts the line of an event, where a trace is asked for.
fn put_traced<S: Sink>(
    traced: bool,
    line: &mut Line,
    trace: &mut S,
    plan: &Plan,
    event: &Event,
) -> Result<(), Failed>
    requires { line.old ≡ nothing_gathered }
    ensures asked { traced ≡ true → Wrote (S.written trace.old) (S.written trace.new) (S.faults trace.old)
        (S.faults trace.new) (event_line plan.now (seen event.now)) result }
    ensures unasked { traced ≡ false → (trace.new ≡ trace.old) × (result ≡ Ok tt) }
    ensures empty { line.new ≡ record { held = []; put = result } }
    ensures later { S.faults trace.old ≤ S.faults trace.new }
{
    if traced {
        put_line(line, trace, plan, event)
    } else {
        Ok(())
    }
}

// The answer of a run that has ended.
fn answer(ended: Option<Ended<Trap>>) -> Result<(), RunEnd>
    ensures { result ≡ answer_of ended }
{
    match ended {
        None => Ok(()),
        Some(Ended { trap, path }) => Err(RunEnd::Trapped { trap, path }),
    }
}

/// Runs a plan on a bank. Each turn asks the order once, takes its answer modulo the number of ready events, performs
/// that event and then, where it is asked for, puts its line to the trace. It takes no memory. Whatever the order
/// answers, the run ends as the run under picks 0: with its trap, or with none and then with its bytes. The answer is
/// that of the control it leaves, which names the trap with the least path of those that were met.
pub fn run<B: Bank, O: Order, S: Sink>(
    bank: &mut B,
    ctl: &mut Control<Trap>,
    order: &mut O,
    traced: bool,
    trace: &mut S,
) -> Result<(), RunEnd>
    requires good { IsGood (leaves_in ctl.old.plan) ctl.old.plan }
    requires begun { (ctl.old.left ≡ tree_of ctl.old.plan) × (ctl.old.ended ≡ None) }
    requires prepared { IsPrepared ctl.old.plan (B.seen bank.old) }
    ensures ran { HasRun O.answer O.next (O.held order.old) (O.held order.new) ctl.old.plan
        (B.seen bank.old) (B.seen bank.new) ctl.new
        (λ events. traced ≡ true → HasTrace ctl.old.plan (S.written trace.old) (S.written trace.new)
        (S.faults trace.old) (S.faults trace.new) (is_stopped result) events) }
    ensures over { is_stopped result ≡ false → ready ctl.new.left ≡ 0 }
    ensures own { Tells (bytes_in (B.seen bank.new).nodes) (state_of (B.seen bank.new) ctl.new) result }
    ensures tells { TellsFirst ctl.old.plan (bytes_in (B.seen bank.old).nodes)
        (bytes_in (B.seen bank.new).nodes) result }
    ensures room { KeepsRoom ctl.old.plan (bytes_in (B.seen bank.old).nodes) }
    ensures untraced { traced ≡ false → (trace.new ≡ trace.old) × (is_stopped result ≡ false) }
    ensures plan { ctl.new.plan ≡ ctl.old.plan }
    ensures later { S.faults trace.old ≤ S.faults trace.new }
{
    let mut line = Line::new();
    let mut event = Event::untold();
    loop {
        let ready = ctl.ready();
        if ready == 0 {
            return answer(ctl.ended());
        }
        step(bank, ctl, order, ready, &mut event);
        match put_traced(traced, &mut line, trace, ctl.plan(), &event) {
            Ok(()) => {}
            Err(_) => return Err(RunEnd::SinkFault),
        }
    }
}
