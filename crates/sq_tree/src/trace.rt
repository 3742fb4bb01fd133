//! The lines of a trace.
ghost use Rattle.std.specs.Prelude.{◌≡◌, ◌++◌, ◌*◌, ◌≤◌, ℕ, List, [], take};
ghost use Rattle.sq_num.specs.Elements.{width};
ghost use Rattle.sq_leaf.specs.Ast.Canonical.{reduction_text};
ghost use Rattle.sq_ir.specs.Traffic.{level_in};
ghost use Rattle.sq_port.specs.Ports.{Wrote};
ghost use Rattle.sq_port.specs.Lines.{Gathers, nothing_gathered};
ghost use Rattle.sq_sched.specs.Seen.{seen, seen_spot};
ghost use Rattle.sq_tree.specs.Trace.{count_at, index_in, node_text, spot_text, instance_of};
ghost use Rattle.sq_tree.specs.Trace.{copy_line, fill_line, accumulate_line, leaf_line, event_line};
ghost use Rattle.sq_tree.specs.Routes.{route_of};

use sq_ir::{Plan, PlanNode};
use sq_num::{Elem, RedOp};
use sq_port::{Failed, Line, Sink};
use sq_sched::{Event, Spot};

// Two rows of so many bytes, of which one goes to the other.
#[derive(Clone, Copy, Drop)]
pub(crate) struct Route {
    from: Spot,
    to: Spot,
    bytes: u64,
}

/// The level of a node; of one that is not there it is 0.
#[tactic(auto, using(crate::proofs::Nodes::past))]
pub(crate) fn level_of(plan: &Plan, node: u32) -> u32
    ensures { result ≡ level_in plan.now.nodes node }
{
    let nodes = plan.nodes.as_slice();
    let node = node as usize;
    if node < nodes.len() {
        nodes[node].level
    } else {
        0
    }
}

/// How many bytes a row of so many elements has.
pub(crate) fn row_bytes(elem: Elem, count: u32) -> u64
    ensures { result ≡ count * width elem }
{
    match elem {
        Elem::Byte => u64::from(count),
        Elem::Int => u64::from(count) * 4,
        Elem::Long => u64::from(count) * 8,
    }
}

// How many of these nodes stand at the level.
fn count_at(level: u32, nodes: &[PlanNode]) -> u64
    ensures { result ≡ count_at level nodes.now }
{
    let mut count = 0u64;
    for node in nodes {
        if node.level == level {
            count += 1;
        }
    }
    count
}

// These nodes as far as the number goes.
fn first_nodes(nodes: &[PlanNode], end: usize) -> &[PlanNode]
    ensures { result.now ≡ take end nodes.now }
{
    if end < nodes.len() {
        &nodes[..end]
    } else {
        nodes
    }
}

// The number of a node among those of its level.
fn index_of(plan: &Plan, node: u32) -> u64
    ensures { result ≡ index_in plan.now.nodes node }
{
    count_at(
        level_of(plan, node),
        first_nodes(plan.nodes.as_slice(), node as usize),
    )
}

// The operator as programs write it.
fn sign(op: RedOp) -> &'static [u8]
    ensures { result.now ≡ reduction_text op }
{
    match op {
        RedOp::Add => b"+",
        RedOp::Mul => b"*",
        RedOp::Min => b"min",
        RedOp::Max => b"max",
        RedOp::And => b"&",
        RedOp::Or => b"|",
        RedOp::Xor => b"^",
    }
}

// The name of the instance of a leaf.
fn instance(plan: &Plan, code: u32) -> &[u8]
    ensures { result.now ≡ instance_of plan.now code }
{
    match plan.draft.leaves.get(code as usize) {
        Some(leaf) => leaf.instance.bytes(),
        None => &[],
    }
}

fn add_node<S: Sink>(line: &mut Line, sink: &mut S, plan: &Plan, node: u32)
    ensures later { S.faults sink.old ≤ S.faults sink.new }
    ensures gathers { (start : _) (faults : ℕ) (text : List ℕ) →
        Gathers start (S.written sink.old) faults (S.faults sink.old) text line.old →
        Gathers start (S.written sink.new) faults (S.faults sink.new) (text ++ node_text plan.now.nodes node) line.new }
{
    line.add_number(sink, u64::from(level_of(plan, node)));
    line.add(sink, b".");
    line.add_number(sink, index_of(plan, node));
}

fn add_spot<S: Sink>(line: &mut Line, sink: &mut S, plan: &Plan, spot: Spot)
    ensures later { S.faults sink.old ≤ S.faults sink.new }
    ensures gathers { (start : _) (faults : ℕ) (text : List ℕ) →
        Gathers start (S.written sink.old) faults (S.faults sink.old) text line.old →
        Gathers start (S.written sink.new) faults (S.faults sink.new)
        (text ++ spot_text plan.now.nodes (seen_spot spot)) line.new }
{
    add_node(line, sink, plan, spot.node);
    line.add(sink, b":");
    line.add_number(sink, u64::from(spot.at));
}

fn add_route<S: Sink>(line: &mut Line, sink: &mut S, plan: &Plan, route: Route)
    ensures later { S.faults sink.old ≤ S.faults sink.new }
    ensures gathers { (start : _) (faults : ℕ) (text : List ℕ) →
        Gathers start (S.written sink.old) faults (S.faults sink.old) text line.old →
        Gathers start (S.written sink.new) faults (S.faults sink.new) (text ++ route_of plan.now.nodes route) line.new }
{
    add_spot(line, sink, plan, route.from);
    line.add(sink, b" ");
    add_spot(line, sink, plan, route.to);
    line.add(sink, b" ");
    line.add_number(sink, route.bytes);
}

fn put_copy<S: Sink>(line: &mut Line, sink: &mut S, plan: &Plan, route: Route) -> Result<(), Failed>
    requires { line.old ≡ nothing_gathered }
    ensures later { S.faults sink.old ≤ S.faults sink.new }
    ensures wrote { Wrote (S.written sink.old) (S.written sink.new) (S.faults sink.old) (S.faults sink.new)
        (copy_line (route_of plan.now.nodes route)) result }
    ensures empty { line.new ≡ record { held = []; put = result } }
{
    line.add(sink, b"copy ");
    add_route(line, sink, plan, route);
    line.add(sink, b"\n");
    line.put(sink)
}

fn put_acc<S: Sink>(
    line: &mut Line,
    sink: &mut S,
    plan: &Plan,
    op: RedOp,
    route: Route,
) -> Result<(), Failed>
    requires { line.old ≡ nothing_gathered }
    ensures later { S.faults sink.old ≤ S.faults sink.new }
    ensures wrote { Wrote (S.written sink.old) (S.written sink.new) (S.faults sink.old) (S.faults sink.new)
        (accumulate_line op (route_of plan.now.nodes route)) result }
    ensures empty { line.new ≡ record { held = []; put = result } }
{
    line.add(sink, b"acc ");
    line.add(sink, sign(op));
    line.add(sink, b" ");
    add_route(line, sink, plan, route);
    line.add(sink, b"\n");
    line.put(sink)
}

fn put_fill<S: Sink>(
    line: &mut Line,
    sink: &mut S,
    plan: &Plan,
    to: Spot,
    bytes: u64,
) -> Result<(), Failed>
    requires { line.old ≡ nothing_gathered }
    ensures later { S.faults sink.old ≤ S.faults sink.new }
    ensures wrote { Wrote (S.written sink.old) (S.written sink.new) (S.faults sink.old) (S.faults sink.new)
        (fill_line plan.now.nodes (seen_spot to) bytes) result }
    ensures empty { line.new ≡ record { held = []; put = result } }
{
    line.add(sink, b"fill ");
    add_spot(line, sink, plan, to);
    line.add(sink, b" ");
    line.add_number(sink, bytes);
    line.add(sink, b"\n");
    line.put(sink)
}

fn put_leaf<S: Sink>(
    line: &mut Line,
    sink: &mut S,
    plan: &Plan,
    node: u32,
    code: u32,
) -> Result<(), Failed>
    requires { line.old ≡ nothing_gathered }
    ensures later { S.faults sink.old ≤ S.faults sink.new }
    ensures wrote { Wrote (S.written sink.old) (S.written sink.new) (S.faults sink.old) (S.faults sink.new)
        (leaf_line plan.now node code) result }
    ensures empty { line.new ≡ record { held = []; put = result } }
{
    line.add(sink, b"leaf ");
    add_node(line, sink, plan, node);
    line.add(sink, b" ");
    line.add(sink, instance(plan, code));
    line.add(sink, b"\n");
    line.put(sink)
}

/// Puts the line of an event by a line that holds nothing back before and after it.
pub(crate) fn put_line<S: Sink>(
    line: &mut Line,
    sink: &mut S,
    plan: &Plan,
    event: &Event,
) -> Result<(), Failed>
    requires { line.old ≡ nothing_gathered }
    ensures later { S.faults sink.old ≤ S.faults sink.new }
    ensures wrote { Wrote (S.written sink.old) (S.written sink.new) (S.faults sink.old) (S.faults sink.new)
        (event_line plan.now (seen event.now)) result }
    ensures empty { line.new ≡ record { held = []; put = result } }
{
    match event {
        Event::Copy { from, to, bytes } => {
            let bytes = u64::from(*bytes);
            put_copy(
                line,
                sink,
                plan,
                Route {
                    from: *from,
                    to: *to,
                    bytes,
                },
            )
        }
        Event::Fill {
            to,
            elem,
            count,
            ..
        } => put_fill(line, sink, plan, *to, row_bytes(*elem, *count)),
        Event::Acc {
            op,
            elem,
            from,
            to,
            count,
        } => {
            let bytes = row_bytes(*elem, *count);
            put_acc(
                line,
                sink,
                plan,
                *op,
                Route {
                    from: *from,
                    to: *to,
                    bytes,
                },
            )
        }
        Event::Leaf { node, code, .. } => put_leaf(line, sink, plan, *node, *code),
    }
}

/// Puts the trace line of an event of a plan.
pub fn put_event<S: Sink>(sink: &mut S, plan: &Plan, event: &Event) -> Result<(), Failed>
    ensures later { S.faults sink.old ≤ S.faults sink.new }
    ensures wrote { Wrote (S.written sink.old) (S.written sink.new) (S.faults sink.old) (S.faults sink.new)
        (event_line plan.now (seen event.now)) result }
{
    let mut line = Line::new();
    put_line(&mut line, sink, plan, event)
}
