//! Sums of a term's actions, each closed part summed once.

ghost use Rattle.std.specs.Prelude.{◌≡◌, ◌+◌, ◌*◌, ◌∷◌, ◌++◌, map, get_or, [], IfOk};
ghost use Rattle.sq_nests.specs.Stacks.{capped};
ghost use Rattle.sq_term_nums.specs.Words.{turns_of, env_of};
ghost use Rattle.sq_sums.specs.Counters.{toll_by};
ghost use Rattle.sq_sums.specs.Fans.{fans_inside};
ghost use Rattle.sq_sums.specs.Tolls.{all_sum, each_sum, arm_sum_of};
ghost use Rattle.sq_sums.specs.declared.flow.Flow.TheVariants as each;
ghost use Rattle.sq_sums.specs.Flows as flows;
ghost use Rattle.sq_sums.specs.Flows.{env_turns, flow_sum, flow_loops, most_loops, settle, flows_at, flow_of, asks};
ghost use Rattle.sq_sums.specs.Flows.{all_ask};

use crate::fans::{fan_at, fans_inside};
use crate::region::{greater, loops_in, names_children};
use crate::route::Number;
use crate::scale::capped_sum;
use crate::stand::arm_for;
use crate::toll::{Kind, toll, word};
use sq_ir::{Buffer, Num, Term};
use sq_term_nums::{Env, Turns, count_of};
use sqlite_items::{Boxed as Box, Items};
use std::alloc::{AllocError, Global};

/// A term whose closed parts are summed already. With a number stands how many children the node has at which it is
/// evaluated.
#[derive(Drop)]
pub(crate) enum Flow<'a> {
    Bytes(u64),
    Parts(Items<Flow<'a>>),
    Each(Number<'a>, u32, Box<Flow<'a>>),
    Arm(Number<'a>, u32, Items<Flow<'a>>),
}

/// What is summed of the actions on these buffers.
#[derive(Clone, Copy, Drop)]
pub(crate) struct Toll<'a> {
    pub(crate) buffers: &'a [Buffer],
    pub(crate) kind: Kind,
}

/// The iterations round a flow.
#[derive(Clone, Copy, Drop)]
pub(crate) struct Under<'a> {
    pub(crate) turns: &'a Turns<'a>,
}

// What numbers are evaluated with at a node with so many children.
fn env<'a>(at: &Under<'a>, children: u32) -> Env<'a>
    ensures { env_of result ≡ env_turns children (turns_of at.now.turns.now) }
{
    Env {
        turns: at.turns,
        children,
    }
}

/// The sum under some iterations.
#[cycle(summing)]
#[tactic(auto, using(crate::proofs::FlowForms::flow_forms))]
pub(crate) fn sum(flow: &Flow<'_>, at: &Under<'_>) -> u64
    ensures { result ≡ flow_sum flow.now (turns_of at.now.turns.now) }
{
    match flow {
        Flow::Bytes(bytes) => *bytes,
        Flow::Parts(parts) => sum_all(parts.as_slice(), at),
        Flow::Each(count, children, inside) => {
            let n = count_of(count.number(), &env(at, *children));
            sum_turns(inside.get(), n, at)
        }
        Flow::Arm(pick, children, arms) => {
            let i = arm_for(pick.number(), &env(at, *children), arms.len());
            sum_arm(arms.as_slice(), i, at)
        }
    }
}

#[cycle(summing)]
fn sum_all(parts: &[Flow<'_>], at: &Under<'_>) -> u64
    ensures { result ≡ capped (all_sum (map flow_sum parts.now) (turns_of at.now.turns.now)) }
{
    let mut total = 0;
    for part in parts {
        total = capped_sum(total, sum(part, at));
    }
    total
}

// So many iterations; of what is the same in each the product.
#[cycle(summing)]
fn sum_turns(inside: &Flow<'_>, n: u64, at: &Under<'_>) -> u64
    ensures { result ≡ capped (each_sum n (λ t. flow_sum inside.now (t ∷ turns_of at.now.turns.now)) 0) }
{
    match inside {
        Flow::Bytes(bytes) => product(n, *bytes),
        _ => sum_each(inside, n, at),
    }
}

#[cycle(summing)]
fn sum_each(inside: &Flow<'_>, n: u64, at: &Under<'_>) -> u64
    ensures { result ≡ capped (each_sum n (λ t. flow_sum inside.now (t ∷ turns_of at.now.turns.now)) 0) }
{
    let mut total = 0;
    for i in 0..n {
        let turns = Turns::Link(i, at.turns);
        let inner = Under { turns: &turns };
        total = capped_sum(total, sum(inside, &inner));
    }
    total
}

// The arm of a number, if there is one.
#[cycle(summing)]
fn sum_arm(arms: &[Flow<'_>], i: usize, at: &Under<'_>) -> u64
    ensures { result ≡ arm_sum_of (map flow_sum arms.now) i (turns_of at.now.turns.now) }
{
    if i < arms.len() { sum(&arms[i], at) } else { 0 }
}

fn product(a: u64, b: u64) -> u64
    ensures { result ≡ capped (a * b) }
{
    a.saturating_mul(b)
}

// How many of the loops round it a flow may name.
#[cycle(counting)]
#[tactic(auto, using(crate::proofs::FlowForms::loops_forms))]
fn flow_loops(flow: &Flow<'_>) -> u64
    ensures { result ≡ flow_loops flow.now }
{
    match flow {
        Flow::Bytes(_) => 0,
        Flow::Parts(parts) => most_loops(parts.as_slice()),
        Flow::Each(count, _, inside) => greater(
            loops_in(count.number()),
            flow_loops(inside.get()).saturating_sub(1),
        ),
        Flow::Arm(pick, _, arms) => greater(loops_in(pick.number()), most_loops(arms.as_slice())),
    }
}

#[cycle(counting)]
fn most_loops(parts: &[Flow<'_>]) -> u64
    ensures { result ≡ most_loops (map flow_loops parts.now) }
{
    let mut most = 0;
    for part in parts {
        most = greater(most, flow_loops(part));
    }
    most
}

// A flow, summed where it names no loop outside.
fn settle(flow: Flow<'_>) -> Flow<'_>
    ensures { result ≡ settle flow.entry }
{
    if flow_loops(&flow) == 0 {
        let turns = Turns::Root;
        let at = Under { turns: &turns };
        let bytes = sum(&flow, &at);
        return Flow::Bytes(bytes);
    }
    flow
}

/// The flow of a term, at a node of which and of the levels below it so many children are told.
#[cycle(making)]
#[tactic(auto, using(crate::proofs::FlowOfForms::flow_of_forms))]
pub(crate) fn flow_of<'a>(
    alloc: Global,
    on: &Toll<'_>,
    fans: &[u32],
    t: &'a Term,
) -> Result<Flow<'a>, AllocError>
    ensures { IfOk result (λ g. g ≡ flow_of (toll_by on.now) t.now fans.now) }
{
    match t {
        Term::Skip => Ok(Flow::Bytes(0)),
        Term::Act(action) => Ok(Flow::Bytes(word(toll(on.buffers, on.kind, action)))),
        Term::Seq(ts) => {
            let parts = flows_of(alloc, on, fans, ts.as_slice())?;
            Ok(settle(Flow::Parts(parts)))
        }
        Term::Par(ts) => {
            let parts = flows_of(alloc, on, fans, ts.as_slice())?;
            Ok(settle(Flow::Parts(parts)))
        }
        Term::Loop { count, body } => each_of(alloc, on, fans, count, body.get()),
        Term::Spread {
            count,
            rule: _,
            body,
        } => each_of(alloc, on, fans, count, body.get()),
        Term::Case { pick, arms } => {
            let arms = flows_of(alloc, on, fans, arms.as_slice())?;
            Ok(settle(Flow::Arm(Number::new(pick), fan_at(fans, 0), arms)))
        }
        Term::Within {
            child,
            buffers: _,
            body,
        } => flow_of(alloc, on, fans_inside(fans, child), body.get()),
    }
}

#[cycle(making)]
fn flows_of<'a>(
    alloc: Global,
    on: &Toll<'_>,
    fans: &[u32],
    ts: &'a [Term],
) -> Result<Items<Flow<'a>>, AllocError>
    ensures { IfOk result (λ gs. gs ≡ flows_at (map (flow_of (toll_by on.now)) ts.now) fans.now) }
{
    let mut flows = Items::new(alloc);
    for t in ts {
        let flow = flow_of(alloc, on, fans, t)?;
        flows.push(flow)?;
    }
    Ok(flows)
}

#[cycle(making)]
fn each_of<'a>(
    alloc: Global,
    on: &Toll<'_>,
    fans: &[u32],
    count: &'a Num,
    body: &'a Term,
) -> Result<Flow<'a>, AllocError>
    ensures { IfOk result (λ g. g ≡ flows.settle (each.Each count.now (get_or fans.now 0 0)
        (flow_of (toll_by on.now) body.now fans.now))) }
{
    let inside = flow_of(alloc, on, fans, body)?;
    let inside = Box::new(alloc, inside)?;
    Ok(settle(Flow::Each(Number::new(count), fan_at(fans, 0), inside)))
}

/// Whether a count or a pick of a term asks for the number of children.
#[cycle(asking)]
#[tactic(auto, using(crate::proofs::FlowOfForms::asks_forms))]
pub(crate) fn asks(t: &Term) -> bool
    ensures { result ≡ asks t.now }
{
    match t {
        Term::Skip => false,
        Term::Act(_) => false,
        Term::Seq(ts) => any_asks(ts.as_slice()),
        Term::Par(ts) => any_asks(ts.as_slice()),
        Term::Loop { count, body } => names_children(count) || asks(body.get()),
        Term::Spread {
            count,
            rule: _,
            body,
        } => names_children(count) || asks(body.get()),
        Term::Case { pick, arms } => names_children(pick) || any_asks(arms.as_slice()),
        Term::Within {
            child: _,
            buffers: _,
            body,
        } => asks(body.get()),
    }
}

#[cycle(asking)]
fn any_asks(ts: &[Term]) -> bool
    ensures { result ≡ all_ask ts.now }
{
    for t in ts {
        if asks(t) {
            return true;
        }
    }
    false
}
