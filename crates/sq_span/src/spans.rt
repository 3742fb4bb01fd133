//! The heaviest chain of a plan.

ghost use Rattle.std.specs.Prelude.{◌≡◌, ◌++◌, [], map, IfOk};
ghost use Rattle.std.specs.List.{All};
ghost use Rattle.sq_text.specs.Answers.{Answers};
ghost use Rattle.sq_ir.specs.Events.{Leaves};
ghost use Rattle.sq_ir.specs.Plans.{tree_of, IsWellFormed};
ghost use Rattle.sq_sched.specs.Words.{fans_of};
ghost use Rattle.sq_sched.specs.Shapes.{written};
ghost use Rattle.sq_sched.specs.Forms.{plan_form};
ghost use Rattle.sq_costs.specs.Costs.{IsCost};
ghost use Rattle.sq_span.specs.Chains.{IsHeaviest};
ghost use Rattle.sq_span.specs.Hefts.{heft};
ghost use Rattle.sq_span.specs.Chosen.{chosen};
ghost use Rattle.sq_span.specs.Spans as spec;
ghost use Rattle.sq_span.specs.Spans.{seen_link, events_of, IsSpan, EventsFault};
ghost use Rattle.sq_span.specs.Weights.{event_weight};

use crate::chain::collect;
use crate::heft::Heft;
use crate::walk::weigh;
use sq_costs::Costs;
use sq_ir::Plan;
use sq_sched::{Chain, Env, Event, fans_of};
use sq_text::{Code, Fault, Phase, Stop};
use sqlite_items::Items;
use std::alloc::{AllocError, Global};

/// An event of a chain, and what it weighs.
#[derive(Drop)]
pub struct Link {
    pub weight: u128,
    pub event: Event,
}

pub type Links = Items<Link>;

/// A heaviest chain of a plan, what it weighs, and how many events the plan has.
#[derive(Drop)]
pub struct Span {
    pub total: u128,
    pub events: u64,
    pub chain: Links,
}

// No cost is over its limit.
fn costs_are_small(costs: &Costs)
    ensures { All IsCost costs.now }
{
    costs.as_slice();
}

// The heft of a plan.
fn weigh_plan(plan: &Plan, fans: &[u32], costs: &Costs) -> Option<Heft>
    requires { fans.now ≡ fans_of plan.now.nodes }
    ensures { result ≡ heft (event_weight plan.now.nodes costs.now) (written (plan_form plan.now)) }
{
    let top = Chain::Root;
    let nodes = Chain::Link(0, &top);
    let env = Env {
        plan,
        turns: &top,
        nodes: &nodes,
        fans,
    };
    weigh(&plan.draft.term, &env, costs)
}

// The heaviest chain of a plan.
fn collect_plan(
    alloc: Global,
    plan: &Plan,
    fans: &[u32],
    costs: &Costs,
) -> Result<Links, AllocError>
    requires { fans.now ≡ fans_of plan.now.nodes }
    ensures { IfOk result (λ links. map seen_link links ≡ chosen (event_weight plan.now.nodes costs.now)
        (written (plan_form plan.now))) }
{
    let top = Chain::Root;
    let nodes = Chain::Link(0, &top);
    let env = Env {
        plan,
        turns: &top,
        nodes: &nodes,
        fans,
    };
    let mut chain = Items::new(alloc);
    collect(&plan.draft.term, &env, costs, &mut chain)?;
    Ok(chain)
}

// The fault of a plan that has too many events.
fn events_fault(alloc: Global) -> Fault
    ensures { result ≡ spec.events_fault }
{
    Fault {
        phase: Phase::Cost,
        code: Code::LimitEvents,
        place: None,
        args: Items::new(alloc),
    }
}

/// The heaviest chain of a plan: of parts beside one another the first of the heaviest ones counts. A plan of more than
/// 65,536 events is refused, without walking over all of them.
pub fn heaviest_chain<C>(alloc: Global, plan: &Plan, costs: &Costs) -> Result<Span, Stop>
    requires { (leaves : Leaves C) × IsWellFormed leaves plan.now }
    // Ok exactly where the plan has no more events than it may have.
    ensures answers { Answers (EventsFault plan.now) result }
    ensures span { IfOk result (λ s. IsSpan plan.now costs.now s) }
    // No chain of the plan weighs more.
    ensures heaviest { IfOk result (λ s. IsHeaviest (event_weight plan.now.nodes costs.now) (tree_of plan.now)
        (events_of s.chain) s.total) }
{
    costs_are_small(costs);
    let fans = fans_of(plan.nodes.as_slice(), alloc)?;
    let fans = fans.as_slice();
    let Some(heft) = weigh_plan(plan, fans, costs) else {
        return Err(Stop::Refused(events_fault(alloc)));
    };
    let chain = collect_plan(alloc, plan, fans, costs)?;
    Ok(Span {
        total: heft.weight,
        events: u64::from(heft.events),
        chain,
    })
}
