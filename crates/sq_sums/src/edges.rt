//! What the events of a plan carry over an edge, and how many of each kind there are.

ghost use Rattle.std.specs.Prelude.{◌≡◌, not, ◌||◌, [], IfOk};
ghost use Rattle.sq_nests.specs.Stacks.{capped};
ghost use Rattle.sq_sums.specs.Totals.{carried_by, counts_of};
ghost use Rattle.sq_sums.specs.Tolls.{toll, sum_of, IsTolled};
ghost use Rattle.sq_sums.specs.Fans.{are_even};
ghost use Rattle.sq_sums.specs.Flows.{flow_sum, flow_of, asks};
ghost use Rattle.sq_sums.specs.Counters.{toll_by};

use crate::fans::{are_even, fans_of};
use crate::flow::{Toll, Under, asks, flow_of, sum};
use crate::stand::Stand;
use crate::tally::{Counter, tally};
use crate::toll::Kind;
use sq_ir::{Carried, EventCounts, Plan, PlanNode, Term};
use sq_term_nums::Turns;
use std::alloc::{AllocError, Global};

// Whether the number of children is known of each level, or the term doesn't ask for it.
fn is_known(term: &Term, nodes: &[PlanNode], fans: &[u32]) -> bool
    ensures { result ≡ (not (asks term.now) || are_even nodes.now fans.now) }
{
    !asks(term) || are_even(nodes, fans)
}

// The sum over the events of a plan. Each closed part is summed once, except where the nodes of a level differ and a
// count or a pick asks for the number of their children.
fn total(alloc: Global, plan: &Plan, kind: Kind) -> Result<u64, AllocError>
    ensures { IfOk result (λ n. IsTolled plan.now → n ≡ capped (sum_of plan.now.nodes
        (toll plan.now.draft.buffers kind) plan.now.draft.term (record { turns = []; node = 0; held = 0 }))) }
{
    let on = Toll {
        buffers: plan.draft.buffers.as_slice(),
        kind,
    };
    let nodes = plan.nodes.as_slice();
    let fans = fans_of(alloc, nodes)?;
    let fans = fans.as_slice();
    if is_known(&plan.draft.term, nodes, fans) {
        return flow_total(alloc, &plan.draft.term, fans, &on);
    }
    Ok(walk_total(plan, on))
}

// Iteration by iteration.
fn walk_total(plan: &Plan, toll: Toll<'_>) -> u64
    ensures { result ≡ capped (sum_of plan.now.nodes (toll_by toll.entry) plan.now.draft.term
        (record { turns = []; node = 0; held = 0 })) }
{
    let counter = Counter {
        nodes: plan.nodes.as_slice(),
        toll,
    };
    let turns = Turns::Root;
    let at = Stand {
        turns: &turns,
        node: 0,
        held: 0,
    };
    tally(&counter, &at, &plan.draft.term)
}

// Each closed part once.
fn flow_total(alloc: Global, term: &Term, fans: &[u32], toll: &Toll<'_>) -> Result<u64, AllocError>
    ensures { IfOk result (λ n. n ≡ flow_sum (flow_of (toll_by toll.now) term.now fans.now) []) }
{
    let flow = flow_of(alloc, toll, fans, term)?;
    let turns = Turns::Root;
    let at = Under { turns: &turns };
    Ok(sum(&flow, &at))
}

/// The bytes that the events of a plan copy down over the edge from a level to the next one, and those that they copy
/// or accumulate up over it. A sum stops at 2^64 - 1.
pub fn traffic(alloc: Global, plan: &Plan, edge: u32) -> Result<Carried, AllocError>
    ensures { IfOk result (λ c. IsTolled plan.now → c ≡ carried_by plan.now edge) }
{
    let down = total(alloc, plan, Kind::Down(edge))?;
    let up = total(alloc, plan, Kind::Up(edge))?;
    Ok(Carried { down, up })
}

/// How many events of each kind a plan has. A count stops at 2^64 - 1.
pub fn event_counts(alloc: Global, plan: &Plan) -> Result<EventCounts, AllocError>
    ensures { IfOk result (λ c. IsTolled plan.now → c ≡ counts_of plan.now) }
{
    let copies = total(alloc, plan, Kind::Copies)?;
    let fills = total(alloc, plan, Kind::Fills)?;
    let accumulations = total(alloc, plan, Kind::Accumulations)?;
    let leaves = total(alloc, plan, Kind::Leaves)?;
    Ok(EventCounts {
        copies,
        fills,
        accumulations,
        leaves,
    })
}
