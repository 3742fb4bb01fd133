//! Ranks of the instances, which rule out at once that most calls lie on a cycle.

ghost use Rattle.std.specs.Prelude.{◌≡◌, ◌<◌, ◌↔◌, false, IsTrue, IfOk, length, All};
ghost use Rattle.std.specs.Option.{option_copied};
ghost use Rattle.sq_mapfile.specs.Cycles.{Leads};
ghost use Rattle.sq_mapfile.specs.Graph.{NeverRises, IsFirstOnCycle, rank_of, falls, is_behind};

use crate::calls::Call;
use crate::components::component_numbers;
use crate::graph::Graph;
use std::alloc::{AllocError, Global};

// An instance without a rank has 0.
fn rank_of(ranks: &[usize], instance: usize) -> usize
    ensures { result ≡ rank_of ranks.now instance }
{
    ranks.get(instance).copied().unwrap_or(0)
}

// Whether no call leads to a higher rank.
fn never_rise(ranks: &[usize], calls: &[Call<'_>]) -> bool
    ensures { IsTrue result ↔ All (NeverRises ranks.now) calls.now }
{
    calls.iter().all(|call| rank_of(ranks, call.callee) <= rank_of(ranks, call.caller))
}

// Whether the call is no earlier in the text than what is found.
fn is_behind(found: Option<&Call<'_>>, call: &Call<'_>) -> bool
    ensures { result ≡ is_behind (option_copied found.entry) call.now }
{
    match found {
        None => false,
        Some(first) => {
            let at = first.name.place;
            at.is_before(call.name.place) || at == call.name.place
        }
    }
}

/// A graph of calls, of which none leads to a higher rank.
#[derive(Drop)]
pub struct Ranked<'c, 'a> {
    graph: Graph<'c, 'a>,
    ranks: Vec<usize>,
    ghost never_rise: { All (NeverRises ranks.items) graph.calls.now },
}

impl<'c, 'a> Ranked<'c, 'a> {
    /// Takes the numbers of components for ranks where no call leads to a higher one, and otherwise no ranks.
    pub fn new(alloc: Global, graph: Graph<'c, 'a>) -> Result<Ranked<'c, 'a>, AllocError>
        ensures { IfOk result (λ r. r.graph.calls.now ≡ graph.entry.calls.now) }
    {
        let ranks = component_numbers(alloc, &graph)?;
        if never_rise(&ranks, graph.calls) {
            return Ok(Ranked { graph, ranks });
        }
        let ranks = Vec::new(alloc);
        Ok(Ranked { graph, ranks })
    }

    // Whether the call leads to a lower rank.
    fn falls(&self, call: &Call<'_>) -> bool
        ensures { result ≡ falls self.now.ranks.items call.now }
    {
        rank_of(&self.ranks, call.callee) < rank_of(&self.ranks, call.caller)
    }

    // Whether calls lead from the callee back to the caller. From a lower rank none do.
    fn is_on_cycle(&self, alloc: Global, call: &Call<'_>) -> Result<bool, AllocError>
        requires { call.now.callee < length self.now.graph.lists.items }
        ensures { IfOk result (λ r. IsTrue r ↔ Leads self.now.graph.calls.now call.now.callee call.now.caller) }
    {
        if self.falls(call) {
            return Ok(false);
        }
        self.graph.leads(alloc, call.callee, call.caller)
    }

    // Whether the call lies on a cycle, and is earlier in the text than what is found.
    fn is_first(
        &self,
        alloc: Global,
        found: Option<&Call<'_>>,
        call: &Call<'_>,
    ) -> Result<bool, AllocError>
        requires { call.now.callee < length self.now.graph.lists.items }
        ensures { IfOk result (λ r. IsTrue r ↔ ((is_behind (option_copied found.entry) call.now ≡ false)
            × Leads self.now.graph.calls.now call.now.callee call.now.caller)) }
    {
        if is_behind(found, call) {
            return Ok(false);
        }
        self.is_on_cycle(alloc, call)
    }

    /// The first call on a cycle. Calls that fall are on none, and calls behind what is found are passed over: so
    /// between components and in the order of the text one search is made.
    pub fn first_on_cycle(&self, alloc: Global) -> Result<Option<&'c Call<'a>>, AllocError>
        ensures { IfOk result (λ found. IsFirstOnCycle self.now.graph.calls.now self.now.graph.calls.now
            (option_copied found)) }
    {
        let mut found = None;
        for call in self.graph.calls {
            if self.is_first(alloc, found, call)? {
                found = Some(call);
            }
        }
        Ok(found)
    }
}
