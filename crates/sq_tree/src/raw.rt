//! A bank over one raw memory for each node.
ghost use Rattle.std.specs.Prelude.{◌≡◌, ◌<◌, ◌^◌, Some, None, IfOk, IfErr, replicate};
ghost use Rattle.sq_ir.specs.Events as events;
ghost use Rattle.sq_ir.specs.LeafRuns.{trap_at};
ghost use Rattle.sq_ir.specs.Traffic.{no_counts, deepest, nothing_carried, more_by};
ghost use Rattle.sq_sched.specs.Seen.{seen_spot};
ghost use Rattle.sq_tree.specs.Bank.{IsAsked, Performs, TrapsAs, size_in, zeros};
ghost use Rattle.sq_tree.specs.Raw.{opened_seen};

use crate::bank::Bank;
use crate::call::call_leaf;
use crate::edges::{carry_accumulation, carry_copy, deepest};
use crate::rows::{Rows, Way, fill_row, first_bytes, put_first, take_rows};
use crate::trace::{level_of, row_bytes};
use sq_ir::laws::runs_of_leaves_are_their_events;
use sq_ir::{Carried, EventCounts, Plan, PlanNode};
use sq_leaf::Trap;
use sq_num::{Elem, RedOp};
use sq_raw::RawMem;
use sq_rect::{Path, Views};
use sq_sched::Spot;
use std::alloc::{AllocError, Global};
use std::rc::Rc;

/// A bank that tells its openings, plan, bytes and counts, and no list of events.
#[derive(Drop)]
pub struct RawBank {
    opened: Option<Opened>,
    openings: u64,
}

/// What a bank holds since it was opened.
#[derive(Drop)]
pub(crate) struct Opened {
    plan: Rc<Plan>,
    nodes: Vec<RawMem>,
    counts: EventCounts,
    edges: Vec<Carried>,
}

// A memory of zeros for each node.
fn memories(alloc: Global, nodes: &[PlanNode]) -> Result<Vec<RawMem>, AllocError>
    ensures { IfOk result (λ v. v.items ≡ zeros nodes.now) }
{
    let mut memories = Vec::new(alloc);
    for node in nodes {
        let memory = RawMem::new(alloc, node.capacity as usize)?;
        memories.push(memory)?;
    }
    Ok(memories)
}

// Edges that have carried nothing.
fn fresh_edges(alloc: Global, count: u32) -> Result<Vec<Carried>, AllocError>
    ensures { IfOk result (λ v. v.items ≡ replicate count nothing_carried) }
{
    let edges = vec![in alloc; Carried { down: 0, up: 0 }; count as usize]?;
    Ok(edges)
}

// What a plan is run on. For want of memory the plan is given back.
fn open(alloc: Global, plan: Rc<Plan>) -> Result<Opened, Rc<Plan>>
    ensures plan { IfOk result (λ o. o.plan.value ≡ plan.value) }
    ensures nodes { IfOk result (λ o. o.nodes.items ≡ zeros plan.value.nodes) }
    ensures counts { IfOk result (λ o. o.counts ≡ no_counts) }
    ensures edges { IfOk result (λ o. o.edges.items ≡ replicate (deepest plan.value.nodes) nothing_carried) }
    ensures back { IfErr result (λ back. back.value ≡ plan.value) }
{
    let nodes = match memories(alloc, plan.nodes.as_slice()) {
        Ok(nodes) => nodes,
        Err(_) => return Err(plan),
    };
    let edges = match fresh_edges(alloc, deepest(plan.nodes.as_slice())) {
        Ok(edges) => edges,
        Err(_) => return Err(plan),
    };
    Ok(Opened {
        plan,
        nodes,
        counts: EventCounts {
            copies: 0,
            fills: 0,
            accumulations: 0,
            leaves: 0,
        },
        edges,
    })
}

impl Opened {
    fn copy(&mut self, from: Spot, to: Spot, bytes: u32)
        requires { IsAsked (events.Copy (seen_spot from) (seen_spot to) bytes) (opened_seen 0 (Some self.old)) }
        ensures { Performs (events.Copy (seen_spot from) (seen_spot to) bytes) (opened_seen 0 (Some self.old))
            (opened_seen 0 (Some self.new)) }
    {
        let rows = Rows {
            from: from.at as usize,
            to: to.at as usize,
            len: bytes as usize,
        };
        take_rows(
            Way::Copy,
            rows,
            from.node as usize,
            to.node as usize,
            self.nodes.as_mut_slice(),
        );
        self.counts.copies = self.counts.copies.saturating_add(1);
        let upper = level_of(&self.plan, from.node);
        let lower = level_of(&self.plan, to.node);
        carry_copy(upper, lower, u64::from(bytes), self.edges.as_mut_slice());
    }

    fn fill(&mut self, to: Spot, elem: Elem, count: u32, value: i64)
        requires { IsAsked (events.Fill (seen_spot to) elem count value) (opened_seen 0 (Some self.old)) }
        ensures { Performs (events.Fill (seen_spot to) elem count value) (opened_seen 0 (Some self.old))
            (opened_seen 0 (Some self.new)) }
    {
        fill_row(
            elem,
            count as usize,
            value,
            to.node as usize,
            to.at as usize,
            self.nodes.as_mut_slice(),
        );
        self.counts.fills = self.counts.fills.saturating_add(1);
    }

    fn accumulate(&mut self, op: RedOp, elem: Elem, from: Spot, to: Spot, count: u32)
        requires { IsAsked (events.Accumulate op elem (seen_spot from) (seen_spot to) count)
            (opened_seen 0 (Some self.old)) }
        ensures { Performs (events.Accumulate op elem (seen_spot from) (seen_spot to) count)
            (opened_seen 0 (Some self.old)) (opened_seen 0 (Some self.new)) }
    {
        let bytes = row_bytes(elem, count);
        let rows = Rows {
            from: from.at as usize,
            to: to.at as usize,
            len: bytes as usize,
        };
        take_rows(
            Way::Add(op, elem),
            rows,
            from.node as usize,
            to.node as usize,
            self.nodes.as_mut_slice(),
        );
        self.counts.accumulations = self.counts.accumulations.saturating_add(1);
        let source = level_of(&self.plan, from.node);
        let target = level_of(&self.plan, to.node);
        carry_accumulation(source, target, bytes, self.edges.as_mut_slice());
    }

    fn call(&mut self, node: u32, code: u32, views: &Views, path: &Path) -> Result<(), Trap>
        requires asked { IsAsked (events.Leaf node code views.now path.now) (opened_seen 0 (Some self.old)) }
        requires small { size_in (opened_seen 0 (Some self.old)).nodes node < 2 ^ 62 }
        ensures performs { Performs (events.Leaf node code views.now path.now) (opened_seen 0 (Some self.old))
            (opened_seen 0 (Some self.new)) }
        ensures traps { TrapsAs (events.Leaf node code views.now path.now) (opened_seen 0 (Some self.old))
            (trap_at path.now result) }
    {
        runs_of_leaves_are_their_events();
        let result = call_leaf(
            &self.plan,
            node,
            code,
            views,
            path,
            self.nodes.as_mut_slice(),
        );
        self.counts.leaves = self.counts.leaves.saturating_add(1);
        result
    }
}

impl RawBank {
    ghost use Rattle.std.specs.Prelude.{None};
    ghost use Rattle.sq_tree.specs.Raw.{raw_seen, opened_seen};

    /// It isn't open, and has no memory.
    pub fn new() -> RawBank
        ensures { raw_seen result ≡ opened_seen 0 None }
    {
        RawBank {
            opened: None,
            openings: 0,
        }
    }
}

impl Bank for RawBank {
    ghost use Rattle.sq_tree.specs.Raw.{raw_seen};

    ghost seen = { raw_seen };

    fn prepare(&mut self, alloc: Global, plan: Rc<Plan>) -> Result<(), Rc<Plan>> {
        match open(alloc, plan) {
            Ok(opened) => {
                self.opened = Some(opened);
                self.openings = self.openings.saturating_add(1);
                Ok(())
            }
            Err(plan) => Err(plan),
        }
    }

    fn copy_row(&mut self, from: Spot, to: Spot, bytes: u32) {
        if let Some(opened) = &mut self.opened {
            opened.copy(from, to, bytes);
        }
    }

    fn fill_row(&mut self, to: Spot, elem: Elem, count: u32, value: i64) {
        if let Some(opened) = &mut self.opened {
            opened.fill(to, elem, count, value);
        }
    }

    fn acc_row(&mut self, op: RedOp, elem: Elem, from: Spot, to: Spot, count: u32) {
        if let Some(opened) = &mut self.opened {
            opened.accumulate(op, elem, from, to, count);
        }
    }

    fn leaf(&mut self, node: u32, code: u32, views: &Views, path: &Path) -> Result<(), Trap> {
        match &mut self.opened {
            Some(opened) => opened.call(node, code, views, path),
            None => Ok(()),
        }
    }

    fn put_root(&mut self, at: usize, from: &[u8]) {
        if let Some(opened) = &mut self.opened {
            put_first(at, from, opened.nodes.as_mut_slice());
        }
    }

    fn root_bytes(&self, at: usize, bytes: usize) -> &[u8] {
        match &self.opened {
            Some(opened) => first_bytes(opened.nodes.as_slice(), at, bytes),
            None => &[],
        }
    }
}
