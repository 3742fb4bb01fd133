//! Drafts: where their buffers lie, which node is too small, what nodes need, and what their events carry.

use crate::words::{draft, memories};
use sq_ir::{Draft, Plan, PlanNodes};
use sq_store::{greatest_end, offsets_of, place};
use sq_sums::{event_counts, needs, nested_sums, traffic};
use sqlite_items::Items;
use std::alloc::{AllocError, Global};
use std::fmt::Write;

/// Tells of a draft in words, its buffers, those of the entry, and its term, on memories in words: the `offsets` of its
/// buffers; its `places`, the greatest ends of the buffers of four levels, or which node is too small; the `totals` of its
/// events; the `sums` of all buffers at each node, or its `needs`, where one counts for each array of each instance.
pub fn tell_draft(
    alloc: Global,
    words: [&str; 3],
    question: &str,
    machine: &str,
    out: &mut String,
) -> Result<(), AllocError> {
    let nodes = memories(alloc, machine)?;
    let [buffers, entry, term] = words;
    let draft = draft(alloc, buffers, entry, term)?;
    match question {
        "places" => tell_places(alloc, draft, nodes, out),
        "totals" => tell_totals(alloc, draft, nodes, out),
        _ => tell_list(alloc, question, draft, nodes, out),
    }
}

fn tell_list(
    alloc: Global,
    question: &str,
    draft: Draft,
    nodes: PlanNodes,
    out: &mut String,
) -> Result<(), AllocError> {
    let list = match question {
        "offsets" => offsets_of(alloc, &draft),
        "sums" => nested_sums(alloc, &draft, &nodes),
        _ => needs(alloc, &draft, &nodes),
    };
    drop(draft);
    let list = list?;
    let list = list.as_slice();
    write!(out, " {list:?}")
}

fn tell_places(
    alloc: Global,
    draft: Draft,
    nodes: PlanNodes,
    out: &mut String,
) -> Result<(), AllocError> {
    match place(alloc, draft, nodes) {
        Ok(plan) => {
            let ends = ends(&plan);
            drop(plan);
            write!(out, " {ends:?}")
        }
        Err(fault) => write!(out, " {fault:?}"),
    }
}

fn ends(plan: &Plan) -> [u64; 4] {
    [
        greatest_end(plan, 0),
        greatest_end(plan, 1),
        greatest_end(plan, 2),
        greatest_end(plan, 3),
    ]
}

// Of a draft that isn't placed.
fn tell_totals(
    alloc: Global,
    draft: Draft,
    nodes: PlanNodes,
    out: &mut String,
) -> Result<(), AllocError> {
    let plan = Plan {
        draft,
        offsets: Items::new(alloc),
        nodes,
    };
    let told = tell_events(alloc, &plan, out);
    drop(plan);
    told
}

// What they carry over two edges, and how many of each kind there are.
fn tell_events(alloc: Global, plan: &Plan, out: &mut String) -> Result<(), AllocError> {
    let first = traffic(alloc, plan, 0)?;
    let second = traffic(alloc, plan, 1)?;
    let counts = event_counts(alloc, plan)?;
    write!(out, " {first:?} {second:?} {counts:?}")
}
