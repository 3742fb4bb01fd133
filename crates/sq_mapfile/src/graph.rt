//! Which instances call which.

ghost use Rattle.std.specs.Prelude.{◌≡◌, ℕ, ◌<◌, ◌↔◌, IsTrue, IfOk, OnOk, length, slice_index_or, replicate, [], All};
ghost use Rattle.sq_mapfile.specs.Cycles.{Leads};
ghost use Rattle.sq_mapfile.specs.Graph.{IsWithin, AddsCallee, callees_of, with_all};

use crate::calls::{Call, CallList};
use indexmap::IndexSet;
use sqlite_items::Items;
use std::alloc::{AllocError, Global};

/// The instances that an instance calls.
type Callees = Items<usize>;

// A call more in the lists.
fn add_callee(lists: &mut Vec<Callees>, call: &Call<'_>) -> Result<(), AllocError>
    requires { IsWithin (length lists.old.items) call.now }
    ensures callees { OnOk result (AddsCallee lists.old.items call.now lists.new.items) }
    ensures count { OnOk result (length lists.new.items ≡ length lists.old.items) }
{
    lists[call.caller].push(call.callee)?;
    Ok(())
}

// For each instance an empty list.
fn no_callees(alloc: Global, count: usize) -> Result<Vec<Callees>, AllocError>
    ensures { IfOk result (λ lists. lists.items ≡ replicate count []) }
{
    let mut lists = Vec::new(alloc);
    for _made in 0..count {
        lists.push(Items::new(alloc))?;
    }
    Ok(lists)
}

/// The calls of a file, and for each instance, in the order of the text, the instances that it calls.
#[derive(Drop)]
pub struct Graph<'c, 'a> {
    pub calls: &'c [Call<'a>],
    lists: Vec<Callees>,
    ghost within: { All (IsWithin (length lists.items)) calls.now },
    ghost callees: { (a : ℕ) → a < length lists.items → slice_index_or lists.items a [] ≡ callees_of calls.now a },
}

impl<'c, 'a> Graph<'c, 'a> {
    pub fn new(alloc: Global, list: &'c CallList<'a>) -> Result<Graph<'c, 'a>, AllocError>
        ensures { IfOk result (λ g. g.calls.now ≡ list.now.calls.items) }
    {
        let calls = list.calls.as_slice();
        let mut lists = no_callees(alloc, list.count)?;
        for call in calls {
            add_callee(&mut lists, call)?;
        }
        Ok(Graph { calls, lists })
    }

    /// How many instances there are.
    pub fn len(&self) -> usize {
        self.lists.len()
    }

    /// What an instance calls.
    pub fn callees(&self, instance: usize) -> &[usize] {
        match self.lists.get(instance) {
            Some(list) => list.as_slice(),
            None => &[],
        }
    }

    // What the instance calls is seen.
    fn see(&self, seen: &mut IndexSet<usize>, at: usize) -> Result<(), AllocError>
        requires { at < length self.now.lists.items }
        ensures { OnOk result (seen.new.keys ≡ with_all seen.old.keys (callees_of self.now.calls.now at)) }
    {
        for callee in self.lists[at].as_slice() {
            seen.insert(*callee)?;
        }
        Ok(())
    }

    /// Whether calls lead from one instance to another, in any number of steps. The set of those that are seen is also
    /// the queue of those that are to be followed.
    pub fn leads(&self, alloc: Global, from: usize, to: usize) -> Result<bool, AllocError>
        requires { from < length self.now.lists.items }
        ensures { IfOk result (λ r. IsTrue r ↔ Leads self.now.calls.now from to) }
    {
        let mut seen = IndexSet::new(alloc);
        seen.insert(from)?;
        for i in 0..self.lists.len() {
            match seen.get_index(i).copied() {
                None => return Ok(seen.contains(&to)),
                Some(at) => self.see(&mut seen, at)?,
            }
        }
        Ok(seen.contains(&to))
    }
}
