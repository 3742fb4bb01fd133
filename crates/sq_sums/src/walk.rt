//! The sums of a term by a walk over each of its iterations.

ghost use Rattle.std.specs.Prelude.{◌≡◌, ◌<◌, get_or, set, map};
ghost use Rattle.sq_nests.specs.Stacks.{capped};
ghost use Rattle.sq_term_nums.specs.Words.{env_of, count};
ghost use Rattle.sq_sums.specs.Tops.{stand_of, at_turn, with_more, at_other, open_scope, env_at, at_child, child_at};
ghost use Rattle.sq_sums.specs.Tops.{raise_to, raise_by, has_scope, have_scope};
ghost use Rattle.sq_sums.specs.Grounds.{tops_on, all_on, turns_on, arm_on, scope_on};

use crate::scale::{Scale, capped_sum, weight_of};
use crate::stand::{Stand, arm_for, memory};
use sq_ir::{Num, PlanNode, Term};
use sq_term_nums::{Env, Turns, count_of};
use sqlite_items::Items;

/// One number for each node.
pub type Sums = Items<u64>;

/// The memories, and what buffers weigh.
#[derive(Clone, Copy, Drop)]
pub(crate) struct Ground<'a> {
    pub(crate) nodes: &'a [PlanNode],
    pub(crate) scale: Scale<'a>,
}

// The number at a place, or 0.
#[tactic(auto, using(crate::proofs::Lists::past))]
fn number_at(numbers: &Sums, at: u64) -> u64
    ensures { result ≡ get_or numbers.now at 0 }
{
    let numbers = numbers.as_slice();
    let at = at as usize;
    if at < numbers.len() { numbers[at] } else { 0 }
}

// Sets the number at a place, if it is there.
#[tactic(auto, using(crate::proofs::Lists::set_past))]
fn put(numbers: &mut Sums, at: u64, number: u64)
    ensures { numbers.new ≡ set numbers.old at number }
{
    let at = at as usize;
    if at < numbers.len() {
        numbers.set(at, number);
    }
}

/// So many bytes are open at a node.
pub(crate) fn raise_to(sums: &mut Sums, node: u64, held: u64)
    ensures { sums.new ≡ raise_to (record { node = node; held = held }) sums.old }
{
    if number_at(sums, node) < held {
        put(sums, node, held);
    }
}

/// Whether a scope stands in a term.
#[cycle(finding)]
#[tactic(auto, using(crate::proofs::TopForms::scope_forms))]
pub(crate) fn has_scope(t: &Term) -> bool
    ensures { result ≡ has_scope t.now }
{
    match t {
        Term::Skip => false,
        Term::Act(_) => false,
        Term::Seq(ts) => have_scope(ts.as_slice()),
        Term::Par(ts) => have_scope(ts.as_slice()),
        Term::Case { pick: _, arms } => have_scope(arms.as_slice()),
        Term::Loop { count: _, body } => has_scope(body.get()),
        Term::Spread {
            count: _,
            rule: _,
            body,
        } => has_scope(body.get()),
        Term::Within {
            child: _,
            buffers: _,
            body: _,
        } => true,
    }
}

// Whether a scope stands in one of these terms.
#[cycle(finding)]
fn have_scope(ts: &[Term]) -> bool
    ensures { result ≡ have_scope ts.now }
{
    for t in ts {
        if has_scope(t) {
            return true;
        }
    }
    false
}

// What numbers are evaluated with.
fn env<'a>(on: &Ground<'_>, at: &Stand<'a>) -> Env<'a>
    ensures { env_of result ≡ env_at on.now.nodes.now (stand_of at.now) }
{
    Env {
        turns: at.turns,
        children: memory(on.nodes, at.node).children,
    }
}

/// Raises the sums by a term written out, one scope after another.
#[cycle(walking)]
#[tactic(auto, using(crate::proofs::TopForms::top_forms))]
pub(crate) fn walk(on: &Ground<'_>, at: &Stand<'_>, t: &Term, sums: &mut Sums)
    ensures { sums.new ≡ raise_by (tops_on on.now t.now (stand_of at.now)) sums.old }
{
    match t {
        Term::Skip => {}
        Term::Act(_) => {}
        Term::Seq(ts) => walk_all(on, at, ts.as_slice(), sums),
        Term::Par(ts) => walk_all(on, at, ts.as_slice(), sums),
        Term::Loop { count, body } => {
            let n = count_of(count, &env(on, at));
            walk_turns(on, at, body.get(), n, sums);
        }
        Term::Spread {
            count,
            rule: _,
            body,
        } => {
            let n = count_of(count, &env(on, at));
            walk_turns(on, at, body.get(), n, sums);
        }
        Term::Case { pick, arms } => {
            let i = arm_for(pick, &env(on, at), arms.len());
            walk_arm(on, at, arms.as_slice(), i, sums);
        }
        Term::Within {
            child,
            buffers,
            body,
        } => walk_scope(on, at, child, buffers.as_slice(), body.get(), sums),
    }
}

#[cycle(walking)]
fn walk_all(on: &Ground<'_>, at: &Stand<'_>, ts: &[Term], sums: &mut Sums)
    ensures { sums.new ≡ raise_by (all_on on.now ts.now (stand_of at.now)) sums.old }
{
    for t in ts {
        walk(on, at, t, sums);
    }
}

// Those of so many iterations; rows and whatever else has no scope are passed over.
#[cycle(walking)]
fn walk_turns(on: &Ground<'_>, at: &Stand<'_>, body: &Term, n: u64, sums: &mut Sums)
    ensures { sums.new ≡ raise_by (turns_on on.now body.now (stand_of at.now) n 0) sums.old }
{
    if has_scope(body) {
        walk_each(on, at, body, n, sums);
    }
}

#[cycle(walking)]
fn walk_each(on: &Ground<'_>, at: &Stand<'_>, body: &Term, n: u64, sums: &mut Sums)
    ensures { sums.new ≡ raise_by (turns_on on.now body.now (stand_of at.now) n 0) sums.old }
{
    for i in 0..n {
        let turns = Turns::Link(i, at.turns);
        let inner = Stand {
            turns: &turns,
            ..*at
        };
        walk(on, &inner, body, sums);
    }
}

// The arm of a number, if there is one.
#[cycle(walking)]
fn walk_arm(on: &Ground<'_>, at: &Stand<'_>, arms: &[Term], i: usize, sums: &mut Sums)
    ensures { sums.new ≡ raise_by (arm_on on.now arms.now i (stand_of at.now)) sums.old }
{
    if i < arms.len() {
        walk(on, at, &arms[i], sums);
    }
}

#[cycle(walking)]
fn walk_scope(
    on: &Ground<'_>,
    at: &Stand<'_>,
    child: &Option<Num>,
    named: &[u32],
    body: &Term,
    sums: &mut Sums,
)
    ensures { sums.new ≡ raise_by (scope_on on.now child.now named.now body.now (stand_of at.now)) sums.old }
{
    let weight = weight_of(&on.scale, named);
    match child {
        None => {
            let inner = Stand {
                held: capped_sum(at.held, weight),
                ..*at
            };
            walk_open(on, &inner, body, sums);
        }
        Some(c) => {
            let k = count_of(c, &env(on, at));
            walk_child(on, at, k, weight, body, sums);
        }
    }
}

// A scope at a child, if there is one of this number.
#[cycle(walking)]
fn walk_child(on: &Ground<'_>, at: &Stand<'_>, k: u64, weight: u64, body: &Term, sums: &mut Sums)
    ensures { sums.new ≡ raise_by (at_child on.now.nodes.now k weight (tops_on on.now body.now) (stand_of at.now))
        sums.old }
{
    let memory = memory(on.nodes, at.node);
    if k < u64::from(memory.children) {
        let inner = Stand {
            node: u64::from(memory.first_child) + k,
            held: weight,
            ..*at
        };
        walk_open(on, &inner, body, sums);
    }
}

/// Raises the sums by a scope that is open.
#[cycle(walking)]
pub(crate) fn walk_open(on: &Ground<'_>, at: &Stand<'_>, body: &Term, sums: &mut Sums)
    ensures { sums.new ≡ raise_by (open_scope (tops_on on.now body.now) (stand_of at.now)) sums.old }
{
    raise_to(sums, at.node, at.held);
    walk(on, at, body, sums);
}
