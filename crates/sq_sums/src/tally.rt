//! Sums of a term's actions by a walk over each of its iterations.

ghost use Rattle.std.specs.Prelude.{◌≡◌, map};
ghost use Rattle.sq_nests.specs.Stacks.{capped};
ghost use Rattle.sq_term_nums.specs.Words.{env_of};
ghost use Rattle.sq_sums.specs.Tops.{stand_of, at_turn, env_at};
ghost use Rattle.sq_sums.specs.Tolls as tolls;
ghost use Rattle.sq_sums.specs.Tolls.{all_sum, each_sum, arm_sum_of, scope_sum};
ghost use Rattle.sq_sums.specs.Counters.{sum_on};

use crate::flow::Toll;
use crate::scale::capped_sum;
use crate::stand::{Stand, arm_for, memory};
use crate::toll::{toll, word};
use sq_ir::{Num, PlanNode, Term};
use sq_term_nums::{Env, Turns, count_of};

/// The memories, and what is summed.
#[derive(Clone, Copy, Drop)]
pub(crate) struct Counter<'a> {
    pub(crate) nodes: &'a [PlanNode],
    pub(crate) toll: Toll<'a>,
}

// What numbers are evaluated with.
fn env<'a>(on: &Counter<'_>, at: &Stand<'a>) -> Env<'a>
    ensures { env_of result ≡ env_at on.now.nodes.now (stand_of at.now) }
{
    Env {
        turns: at.turns,
        children: memory(on.nodes, at.node).children,
    }
}

/// The sum of a term's actions where it stands.
#[cycle(tallying)]
#[tactic(auto, using(crate::proofs::SumForms::sum_forms))]
pub(crate) fn tally(on: &Counter<'_>, at: &Stand<'_>, t: &Term) -> u64
    ensures { result ≡ capped (sum_on on.now t.now (stand_of at.now)) }
{
    match t {
        Term::Skip => 0,
        Term::Act(action) => word(toll(on.toll.buffers, on.toll.kind, action)),
        Term::Seq(ts) => tally_all(on, at, ts.as_slice()),
        Term::Par(ts) => tally_all(on, at, ts.as_slice()),
        Term::Loop { count, body } => {
            let n = count_of(count, &env(on, at));
            tally_turns(on, at, body.get(), n)
        }
        Term::Spread {
            count,
            rule: _,
            body,
        } => {
            let n = count_of(count, &env(on, at));
            tally_turns(on, at, body.get(), n)
        }
        Term::Case { pick, arms } => {
            let i = arm_for(pick, &env(on, at), arms.len());
            tally_arm(on, at, arms.as_slice(), i)
        }
        Term::Within {
            child,
            buffers: _,
            body,
        } => tally_scope(on, at, child, body.get()),
    }
}

#[cycle(tallying)]
fn tally_all(on: &Counter<'_>, at: &Stand<'_>, ts: &[Term]) -> u64
    ensures { result ≡ capped (all_sum (map (sum_on on.now) ts.now) (stand_of at.now)) }
{
    let mut total = 0;
    for t in ts {
        total = capped_sum(total, tally(on, at, t));
    }
    total
}

#[cycle(tallying)]
fn tally_turns(on: &Counter<'_>, at: &Stand<'_>, body: &Term, n: u64) -> u64
    ensures { result ≡ capped (each_sum n (λ t. sum_on on.now body.now (at_turn (stand_of at.now) t)) 0) }
{
    let mut total = 0;
    for i in 0..n {
        let turns = Turns::Link(i, at.turns);
        let inner = Stand {
            turns: &turns,
            ..*at
        };
        total = capped_sum(total, tally(on, &inner, body));
    }
    total
}

// The arm of a number, if there is one.
#[cycle(tallying)]
fn tally_arm(on: &Counter<'_>, at: &Stand<'_>, arms: &[Term], i: usize) -> u64
    ensures { result ≡ capped (arm_sum_of (map (sum_on on.now) arms.now) i (stand_of at.now)) }
{
    if i < arms.len() {
        tally(on, at, &arms[i])
    } else {
        0
    }
}

// A scope; at a child the numbers in it are those of the child.
#[cycle(tallying)]
fn tally_scope(on: &Counter<'_>, at: &Stand<'_>, child: &Option<Num>, body: &Term) -> u64
    ensures { result ≡ capped (scope_sum on.now.nodes.now child.now (sum_on on.now body.now) (stand_of at.now)) }
{
    match child {
        None => tally(on, at, body),
        Some(c) => {
            let k = count_of(c, &env(on, at));
            tally_child(on, at, k, body)
        }
    }
}

// A scope at a child; a node of no 64 bits has no memory.
#[cycle(tallying)]
fn tally_child(on: &Counter<'_>, at: &Stand<'_>, k: u64, body: &Term) -> u64
    ensures { result ≡ capped (sum_on on.now body.now (tolls.at_child_word on.now.nodes.now k (stand_of at.now))) }
{
    let first = u64::from(memory(on.nodes, at.node).first_child);
    let inner = Stand {
        node: capped_sum(first, k),
        held: 0,
        ..*at
    };
    tally(on, &inner, body)
}
