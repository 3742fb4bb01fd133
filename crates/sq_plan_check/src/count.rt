//! How many events a part of a plan has.

ghost use Rattle.std.specs.Prelude.{◌≡◌, ◌<◌, length};
ghost use Rattle.sq_ir.specs.Tree.{waiting};
ghost use Rattle.sq_sched.specs.Words.{env_of};
ghost use Rattle.sq_sched.specs.Shapes.{seq_of, par_of, written};
ghost use Rattle.sq_sched.specs.Forms.{made, inside};
ghost use Rattle.sq_walks.specs.Walks.{tree_at, part_at, child_at};
ghost use Rattle.sq_plan_check.specs.Walked.{few, IsSum};

use sq_ir::{Num, Term};
use sq_sched::{Chain, Env, Spread, arm_for, child_node, count_of, rest_of};
use sq_walks::{loop_of, spread_of};

// The most events of a plan that is checked.
const MOST_EVENTS: u32 = 65_536;

// Two numbers of events together; none where they are more than a plan may have.
#[tactic(auto, using(crate::proofs::Counting::sum_none, crate::proofs::Counting::sum_big, crate::proofs::Counting::sum_over, crate::proofs::Counting::sum_some))]
fn sum(first: u32, second: Option<u32>) -> Option<u32>
    ensures { IsSum first second result }
{
    let Some(second) = second else { return None };
    if MOST_EVENTS < second {
        return None;
    }
    if MOST_EVENTS - second < first {
        return None;
    }
    Some(first + second)
}

/// How many events a part has; none where there are more than a plan may have.
#[cycle(counting)]
pub(crate) fn count(term: &Term, env: &Env<'_>) -> Option<u32>
    ensures { result ≡ few (waiting (tree_at env.now term.now)) }
{
    match term {
        Term::Skip => Some(0),
        Term::Act(_) => Some(1),
        Term::Seq(parts) => count_parts(parts.as_slice(), env),
        Term::Par(parts) => count_parts(parts.as_slice(), env),
        Term::Loop { count, body } => {
            let body = body.get();
            count_child(body, loop_of(count, body, env), 0, env)
        }
        Term::Spread { count, rule, body } => {
            let body = body.get();
            count_children(body, spread_of(count, *rule, body, env), env)
        }
        Term::Case { pick, arms } => {
            let i = arm_for(pick, env, arms.len());
            count_arm(arms.as_slice(), i, env)
        }
        Term::Within {
            child,
            buffers: _,
            body,
        } => count_inside(child, body.get(), env),
    }
}

// The body of a scope.
#[cycle(counting)]
fn count_inside(child: &Option<Num>, body: &Term, env: &Env<'_>) -> Option<u32>
    ensures { result ≡ few (waiting (written ((made env.now.plan.now body.now).form (inside env.now.plan.now
        child.now (env_of env.now))))) }
{
    match child {
        None => count(body, env),
        Some(child) => {
            let child = count_of(child, env);
            let nodes = Chain::Link(child_node(env, child), env.nodes);
            let inner = Env {
                nodes: &nodes,
                fans: rest_of(env.fans),
                ..*env
            };
            count(body, &inner)
        }
    }
}

/// The arm of a number, if there is one.
#[cycle(counting)]
pub(crate) fn count_arm(arms: &[Term], i: usize, env: &Env<'_>) -> Option<u32>
    ensures { result ≡ few (waiting (part_at env.now arms.now i)) }
{
    if i < arms.len() {
        count(&arms[i], env)
    } else {
        Some(0)
    }
}

/// Parts, in turn or beside one another.
#[cycle(counting)]
pub(crate) fn count_parts(parts: &[Term], env: &Env<'_>) -> Option<u32>
    ensures { result ≡ few (waiting (seq_of (length parts.now) (part_at env.now parts.now) 0)) }
{
    let mut whole = 0;
    let mut i = 0;
    while i < parts.len() {
        let here = count_arm(parts, i, env);
        let Some(joined) = sum(whole, here) else {
            return None;
        };
        whole = joined;
        i += 1;
    }
    Some(whole)
}

/// The iterations of a spread at one child.
#[cycle(counting)]
pub(crate) fn count_child(body: &Term, spread: Spread, child: u32, env: &Env<'_>) -> Option<u32>
    requires { child < spread.children }
    ensures { result ≡ few (waiting (child_at env.now spread body.now child)) }
{
    let mut whole = 0;
    let mut turn = spread.next_at(child, 0);
    while turn < spread.turns {
        let turns = Chain::Link(turn, env.turns);
        let inner = Env {
            turns: &turns,
            ..*env
        };
        let here = count(body, &inner);
        let Some(joined) = sum(whole, here) else {
            return None;
        };
        whole = joined;
        turn = spread.next_at(child, turn + 1);
    }
    Some(whole)
}

/// The children of a spread.
#[cycle(counting)]
pub(crate) fn count_children(body: &Term, spread: Spread, env: &Env<'_>) -> Option<u32>
    ensures { result ≡ few (waiting (par_of spread.children (child_at env.now spread body.now) 0)) }
{
    let mut whole = 0;
    let mut child = 0;
    while child < spread.children {
        let here = count_child(body, spread, child, env);
        let Some(joined) = sum(whole, here) else {
            return None;
        };
        whole = joined;
        child += 1;
    }
    Some(whole)
}
