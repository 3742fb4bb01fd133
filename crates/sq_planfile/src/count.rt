//! How many events a part of a plan has, by a walk over its term that ends where they are too many.

ghost use Rattle.std.specs.Prelude.{◌≡◌, ◌+◌, ◌<◌, length};
ghost use Rattle.sq_planfile.specs.Written.{seq_of, par_of};
ghost use Rattle.sq_planfile.specs.Words.{left_at, part_at, child_at, left_in, number, few};

use crate::course::{loop_of, spread_of};
use sq_ir::{Num, Term};
use sq_sched::{Chain, Env, Spread, arm_for, child_node, count_of, rest_of};

// The most events of a plan file.
pub(crate) const MOST_EVENTS: u64 = 65_536;

// Of two parts together; more than a plan may have are one more.
fn together(a: u64, b: u64) -> u64
    requires first { a < 65538 }
    requires second { b < 65538 }
    ensures { result ≡ few (a + b) }
{
    if MOST_EVENTS < a + b {
        return MOST_EVENTS + 1;
    }
    a + b
}

/// How many events a part has; one more than a plan may have where they are too many.
#[cycle(counting)]
pub(crate) fn count(term: &Term, env: &Env<'_>) -> u64
    ensures { result ≡ few (number (left_at env.now term.now)) }
{
    match term {
        Term::Skip => 0,
        Term::Act(_) => 1,
        Term::Seq(parts) => count_parts(parts.as_slice(), env),
        Term::Par(parts) => count_parts(parts.as_slice(), env),
        Term::Loop { count, body } => {
            let body = body.get();
            count_child(body, loop_of(count, body, env), 0, env)
        }
        Term::Spread { count, rule, body } => {
            let body = body.get();
            count_children(body, spread_of(count, *rule, body, env), env)
        }
        Term::Case { pick, arms } => {
            let i = arm_for(pick, env, arms.len());
            count_arm(arms.as_slice(), i, env)
        }
        Term::Within {
            child,
            buffers: _,
            body,
        } => count_inside(child, body.get(), env),
    }
}

// The body of a scope.
#[cycle(counting)]
fn count_inside(child: &Option<Num>, body: &Term, env: &Env<'_>) -> u64
    ensures { result ≡ few (number (left_in env.now child.now body.now)) }
{
    match child {
        None => count(body, env),
        Some(child) => {
            let child = count_of(child, env);
            let nodes = Chain::Link(child_node(env, child), env.nodes);
            let inner = Env {
                nodes: &nodes,
                fans: rest_of(env.fans),
                ..*env
            };
            count(body, &inner)
        }
    }
}

// The part of a number, if there is one.
#[cycle(counting)]
fn count_arm(arms: &[Term], i: usize, env: &Env<'_>) -> u64
    ensures { result ≡ few (number (part_at env.now arms.now i)) }
{
    if i < arms.len() {
        count(&arms[i], env)
    } else {
        0
    }
}

// Parts in turn, or beside one another.
#[cycle(counting)]
fn count_parts(parts: &[Term], env: &Env<'_>) -> u64
    ensures { result ≡ few (number (seq_of (length parts.now) (part_at env.now parts.now) 0)) }
{
    let mut whole = 0;
    let mut i = 0;
    while i < parts.len() {
        whole = together(whole, count_arm(parts, i, env));
        if MOST_EVENTS < whole {
            return whole;
        }
        i += 1;
    }
    whole
}

// The iterations of a spread at one child.
#[cycle(counting)]
fn count_child(body: &Term, spread: Spread, child: u32, env: &Env<'_>) -> u64
    requires { child < spread.children }
    ensures { result ≡ few (number (child_at env.now spread body.now child)) }
{
    let mut whole = 0;
    let mut turn = spread.next_at(child, 0);
    while turn < spread.turns {
        let turns = Chain::Link(turn, env.turns);
        let inner = Env {
            turns: &turns,
            ..*env
        };
        whole = together(whole, count(body, &inner));
        if MOST_EVENTS < whole {
            return whole;
        }
        turn = spread.next_at(child, turn + 1);
    }
    whole
}

// The children of a spread.
#[cycle(counting)]
fn count_children(body: &Term, spread: Spread, env: &Env<'_>) -> u64
    ensures { result ≡ few (number (par_of spread.children (child_at env.now spread body.now) 0)) }
{
    let mut whole = 0;
    let mut child = 0;
    while child < spread.children {
        whole = together(whole, count_child(body, spread, child, env));
        if MOST_EVENTS < whole {
            return whole;
        }
        child += 1;
    }
    whole
}
