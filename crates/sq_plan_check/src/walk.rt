//! The events of a plan in both orders, by a walk over its term.

ghost use Rattle.std.specs.Prelude.{◌≡◌, ◌<◌, ◌++◌, length, OnOk};
ghost use Rattle.sq_sched.specs.Words.{env_of};
ghost use Rattle.sq_sched.specs.Shapes.{seq_of, par_of, written};
ghost use Rattle.sq_sched.specs.Forms.{made, inside};
ghost use Rattle.sq_walks.specs.Walks.{tree_at, part_at, child_at};
ghost use Rattle.sq_plan_check.specs.Walked.{numbered, seen_entries};

use crate::count::{count_arm, count_child, count_children, count_parts};
use crate::entry::{Entries, behind, put_action};
use sq_ir::{Num, Term};
use sq_sched::{Chain, Env, Spread, arm_for, child_node, count_of, rest_of};
use sq_walks::{loop_of, spread_of};
use std::alloc::{AllocError, Global};

/// Puts the events of a part behind others. In the second order the first of them has the number `second`.
#[cycle(walking)]
pub(crate) fn walk(
    alloc: Global,
    term: &Term,
    env: &Env<'_>,
    second: u32,
    entries: &mut Entries,
) -> Result<(), AllocError>
    ensures { OnOk result (seen_entries entries.new ≡ seen_entries entries.old ++ numbered second (tree_at env.now
        term.now)) }
{
    match term {
        Term::Skip => Ok(()),
        Term::Act(action) => put_action(alloc, action, env, second, entries),
        Term::Seq(parts) => walk_parts(alloc, parts.as_slice(), env, second, entries),
        Term::Par(parts) => walk_beside(alloc, parts.as_slice(), env, second, entries),
        Term::Loop { count, body } => {
            let body = body.get();
            walk_child(
                alloc,
                body,
                loop_of(count, body, env),
                0,
                env,
                second,
                entries,
            )
        }
        Term::Spread { count, rule, body } => {
            let body = body.get();
            walk_children(
                alloc,
                body,
                spread_of(count, *rule, body, env),
                env,
                second,
                entries,
            )
        }
        Term::Case { pick, arms } => {
            let i = arm_for(pick, env, arms.len());
            walk_arm(alloc, arms.as_slice(), i, env, second, entries)
        }
        Term::Within {
            child,
            buffers: _,
            body,
        } => walk_inside(alloc, child, body.get(), env, second, entries),
    }
}

// The body of a scope.
#[cycle(walking)]
fn walk_inside(
    alloc: Global,
    child: &Option<Num>,
    body: &Term,
    env: &Env<'_>,
    second: u32,
    entries: &mut Entries,
) -> Result<(), AllocError>
    ensures { OnOk result (seen_entries entries.new ≡ seen_entries entries.old ++ numbered second (written ((made
        env.now.plan.now body.now).form (inside env.now.plan.now child.now (env_of env.now))))) }
{
    match child {
        None => walk(alloc, body, env, second, entries),
        Some(child) => {
            let child = count_of(child, env);
            let nodes = Chain::Link(child_node(env, child), env.nodes);
            let inner = Env {
                nodes: &nodes,
                fans: rest_of(env.fans),
                ..*env
            };
            walk(alloc, body, &inner, second, entries)
        }
    }
}

// The arm of a number, if there is one.
#[cycle(walking)]
fn walk_arm(
    alloc: Global,
    arms: &[Term],
    i: usize,
    env: &Env<'_>,
    second: u32,
    entries: &mut Entries,
) -> Result<(), AllocError>
    ensures { OnOk result (seen_entries entries.new ≡ seen_entries entries.old ++ numbered second (part_at env.now
        arms.now i)) }
{
    if i < arms.len() {
        walk(alloc, &arms[i], env, second, entries)
    } else {
        Ok(())
    }
}

// Parts in turn: each has the numbers behind those of the parts before it.
#[cycle(walking)]
fn walk_parts(
    alloc: Global,
    parts: &[Term],
    env: &Env<'_>,
    second: u32,
    entries: &mut Entries,
) -> Result<(), AllocError>
    ensures { OnOk result (seen_entries entries.new ≡ seen_entries entries.old ++ numbered second (seq_of (length
        parts.now) (part_at env.now parts.now) 0)) }
{
    let mut next = second;
    let mut i = 0;
    while i < parts.len() {
        let from = entries.len();
        walk_arm(alloc, parts, i, env, next, entries)?;
        next = behind(next, entries.len() - from)?;
        i += 1;
    }
    Ok(())
}

// The iterations of a spread at one child, in turn.
#[cycle(walking)]
fn walk_child(
    alloc: Global,
    body: &Term,
    spread: Spread,
    child: u32,
    env: &Env<'_>,
    second: u32,
    entries: &mut Entries,
) -> Result<(), AllocError>
    requires { child < spread.children }
    ensures { OnOk result (seen_entries entries.new ≡ seen_entries entries.old ++ numbered second (child_at env.now
        spread body.now child)) }
{
    let mut next = second;
    let mut turn = spread.next_at(child, 0);
    while turn < spread.turns {
        let turns = Chain::Link(turn, env.turns);
        let inner = Env {
            turns: &turns,
            ..*env
        };
        let from = entries.len();
        walk(alloc, body, &inner, next, entries)?;
        next = behind(next, entries.len() - from)?;
        turn = spread.next_at(child, turn + 1);
    }
    Ok(())
}

// Parts beside one another: each has the numbers behind those of the parts after it.
#[cycle(walking)]
fn walk_beside(
    alloc: Global,
    parts: &[Term],
    env: &Env<'_>,
    second: u32,
    entries: &mut Entries,
) -> Result<(), AllocError>
    ensures { OnOk result (seen_entries entries.new ≡ seen_entries entries.old ++ numbered second (par_of (length
        parts.now) (part_at env.now parts.now) 0)) }
{
    let Some(mut after) = count_parts(parts, env) else {
        return Err(AllocError);
    };
    let mut i = 0;
    while i < parts.len() {
        let Some(here) = count_arm(parts, i, env) else {
            return Err(AllocError);
        };
        after -= here;
        let number = behind(second, after as usize)?;
        walk_arm(alloc, parts, i, env, number, entries)?;
        i += 1;
    }
    Ok(())
}

// The children of a spread, beside one another.
#[cycle(walking)]
fn walk_children(
    alloc: Global,
    body: &Term,
    spread: Spread,
    env: &Env<'_>,
    second: u32,
    entries: &mut Entries,
) -> Result<(), AllocError>
    ensures { OnOk result (seen_entries entries.new ≡ seen_entries entries.old ++ numbered second (par_of
        spread.children (child_at env.now spread body.now) 0)) }
{
    let Some(mut after) = count_children(body, spread, env) else {
        return Err(AllocError);
    };
    let mut child = 0;
    while child < spread.children {
        let Some(here) = count_child(body, spread, child, env) else {
            return Err(AllocError);
        };
        after -= here;
        let number = behind(second, after as usize)?;
        walk_child(alloc, body, spread, child, env, number, entries)?;
        child += 1;
    }
    Ok(())
}
