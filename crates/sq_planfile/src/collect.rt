//! What is left of a part of a plan, by a walk over its term.

ghost use Rattle.std.specs.Prelude.{◌≡◌, ◌<◌, length, map, OnOk};
ghost use Rattle.sq_sched.specs.Words.{env_of};
ghost use Rattle.sq_planfile.specs.Left.{then_seq, then_par, scope};
ghost use Rattle.sq_planfile.specs.Written.{seq_of, par_of};
ghost use Rattle.sq_planfile.specs.Words as words;
ghost use Rattle.sq_planfile.specs.Words.{left_at, part_at, child_at, left_within};

use crate::course::{loop_of, spread_of};
use crate::event::{event_text, naturals};
use crate::left::Left;
use sq_ir::{Action, Num, Term};
use sq_plantext::{EventText, TermText};
use sq_sched::{Chain, Env, Spread, arm_for, child_node, count_of, node_of, rest_of};
use sq_text::Place;
use std::alloc::{AllocError, Global};

// An event.
fn put_event(
    alloc: Global,
    action: &Action,
    env: &Env<'_>,
    out: &mut Left,
) -> Result<(), AllocError>
    ensures { OnOk result (out.new ≡ then_seq out.old (words.event_at env.now action.now)) }
{
    let event = event_text(alloc, action, env)?;
    out.then(
        alloc,
        Left::Alone(TermText::Act {
            place: Place { line: 0, col: 0 },
            event,
        }),
    )
}

/// Puts what is left of a part behind what is there.
#[cycle(collecting)]
pub(crate) fn collect(
    alloc: Global,
    term: &Term,
    env: &Env<'_>,
    out: &mut Left,
) -> Result<(), AllocError>
    ensures { OnOk result (out.new ≡ then_seq out.old (left_at env.now term.now)) }
{
    match term {
        Term::Skip => Ok(()),
        Term::Act(action) => put_event(alloc, action, env, out),
        Term::Seq(parts) => collect_parts(alloc, parts.as_slice(), env, out),
        Term::Par(parts) => collect_par(alloc, parts.as_slice(), env, out),
        Term::Loop { count, body } => {
            let body = body.get();
            collect_child(alloc, body, loop_of(count, body, env), 0, env, out)
        }
        Term::Spread { count, rule, body } => {
            let body = body.get();
            collect_spread(alloc, body, spread_of(count, *rule, body, env), env, out)
        }
        Term::Case { pick, arms } => {
            let i = arm_for(pick, env, arms.len());
            collect_arm(alloc, arms.as_slice(), i, env, out)
        }
        Term::Within {
            child,
            buffers,
            body,
        } => collect_within(alloc, child, buffers.as_slice(), body.get(), env, out),
    }
}

// The part of a number, if there is one.
#[cycle(collecting)]
fn collect_arm(
    alloc: Global,
    arms: &[Term],
    i: usize,
    env: &Env<'_>,
    out: &mut Left,
) -> Result<(), AllocError>
    ensures { OnOk result (out.new ≡ then_seq out.old (part_at env.now arms.now i)) }
{
    if i < arms.len() {
        collect(alloc, &arms[i], env, out)
    } else {
        Ok(())
    }
}

// Parts in turn.
#[cycle(collecting)]
fn collect_parts(
    alloc: Global,
    parts: &[Term],
    env: &Env<'_>,
    out: &mut Left,
) -> Result<(), AllocError>
    ensures { OnOk result (out.new ≡ then_seq out.old (seq_of (length parts.now) (part_at env.now parts.now) 0)) }
{
    let mut i = 0;
    while i < parts.len() {
        collect_arm(alloc, parts, i, env, out)?;
        i += 1;
    }
    Ok(())
}

// Parts beside one another.
#[cycle(collecting)]
fn collect_par(
    alloc: Global,
    parts: &[Term],
    env: &Env<'_>,
    out: &mut Left,
) -> Result<(), AllocError>
    ensures { OnOk result (out.new ≡ then_seq out.old (par_of (length parts.now) (part_at env.now parts.now) 0)) }
{
    let mut whole = Left::Nothing;
    collect_beside(alloc, parts, env, &mut whole)?;
    out.then(alloc, whole)
}

#[cycle(collecting)]
fn collect_beside(
    alloc: Global,
    parts: &[Term],
    env: &Env<'_>,
    out: &mut Left,
) -> Result<(), AllocError>
    ensures { OnOk result (out.new ≡ then_par out.old (par_of (length parts.now) (part_at env.now parts.now) 0)) }
{
    let mut i = 0;
    while i < parts.len() {
        let mut part = Left::Nothing;
        collect_arm(alloc, parts, i, env, &mut part)?;
        out.and(alloc, part)?;
        i += 1;
    }
    Ok(())
}

// The iterations of a spread at one child, in turn.
#[cycle(collecting)]
fn collect_child(
    alloc: Global,
    body: &Term,
    spread: Spread,
    child: u32,
    env: &Env<'_>,
    out: &mut Left,
) -> Result<(), AllocError>
    requires { child < spread.children }
    ensures { OnOk result (out.new ≡ then_seq out.old (child_at env.now spread body.now child)) }
{
    let mut turn = spread.next_at(child, 0);
    while turn < spread.turns {
        let turns = Chain::Link(turn, env.turns);
        let inner = Env {
            turns: &turns,
            ..*env
        };
        collect(alloc, body, &inner, out)?;
        turn = spread.next_at(child, turn + 1);
    }
    Ok(())
}

// The children of a spread, beside one another.
#[cycle(collecting)]
fn collect_spread(
    alloc: Global,
    body: &Term,
    spread: Spread,
    env: &Env<'_>,
    out: &mut Left,
) -> Result<(), AllocError>
    ensures { OnOk result (out.new ≡ then_seq out.old (par_of spread.children (child_at env.now spread body.now) 0)) }
{
    let mut whole = Left::Nothing;
    collect_children(alloc, body, spread, env, &mut whole)?;
    out.then(alloc, whole)
}

#[cycle(collecting)]
fn collect_children(
    alloc: Global,
    body: &Term,
    spread: Spread,
    env: &Env<'_>,
    out: &mut Left,
) -> Result<(), AllocError>
    ensures { OnOk result (out.new ≡ then_par out.old (par_of spread.children (child_at env.now spread body.now) 0)) }
{
    let mut child = 0;
    while child < spread.children {
        let mut part = Left::Nothing;
        collect_child(alloc, body, spread, child, env, &mut part)?;
        out.and(alloc, part)?;
        child += 1;
    }
    Ok(())
}

// A scope.
#[cycle(collecting)]
fn collect_within(
    alloc: Global,
    child: &Option<Num>,
    buffers: &[u32],
    body: &Term,
    env: &Env<'_>,
    out: &mut Left,
) -> Result<(), AllocError>
    ensures { OnOk result (out.new ≡ then_seq out.old (left_within env.now child.now buffers.now body.now)) }
{
    match child {
        None => collect_scope(alloc, node_of(env), buffers, body, env, out),
        Some(child) => {
            let here = node_of(env);
            let child = count_of(child, env);
            let nodes = Chain::Link(child_node(env, child), env.nodes);
            let inner = Env {
                nodes: &nodes,
                fans: rest_of(env.fans),
                ..*env
            };
            collect_scope(alloc, here, buffers, body, &inner, out)
        }
    }
}

// The scope of these buffers that comes to the node in force from this one, round its body.
#[cycle(collecting)]
fn collect_scope(
    alloc: Global,
    here: u64,
    buffers: &[u32],
    body: &Term,
    env: &Env<'_>,
    out: &mut Left,
) -> Result<(), AllocError>
    ensures { OnOk result (out.new ≡ then_seq out.old (words.scope_at env.now here buffers.now body.now)) }
{
    let mut inside = Left::Nothing;
    collect(alloc, body, env, &mut inside)?;
    put_scope(alloc, here, node_of(env), buffers, inside, out)
}

fn put_scope(
    alloc: Global,
    here: u64,
    node: u64,
    buffers: &[u32],
    inside: Left,
    out: &mut Left,
) -> Result<(), AllocError>
    ensures { OnOk result (out.new ≡ then_seq out.old (scope here node buffers.now inside)) }
{
    match naturals(alloc, buffers) {
        Ok(buffers) => match inside.within(alloc, here, node, buffers) {
            Ok(scope) => out.then(alloc, scope),
            Err(_) => Err(AllocError),
        },
        Err(_) => Err(AllocError),
    }
}
