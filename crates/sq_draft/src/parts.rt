//! Parts of a term.

ghost use Rattle.std.specs.Prelude.{◌≡◌, ◌++◌, [], ◌∷◌, map, None, IfOk, OnOk};
ghost use Rattle.sq_ir.specs.declared.num.Num.TheVariants as num;
ghost use Rattle.sq_ir.specs.declared.term.Term.TheVariants as term;
ghost use Rattle.sq_ir.specs.declared.term.Action.TheVariants as action;
ghost use Rattle.sq_tables.specs.Placed.Tables as tables;
ghost use Rattle.sq_tables.specs.Placed.Trees as trees;
ghost use Rattle.sq_tables.specs.Term.Terms as terms;
ghost use Rattle.sq_tables.specs.Cases as cases;

use crate::args::call_buffers;
use crate::moves::fill_term;
use sq_contexts::{LocalArrays, buffer_view, call_child, copy_lists, pick_at, push_local_buffers};
use sq_ir::{Action, BufferIds, Num, Shape, Term, Terms};
use sq_spec::{Argument, CallInstance};
use sq_tables::{Arms, Context, Home, picks};
use sq_text::SpreadRule;
use sqlite_items::{Boxed as Box, Items};
use std::alloc::{AllocError, Global};

fn clear_local(alloc: Global, buffer: u32, shape: &Shape) -> Result<Term, AllocError>
    ensures { IfOk result (λ x. x ≡ terms.clear_term (terms.local_view
        (record { shape = shape.now; buffer = buffer }))) }
{
    let view = buffer_view(buffer, shape)?;
    fill_term(alloc, 0, &view)
}

fn push_clears(
    alloc: Global,
    out: &mut Terms,
    shapes: &[Shape],
    buffers: &[u32],
) -> Result<(), AllocError>
    ensures { OnOk result (out.new ≡ out.old ++ map (λ k. terms.clear_term (terms.local_view k))
        (tables.placed_locals shapes.now buffers.now)) }
{
    match shapes {
        [] => Ok(()),
        [shape, more @ ..] => match buffers {
            [] => Ok(()),
            [buffer, others @ ..] => {
                out.push(clear_local(alloc, *buffer, shape)?)?;
                push_clears(alloc, out, more, others)?;
                Ok(())
            }
        },
    }
}

fn clears(alloc: Global, shapes: &[Shape], buffers: &[u32]) -> Result<Terms, AllocError>
    ensures { IfOk result (λ ts. ts ≡ map (λ k. terms.clear_term (terms.local_view k))
        (tables.placed_locals shapes.now buffers.now)) }
{
    let mut out = Items::new(alloc);
    push_clears(alloc, &mut out, shapes, buffers)?;
    Ok(out)
}

fn local_buffers(alloc: Global, locals: &LocalArrays<'_>) -> Result<BufferIds, AllocError>
    ensures { IfOk result (λ bs. bs ≡ trees.local_buffers
        (tables.placed_locals locals.now.shapes.now locals.now.buffers.now)) }
{
    let mut out = Items::new(alloc);
    push_local_buffers(&mut out, locals.shapes, locals.buffers)?;
    Ok(out)
}

/// A part with buffers in scope, at a child or not.
pub fn within(
    alloc: Global,
    child: Option<Num>,
    buffers: BufferIds,
    part: Term,
) -> Result<Term, AllocError>
    ensures { IfOk result (λ x. x ≡ term.Within child buffers part) }
{
    match Box::new(alloc, part) {
        Err(end) => {
            drop(child);
            Err(end)
        }
        Ok(body) => Ok(Term::Within {
            child,
            buffers,
            body,
        }),
    }
}

// Parts in sequence, with buffers in scope.
fn scope(
    alloc: Global,
    child: Option<Num>,
    buffers: BufferIds,
    parts: Terms,
) -> Result<Term, AllocError>
    ensures { IfOk result (λ x. x ≡ term.Within child buffers (term.Seq parts)) }
{
    within(alloc, child, buffers, Term::Seq(parts))
}

/// The same at the child that a call goes to.
pub fn child_scope(
    alloc: Global,
    lower: bool,
    c: &Context,
    buffers: BufferIds,
    parts: Terms,
) -> Result<Term, AllocError>
    ensures { IfOk result (λ x. x ≡ term.Within (terms.call_child lower c.now) buffers (term.Seq parts)) }
{
    let child = call_child(alloc, lower, c)?;
    scope(alloc, child, buffers, parts)
}

/// The same with the buffers of a call.
pub fn call_scope(
    alloc: Global,
    lower: bool,
    homes: &[Home],
    args: &[Argument],
    parts: Terms,
    c: &Context,
) -> Result<Term, AllocError>
    ensures { IfOk result (λ x. x ≡ term.Within (terms.call_child lower c.now)
        (terms.buffers_from homes.now 0 args.now) (term.Seq parts)) }
{
    let buffers = call_buffers(alloc, homes, args)?;
    child_scope(alloc, lower, c, buffers, parts)
}

/// The same with the buffers of locals.
pub fn locals_scope(
    alloc: Global,
    locals: &LocalArrays<'_>,
    parts: Terms,
) -> Result<Term, AllocError>
    ensures { IfOk result (λ x. x ≡ term.Within None (trees.local_buffers
        (tables.placed_locals locals.now.shapes.now locals.now.buffers.now)) (term.Seq parts)) }
{
    let buffers = local_buffers(alloc, locals)?;
    scope(alloc, None, buffers, parts)
}

fn arm_pick(
    alloc: Global,
    arms: &Arms<'_>,
    instances: &[CallInstance],
    c: &Context,
) -> Result<Num, AllocError>
    requires { cases.AreIndexed arms.now }
    ensures { IfOk result (λ n. n ≡
        num.Pick (terms.numbers (terms.picks arms.now.list instances.now)) c.now.ordinal) }
{
    let numbers = picks(alloc, arms, instances)?;
    pick_at(alloc, numbers, c)
}

/// A call, whose arms have these terms.
pub fn case_term(
    alloc: Global,
    arms: &Arms<'_>,
    instances: &[CallInstance],
    parts: Terms,
    c: &Context,
) -> Result<Term, AllocError>
    requires { cases.AreIndexed arms.now }
    ensures { IfOk result (λ x. x ≡
        term.Case (num.Pick (terms.numbers (terms.picks arms.now.list instances.now)) c.now.ordinal) parts) }
{
    let pick = arm_pick(alloc, arms, instances, c)?;
    Ok(Term::Case { pick, arms: parts })
}

/// The fills of locals.
pub fn push_fills(
    alloc: Global,
    out: &mut Terms,
    locals: &LocalArrays<'_>,
) -> Result<(), AllocError>
    ensures { OnOk result (out.new ≡ out.old ++ term.Par (map (λ k. terms.clear_term (terms.local_view k))
        (tables.placed_locals locals.now.shapes.now locals.now.buffers.now)) ∷ []) }
{
    let parts = clears(alloc, locals.shapes, locals.buffers)?;
    out.push(Term::Par(parts))?;
    Ok(())
}

/// A leaf call.
pub fn leaf_term(alloc: Global, code: u32, c: &Context) -> Result<Term, AllocError>
    ensures { IfOk result (λ x. x ≡ term.Act (action.Leaf code c.now.views c.now.path)) }
{
    let (path, views) = copy_lists(alloc, c.path.as_slice(), c.views.as_slice())?;
    Ok(Term::Act(Action::Leaf { code, views, path }))
}

fn loop_of(spread: Option<SpreadRule>, count: Num, body: Box<Term>) -> Term
    ensures { result ≡ terms.map_term spread count body }
{
    match spread {
        Some(rule) => Term::Spread { count, rule, body },
        None => Term::Loop { count, body },
    }
}

/// How a map goes through its iterations.
pub fn map_term(
    alloc: Global,
    spread: Option<SpreadRule>,
    count: Num,
    parts: Terms,
) -> Result<Term, AllocError>
    ensures { IfOk result (λ x. x ≡ terms.map_term spread count (term.Seq parts)) }
{
    match Box::new(alloc, Term::Seq(parts)) {
        Err(end) => {
            drop(count);
            Err(end)
        }
        Ok(body) => Ok(loop_of(spread, count, body)),
    }
}
