//! The iterations of a loop at one child, and contexts in them.

ghost use Rattle.std.specs.Prelude.{◌≡◌, ◌++◌, ◌∷◌, [], IfOk, None, map, pos};
ghost use Rattle.sq_ir.specs.Lifting.{lift};
ghost use Rattle.sq_ir.specs.declared.num.Num.TheVariants as num;
ghost use Rattle.sq_term.specs.Terms as terms;

use crate::context::lift_child;
use crate::places::{copy_nums, copy_views, lift_nums, lift_views};
use sq_ir::{LeafView, LeafViews, Num, Numbers, Nums};
use sq_term::{Context, Lane};
use sq_text::SpreadRule;
use std::alloc::{AllocError, Global};

fn lift_lists(
    alloc: Global,
    path: &[Num],
    views: &[LeafView],
) -> Result<(Nums, LeafViews), AllocError>
    ensures { IfOk result (λ p. p ≡ (map (lift 1) path.now, map terms.lift_view views.now)) }
{
    let path = lift_nums(alloc, path)?;
    let views = lift_views(alloc, views)?;
    Ok((path, views))
}

fn lift_numbers(
    alloc: Global,
    ordinal: &Num,
    child: &Option<Num>,
) -> Result<(Num, Option<Num>), AllocError>
    ensures { IfOk result (λ p. p ≡ (lift 1 ordinal.now, terms.lift_child child.now)) }
{
    let child = lift_child(alloc, child)?;
    match ordinal.lifted(alloc, 1) {
        Err(end) => {
            drop(child);
            Err(end)
        }
        Ok(ordinal) => Ok((ordinal, child)),
    }
}

/// The same place under one loop more.
pub fn lift_context(alloc: Global, c: &Context) -> Result<Context, AllocError>
    ensures { IfOk result (λ d. d ≡ terms.lift_context c.now) }
{
    let (path, views) = lift_lists(alloc, c.path.as_slice(), c.views.as_slice())?;
    let (ordinal, child) = lift_numbers(alloc, &c.ordinal, &c.child)?;
    Ok(Context {
        ordinal,
        child,
        path,
        views,
    })
}

fn lifted_two(alloc: Global, a: &Num, b: &Num) -> Result<(Num, Num), AllocError>
    ensures { IfOk result (λ p. p ≡ (lift 1 a.now, lift 1 b.now)) }
{
    let first = a.lifted(alloc, 1)?;
    match b.lifted(alloc, 1) {
        Err(end) => {
            drop(first);
            Err(end)
        }
        Ok(second) => Ok((first, second)),
    }
}

fn copied_two(alloc: Global, a: &Num, b: &Num) -> Result<(Num, Num), AllocError>
    ensures { IfOk result (λ p. p ≡ (a.now, b.now)) }
{
    let first = a.copy(alloc)?;
    match b.copy(alloc) {
        Err(end) => {
            drop(first);
            Err(end)
        }
        Ok(second) => Ok((first, second)),
    }
}

/// The same iterations under one loop more.
pub fn lift_lane(alloc: Global, lane: &Lane) -> Result<Lane, AllocError>
    ensures { IfOk result (λ l. l ≡ terms.lift_lane lane.now) }
{
    let many = lane.many.lifted(alloc, 1)?;
    match lifted_two(alloc, &lane.first, &lane.step) {
        Err(end) => {
            drop(many);
            Err(end)
        }
        Ok((first, step)) => Ok(Lane { first, step, many }),
    }
}

/// All iterations of a loop.
pub fn whole_lane(count: Num) -> Lane
    ensures { result ≡ terms.whole_lane count }
{
    Lane {
        first: Num::Const(0),
        step: Num::Const(1),
        many: count,
    }
}

fn one_less(alloc: Global, f: &Num) -> Result<Num, AllocError>
    ensures { IfOk result (λ n. n ≡ num.Sub f.now (num.Const (pos 1))) }
{
    let children = f.copy(alloc)?;
    Num::difference(alloc, children, Num::Const(1))
}

// A number that rounds up where it is divided by so many.
fn nearly_one_more(alloc: Global, n: Num, f: &Num) -> Result<Num, AllocError>
    ensures { IfOk result (λ r. r ≡ num.Add n (num.Sub f.now (num.Const (pos 1)))) }
{
    match one_less(alloc, f) {
        Err(end) => {
            drop(n);
            Err(end)
        }
        Ok(less) => Num::sum(alloc, n, less),
    }
}

fn part_of(alloc: Global, n: Num, f: &Num) -> Result<Num, AllocError>
    ensures { IfOk result (λ r. r ≡ num.Div n f.now) }
{
    match f.copy(alloc) {
        Err(end) => {
            drop(n);
            Err(end)
        }
        Ok(children) => Num::quotient(alloc, n, children),
    }
}

fn multiple(alloc: Global, c: Num, count: &Num) -> Result<Num, AllocError>
    ensures { IfOk result (λ r. r ≡ num.Mul c count.now) }
{
    match count.copy(alloc) {
        Err(end) => {
            drop(c);
            Err(end)
        }
        Ok(many) => Num::product(alloc, c, many),
    }
}

fn lane_start(alloc: Global, count: &Num, f: &Num, c: Num) -> Result<Num, AllocError>
    ensures { IfOk result (λ n. n ≡ terms.lane_start count.now f.now c) }
{
    let product = multiple(alloc, c, count)?;
    let more = nearly_one_more(alloc, product, f)?;
    part_of(alloc, more, f)
}

fn start_at(alloc: Global, count: &Num, f: &Num, c: &Num) -> Result<Num, AllocError>
    ensures { IfOk result (λ n. n ≡ terms.lane_start count.now f.now c.now) }
{
    let child = c.copy(alloc)?;
    lane_start(alloc, count, f, child)
}

fn start_behind(alloc: Global, count: &Num, f: &Num, c: &Num) -> Result<Num, AllocError>
    ensures { IfOk result (λ n. n ≡ terms.lane_start count.now f.now (num.Add c.now (num.Const (pos 1)))) }
{
    let child = c.copy(alloc)?;
    let next = Num::sum(alloc, child, Num::Const(1))?;
    lane_start(alloc, count, f, next)
}

// How many iterations are not at the children before this one, in the first round of them.
fn behind(alloc: Global, n: Num, c: &Num) -> Result<Num, AllocError>
    ensures { IfOk result (λ r. r ≡ num.Sub n c.now) }
{
    match c.copy(alloc) {
        Err(end) => {
            drop(n);
            Err(end)
        }
        Ok(child) => Num::difference(alloc, n, child),
    }
}

fn many_in_rounds(alloc: Global, count: &Num, f: &Num, c: &Num) -> Result<Num, AllocError>
    ensures { IfOk result (λ n. n ≡
        num.Div (num.Sub (num.Add count.now (num.Sub f.now (num.Const (pos 1)))) c.now) f.now) }
{
    let all = count.copy(alloc)?;
    let more = nearly_one_more(alloc, all, f)?;
    let left = behind(alloc, more, c)?;
    part_of(alloc, left, f)
}

fn many_in_block(alloc: Global, count: &Num, f: &Num, c: &Num) -> Result<Num, AllocError>
    ensures { IfOk result (λ n. n ≡ num.Sub
        (terms.lane_start count.now f.now (num.Add c.now (num.Const (pos 1))))
        (terms.lane_start count.now f.now c.now)) }
{
    let first = start_at(alloc, count, f, c)?;
    match start_behind(alloc, count, f, c) {
        Err(end) => {
            drop(first);
            Err(end)
        }
        Ok(last) => Num::difference(alloc, last, first),
    }
}

fn cyclic_lane(alloc: Global, count: &Num, f: &Num, c: &Num) -> Result<Lane, AllocError>
    ensures { IfOk result (λ l. l ≡ record {
      first = c.now;
      step = f.now;
      many = num.Div (num.Sub (num.Add count.now (num.Sub f.now (num.Const (pos 1)))) c.now) f.now;
    }) }
{
    let many = many_in_rounds(alloc, count, f, c)?;
    match copied_two(alloc, c, f) {
        Err(end) => {
            drop(many);
            Err(end)
        }
        Ok((first, step)) => Ok(Lane { first, step, many }),
    }
}

fn blocked_lane(alloc: Global, count: &Num, f: &Num, c: &Num) -> Result<Lane, AllocError>
    ensures { IfOk result (λ l. l ≡ record {
      first = terms.lane_start count.now f.now c.now;
      step = num.Const (pos 1);
      many = num.Sub
          (terms.lane_start count.now f.now (num.Add c.now (num.Const (pos 1))))
          (terms.lane_start count.now f.now c.now);
    }) }
{
    let many = many_in_block(alloc, count, f, c)?;
    match start_at(alloc, count, f, c) {
        Err(end) => {
            drop(many);
            Err(end)
        }
        Ok(first) => Ok(Lane {
            first,
            step: Num::Const(1),
            many,
        }),
    }
}

/// The iterations that a rule gives to the c-th of f children.
pub fn lane_at(
    alloc: Global,
    rule: SpreadRule,
    count: &Num,
    f: &Num,
    c: &Num,
) -> Result<Lane, AllocError>
    ensures { IfOk result (λ l. l ≡ terms.lane_at rule count.now f.now c.now) }
{
    match rule {
        SpreadRule::Cyclic => cyclic_lane(alloc, count, f, c),
        SpreadRule::Blocked => blocked_lane(alloc, count, f, c),
    }
}

/// The iteration at this position.
pub fn iteration(alloc: Global, lane: &Lane, position: &Num) -> Result<Num, AllocError>
    ensures { IfOk result (λ n. n ≡ terms.iteration lane.now position.now) }
{
    let (step, position) = copied_two(alloc, &lane.step, position)?;
    let far = Num::product(alloc, step, position)?;
    match lane.first.copy(alloc) {
        Err(end) => {
            drop(far);
            Err(end)
        }
        Ok(first) => Num::sum(alloc, first, far),
    }
}

fn ordinal_of(alloc: Global, starts: &Numbers, t: &Num, ordinal: &Num) -> Result<Num, AllocError>
    ensures { IfOk result (λ n. n ≡ num.Add (num.Pick starts.now ordinal.now) t.now) }
{
    let start = Num::pick(alloc, starts.copy()?, ordinal.copy(alloc)?)?;
    match t.copy(alloc) {
        Err(end) => {
            drop(start);
            Err(end)
        }
        Ok(iteration) => Num::sum(alloc, start, iteration),
    }
}

fn path_to(alloc: Global, path: &[Num], t: &Num) -> Result<Nums, AllocError>
    ensures { IfOk result (λ ns. ns ≡ path.now ++ t.now ∷ []) }
{
    let mut out = copy_nums(alloc, path)?;
    out.push(t.copy(alloc)?)?;
    Ok(out)
}

// The iterations round a statement in this iteration, and where its arrays stand.
fn lists_of(
    alloc: Global,
    path: &[Num],
    t: &Num,
    views: &[LeafView],
) -> Result<(Nums, LeafViews), AllocError>
    ensures { IfOk result (λ p. p ≡ (path.now ++ t.now ∷ [], views.now)) }
{
    let path = path_to(alloc, path, t)?;
    let views = copy_views(alloc, views)?;
    Ok((path, views))
}

/// The context in an iteration of a loop, at the child that its call goes to; starts: how many iterations began before,
/// each time that the loop is begun.
pub fn at_iteration(
    alloc: Global,
    starts: &Numbers,
    t: &Num,
    c: &Context,
) -> Result<Context, AllocError>
    ensures { IfOk result (λ d. d ≡ record {
      ordinal = num.Add (num.Pick starts.now c.now.ordinal) t.now;
      child = None;
      path = c.now.path ++ t.now ∷ [];
      views = c.now.views;
    }) }
{
    let (path, views) = lists_of(alloc, c.path.as_slice(), t, c.views.as_slice())?;
    let ordinal = ordinal_of(alloc, starts, t, &c.ordinal)?;
    Ok(Context {
        ordinal,
        child: None,
        path,
        views,
    })
}
