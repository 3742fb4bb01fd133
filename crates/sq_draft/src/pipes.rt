//! Loops whose transfers overlap.

ghost use Rattle.std.specs.Prelude.{◌≡◌, ◌++◌, [], ◌∷◌, List, ℕ, map, None, Some, IfOk, OnOk, pos};
ghost use Rattle.sq_ir.specs.Lifting.{lift};
ghost use Rattle.sq_ir.specs.declared.num.Num.TheVariants as num;
ghost use Rattle.sq_ir.specs.declared.term.Term.TheVariants as term;
ghost use Rattle.sq_text.specs.declared.spread.SpreadRule.TheVariants as spread_rule;
ghost use Rattle.sq_tables.specs.Placed.Trees as trees;
ghost use Rattle.sq_tables.specs.Term.Terms as terms;
ghost use Rattle.sq_draft.specs.declared.transfers.Transfer.TheVariants as transfer;
ghost use Rattle.sq_draft.specs.Building as building;
ghost use Rattle.sq_draft.specs.Piping as piping;

use crate::args::moves;
use crate::forms::{CalleeArrays, LanePlace, MapTable, PipeCall, Places, Round, Set, Shell};
use crate::parts::within;
use crate::transfers::{Transfer, transfers_term};
use sq_contexts::{
    at_child_already, at_iteration, call_child, count_num, iteration, lane_at, lift_context,
    lift_lane, whole_lane,
};
use sq_ir::{BufferIds, Num, Numbers, Term, Terms};
use sq_spec::Argument;
use sq_tables::{
    Context, Home, Homes, Lane, Move, Pipe, any_lower, any_same, home_at, pipe_of, spread_of,
};
use sq_text::SpreadRule;
use sqlite_items::{Boxed as Box, Items};
use std::alloc::{AllocError, Global};

/// A map as a loop whose transfers overlap, if it is one.
pub fn pipe_in<'a>(homes: &[Homes], round: Round, table: &MapTable<'a>) -> Option<Pipe<'a>>
    ensures { result ≡ building.pipe_in homes.now round.rule table.now.kind table.now.body.now round.inside }
{
    let lower = any_lower(table.body);
    let same = any_same(table.body);
    let spread = spread_of(round.rule, table.kind, round.inside, lower, same);
    pipe_of(homes, table.kind, spread, table.body)
}

// ---- one of the two sets

fn home_in_first(home: Home) -> Home
    ensures { result ≡ trees.home_in_set 0 home }
{
    match home {
        Home::InPlace | Home::Own(_) | Home::Held { .. } => home,
        Home::Twin { first, .. } => Home::Own(first),
    }
}

fn home_in_second(home: Home) -> Home
    ensures { result ≡ trees.home_in_set 1 home }
{
    match home {
        Home::InPlace | Home::Own(_) | Home::Held { .. } => home,
        Home::Twin { second, .. } => Home::Own(second),
    }
}

fn home_in_set(set: Set, home: Home) -> Home
    ensures { result ≡ trees.home_in_set (piping.set_number set) home }
{
    match set {
        Set::First => home_in_first(home),
        Set::Second => home_in_second(home),
    }
}

fn homes_in_set(alloc: Global, set: Set, homes: &[Home]) -> Result<Items<Home>, AllocError>
    ensures { IfOk result (λ hs. hs ≡ map (trees.home_in_set (piping.set_number set)) homes.now) }
{
    let mut out = Items::new(alloc);
    for home in homes {
        out.push(home_in_set(set, *home))?;
    }
    Ok(out)
}

fn push_first(out: &mut BufferIds, home: Home) -> Result<(), AllocError>
    ensures { OnOk result ((later : List ℕ) → out.new ++ later ≡ out.old ++ trees.twin_of 0 home later) }
{
    match home {
        Home::Twin { first, .. } => {
            out.push(first)?;
            Ok(())
        }
        Home::InPlace | Home::Own(_) | Home::Held { .. } => Ok(()),
    }
}

fn push_second(out: &mut BufferIds, home: Home) -> Result<(), AllocError>
    ensures { OnOk result ((later : List ℕ) → out.new ++ later ≡ out.old ++ trees.twin_of 1 home later) }
{
    match home {
        Home::Twin { second, .. } => {
            out.push(second)?;
            Ok(())
        }
        Home::InPlace | Home::Own(_) | Home::Held { .. } => Ok(()),
    }
}

fn push_twin(out: &mut BufferIds, set: Set, home: Home) -> Result<(), AllocError>
    ensures { OnOk result ((later : List ℕ)
        → out.new ++ later ≡ out.old ++ trees.twin_of (piping.set_number set) home later) }
{
    match set {
        Set::First => push_first(out, home),
        Set::Second => push_second(out, home),
    }
}

fn push_set(
    out: &mut BufferIds,
    set: Set,
    homes: &[Home],
    args: &[Argument],
) -> Result<(), AllocError>
    ensures { OnOk result (out.new ≡ out.old
        ++ terms.set_buffers_from (piping.set_number set) homes.now 0 args.now) }
{
    for (i, _) in args.iter().enumerate() {
        push_twin(out, set, home_at(homes, i))?;
    }
    Ok(())
}

// The buffers of both sets.
fn sets_of(alloc: Global, pipe: &PipeCall<'_>) -> Result<BufferIds, AllocError>
    ensures { IfOk result (λ bs. bs ≡ piping.sets_of (piping.seen pipe.now)) }
{
    let mut out = Items::new(alloc);
    push_set(&mut out, Set::First, pipe.callee.homes, pipe.args)?;
    push_set(&mut out, Set::Second, pipe.callee.homes, pipe.args)?;
    Ok(out)
}

/// The arguments of the call in a set.
pub fn moves_in(
    alloc: Global,
    pipe: &PipeCall<'_>,
    set: Set,
    at: &Context,
) -> Result<Items<Move>, AllocError>
    requires { piping.HasTables pipe.now at.now }
    ensures { IfOk result (λ ms. ms ≡ piping.moves_in (piping.seen pipe.now) (piping.set_number set) at.now) }
{
    let homes = homes_in_set(alloc, set, pipe.callee.homes)?;
    let callee = CalleeArrays {
        shapes: pipe.callee.shapes,
        homes: homes.as_slice(),
    };
    let made = moves(alloc, &pipe.call, &callee, at, pipe.args)?;
    Ok(made)
}

// What is done for them.
fn done_in(
    alloc: Global,
    pipe: &PipeCall<'_>,
    which: Transfer,
    set: Set,
    at: &Context,
) -> Result<Term, AllocError>
    requires { piping.HasTables pipe.now at.now }
    ensures { IfOk result (λ x. x ≡ piping.done_in (piping.seen pipe.now) which (piping.set_number set) at.now) }
{
    let ms = moves_in(alloc, pipe, set, at)?;
    let made = transfers_term(alloc, which, ms.as_slice())?;
    Ok(made)
}

fn in_both(
    alloc: Global,
    pipe: &PipeCall<'_>,
    which: Transfer,
    at: &Context,
) -> Result<Terms, AllocError>
    requires { piping.HasTables pipe.now at.now }
    ensures { IfOk result (λ ts. ts ≡ piping.in_both (piping.seen pipe.now) which at.now) }
{
    let mut out = Items::new(alloc);
    let first = done_in(alloc, pipe, which, Set::First, at)?;
    out.push(first)?;
    let second = done_in(alloc, pipe, which, Set::Second, at)?;
    out.push(second)?;
    Ok(out)
}

// ---- where the parts stand

fn in_lane(
    alloc: Global,
    starts: &Numbers,
    place: &LanePlace,
    position: &Num,
) -> Result<Context, AllocError>
    ensures { IfOk result (λ d. d ≡ piping.in_lane starts.now place.now position.now) }
{
    let t = iteration(alloc, &place.lane, position)?;
    let made = at_iteration(alloc, starts, &t, &place.context);
    drop(t);
    made
}

fn whole_place(alloc: Global, count: &Num, c: &Context) -> Result<LanePlace, AllocError>
    ensures { IfOk result (λ l. l ≡ piping.outer_of None count.now c.now) }
{
    let many = count.copy(alloc)?;
    match at_child_already(alloc, c) {
        Err(end) => {
            drop(many);
            Err(end)
        }
        Ok(context) => Ok(LanePlace {
            lane: whole_lane(many),
            context,
        }),
    }
}

fn num_lifted_twice(alloc: Global, number: &Num) -> Result<Num, AllocError>
    ensures { IfOk result (λ n. n ≡ lift 1 (lift 1 number.now)) }
{
    let once = number.lifted(alloc, 1)?;
    let made = once.lifted(alloc, 1);
    drop(once);
    made
}

// The iterations at the child of the innermost loop, of so many children as the one round it says.
fn child_lane(alloc: Global, rule: SpreadRule, count: &Num) -> Result<Lane, AllocError>
    ensures { IfOk result (λ l. l ≡ terms.lane_at rule (lift 1 (lift 1 count.now)) (num.Index 1) (num.Index 0)) }
{
    let count = num_lifted_twice(alloc, count)?;
    let (child, own) = (Num::Index(1), Num::Index(0));
    let made = lane_at(alloc, rule, &count, &child, &own);
    drop(count);
    drop(child);
    drop(own);
    made
}

fn lifted_twice(alloc: Global, c: &Context) -> Result<Context, AllocError>
    ensures { IfOk result (λ d. d ≡ terms.lift_context (terms.lift_context c.now)) }
{
    let once = lift_context(alloc, c)?;
    let made = lift_context(alloc, &once);
    drop(once);
    made
}

fn child_place(
    alloc: Global,
    rule: SpreadRule,
    count: &Num,
    c: &Context,
) -> Result<LanePlace, AllocError>
    ensures { IfOk result (λ l. l ≡ piping.outer_of (Some rule) count.now c.now) }
{
    let context = lifted_twice(alloc, c)?;
    match child_lane(alloc, rule, count) {
        Err(end) => {
            drop(context);
            Err(end)
        }
        Ok(lane) => Ok(LanePlace { lane, context }),
    }
}

fn outer_of(
    alloc: Global,
    spread: Option<SpreadRule>,
    count: &Num,
    c: &Context,
) -> Result<LanePlace, AllocError>
    ensures { IfOk result (λ l. l ≡ piping.outer_of spread count.now c.now) }
{
    match spread {
        None => whole_place(alloc, count, c),
        Some(rule) => child_place(alloc, rule, count, c),
    }
}

fn inner_of(alloc: Global, place: &LanePlace) -> Result<LanePlace, AllocError>
    ensures { IfOk result (λ l. l ≡ piping.inner_of place.now) }
{
    let context = lift_context(alloc, &place.context)?;
    match lift_lane(alloc, &place.lane) {
        Err(end) => {
            drop(context);
            Err(end)
        }
        Ok(lane) => Ok(LanePlace { lane, context }),
    }
}

fn first_in_lane(alloc: Global, starts: &Numbers, place: &LanePlace) -> Result<Context, AllocError>
    ensures { IfOk result (λ d. d ≡ piping.in_lane starts.now place.now (num.Index 0)) }
{
    let position = Num::Index(0);
    let made = in_lane(alloc, starts, place, &position);
    drop(position);
    made
}

// In an iteration, and its work.
fn turn_places(
    alloc: Global,
    starts: &Numbers,
    outer: &LanePlace,
) -> Result<(LanePlace, Context), AllocError>
    ensures { IfOk result (λ p. p ≡ (
      piping.inner_of outer.now,
      piping.in_lane starts.now (piping.inner_of outer.now) (num.Index 0),
    )) }
{
    let inner = inner_of(alloc, outer)?;
    match first_in_lane(alloc, starts, &inner) {
        Err(end) => {
            drop(inner);
            Err(end)
        }
        Ok(work) => Ok((inner, work)),
    }
}

fn places_of(
    alloc: Global,
    spread: Option<SpreadRule>,
    count: &Num,
    starts: &Numbers,
    c: &Context,
) -> Result<Places, AllocError>
    ensures { IfOk result (λ s. s ≡ piping.places_of spread count.now starts.now c.now) }
{
    let outer = outer_of(alloc, spread, count, c)?;
    match turn_places(alloc, starts, &outer) {
        Err(end) => {
            drop(outer);
            Err(end)
        }
        Ok((inner, work)) => Ok(Places { outer, inner, work }),
    }
}

/// Where the parts of the loop stand, which has the iterations of these counts.
pub fn places_in(
    alloc: Global,
    spread: Option<SpreadRule>,
    counts: &[u32],
    starts: &Numbers,
    c: &Context,
) -> Result<Places, AllocError>
    ensures { IfOk result (λ s. s ≡ piping.places_of spread (terms.count_num counts.now c.now) starts.now c.now) }
{
    let count = count_num(alloc, counts, c)?;
    let made = places_of(alloc, spread, &count, starts, c);
    drop(count);
    made
}

// ---- the parts

fn by_set(alloc: Global, position: Num, arms: Terms) -> Result<Term, AllocError>
    ensures { IfOk result (λ x. x ≡ term.Case (num.Rem position (num.Const (pos 2))) arms) }
{
    let pick = Num::remainder(alloc, position, Num::Const(2))?;
    Ok(Term::Case { pick, arms })
}

fn push_skip(out: &mut Terms) -> Result<(), AllocError>
    ensures { OnOk result (out.new ≡ out.old ++ term.Skip ∷ []) }
{
    out.push(Term::Skip)?;
    Ok(())
}

fn push_part(out: &mut Terms, part: Term) -> Result<(), AllocError>
    ensures { OnOk result (out.new ≡ out.old ++ part ∷ []) }
{
    out.push(part)?;
    Ok(())
}

fn push_arms(out: &mut Terms, part: Term) -> Result<(), AllocError>
    ensures { OnOk result (out.new ≡ out.old ++ term.Skip ∷ part ∷ []) }
{
    match push_skip(out) {
        Err(end) => {
            drop(part);
            Err(end)
        }
        Ok(()) => push_part(out, part),
    }
}

// Nothing, or a part.
fn arms_of(alloc: Global, part: Term) -> Result<Terms, AllocError>
    ensures { IfOk result (λ ts. ts ≡ term.Skip ∷ part ∷ []) }
{
    let mut arms = Items::new(alloc);
    push_arms(&mut arms, part)?;
    Ok(arms)
}

fn skip_or(alloc: Global, pick: Num, part: Term) -> Result<Term, AllocError>
    ensures { IfOk result (λ x. x ≡ term.Case pick (term.Skip ∷ part ∷ [])) }
{
    match arms_of(alloc, part) {
        Err(end) => {
            drop(pick);
            Err(end)
        }
        Ok(arms) => Ok(Term::Case { pick, arms }),
    }
}

// Nothing where the number is 0.
fn where_some(alloc: Global, number: Num, part: Term) -> Result<Term, AllocError>
    ensures { IfOk result (λ x. x ≡ terms.where_some number part) }
{
    match Num::lesser(alloc, number, Num::Const(1)) {
        Err(end) => {
            drop(part);
            Err(end)
        }
        Ok(pick) => skip_or(alloc, pick, part),
    }
}

// What is done at a position of the lane, in either set.
fn both_at(
    alloc: Global,
    pipe: &PipeCall<'_>,
    which: Transfer,
    place: &LanePlace,
    position: &Num,
) -> Result<Terms, AllocError>
    requires { piping.HasTables pipe.now place.now.context }
    ensures { IfOk result (λ ts. ts ≡ piping.both_at (piping.seen pipe.now) which place.now position.now) }
{
    let at = in_lane(alloc, pipe.starts, place, position)?;
    let made = in_both(alloc, pipe, which, &at);
    drop(at);
    made
}

// And in its own one.
fn done_at(
    alloc: Global,
    pipe: &PipeCall<'_>,
    which: Transfer,
    place: &LanePlace,
    position: Num,
) -> Result<Term, AllocError>
    requires { piping.HasTables pipe.now place.now.context }
    ensures { IfOk result (λ x. x ≡ piping.done_at (piping.seen pipe.now) which place.now position) }
{
    match both_at(alloc, pipe, which, place, &position) {
        Err(end) => {
            drop(position);
            Err(end)
        }
        Ok(arms) => by_set(alloc, position, arms),
    }
}

fn one_before(alloc: Global, number: Num) -> Result<Num, AllocError>
    ensures { IfOk result (λ n. n ≡ num.Sub number (num.Const (pos 1))) }
{
    Num::difference(alloc, number, Num::Const(1))
}

fn last_of(alloc: Global, lane: &Lane) -> Result<Num, AllocError>
    ensures { IfOk result (λ n. n ≡ num.Sub lane.now.many (num.Const (pos 1))) }
{
    let many = lane.many.copy(alloc)?;
    one_before(alloc, many)
}

fn left_of(alloc: Global, lane: &Lane) -> Result<Num, AllocError>
    ensures { IfOk result (λ n. n ≡ num.Sub (num.Sub lane.now.many (num.Const (pos 1))) (num.Index 0)) }
{
    let last = last_of(alloc, lane)?;
    Num::difference(alloc, last, Num::Index(0))
}

// What goes out of the other set, of the position before.
fn leave_before(alloc: Global, pipe: &PipeCall<'_>, inner: &LanePlace) -> Result<Term, AllocError>
    requires { piping.HasTables pipe.now inner.now.context }
    ensures { IfOk result (λ x. x ≡ terms.where_some (num.Index 0)
        (piping.done_at (piping.seen pipe.now) transfer.Back inner.now (num.Sub (num.Index 0) (num.Const (pos 1))))) }
{
    let before = one_before(alloc, Num::Index(0))?;
    let part = done_at(alloc, pipe, Transfer::Back, inner, before)?;
    where_some(alloc, Num::Index(0), part)
}

fn come_next_at(alloc: Global, pipe: &PipeCall<'_>, inner: &LanePlace) -> Result<Term, AllocError>
    requires { piping.HasTables pipe.now inner.now.context }
    ensures { IfOk result (λ x. x ≡
        piping.done_at (piping.seen pipe.now) transfer.Come inner.now (num.Add (num.Index 0) (num.Const (pos 1)))) }
{
    let next = Num::sum(alloc, Num::Index(0), Num::Const(1))?;
    done_at(alloc, pipe, Transfer::Come, inner, next)
}

// What comes into it, for the position behind.
fn come_next(alloc: Global, pipe: &PipeCall<'_>, inner: &LanePlace) -> Result<Term, AllocError>
    requires { piping.HasTables pipe.now inner.now.context }
    ensures { IfOk result (λ x. x ≡ terms.where_some
        (num.Sub (num.Sub inner.now.lane.many (num.Const (pos 1))) (num.Index 0))
        (piping.done_at (piping.seen pipe.now) transfer.Come inner.now (num.Add (num.Index 0) (num.Const (pos 1))))) }
{
    let left = left_of(alloc, &inner.lane)?;
    match come_next_at(alloc, pipe, inner) {
        Err(end) => {
            drop(left);
            Err(end)
        }
        Ok(part) => where_some(alloc, left, part),
    }
}

fn others_in(alloc: Global, pipe: &PipeCall<'_>, inner: &LanePlace) -> Result<Term, AllocError>
    requires { piping.HasTables pipe.now inner.now.context }
    ensures { IfOk result (λ x. x ≡ piping.others_in (piping.seen pipe.now) inner.now) }
{
    let mut parts = Items::new(alloc);
    let leave = leave_before(alloc, pipe, inner)?;
    parts.push(leave)?;
    let come = come_next(alloc, pipe, inner)?;
    parts.push(come)?;
    Ok(Term::Seq(parts))
}

// An iteration: its work beside the transfers of the other set.
fn turn_in(
    alloc: Global,
    pipe: &PipeCall<'_>,
    inner: &LanePlace,
    works: Terms,
) -> Result<Term, AllocError>
    requires { piping.HasTables pipe.now inner.now.context }
    ensures { IfOk result (λ x. x ≡ piping.turn_in (piping.seen pipe.now) inner.now works) }
{
    let mut parts = Items::new(alloc);
    let work = by_set(alloc, Num::Index(0), works)?;
    parts.push(work)?;
    let others = others_in(alloc, pipe, inner)?;
    parts.push(others)?;
    Ok(Term::Par(parts))
}

// What comes in before the first iteration.
fn come_first(alloc: Global, pipe: &PipeCall<'_>, outer: &LanePlace) -> Result<Term, AllocError>
    requires { piping.HasTables pipe.now outer.now.context }
    ensures { IfOk result (λ x. x ≡ piping.come_first (piping.seen pipe.now) outer.now) }
{
    let at = at_iteration(alloc, pipe.starts, &outer.lane.first, &outer.context)?;
    let made = done_in(alloc, pipe, Transfer::Come, Set::First, &at);
    drop(at);
    made
}

/// The same behind other parts.
pub fn push_come(
    alloc: Global,
    out: &mut Terms,
    pipe: &PipeCall<'_>,
    outer: &LanePlace,
) -> Result<(), AllocError>
    requires { piping.HasTables pipe.now outer.now.context }
    ensures { OnOk result (out.new ≡ out.old ++ piping.come_first (piping.seen pipe.now) outer.now ∷ []) }
{
    match come_first(alloc, pipe, outer) {
        Err(end) => Err(end),
        Ok(part) => push_part(out, part),
    }
}

fn loop_by(alloc: Global, count: Num, turn: Term) -> Result<Term, AllocError>
    ensures { IfOk result (λ x. x ≡ term.Loop count turn) }
{
    match Box::new(alloc, turn) {
        Err(end) => {
            drop(count);
            Err(end)
        }
        Ok(body) => Ok(Term::Loop { count, body }),
    }
}

// With a count of its own.
fn loop_like(alloc: Global, count: &Num, turn: Term) -> Result<Term, AllocError>
    ensures { IfOk result (λ x. x ≡ term.Loop count.now turn) }
{
    match count.copy(alloc) {
        Err(end) => {
            drop(turn);
            Err(end)
        }
        Ok(many) => loop_by(alloc, many, turn),
    }
}

fn turns_in(
    alloc: Global,
    pipe: &PipeCall<'_>,
    places: &Places,
    works: Terms,
) -> Result<Term, AllocError>
    requires { piping.HasTables pipe.now places.now.inner.context }
    ensures { IfOk result (λ x. x ≡ piping.turns_in (piping.seen pipe.now) places.now works) }
{
    match turn_in(alloc, pipe, &places.inner, works) {
        Err(end) => Err(end),
        Ok(turn) => loop_like(alloc, &places.outer.lane.many, turn),
    }
}

/// Its iterations, whose work has these terms in the two sets, behind other parts.
pub fn push_turns(
    alloc: Global,
    out: &mut Terms,
    pipe: &PipeCall<'_>,
    places: &Places,
    works: Terms,
) -> Result<(), AllocError>
    requires { piping.HasTables pipe.now places.now.inner.context }
    ensures { OnOk result (out.new ≡ out.old ++ piping.turns_in (piping.seen pipe.now) places.now works ∷ []) }
{
    match turns_in(alloc, pipe, places, works) {
        Err(end) => Err(end),
        Ok(part) => push_part(out, part),
    }
}

// What goes out after the last iteration.
fn leave_last(alloc: Global, pipe: &PipeCall<'_>, outer: &LanePlace) -> Result<Term, AllocError>
    requires { piping.HasTables pipe.now outer.now.context }
    ensures { IfOk result (λ x. x ≡ piping.leave_last (piping.seen pipe.now) outer.now) }
{
    let last = last_of(alloc, &outer.lane)?;
    done_at(alloc, pipe, Transfer::Back, outer, last)
}

/// The same behind other parts.
pub fn push_leave(
    alloc: Global,
    out: &mut Terms,
    pipe: &PipeCall<'_>,
    outer: &LanePlace,
) -> Result<(), AllocError>
    requires { piping.HasTables pipe.now outer.now.context }
    ensures { OnOk result (out.new ≡ out.old ++ piping.leave_last (piping.seen pipe.now) outer.now ∷ []) }
{
    match leave_last(alloc, pipe, outer) {
        Err(end) => Err(end),
        Ok(part) => push_part(out, part),
    }
}

// ---- the scope of the two sets

fn children_term(alloc: Global, part: Term) -> Result<Term, AllocError>
    ensures { IfOk result (λ x. x ≡ term.Spread (num.Index 0) spread_rule.Cyclic part) }
{
    let body = Box::new(alloc, part)?;
    Ok(Term::Spread {
        count: Num::Index(0),
        rule: SpreadRule::Cyclic,
        body,
    })
}

fn last_only(alloc: Global, part: Term) -> Result<Term, AllocError>
    ensures { IfOk result (λ x. x ≡ term.Case (num.Div (num.Index 0) num.Children) (term.Skip ∷ part ∷ [])) }
{
    match Num::quotient(alloc, Num::Index(0), Num::Children) {
        Err(end) => {
            drop(part);
            Err(end)
        }
        Ok(pick) => skip_or(alloc, pick, part),
    }
}

// All but the last iteration of a loop are nothing, and that one is spread over the children.
fn child_case(alloc: Global, part: Term) -> Result<Term, AllocError>
    ensures { IfOk result (λ x. x ≡ term.Case (num.Div (num.Index 0) num.Children)
        (term.Skip ∷ term.Spread (num.Index 0) spread_rule.Cyclic part ∷ [])) }
{
    let spread = children_term(alloc, part)?;
    last_only(alloc, spread)
}

fn child_loop(alloc: Global, part: Term) -> Result<Term, AllocError>
    ensures { IfOk result (λ x. x ≡ term.Loop (num.Add num.Children (num.Const (pos 1))) part) }
{
    match Num::sum(alloc, Num::Children, Num::Const(1)) {
        Err(end) => {
            drop(part);
            Err(end)
        }
        Ok(count) => loop_by(alloc, count, part),
    }
}

fn each_child(alloc: Global, part: Term) -> Result<Term, AllocError>
    ensures { IfOk result (λ x. x ≡ terms.each_child part) }
{
    let case = child_case(alloc, part)?;
    child_loop(alloc, case)
}

fn at_children(alloc: Global, buffers: BufferIds, part: Term) -> Result<Term, AllocError>
    ensures { IfOk result (λ x. x ≡ terms.each_child (term.Within (Some (num.Index 0)) buffers part)) }
{
    let inside = within(alloc, Some(Num::Index(0)), buffers, part)?;
    each_child(alloc, inside)
}

fn shell_lists(
    alloc: Global,
    pipe: &PipeCall<'_>,
    many: &Num,
) -> Result<(BufferIds, Num), AllocError>
    ensures { IfOk result (λ p. p ≡ (piping.sets_of (piping.seen pipe.now), many.now)) }
{
    let buffers = sets_of(alloc, pipe)?;
    let many = many.copy(alloc)?;
    Ok((buffers, many))
}

// What a loop's scope and its condition are made of. They are made before its parts, which are dear to let go.
fn shell_parts(
    alloc: Global,
    pipe: &PipeCall<'_>,
    child: Option<Num>,
    many: &Num,
) -> Result<Shell, AllocError>
    ensures child { IfOk result (λ s. s.child ≡ child) }
    ensures buffers { IfOk result (λ s. s.buffers ≡ piping.sets_of (piping.seen pipe.now)) }
    ensures many { IfOk result (λ s. s.many ≡ many.now) }
{
    match shell_lists(alloc, pipe, many) {
        Err(end) => {
            drop(child);
            Err(end)
        }
        Ok((buffers, many)) => Ok(Shell {
            child,
            buffers,
            many,
        }),
    }
}

/// What stands round the parts of a loop with these iterations at a child.
pub fn shell_of(
    alloc: Global,
    pipe: &PipeCall<'_>,
    lane: &Lane,
    c: &Context,
) -> Result<Shell, AllocError>
    ensures child { IfOk result (λ s. s.child ≡ c.now.child) }
    ensures buffers { IfOk result (λ s. s.buffers ≡ piping.sets_of (piping.seen pipe.now)) }
    ensures many { IfOk result (λ s. s.many ≡ lane.now.many) }
{
    let child = call_child(alloc, true, c)?;
    shell_parts(alloc, pipe, child, &lane.many)
}

fn in_child(
    alloc: Global,
    spread: Option<SpreadRule>,
    child: Option<Num>,
    buffers: BufferIds,
    part: Term,
) -> Result<Term, AllocError>
    ensures { IfOk result (λ x. x ≡ piping.in_child spread child buffers part) }
{
    match spread {
        None => within(alloc, child, buffers, part),
        Some(_) => {
            drop(child);
            at_children(alloc, buffers, part)
        }
    }
}

/// The loop, which has these parts.
pub fn piped_term(
    alloc: Global,
    spread: Option<SpreadRule>,
    shell: Shell,
    parts: Terms,
) -> Result<Term, AllocError>
    ensures { IfOk result (λ x. x ≡ piping.in_child spread shell.child shell.buffers
        (terms.where_some shell.many (term.Seq parts))) }
{
    let (child, buffers, many) = shell.parts();
    match where_some(alloc, many, Term::Seq(parts)) {
        Err(end) => {
            drop(child);
            Err(end)
        }
        Ok(lane) => in_child(alloc, spread, child, buffers, lane),
    }
}
