//! Which scopes of a part are reached, at a node with so many children.

ghost use Rattle.std.specs.Prelude.{◌≡◌, ◌<◌, length, replicate, suc, true, false, IfOk, set, get_or, map};
ghost use Rattle.sq_term_nums.specs.Words.{env_of, value, count};
ghost use Rattle.sq_sums.specs.Parts.{through, all_parts, each_turn, arm_of};
ghost use Rattle.sq_sums.specs.Routes as routes;
ghost use Rattle.sq_sums.specs.Routes.{position_of, next_position, env_on_way, to_child, scope_arrivals, arrivals};
ghost use Rattle.sq_sums.specs.Routes.{no_marks, marks};

use crate::route::{Number, Route};
use crate::stand::arm_for;
use sq_term_nums::{Env, Turns, count_of};
use sqlite_items::Items;
use std::alloc::{AllocError, Global};

/// A row for each scope, with a mark for each way to it: 0 at the node itself, c + 1 at its c-th child.
pub(crate) type Marks = Vec<Items<bool>>;

/// Where a way has led: the iterations round, the number of children of the part's node, and the way to the node in
/// force.
#[derive(Clone, Copy, Drop)]
pub(crate) struct Position<'a> {
    pub(crate) turns: &'a Turns<'a>,
    pub(crate) fan: u32,
    pub(crate) way: u64,
}

// Sets the mark of a way, if the row has one.
#[tactic(auto, using(crate::proofs::Lists::set_past))]
fn tick(row: &mut Items<bool>, way: u64)
    ensures { row.new ≡ set row.old way true }
{
    let way = way as usize;
    if way < row.len() {
        row.set(way, true);
    }
}

// Sets the mark of a scope and a way.
fn mark(marks: &mut Marks, number: usize, way: u64)
    ensures { marks.new.items ≡ routes.mark (record { number = number; way = way }) marks.old.items }
{
    if number < marks.len() {
        tick(&mut marks[number], way);
    }
}

// What numbers are evaluated with.
fn env<'a>(at: &Position<'a>) -> Env<'a>
    ensures { env_of result ≡ env_on_way at.now.fan (position_of at.now) }
{
    Env {
        turns: at.turns,
        children: at.fan,
    }
}

/// Marks all to which a way leads.
#[cycle(going)]
#[tactic(auto, using(crate::proofs::RouteForms::route_forms))]
fn go(route: &Route<'_>, at: &Position<'_>, marks: &mut Marks)
    ensures { marks.new.items ≡ through routes.mark (arrivals at.now.fan route.now (position_of at.now))
        marks.old.items }
{
    match route {
        Route::Nothing => {}
        Route::Parts(parts) => go_all(parts.as_slice(), at, marks),
        Route::Each(count, inside) => {
            let n = count_of(count.number(), &env(at));
            go_each(inside.get(), n, at, marks);
        }
        Route::Arm(pick, arms) => {
            let i = arm_for(pick.number(), &env(at), arms.len());
            go_arm(arms.as_slice(), i, at, marks);
        }
        Route::Scope(child, number) => reach(child, *number, at, marks),
        Route::Inside(child, inside) => {
            let k = count_of(child.number(), &env(at));
            go_inside(inside.get(), k, at, marks);
        }
    }
}

#[cycle(going)]
fn go_all(parts: &[Route<'_>], at: &Position<'_>, marks: &mut Marks)
    ensures { marks.new.items ≡ through routes.mark
        (all_parts (map (arrivals at.now.fan) parts.now) (position_of at.now)) marks.old.items }
{
    for part in parts {
        go(part, at, marks);
    }
}

#[cycle(going)]
fn go_each(inside: &Route<'_>, n: u64, at: &Position<'_>, marks: &mut Marks)
    ensures { marks.new.items ≡ through routes.mark
        (each_turn n (λ t. arrivals at.now.fan inside.now (next_position (position_of at.now) t)) 0) marks.old.items }
{
    for i in 0..n {
        let turns = Turns::Link(i, at.turns);
        let inner = Position {
            turns: &turns,
            ..*at
        };
        go(inside, &inner, marks);
    }
}

// The arm of a number, if there is one.
#[cycle(going)]
fn go_arm(arms: &[Route<'_>], i: usize, at: &Position<'_>, marks: &mut Marks)
    ensures { marks.new.items ≡ through routes.mark (arm_of (map (arrivals at.now.fan) arms.now) i (position_of at.now))
        marks.old.items }
{
    if i < arms.len() {
        go(&arms[i], at, marks);
    }
}

// A scope, at a child or not.
fn reach(child: &Option<Number<'_>>, number: usize, at: &Position<'_>, marks: &mut Marks)
    ensures { marks.new.items ≡ through routes.mark (scope_arrivals at.now.fan child.now number (position_of at.now))
        marks.old.items }
{
    match child {
        None => mark(marks, number, at.way),
        Some(c) => {
            let k = count_of(c.number(), &env(at));
            if at.way == 0 && k < u64::from(at.fan) {
                mark(marks, number, k + 1);
            }
        }
    }
}

// What is inside a scope at a child.
#[cycle(going)]
fn go_inside(inside: &Route<'_>, k: u64, at: &Position<'_>, marks: &mut Marks)
    ensures { marks.new.items ≡ through routes.mark
        (to_child at.now.fan k (λ w. arrivals at.now.fan inside.now
        (record { turns = (position_of at.now).turns; way = w })) at.now.way) marks.old.items }
{
    if at.way == 0 && k < u64::from(at.fan) {
        let inner = Position { way: k + 1, ..*at };
        go(inside, &inner, marks);
    }
}

// A row without marks.
fn empty_row(alloc: Global, len: u64) -> Result<Items<bool>, AllocError>
    ensures { IfOk result (λ row. row ≡ replicate len false) }
{
    let mut row = Items::new(alloc);
    for _made in 0..len {
        row.push(false)?;
    }
    Ok(row)
}

// Rows without marks.
fn empty_marks(alloc: Global, sites: usize, fan: u32) -> Result<Marks, AllocError>
    ensures { IfOk result (λ marks. marks.items ≡ no_marks sites fan) }
{
    let len = u64::from(fan) + 1;
    let mut marks = Vec::new(alloc);
    for _made in 0..sites {
        let row = empty_row(alloc, len)?;
        marks.push(row)?;
    }
    Ok(marks)
}

/// The marks of a part with so many scopes, at a node with so many children.
pub(crate) fn marks_of(
    alloc: Global,
    route: &Route<'_>,
    sites: usize,
    fan: u32,
) -> Result<Marks, AllocError>
    ensures { IfOk result (λ ms. ms.items ≡ marks fan sites route.now) }
{
    let mut marks = empty_marks(alloc, sites, fan)?;
    let turns = Turns::Root;
    let at = Position {
        turns: &turns,
        fan,
        way: 0,
    };
    go(route, &at, &mut marks);
    Ok(marks)
}
