//! How many calls and maps stand in the maps of a variant, so that calls have their numbers without being counted
//! again.

ghost use Rattle.std.specs.Prelude.{◌≡◌, ◌+◌, ◌++◌, drop, length, map, IfOk, OnOk};
ghost use Rattle.sq_forms.specs.Stmts as spec;

use sq_ast::{Body, Stmt, Variant};
use sqlite_items::{Items, at};
use std::alloc::{AllocError, Global};

/// Of a map: how many calls stand in it, and how many maps, itself among them.
#[derive(Clone, Copy, Debug, PartialEq, Eq)]
pub struct Tally {
    pub calls: u32,
    pub maps: u32,
}

// Added where it has 32 bits; else memory would have run out before.
pub fn plus(a: u32, b: u32) -> Result<u32, AllocError>
    ensures { IfOk result (λ n. n ≡ a + b) }
{
    match a.checked_add(b) {
        Some(sum) => Ok(sum),
        None => Err(AllocError),
    }
}

/// The number of a call behind so many others.
pub fn call_behind(call: u32, calls: u32) -> Result<u32, AllocError>
    ensures { IfOk result (λ n. n ≡ call + calls) }
{
    plus(call, calls)
}

// Keeps the tallies of the maps of a statement, in text order; how many calls and maps stand in it.
#[cycle(tallies)]
#[tactic(auto, using(crate::proofs::OpenedStmt::opened_stmt))]
fn push_tally(maps: &mut Items<Tally>, s: &Stmt) -> Result<Tally, AllocError>
    ensures maps { OnOk result (maps.new ≡ maps.old ++ (spec.portion s.now).maps) }
    ensures sum { IfOk result (λ t. t ≡ spec.sum_of (spec.portion s.now)) }
{
    match s {
        Stmt::Call(_) => Ok(Tally { calls: 1, maps: 0 }),
        Stmt::Map { body, .. } => {
            let here = maps.len();
            maps.push(Tally { calls: 0, maps: 0 })?;
            let inside = push_tallies(maps, body.as_slice())?;
            let own = Tally {
                calls: inside.calls,
                maps: plus(1, inside.maps)?,
            };
            maps.set(here, own);
            Ok(own)
        }
    }
}

// Keeps the tallies of the maps of statements, in text order; how many calls and maps stand in them.
#[cycle(tallies)]
fn push_tallies(maps: &mut Items<Tally>, list: &[Stmt]) -> Result<Tally, AllocError>
    ensures maps { OnOk result (maps.new ≡ maps.old ++ spec.maps_of (map spec.portion list.now)) }
    ensures sum { IfOk result (λ t. t ≡ spec.sum_of_all (map spec.portion list.now)) }
{
    let mut calls = 0;
    let mut inside = 0;
    for s in list {
        let tally = push_tally(maps, s)?;
        calls = plus(calls, tally.calls)?;
        inside = plus(inside, tally.maps)?;
    }
    Ok(Tally {
        calls,
        maps: inside,
    })
}

/// How many calls stand in a statement.
#[cycle(calls)]
#[tactic(auto, using(crate::proofs::OpenedStmt::opened_stmt))]
pub fn calls_in(s: &Stmt) -> Result<u32, AllocError>
    ensures { IfOk result (λ n. n ≡ (spec.portion s.now).calls) }
{
    match s {
        Stmt::Call(_) => Ok(1),
        Stmt::Map { body, .. } => {
            let count = calls_in_all(body.as_slice())?;
            Ok(count)
        }
    }
}

#[cycle(calls)]
fn calls_in_all(list: &[Stmt]) -> Result<u32, AllocError>
    ensures { IfOk result (λ n. n ≡ spec.calls_of (map spec.portion list.now)) }
{
    let mut count = 0;
    for s in list {
        count = plus(count, calls_in(s)?)?;
    }
    Ok(count)
}

fn tallies_of(alloc: Global, body: &Body) -> Result<Items<Tally>, AllocError>
    ensures { IfOk result (λ maps. maps ≡ spec.tallies_of body.now) }
{
    let mut maps = Items::new(alloc);
    match body {
        Body::Inner(list) => {
            push_tallies(&mut maps, list.as_slice())?;
            Ok(maps)
        }
        Body::Leaf(_) => Ok(maps),
    }
}

/// The tallies of the maps of each variant, in text order.
pub fn all_tallies(alloc: Global, variants: &[Variant]) -> Result<Items<Items<Tally>>, AllocError>
    ensures { IfOk result (λ tallies. tallies ≡ spec.all_tallies variants.now) }
{
    let mut tallies = Items::new(alloc);
    for v in variants {
        tallies.push(tallies_of(alloc, &v.body)?)?;
    }
    Ok(tallies)
}

/// Tallies without so many of the first.
pub fn behind(maps: &[Tally], count: usize) -> &[Tally]
    ensures { result.now ≡ drop count maps.now }
{
    if count <= maps.len() {
        &maps[count..]
    } else {
        &[]
    }
}

/// How many calls stand in a statement whose tallies are the first of these.
pub fn calls_of(maps: &[Tally], s: &Stmt) -> u32
    requires { spec.Begins (spec.portion s.now).maps maps.now }
    ensures { result ≡ (spec.portion s.now).calls }
{
    match s {
        Stmt::Call(_) => 1,
        Stmt::Map { .. } => match at(maps, 0) {
            Some(tally) => tally.calls,
            None => 0,
        },
    }
}

/// How many maps stand in a statement whose tallies are the first of these.
pub fn maps_of(maps: &[Tally], s: &Stmt) -> u32
    requires { spec.Begins (spec.portion s.now).maps maps.now }
    ensures { result ≡ length (spec.portion s.now).maps }
{
    match s {
        Stmt::Call(_) => 0,
        Stmt::Map { .. } => match at(maps, 0) {
            Some(tally) => tally.maps,
            None => 0,
        },
    }
}
