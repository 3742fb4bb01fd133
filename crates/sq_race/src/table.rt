//! The maps of statements that run their iterations beside one another, in text order.

ghost use Rattle.std.specs.Prelude.{◌≡◌, ◌+◌, map, IfOk, OnOk};
ghost use Rattle.sq_race.specs.Table as spec;

use crate::map::Map;
use sq_ast::{ArgUse, MapKind, Stmt};
use sq_text::{Name, Place, Span};
use sqlite_items::Items;
use std::alloc::{AllocError, Global};

// Added where it has 32 bits; else memory would have run out before.
fn plus(a: u32, b: u32) -> Result<u32, AllocError>
    ensures { IfOk result (λ n. n ≡ a + b) }
{
    match a.checked_add(b) {
        Some(sum) => Ok(sum),
        None => Err(AllocError),
    }
}

#[cycle(calls)]
#[tactic(auto, using(crate::proofs::Opened::opened_stmt))]
fn calls_in(s: &Stmt) -> Result<u32, AllocError>
    ensures { IfOk result (λ n. n ≡ (spec.portion s.now).calls) }
{
    match s {
        Stmt::Call(_) => Ok(1),
        Stmt::Map { body, .. } => {
            let count = calls_in_all(body.as_slice())?;
            Ok(count)
        }
    }
}

#[cycle(calls)]
fn calls_in_all(list: &[Stmt]) -> Result<u32, AllocError>
    ensures { IfOk result (λ n. n ≡ spec.calls_of (map spec.portion list.now)) }
{
    let mut count = 0;
    for s in list {
        count = plus(count, calls_in(s)?)?;
    }
    Ok(count)
}

// Where the first argument of a name stands.
fn position(args: &[ArgUse], name: &Name) -> Option<usize>
    ensures { result ≡ spec.position_from name.now args.now 0 }
{
    for i in 0..args.len() {
        if args[i].name == *name {
            return Some(i);
        }
    }
    None
}

#[tactic(auto, using(crate::proofs::Opened::opened_stmt))]
fn position_in(s: &Stmt, name: &Name) -> Option<usize>
    ensures { result ≡ (spec.portion s.now).position name.now }
{
    match s {
        Stmt::Call(call) => position(call.args.as_slice(), name),
        Stmt::Map { .. } => None,
    }
}

fn reduced_in(body: &[Stmt], name: &Name) -> Option<usize>
    ensures { result ≡ spec.reduced_in (map spec.portion body.now) name.now }
{
    match body.first() {
        Some(s) => position_in(s, name),
        None => None,
    }
}

fn row(place: Place, kind: &MapKind, body: &[Stmt], depth: u32, calls: Span) -> Option<Map>
    ensures { result ≡ spec.row_of place kind.now (map spec.portion body.now) depth calls }
{
    match kind {
        MapKind::Seq => None,
        MapKind::Par => Some(Map {
            place,
            depth,
            calls,
            reduced: None,
        }),
        MapKind::Reduce { array, .. } => Some(Map {
            place,
            depth,
            calls,
            reduced: reduced_in(body, &array.name),
        }),
    }
}

fn push_row(maps: &mut Items<Map>, row: Option<Map>) -> Result<(), AllocError>
    ensures { OnOk result (spec.Adds maps.old maps.new (spec.with_row row)) }
{
    if let Some(map) = row {
        maps.push(map)?;
    }
    Ok(())
}

// Adds the maps of a statement whose calls begin with this number, and gives the number behind them.
#[cycle(table)]
#[tactic(auto, using(crate::proofs::Opened::opened_stmt))]
fn add_stmt(maps: &mut Items<Map>, depth: u32, first: u32, s: &Stmt) -> Result<u32, AllocError>
    ensures next { IfOk result (λ n. n ≡ first + (spec.portion s.now).calls) }
    ensures maps { OnOk result (spec.Adds maps.old maps.new ((spec.portion s.now).maps depth first)) }
{
    match s {
        Stmt::Call(_) => {
            let next = plus(first, 1)?;
            Ok(next)
        }
        Stmt::Map {
            place,
            kind,
            body,
            ..
        } => {
            let list = body.as_slice();
            let next = plus(first, calls_in_all(list)?)?;
            let calls = Span {
                lo: first,
                hi: next,
            };
            push_row(maps, row(*place, kind, list, depth, calls))?;
            add_stmts(maps, plus(depth, 1)?, first, list)?;
            Ok(next)
        }
    }
}

#[cycle(table)]
fn add_stmts(maps: &mut Items<Map>, depth: u32, first: u32, list: &[Stmt]) -> Result<(), AllocError>
    ensures { OnOk result (spec.Adds maps.old maps.new (spec.maps_of (map spec.portion list.now) depth first)) }
{
    let mut call = first;
    for s in list {
        call = add_stmt(maps, depth, call, s)?;
    }
    Ok(())
}

/// The maps of a variant's statements.
pub fn maps_in(alloc: Global, list: &[Stmt]) -> Result<Items<Map>, AllocError>
    ensures { IfOk result (λ maps. maps ≡ spec.maps_in list.now) }
{
    let mut maps = Items::new(alloc);
    add_stmts(&mut maps, 0, 0, list)?;
    Ok(maps)
}
