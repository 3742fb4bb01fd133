//! Loops that arguments leave.

ghost use Rattle.std.specs.Prelude.{◌≡◌, ◌++◌, List, ℕ, IfOk, OnOk, map, get_or, slice_get};
ghost use Rattle.sq_tables.specs.Placed.declared.home.Home.TheVariants as home;
ghost use Rattle.sq_tables.specs.Term.declared.context.Move.{Move as SpecMove};
ghost use Rattle.sq_tables.specs.Placed.Seats.{cons_some};
ghost use Rattle.sq_tables.specs.Placed.Tables as tables;
ghost use Rattle.sq_tables.specs.Placed.Trees as trees;
ghost use Rattle.sq_tables.specs.Term.Terms as terms;
ghost use Rattle.sq_tables.specs.Loops as loops;
ghost use Rattle.sq_draft.specs.Building as building;

use crate::args::{move_from, shape_at};
use crate::forms::{CalleeArrays, Forms, Holding};
use sq_contexts::{block_view, start_table};
use sq_ir::{BufferIds, LeafView, Num};
use sq_spec::{CallInstance, LoopKind, Statement};
use sq_tables::{
    Context, Home, Left, Move, held_offsets, home_at, leaving_args, loops_in, rows_in,
};
use sqlite_items::{Items, at};
use std::alloc::{AllocError, Global};

// An argument that leaves a loop whose call has these rows; number: of the first iteration's row.
fn held_move(
    alloc: Global,
    callee: &CalleeArrays<'_>,
    rows: &[CallInstance],
    number: &Num,
    left: &Left<'_>,
    v: &LeafView,
) -> Result<Move, AllocError>
    ensures { IfOk result (λ m. m ≡ terms.held_move (get_or callee.now.shapes.now left.now.0 tables.no_shape)
        (get_or callee.now.homes.now left.now.0 home.InPlace) rows.now number.now left.now.0 left.now.1 v.now) }
{
    let Some(shape) = shape_at(callee.shapes, left.position) else {
        return Err(AllocError);
    };
    let table = held_offsets(alloc, v, rows, left.position)?;
    let outside = block_view(alloc, &table, number, &shape.extents, v)?;
    let home = home_at(callee.homes, left.position);
    let made = move_from(alloc, shape, home, left.arg.mode, None, outside)?;
    Ok(made)
}

fn push_held(
    alloc: Global,
    out: &mut Items<Move>,
    callee: &CalleeArrays<'_>,
    views: &[LeafView],
    rows: &[CallInstance],
    number: &Num,
    left: &Left<'_>,
) -> Result<(), AllocError>
    ensures { OnOk result ((later : List SpecMove) → out.new ++ later ≡ out.old ++ cons_some
        (terms.held_move (get_or callee.now.shapes.now left.now.0 tables.no_shape)
        (get_or callee.now.homes.now left.now.0 home.InPlace) rows.now number.now left.now.0 left.now.1)
        (slice_get views.now left.now.1.array) later) }
{
    match at(views, left.arg.array as usize) {
        None => Ok(()),
        Some(v) => {
            let made = held_move(alloc, callee, rows, number, left, v)?;
            out.push(made)?;
            Ok(())
        }
    }
}

fn held_moves(
    alloc: Global,
    callee: &CalleeArrays<'_>,
    views: &[LeafView],
    rows: &[CallInstance],
    number: &Num,
    lefts: &[Left<'_>],
) -> Result<Items<Move>, AllocError>
    ensures { IfOk result (λ ms. ms ≡ terms.held_moves callee.now.shapes.now callee.now.homes.now views.now rows.now
        number.now lefts.now) }
{
    let mut out = Items::new(alloc);
    for left in lefts {
        push_held(alloc, &mut out, callee, views, rows, number, left)?;
    }
    Ok(out)
}

fn push_buffer(out: &mut BufferIds, home: Home) -> Result<(), AllocError>
    ensures { OnOk result ((later : List ℕ) → out.new ++ later ≡ out.old ++ trees.held_of home later) }
{
    match home {
        Home::Held { buffer, .. } => {
            out.push(buffer)?;
            Ok(())
        }
        Home::InPlace | Home::Own(_) | Home::Twin { .. } => Ok(()),
    }
}

fn leaving_buffers(
    alloc: Global,
    homes: &[Home],
    lefts: &[Left<'_>],
) -> Result<BufferIds, AllocError>
    ensures { IfOk result (λ bs. bs ≡ terms.leaving_buffers homes.now lefts.now) }
{
    let mut out = Items::new(alloc);
    for left in lefts {
        push_buffer(&mut out, home_at(homes, left.position))?;
    }
    Ok(out)
}

fn first_num(alloc: Global, starts: &[usize], ordinal: Num) -> Result<Num, AllocError>
    ensures { IfOk result (λ n. n ≡ terms.first_num starts.now ordinal) }
{
    match start_table(alloc, starts) {
        Err(end) => {
            drop(ordinal);
            Err(end)
        }
        Ok(table) => Num::pick(alloc, table, ordinal),
    }
}

// The number of the row of a loop's first iteration.
#[cycle(first)]
#[tactic(auto, using(sq_tables::proofs::InStatements::loops, sq_tables::proofs::Chains::chains))]
fn first_in(alloc: Global, x: &Statement, ordinal: Num) -> Result<Num, AllocError>
    ensures { IfOk result (λ n. n ≡ terms.chain_num (loops.chain_in x.now) ordinal) }
{
    match x {
        Statement::Call { .. } => Ok(ordinal),
        Statement::Map {
            kind,
            starts,
            body,
            ..
        } => {
            let number = first_in_map(alloc, *kind, starts.as_slice(), body.as_slice(), ordinal)?;
            Ok(number)
        }
    }
}

#[cycle(first)]
fn first_in_map(
    alloc: Global,
    kind: LoopKind,
    starts: &[usize],
    list: &[Statement],
    ordinal: Num,
) -> Result<Num, AllocError>
    ensures { IfOk result (λ n. n ≡ loops.first_of_list kind starts.now (map loops.chain_in list.now) ordinal) }
{
    match kind {
        LoopKind::Sequential => match list {
            [x] => first_of_one(alloc, starts, x, ordinal),
            _ => Ok(ordinal),
        },
        LoopKind::Parallel | LoopKind::Reduction(_) => Ok(ordinal),
    }
}

#[cycle(first)]
fn first_of_one(
    alloc: Global,
    starts: &[usize],
    x: &Statement,
    ordinal: Num,
) -> Result<Num, AllocError>
    ensures { IfOk result (λ n. n ≡ loops.first_by (loops.rows_of_chain (loops.chain_in x.now))
        (loops.chain_in x.now) starts.now ordinal) }
{
    match rows_in(x) {
        None => Ok(ordinal),
        Some(_) => {
            let number = first_num(alloc, starts, ordinal)?;
            first_in(alloc, x, number)
        }
    }
}

fn holding_args(
    alloc: Global,
    callee: &CalleeArrays<'_>,
    rows: &[CallInstance],
    number: &Num,
    lefts: &[Left<'_>],
    c: &Context,
) -> Result<Option<Holding>, AllocError>
    ensures { IfOk result (λ o. o ≡ building.holding_args callee.now.shapes.now callee.now.homes.now rows.now
        number.now lefts.now c.now) }
{
    match lefts {
        [] => Ok(None),
        [_, ..] => {
            let moves = held_moves(alloc, callee, c.views.as_slice(), rows, number, lefts)?;
            let buffers = leaving_buffers(alloc, callee.homes, lefts)?;
            Ok(Some(Holding { moves, buffers }))
        }
    }
}

// By the first row of its call.
fn holding_row(
    alloc: Global,
    forms: &Forms<'_>,
    rows: &[CallInstance],
    loops: u32,
    number: &Num,
    c: &Context,
) -> Result<Option<Holding>, AllocError>
    ensures { IfOk result (λ o. o ≡ building.holding_row forms.now.bodies.now forms.now.homes.now rows.now
        (slice_get rows.now 0) loops number.now c.now) }
{
    let Some(row) = at(rows, 0) else {
        return Ok(None);
    };
    let Some(own) = at(forms.homes, row.form) else {
        return Err(AllocError);
    };
    let Some(body) = at(forms.bodies, row.form) else {
        return Err(AllocError);
    };
    let callee = CalleeArrays {
        shapes: body.arrays.as_slice(),
        homes: own.params.as_slice(),
    };
    let lefts = leaving_args(alloc, loops, callee.homes, row.args.as_slice())?;
    let made = holding_args(alloc, &callee, rows, number, lefts.as_slice(), c)?;
    Ok(made)
}

/// What leaves a loop.
pub fn holding(
    alloc: Global,
    forms: &Forms<'_>,
    x: &Statement,
    c: &Context,
) -> Result<Option<Holding>, AllocError>
    ensures { IfOk result (λ o. o ≡ building.holding_of forms.now.bodies.now forms.now.homes.now
        (loops.chain_in x.now) c.now) }
{
    let Some(rows) = rows_in(x) else {
        return Ok(None);
    };
    let loops = loops_in(x)?;
    let ordinal = c.ordinal.copy(alloc)?;
    let number = first_in(alloc, x, ordinal)?;
    let made = holding_row(alloc, forms, rows, loops, &number, c);
    drop(number);
    made
}
