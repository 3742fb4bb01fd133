//! The arguments of a call.

ghost use Rattle.std.specs.Prelude.{◌≡◌, ◌++◌, ℕ, List, IfOk, OnOk, Some, get_or, slice_get};
ghost use Rattle.std.specs.Option.{option_copied};
ghost use Rattle.sq_ir.specs.Leaf.declared.shape.Shape.{Shape as SpecShape};
ghost use Rattle.sq_tables.specs.Term.declared.context.Move.{Move as SpecMove};
ghost use Rattle.sq_tables.specs.Placed.declared.home.Home.TheVariants as home;
ghost use Rattle.sq_tables.specs.Placed.Seats.{cons_some};
ghost use Rattle.sq_tables.specs.Placed.Tables as tables;
ghost use Rattle.sq_tables.specs.Placed.Trees as trees;
ghost use Rattle.sq_tables.specs.Term.Terms as terms;
ghost use Rattle.sq_tables.specs.Cases as cases;

use crate::forms::CalleeArrays;
use sq_ast::Mode;
use sq_contexts::{block_view, own_view};
use sq_ir::{BufferIds, LeafView, Shape};
use sq_num::RedOp;
use sq_spec::Argument;
use sq_tables::{CallTable, Context, Home, Move, home_at, table_of};
use sqlite_items::{Items, at};
use std::alloc::{AllocError, Global};

fn reduces(op: Option<RedOp>, a: &Argument) -> Option<RedOp>
    ensures { result ≡ terms.reduces op a.now }
{
    if a.is_reduced { op } else { None }
}

/// A parameter whose block of the caller's array stands there.
pub fn move_from(
    alloc: Global,
    shape: &Shape,
    home: Home,
    mode: Mode,
    gathers: Option<RedOp>,
    outside: LeafView,
) -> Result<Move, AllocError>
    ensures { IfOk result (λ m. m ≡ record {
      mode = mode;
      gathers = gathers;
      home = home;
      outside = outside;
      own = terms.own_view shape.now home outside;
    }) }
{
    match own_view(alloc, shape, home, &outside) {
        Err(end) => {
            drop(outside);
            Err(end)
        }
        Ok(own) => Ok(Move {
            mode,
            gathers,
            home,
            outside,
            own,
        }),
    }
}

/// The shape of a parameter.
pub fn shape_at(shapes: &[Shape], i: usize) -> Option<&Shape>
    ensures there { option_copied result ≡ slice_get shapes.now i }
    ensures its { (shape : SpecShape) → option_copied result ≡ Some shape
        → shape ≡ get_or shapes.now i tables.no_shape }
{
    at(shapes, i)
}

fn move_at(
    alloc: Global,
    call: &CallTable<'_>,
    callee: &CalleeArrays<'_>,
    c: &Context,
    i: usize,
    a: &Argument,
    v: &LeafView,
) -> Result<Move, AllocError>
    requires { cases.AreTables c.now.views call.now.instances.now call.now.offsets.now }
    ensures { IfOk result (λ m. m ≡ terms.move_of call.now.op (get_or callee.now.shapes.now i tables.no_shape)
        (get_or callee.now.homes.now i home.InPlace) a.now (terms.offsets c.now.views call.now.instances.now i)
        c.now.ordinal v.now) }
{
    let Some(shape) = shape_at(callee.shapes, i) else {
        return Err(AllocError);
    };
    let table = table_of(alloc, c.views.as_slice(), call, i)?;
    let outside = block_view(alloc, &table, &c.ordinal, &shape.extents, v)?;
    let home = home_at(callee.homes, i);
    let made = move_from(alloc, shape, home, a.mode, reduces(call.op, a), outside)?;
    Ok(made)
}

fn push_move(
    alloc: Global,
    out: &mut Items<Move>,
    call: &CallTable<'_>,
    callee: &CalleeArrays<'_>,
    c: &Context,
    i: usize,
    a: &Argument,
) -> Result<(), AllocError>
    requires { cases.AreTables c.now.views call.now.instances.now call.now.offsets.now }
    ensures { OnOk result ((later : List SpecMove) → out.new ++ later ≡ out.old ++ cons_some
        (terms.move_of call.now.op (get_or callee.now.shapes.now i tables.no_shape)
        (get_or callee.now.homes.now i home.InPlace) a.now (terms.offsets c.now.views call.now.instances.now i)
        c.now.ordinal) (slice_get c.now.views a.now.array) later) }
{
    match at(c.views.as_slice(), a.array as usize) {
        None => Ok(()),
        Some(v) => {
            let made = move_at(alloc, call, callee, c, i, a, v)?;
            out.push(made)?;
            Ok(())
        }
    }
}

/// The parameters at a call.
pub fn moves(
    alloc: Global,
    call: &CallTable<'_>,
    callee: &CalleeArrays<'_>,
    c: &Context,
    args: &[Argument],
) -> Result<Items<Move>, AllocError>
    requires { cases.AreTables c.now.views call.now.instances.now call.now.offsets.now }
    ensures { IfOk result (λ ms. ms ≡ terms.moves_from call.now.op callee.now.shapes.now callee.now.homes.now c.now
        call.now.instances.now 0 args.now) }
{
    let mut out = Items::new(alloc);
    for (i, a) in args.iter().enumerate() {
        push_move(alloc, &mut out, call, callee, c, i, a)?;
    }
    Ok(out)
}

fn push_buffer(out: &mut BufferIds, home: Home) -> Result<(), AllocError>
    ensures { OnOk result ((later : List ℕ) → out.new ++ later ≡ out.old ++ trees.buffer_of home later) }
{
    match home {
        Home::Own(buffer) => {
            out.push(buffer)?;
            Ok(())
        }
        Home::InPlace | Home::Held { .. } | Home::Twin { .. } => Ok(()),
    }
}

/// The buffers that a call brings into scope.
pub fn call_buffers(
    alloc: Global,
    homes: &[Home],
    args: &[Argument],
) -> Result<BufferIds, AllocError>
    ensures { IfOk result (λ bs. bs ≡ terms.buffers_from homes.now 0 args.now) }
{
    let mut out = Items::new(alloc);
    for (i, _) in args.iter().enumerate() {
        push_buffer(&mut out, home_at(homes, i))?;
    }
    Ok(out)
}
