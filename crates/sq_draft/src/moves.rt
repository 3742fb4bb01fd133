//! What is done row by row.

ghost use Rattle.std.specs.Prelude.{◌≡◌, ◌*◌, get_or, IfOk, pos};
ghost use Rattle.sq_num.specs.Elements as elements;
ghost use Rattle.sq_ir.specs.declared.num.Num.TheVariants as num;
ghost use Rattle.sq_ir.specs.declared.term.Term.TheVariants as term;
ghost use Rattle.sq_tables.specs.Placed.Trees as trees;
ghost use Rattle.sq_tables.specs.Term.Terms as terms;

use sq_ast::Mode;
use sq_contexts::signed;
use sq_ir::{Action, Dims, LeafView, Num, Slot, Term};
use sq_num::{Elem, RedOp, identity, width};
use sq_tables::{Home, Move};
use sqlite_items::{Boxed as Box, at};
use std::alloc::{AllocError, Global};

// A product that passes its type is answered as want of memory; no array is so large.
fn product(a: u32, b: u32) -> Result<u32, AllocError>
    ensures { IfOk result (λ n. n ≡ a * b) }
{
    match a.checked_mul(b) {
        Some(n) => Ok(n),
        None => Err(AllocError),
    }
}

fn stride(strides: &[u32], i: usize) -> u32
    ensures { result ≡ get_or strides.now i 0 }
{
    match at(strides, i) {
        Some(n) => *n,
        None => 0,
    }
}

fn width_of(elem: Elem) -> u32
    ensures { result ≡ elements.width elem }
{
    width(elem) as u32
}

// A number times a constant.
fn multiple(alloc: Global, n: Num, by: u32) -> Result<Num, AllocError>
    ensures { IfOk result (λ r. r ≡ num.Mul n (num.Const (pos by))) }
{
    Num::product(alloc, n, Num::Const(i64::from(by)))
}

fn quotient(alloc: Global, by: u32) -> Result<Num, AllocError>
    ensures { IfOk result (λ r. r ≡ num.Div (num.Index 0) (num.Const (pos by))) }
{
    Num::quotient(alloc, Num::Index(0), Num::Const(i64::from(by)))
}

fn remainder(alloc: Global, by: u32) -> Result<Num, AllocError>
    ensures { IfOk result (λ r. r ≡ num.Rem (num.Index 0) (num.Const (pos by))) }
{
    Num::remainder(alloc, Num::Index(0), Num::Const(i64::from(by)))
}

fn plane_num(alloc: Global, s: u32, m: u32) -> Result<Num, AllocError>
    ensures { IfOk result (λ r. r ≡ num.Mul (num.Div (num.Index 0) (num.Const (pos m))) (num.Const (pos s))) }
{
    let plane = quotient(alloc, m)?;
    multiple(alloc, plane, s)
}

fn in_plane(alloc: Global, q: u32, m: u32) -> Result<Num, AllocError>
    ensures { IfOk result (λ r. r ≡ num.Mul (num.Rem (num.Index 0) (num.Const (pos m))) (num.Const (pos q))) }
{
    let row = remainder(alloc, m)?;
    multiple(alloc, row, q)
}

fn planes(alloc: Global, s: u32, q: u32, m: u32) -> Result<Num, AllocError>
    ensures { IfOk result (λ r. r ≡ num.Add (num.Mul (num.Div (num.Index 0) (num.Const (pos m))) (num.Const (pos s)))
        (num.Mul (num.Rem (num.Index 0) (num.Const (pos m))) (num.Const (pos q)))) }
{
    let plane = plane_num(alloc, s, m)?;
    match in_plane(alloc, q, m) {
        Err(end) => {
            drop(plane);
            Err(end)
        }
        Ok(row) => Num::sum(alloc, plane, row),
    }
}

fn row_num(alloc: Global, strides: &[u32], extents: &[u32]) -> Result<Num, AllocError>
    ensures { IfOk result (λ r. r ≡ terms.row_num strides.now extents.now) }
{
    match extents {
        [_, _] => multiple(alloc, Num::Index(0), stride(strides, 0)),
        [_, m, _] => planes(alloc, stride(strides, 0), stride(strides, 1), *m),
        _ => Ok(Num::Const(0)),
    }
}

fn far_num(alloc: Global, v: &LeafView) -> Result<Num, AllocError>
    ensures { IfOk result (λ n. n ≡ num.Mul (num.Const (pos (elements.width v.now.elem)))
        (terms.row_num v.now.strides v.now.extents)) }
{
    let row = row_num(alloc, v.strides.as_slice(), v.extents.as_slice())?;
    Num::product(alloc, Num::Const(i64::from(width_of(v.elem))), row)
}

fn slot_at(alloc: Global, buffer: u32, first: Num, far: Num) -> Result<Slot, AllocError>
    ensures { IfOk result (λ x. x ≡ record { buffer = buffer; at = num.Add first far }) }
{
    let at = Num::sum(alloc, first, far)?;
    Ok(Slot { buffer, at })
}

fn row_slot(alloc: Global, v: &LeafView) -> Result<Slot, AllocError>
    ensures { IfOk result (λ x. x ≡ terms.row_slot v.now) }
{
    let far = far_num(alloc, v)?;
    match v.slot.at.lifted(alloc, 1) {
        Err(end) => {
            drop(far);
            Err(end)
        }
        Ok(first) => slot_at(alloc, v.slot.buffer, first, far),
    }
}

fn so_often(alloc: Global, count: i64, each: Action) -> Result<Term, AllocError>
    ensures { IfOk result (λ x. x ≡ term.Loop (num.Const count) (term.Act each)) }
{
    match Box::new(alloc, Term::Act(each)) {
        Err(end) => Err(end),
        Ok(body) => Ok(Term::Loop {
            count: Num::Const(count),
            body,
        }),
    }
}

fn by_rows(alloc: Global, extents: &Dims, each: Action) -> Result<Term, AllocError>
    ensures { IfOk result (λ x. x ≡ terms.by_rows extents.now each) }
{
    match signed(extents.rows()) {
        Err(end) => {
            drop(each);
            Err(end)
        }
        Ok(count) => so_often(alloc, count, each),
    }
}

fn row_slots(alloc: Global, from: &LeafView, to: &LeafView) -> Result<(Slot, Slot), AllocError>
    ensures { IfOk result (λ p. p ≡ (terms.row_slot from.now, terms.row_slot to.now)) }
{
    let first = row_slot(alloc, from)?;
    match row_slot(alloc, to) {
        Err(end) => {
            drop(first);
            Err(end)
        }
        Ok(second) => Ok((first, second)),
    }
}

pub fn copy_term(
    alloc: Global,
    shape: &LeafView,
    from: &LeafView,
    to: &LeafView,
) -> Result<Term, AllocError>
    ensures { IfOk result (λ x. x ≡ terms.copy_term shape.now from.now to.now) }
{
    let bytes = product(width_of(shape.elem), shape.extents.last())?;
    let (from, to) = row_slots(alloc, from, to)?;
    by_rows(alloc, &shape.extents, Action::CopyRow { from, to, bytes })
}

/// The fill of an array by one value.
pub fn fill_term(alloc: Global, value: i64, to: &LeafView) -> Result<Term, AllocError>
    ensures { IfOk result (λ x. x ≡ terms.fill_term value to.now) }
{
    let slot = row_slot(alloc, to)?;
    let fill = Action::FillRow {
        to: slot,
        elem: to.elem,
        count: to.extents.last(),
        value,
    };
    by_rows(alloc, &to.extents, fill)
}

fn add_term(
    alloc: Global,
    op: RedOp,
    shape: &LeafView,
    from: &LeafView,
    to: &LeafView,
) -> Result<Term, AllocError>
    ensures { IfOk result (λ x. x ≡ terms.add_term op shape.now from.now to.now) }
{
    let (from, to) = row_slots(alloc, from, to)?;
    let acc = Action::AccRow {
        op,
        elem: shape.elem,
        from,
        to,
        count: shape.extents.last(),
    };
    by_rows(alloc, &shape.extents, acc)
}

fn is_moved(home: Home) -> bool
    ensures { result ≡ trees.is_moved home }
{
    match home {
        Home::InPlace => false,
        Home::Own(_) => true,
        Home::Held { .. } => false,
        Home::Twin { .. } => true,
    }
}

/// What brings a parameter in.
pub fn bring_term(alloc: Global, m: &Move) -> Result<Term, AllocError>
    ensures { IfOk result (λ x. x ≡ terms.bring_term m.now) }
{
    match m.gathers {
        Some(op) => fill_term(alloc, identity(op, m.own.elem), &m.own),
        None => match m.mode {
            Mode::Output => fill_term(alloc, 0, &m.own),
            Mode::Input | Mode::Both => {
                if is_moved(m.home) {
                    copy_term(alloc, &m.own, &m.outside, &m.own)
                } else {
                    Ok(Term::Skip)
                }
            }
        },
    }
}

/// What gives a parameter back.
pub fn back_term(alloc: Global, m: &Move) -> Result<Term, AllocError>
    ensures { IfOk result (λ x. x ≡ terms.back_term m.now) }
{
    match m.gathers {
        Some(op) => add_term(alloc, op, &m.own, &m.own, &m.outside),
        None => match m.mode {
            Mode::Input => Ok(Term::Skip),
            Mode::Output | Mode::Both => {
                if is_moved(m.home) {
                    copy_term(alloc, &m.own, &m.own, &m.outside)
                } else {
                    Ok(Term::Skip)
                }
            }
        },
    }
}
