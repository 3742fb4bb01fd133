//! Rows against the plain reduction, at every element type and at edges of the lanes.
ghost use Rattle.std.specs.Prelude.{◌≡◌, ◌+◌, ◌*◌, ◌≤◌, length, IsTrue, IfOk, vec_len};
ghost use Rattle.sq_num.specs.Elements.{width};
ghost use Rattle.sq_kern.specs.Rows.{count};

use sq_kern::{acc_cells, copy_cells, fill_cells};
use sq_num::{Elem, RedOp, load_elem, red, store_elem, width};
use std::alloc::{AllocError, Global};
use std::process::Abort;
use std::test::Fail;

const OPERATORS: [RedOp; 7] = [
    RedOp::Add,
    RedOp::Mul,
    RedOp::Min,
    RedOp::Max,
    RedOp::And,
    RedOp::Or,
    RedOp::Xor,
];

// No element, one, a block of lanes, a block and an element, 1,000: in bytes.
const ROWS: [(Elem, usize); 15] = [
    (Elem::Byte, 0),
    (Elem::Byte, 1),
    (Elem::Byte, 64),
    (Elem::Byte, 65),
    (Elem::Byte, 1000),
    (Elem::Int, 0),
    (Elem::Int, 4),
    (Elem::Int, 64),
    (Elem::Int, 68),
    (Elem::Int, 4000),
    (Elem::Long, 0),
    (Elem::Long, 8),
    (Elem::Long, 64),
    (Elem::Long, 72),
    (Elem::Long, LONGEST),
];

const LONGEST: usize = 8000;

// Before the first of two rows, which touch. So both begin at odd places.
const OFFSET: usize = 3;

#[test]
fn rows_are_those_of_each_element(rt: HostRuntime) -> Result<(), Fail> {
    for (e, len) in ROWS {
        reduced(&rt, rt.alloc(), e, len)?;
        filled(&rt, rt.alloc(), e, len)?;
    }
    Ok(())
}

fn reduced(rt: &impl Abort, alloc: Global, e: Elem, len: usize) -> Result<(), AllocError> {
    assert!(rt; len <= LONGEST && is_whole(e, len));
    for op in OPERATORS {
        let mut bytes = two_rows(alloc, len)?;
        let mut wanted = vec![in alloc; 0; len]?;
        accumulated(rt, op, e, &mut bytes, &mut wanted);
    }
    Ok(())
}

fn accumulated(rt: &impl Abort, op: RedOp, e: Elem, bytes: &mut [u8], wanted: &mut [u8])
    requires rows { length bytes.old ≡ OFFSET + 2 * length wanted.old }
    requires whole { width e * count e (length wanted.old) ≡ length wanted.old }
{
    let (before, into) = bytes.split_at_mut(OFFSET + wanted.len());
    let from = &before[OFFSET..];
    copy_cells(into, wanted);
    accumulate_each(op, e, from, wanted);
    acc_cells(op, e, from, into);
    assert_eq!(rt; &*into, &*wanted, "{op:?} of {e:?}");
}

// The same, one element after the other.
fn accumulate_each(op: RedOp, e: Elem, from: &[u8], into: &mut [u8])
    requires { length from.now ≡ length into.old }
{
    let wide = width(e);
    for at in 0..from.len() {
        if at % wide == 0 && wide <= from.len() - at {
            accumulate_one(op, e, at, from, into);
        }
    }
}

fn accumulate_one(op: RedOp, e: Elem, at: usize, from: &[u8], into: &mut [u8])
    requires within { at + width e ≤ length into.old }
    requires same { length from.now ≡ length into.old }
{
    let end = at + width(e);
    let value = red(
        op,
        e,
        load_elem(e, &into[at..end]),
        load_elem(e, &from[at..end]),
    );
    store_elem(e, value, &mut into[at..end]);
}

fn filled(rt: &impl Abort, alloc: Global, e: Elem, len: usize) -> Result<(), AllocError> {
    assert!(rt; len <= LONGEST && is_whole(e, len));
    for value in [0, -1, 300, i64::MIN + 7] {
        let mut bytes = two_rows(alloc, len)?;
        let row = &mut bytes[OFFSET + len..];
        fill_cells(e, value, row);
        each_is(rt, e, value, row);
    }
    Ok(())
}

fn each_is(rt: &impl Abort, e: Elem, value: i64, row: &[u8]) {
    let mut wanted = [0; 8];
    let wide = width(e);
    store_elem(e, value, &mut wanted[..wide]);
    for at in 0..row.len() {
        assert_eq!(rt; row[at], wanted[at % wide]);
    }
}

// Bytes of all values.
fn two_rows(alloc: Global, len: usize) -> Result<Vec<u8>, AllocError>
    requires { len ≤ LONGEST }
    ensures { IfOk result (λ bytes. vec_len bytes ≡ OFFSET + 2 * len) }
{
    let mut bytes = vec![in alloc; 0; OFFSET + 2 * len]?;
    let mut last = 17u8;
    for byte in &mut bytes {
        last = last.wrapping_mul(53).wrapping_add(101);
        *byte = last;
    }
    Ok(bytes)
}

fn is_whole(e: Elem, len: usize) -> bool
    ensures { IsTrue result → width e * count e len ≡ len }
{
    let wide = width(e);
    wide * (len / wide) == len
}
