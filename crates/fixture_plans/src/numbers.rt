//! Numbers of terms: what they are made of, in a copy too, and in what is lifted over loops.

use crate::words::number;
use sq_ir::Num;
use std::alloc::{AllocError, Global};
use std::fmt::Write;

/// Tells a number in words, its copy, and what it is under three loops more.
pub fn tell_number(alloc: Global, text: &str, out: &mut String) -> Result<(), AllocError> {
    tell(number(alloc, text)?, out)?;
    tell(copied(alloc, number(alloc, text)?)?, out)?;
    tell(lifted(alloc, number(alloc, text)?)?, out)
}

fn copied(alloc: Global, number: Num) -> Result<Num, AllocError> {
    let copy = number.copy(alloc);
    drop(number);
    copy
}

fn lifted(alloc: Global, number: Num) -> Result<Num, AllocError> {
    let lifted = number.lifted(alloc, 3);
    drop(number);
    lifted
}

fn tell(number: Num, out: &mut String) -> Result<(), AllocError> {
    let told = tell_parts(&number, out);
    drop(number);
    told
}

// The operator and its two numbers, or the list and what picks its item.
fn tell_parts(number: &Num, out: &mut String) -> Result<(), AllocError> {
    match number {
        Num::Add(a, b) => tell_pair(a.get(), b.get(), '+', out),
        Num::Sub(a, b) => tell_pair(a.get(), b.get(), '-', out),
        Num::Mul(a, b) => tell_pair(a.get(), b.get(), '*', out),
        Num::Div(a, b) => tell_pair(a.get(), b.get(), '/', out),
        Num::Rem(a, b) => tell_pair(a.get(), b.get(), '%', out),
        Num::Min(a, b) => tell_pair(a.get(), b.get(), '<', out),
        Num::Pick(list, at) => {
            let list = list.as_slice();
            let at = leaf(at.get());
            write!(out, " {at:?} {list:?}")
        }
        _ => out.push_str(" ?"),
    }
}

fn tell_pair(a: &Num, b: &Num, sign: char, out: &mut String) -> Result<(), AllocError> {
    let a = leaf(a);
    let b = leaf(b);
    write!(out, " {a:?} {sign} {b:?}")
}

// A number without an operator: the mark that it has in words, and its number.
fn leaf(number: &Num) -> (char, i64) {
    match number {
        Num::Index(depth) => ('i', i64::from(*depth)),
        Num::Children => ('c', 0),
        Num::Const(value) => ('=', *value),
        _ => ('?', 0),
    }
}
