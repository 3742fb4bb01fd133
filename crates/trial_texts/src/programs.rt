//! Programs: their tasks with their places, their canonical text, and what their first map runs to.

use crate::tokens::{add_name, add_place};
use sq_ast::{Body, Expr, Program, Stmt, Variant, print_program};
use sq_blocks::{Bindings, ConstFault, Env, ListBindings, cval};
use sq_lexer::{Name, Phase, Place, tokens};
use sq_parser::parse_program;
use std::alloc::{AllocError, Global};
use std::fmt::Write;
use std::mem::forget;

/// The tree is forgotten: then its drop is none of this function's.
pub fn add(alloc: Global, text: &[u8], out: &mut String) -> Result<(), AllocError> {
    let Ok(list) = tokens(alloc, Phase::Program, text) else {
        return out.push_str(" none");
    };
    match parse_program(alloc, &list) {
        Ok(program) => {
            let added = add_program(alloc, &program, out);
            forget(program);
            added
        }
        Err(_) => out.push_str(" none"),
    }
}

fn add_program(alloc: Global, program: &Program, out: &mut String) -> Result<(), AllocError> {
    for task in program.tasks.as_slice() {
        add_task(task, out)?;
    }
    let text = print_program(alloc, program)?;
    out.push_str("\n")?;
    out.push_str(str::from_utf8(text.as_slice()).unwrap_or("?"))?;
    match bound_of(program) {
        Some(bound) => add_value(alloc, bound, out),
        None => Ok(()),
    }
}

fn add_task(task: &Variant, out: &mut String) -> Result<(), AllocError> {
    out.push_str(" ")?;
    add_name(&task.task, out)?;
    add_place(task.place, out)
}

// What the first map of a program runs to.
fn bound_of(program: &Program) -> Option<&Expr> {
    let variant = program.tasks.as_slice().first()?;
    let Body::Inner(statements) = &variant.body else {
        return None;
    };
    let Some(Stmt::Map { ranges, .. }) = statements.as_slice().first() else {
        return None;
    };
    let range = ranges.as_slice().first()?;
    Some(&range.bound)
}

// Its value where `n` is 10 and `S` has three numbers, the first that they are bound to.
fn add_value(alloc: Global, bound: &Expr, out: &mut String) -> Result<(), AllocError> {
    let mut numbers = numbers(alloc)?;
    let lists = lists(alloc)?;
    let value = cval(
        bound,
        &Env {
            numbers: &numbers,
            lists: &lists,
        },
    );
    add_constant(value, out)?;
    add_dropped(alloc, &mut numbers, out)
}

fn bind(alloc: Global, numbers: &mut Bindings, name: &[u8], n: i64) -> Result<(), AllocError> {
    let name = Name::new(alloc, name)?;
    numbers.bind(&name, n)
}

fn numbers(alloc: Global) -> Result<Bindings, AllocError> {
    let mut numbers = Bindings::new(alloc);
    bind(alloc, &mut numbers, b"n", 10)?;
    bind(alloc, &mut numbers, b"n", 11)?;
    bind(alloc, &mut numbers, b"i", 2)?;
    Ok(numbers)
}

fn lists(alloc: Global) -> Result<ListBindings, AllocError> {
    let mut lists = ListBindings::new(alloc);
    lists.bind(&Name::new(alloc, b"S")?, &[0, 4, 6])?;
    lists.bind(&Name::new(alloc, b"S")?, &[])?;
    Ok(lists)
}

fn add_constant(
    value: Result<i64, (ConstFault, Place)>,
    out: &mut String,
) -> Result<(), AllocError> {
    match value {
        Ok(value) => write!(out, "= {value}"),
        Err((fault, place)) => {
            write!(out, "= {fault:?}")?;
            add_place(place, out)
        }
    }
}

// How many names are bound, and what the last one stands for when it is dropped.
fn add_dropped(alloc: Global, numbers: &mut Bindings, out: &mut String) -> Result<(), AllocError> {
    let count = numbers.len();
    numbers.truncate(1);
    let last = numbers.get(&Name::new(alloc, b"i")?);
    write!(out, ", of {count} names the last {last:?}")
}
