//! Runs of leaf code over the bytes of one memory.

use fixture_cases::Case;
use sq_ast::Param;
use sq_leaf::{LeafCode, Shape, Trap, are_in_line};
use sq_leaf_run::run_leaf;
use sq_num::{Elem, store_elem, width};
use sq_rect::{View, Views};
use sq_spec::{Body, Resolved};
use std::alloc::{AllocError, Global};

/// How a run of the entry's leaf ends, and the sum of the bytes then. Its parameters hold the numbers of the parts that
/// have their names, and all else zeros.
pub fn run(alloc: Global, case: &Case, resolved: &Resolved<'_>) -> Result<String, AllocError> {
    let form = resolved.body(alloc, 0)?;
    let shown = match &form.body {
        Body::Leaf(code) => {
            let (views, size) = lined(form.arrays.as_slice());
            run_code(alloc, case, resolved.entry_params(), code, &views, size)
        }
        Body::Inner(_) => String::from_str(alloc, "no leaf"),
    };
    drop(form);
    shown
}

// Where arrays of these shapes stand one behind the other, and how many bytes they have.
fn lined(shapes: &[Shape]) -> (Views, usize) {
    let mut views = Views::new();
    let mut end = 0u32;
    for shape in shapes {
        let elements = shape.extents.elements();
        if elements > 0 && elements < 0x1_0000_0000 && views.as_slice().len() < 32 {
            views.push(View::whole(end, shape.elem, &shape.extents));
            end = end.wrapping_add((width(shape.elem) as u32).wrapping_mul(elements as u32));
        }
    }
    (views, end as usize)
}

fn run_code(
    alloc: Global,
    case: &Case,
    params: &[Param],
    code: &LeafCode,
    views: &Views,
    size: usize,
) -> Result<String, AllocError> {
    let mut bytes = vec![in alloc; 0u8; size]?;
    for (param, view) in params.iter().zip(views.as_slice()) {
        let numbers = numbers_of(case, param);
        put_numbers(view.elem, numbers, view.at as usize, &mut bytes);
    }
    let end = end_of(code, views, &mut bytes);
    show_end(alloc, end, sum_of(&bytes))
}

// How the leaf ends, where it can run over these bytes.
fn end_of(code: &LeafCode, views: &Views, bytes: &mut [u8]) -> Option<Result<(), Trap>> {
    if !are_in_line(bytes.len(), views) {
        return None;
    }
    let end = run_leaf(code, bytes, views);
    Some(end)
}

/// The numbers of a parameter.
pub fn numbers_of<'a>(case: &'a Case, param: &Param) -> &'a str {
    case.words(str::from_utf8(param.name.bytes()).unwrap_or_default())
}

/// Makes the elements from that byte on these numbers.
pub fn put_numbers(elem: Elem, numbers: &str, mut at: usize, bytes: &mut [u8]) {
    for word in numbers.split_whitespace() {
        let next = at.wrapping_add(width(elem));
        if let Some(cell) = bytes.get_mut(at..next)
            && cell.len() == width(elem)
        {
            store_elem(elem, word.parse().unwrap_or(0), cell);
        }
        at = next;
    }
}

// Each byte is added to 31 times what those before it make.
fn sum_of(bytes: &[u8]) -> i64 {
    let mut sum = 0i64;
    for byte in bytes {
        sum = sum.wrapping_mul(31).wrapping_add(i64::from(*byte));
    }
    sum
}

fn show_end(alloc: Global, end: Option<Result<(), Trap>>, sum: i64) -> Result<String, AllocError> {
    match end {
        Some(Ok(())) => format!(in alloc; "ok {sum}"),
        Some(Err(Trap { kind, place })) => {
            format!(in alloc; "{kind:?} {}:{} {sum}", place.line, place.col)
        }
        None => String::from_str(alloc, "no line of arrays"),
    }
}
