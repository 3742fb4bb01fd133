//! What a look at a loop's body says of its turns: whether they are likely to be run together.
//!
//! No contract sees it: it decides which way turns are run, and all ways give the same.

use sq_ast::BinOp;
use sq_deeds::LINKS;
use sq_leaf::{Action, Cell, Code, Step};

/// What is to be expected of a block of a body's turns.
#[derive(Clone, Copy, PartialEq, Eq)]
pub(crate) enum Outlook {
    /// No turn reads what an earlier one writes.
    Clear,
    /// An expression reads one element that an earlier turn may have written.
    Carried,
    /// It reads several, and it depends on where they lie.
    Open,
    /// Turns are run one by one.
    Hopeless,
}

/// The elements of an expression that an earlier turn may have written.
#[derive(Drop)]
struct Reads<'a> {
    first: Option<&'a Cell>,
    /// There are others, or more operators stand behind this one than a block does.
    others: bool,
    /// One of them doesn't go up by the same step from turn to turn, so that no block is clear of it.
    uneven: bool,
}

/// Looks at a body whose loop has the counter of this number.
pub(crate) fn look(body: &[Action], counter: usize) -> Outlook {
    match body {
        [Action::Assign(cell, _, code)] => {
            let reads = outlook_of(code, body, counter);
            if rises(cell, counter) || reads == Outlook::Clear {
                reads
            } else {
                Outlook::Hopeless
            }
        }
        list => {
            if all_rise(list, counter) {
                look_at_each(list, counter)
            } else {
                Outlook::Hopeless
            }
        }
    }
}

/// The worst of the statements' outlooks.
fn look_at_each(body: &[Action], counter: usize) -> Outlook {
    let mut found = Outlook::Clear;
    for action in body {
        found = worse(found, look_at(action, body, counter));
    }
    found
}

fn look_at(action: &Action, body: &[Action], counter: usize) -> Outlook {
    match action {
        Action::Assign(_, _, code) => outlook_of(code, body, counter),
        Action::If(test, taken, other) => {
            let ways = worse(
                look_at_way(taken.as_slice(), body, counter),
                look_at_way(other.as_slice(), body, counter),
            );
            // A test has to be known before its turn.
            match outlook_of(test, body, counter) {
                Outlook::Clear => ways,
                _ => worse(ways, Outlook::Open),
            }
        }
        Action::For(_, _, _) => Outlook::Hopeless,
    }
}

fn look_at_way(list: &[Action], body: &[Action], counter: usize) -> Outlook {
    match list {
        [Action::Assign(_, _, code)] => outlook_of(code, body, counter),
        _ => Outlook::Clear,
    }
}

fn worse(x: Outlook, y: Outlook) -> Outlook {
    match x {
        Outlook::Hopeless => x,
        Outlook::Open => { if y == Outlook::Hopeless { y } else { x } }
        Outlook::Carried => { if y == Outlook::Clear { x } else { y } }
        Outlook::Clear => y,
    }
}

fn outlook_of(code: &Code, body: &[Action], counter: usize) -> Outlook {
    let mut reads = Reads {
        first: None,
        others: false,
        uneven: false,
    };
    find(code, 0, body, counter, &mut reads);
    if reads.uneven {
        Outlook::Hopeless
    } else if reads.others {
        Outlook::Open
    } else if reads.first.is_some() {
        Outlook::Carried
    } else {
        Outlook::Clear
    }
}

/// Finds the elements of an expression that an earlier turn may have written; so many operators stand behind it.
#[cycle(find)]
#[inline(always)]
fn find<'a>(code: &'a Code, behind: usize, body: &[Action], counter: usize, reads: &mut Reads<'a>) {
    match code {
        Code::Constant(_) | Code::Counter(_) => {}
        code => find_in(code, behind, body, counter, reads),
    }
}

#[cycle(find)]
fn find_in<'a>(
    code: &'a Code,
    behind: usize,
    body: &[Action],
    counter: usize,
    reads: &mut Reads<'a>,
) {
    match code {
        Code::Constant(_) | Code::Counter(_) => {}
        Code::Element(cell) => find_cell(cell, false, behind, body, counter, reads),
        Code::Unary(_, inner) => {
            find(inner.get(), behind.saturating_add(1), body, counter, reads);
        }
        Code::Chain(first, rest) => {
            let mut behind = behind.saturating_add(rest.len());
            find(first.get(), behind, body, counter, reads);
            for step in rest.as_slice() {
                find_side(&step.right, behind, body, counter, reads);
                behind = behind.saturating_sub(1);
            }
        }
        Code::Least(x, y) | Code::Most(x, y) => {
            find(x.get(), behind.saturating_add(1), body, counter, reads);
            find(y.get(), behind.saturating_add(1), body, counter, reads);
        }
    }
}

/// The same of an operator's right side.
#[cycle(find)]
fn find_side<'a>(
    code: &'a Code,
    behind: usize,
    body: &[Action],
    counter: usize,
    reads: &mut Reads<'a>,
) {
    match code {
        Code::Element(cell) => find_cell(cell, true, behind, body, counter, reads),
        code => find(code, behind, body, counter, reads),
    }
}

#[cycle(find)]
fn find_cell<'a>(
    cell: &'a Cell,
    is_side: bool,
    behind: usize,
    body: &[Action],
    counter: usize,
    reads: &mut Reads<'a>,
) {
    for code in cell.index.as_slice() {
        find(code, LINKS + 1, body, counter, reads);
    }
    if may_be_written(cell, body, counter) {
        if !rises(cell, counter) {
            reads.uneven = true;
        }
        note(cell, is_side, behind, reads);
    }
}

/// An element may be read once more where it alone is an operator's right side.
fn note<'a>(cell: &'a Cell, is_side: bool, behind: usize, reads: &mut Reads<'a>) {
    if LINKS < behind {
        reads.others = true;
    }
    match reads.first {
        None => reads.first = Some(cell),
        Some(first) => {
            if !(is_side && first.array == cell.array && is_same_place(first, cell)) {
                reads.others = true;
            }
        }
    }
}

/// Whether an earlier turn may write this element.
fn may_be_written(cell: &Cell, body: &[Action], counter: usize) -> bool {
    for action in body {
        if may_write(action, cell, counter) {
            return true;
        }
    }
    false
}

fn may_write(action: &Action, cell: &Cell, counter: usize) -> bool {
    match action {
        Action::Assign(target, _, _) => is_behind(target, cell, counter),
        Action::If(_, taken, other) => {
            way_may_write(taken.as_slice(), cell, counter)
                || way_may_write(other.as_slice(), cell, counter)
        }
        Action::For(_, _, _) => true,
    }
}

fn way_may_write(list: &[Action], cell: &Cell, counter: usize) -> bool {
    match list {
        [Action::Assign(target, _, _)] => is_behind(target, cell, counter),
        _ => false,
    }
}

/// Whether an earlier turn's target may be this element: not where it is its own turn's, and targets move.
fn is_behind(target: &Cell, cell: &Cell, counter: usize) -> bool {
    target.array == cell.array && !(is_same_place(target, cell) && moves(target, counter))
}

/// Whether two elements of one array are the same, as far as it is seen.
fn is_same_place(x: &Cell, y: &Cell) -> bool {
    match x.index.as_slice() {
        [a] => match y.index.as_slice() {
            [b] => is_same(a, b),
            _ => false,
        },
        [a, b] => match y.index.as_slice() {
            [c, d] => is_same(a, c) && is_same(b, d),
            _ => false,
        },
        [a, b, c] => match y.index.as_slice() {
            [d, e, f] => is_same(a, d) && is_same(b, e) && is_same(c, f),
            _ => false,
        },
        _ => false,
    }
}

/// Whether two indices are the same number, counter, or one operator's of such.
fn is_same(x: &Code, y: &Code) -> bool {
    match x {
        Code::Constant(a) => match y {
            Code::Constant(b) => a == b,
            _ => false,
        },
        Code::Counter(a) => match y {
            Code::Counter(b) => a == b,
            _ => false,
        },
        Code::Chain(a, steps) => match y {
            Code::Chain(b, others) => match steps.as_slice() {
                [step] => match others.as_slice() {
                    [other] => {
                        step.op == other.op
                            && is_same(a.get(), b.get())
                            && is_same(&step.right, &other.right)
                    }
                    _ => false,
                },
                _ => false,
            },
            _ => false,
        },
        _ => false,
    }
}

/// Whether this counter stands in the indices.
fn moves(cell: &Cell, counter: usize) -> bool {
    for code in cell.index.as_slice() {
        if !is_fixed(code, counter) {
            return true;
        }
    }
    false
}

/// Whether an expression reads no element and not this counter.
fn is_fixed(code: &Code, counter: usize) -> bool {
    match code {
        Code::Constant(_) => true,
        Code::Counter(k) => *k != counter,
        Code::Element(_) => false,
        Code::Unary(_, inner) => is_fixed(inner.get(), counter),
        Code::Chain(first, rest) => {
            if !is_fixed(first.get(), counter) {
                return false;
            }
            for step in rest.as_slice() {
                if !is_fixed(&step.right, counter) {
                    return false;
                }
            }
            true
        }
        Code::Least(x, y) | Code::Most(x, y) => {
            is_fixed(x.get(), counter) && is_fixed(y.get(), counter)
        }
    }
}

fn all_rise(body: &[Action], counter: usize) -> bool {
    for action in body {
        if !target_rises(action, counter) {
            return false;
        }
    }
    true
}

fn target_rises(action: &Action, counter: usize) -> bool {
    match action {
        Action::Assign(cell, _, _) => rises(cell, counter),
        Action::If(_, taken, other) => {
            way_rises(taken.as_slice(), counter) && way_rises(other.as_slice(), counter)
        }
        Action::For(_, _, _) => false,
    }
}

fn way_rises(list: &[Action], counter: usize) -> bool {
    match list {
        [Action::Assign(cell, _, _)] => rises(cell, counter),
        _ => true,
    }
}

/// Whether an element's place goes up by the same step from turn to turn, as far as its indices tell.
fn rises(cell: &Cell, counter: usize) -> bool {
    for code in cell.index.as_slice() {
        if !is_even(code, counter) {
            return false;
        }
    }
    true
}

#[cycle(is_even)]
fn is_even(code: &Code, counter: usize) -> bool {
    match code {
        Code::Counter(_) => true,
        Code::Chain(first, rest) => {
            if !is_even(first.get(), counter) {
                return false;
            }
            for step in rest.as_slice() {
                if !is_even_step(step, counter) {
                    return false;
                }
            }
            true
        }
        code => is_fixed(code, counter),
    }
}

#[cycle(is_even)]
fn is_even_step(step: &Step, counter: usize) -> bool {
    match step.op {
        BinOp::Add => is_even(&step.right, counter),
        BinOp::Sub | BinOp::Mul => is_fixed(&step.right, counter),
        _ => false,
    }
}
