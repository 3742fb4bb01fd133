//! Blocks that stay the same in all iterations of a loop, apart from the other arguments.

ghost use Rattle.std.specs.Prelude.{◌≡◌, take, drop};
ghost use Rattle.std.specs.List.{list_all};
ghost use Rattle.sq_spec.specs.Forms.Calls as calls;
ghost use Rattle.sq_hoist.specs.Loops as spec;

use sq_blocks::Argument;
use sq_blocks::views::overlap;
use sq_spec::{CallInstance, is_written};
use sq_text::Span;

/// Whether two blocks of one array share an element.
pub fn shares(x: &Argument, y: &Argument) -> bool
    ensures { result ≡ calls.shares x.now y.now }
{
    let dims = x.rect.as_slice().len();
    x.array == y.array && dims == y.rect.as_slice().len() && overlap(&x.rect, &y.rect)
}

fn meets(x: &Argument, y: &Argument) -> bool
    ensures { result ≡ calls.meets x.now y.now }
{
    shares(x, y) && (is_written(x.mode) || is_written(y.mode))
}

fn is_apart(x: &Argument, k: usize, list: &[Argument]) -> bool
    ensures { result ≡ calls.is_apart x.now k 0 list.now }
{
    for (j, y) in list.iter().enumerate() {
        if j != k && meets(x, y) {
            return false;
        }
    }
    true
}

fn same_spans(left: &[Span], right: &[Span]) -> bool
    ensures { result ≡ spec.same_spans left.now right.now }
{
    let Some((a, left)) = left.split_first() else {
        return right.is_empty();
    };
    let Some((b, right)) = right.split_first() else {
        return false;
    };
    a.lo == b.lo && (a.hi == b.hi && same_spans(left, right))
}

fn same_block(x: &Argument, y: &Argument) -> bool
    ensures { result ≡ spec.same_block x.now y.now }
{
    x.array == y.array && same_spans(x.rect.as_slice(), y.rect.as_slice())
}

fn stays_in(i: usize, x: &Argument, row: &CallInstance) -> bool
    ensures { result ≡ spec.stays_in i x.now row.now }
{
    let args = row.args.as_slice();
    match args.get(i) {
        None => false,
        Some(y) => same_block(x, y) && is_apart(x, i, args),
    }
}

fn all_stay(i: usize, x: &Argument, rows: &[CallInstance]) -> bool
    ensures { result ≡ list_all (spec.stays_in i x.now) rows.now }
{
    for row in rows {
        if !stays_in(i, x, row) {
            return false;
        }
    }
    true
}

// In all calls of one time of a loop: each block is looked at once, against the first.
fn stays(i: usize, rows: &[CallInstance]) -> bool
    ensures { result ≡ spec.stays i rows.now }
{
    match rows.first() {
        None => true,
        Some(row) => match row.args.as_slice().get(i) {
            None => false,
            Some(x) => all_stay(i, x, rows),
        },
    }
}

/// The first n rows, or all.
pub fn front(rows: &[CallInstance], n: usize) -> &[CallInstance]
    ensures { result.now ≡ take n rows.now }
{
    if n < rows.len() { &rows[..n] } else { rows }
}

/// Those behind the first n.
pub fn behind(rows: &[CallInstance], n: usize) -> &[CallInstance]
    ensures { result.now ≡ drop n rows.now }
{
    if n < rows.len() { &rows[n..] } else { &[] }
}

/// Whether an argument stays at every time of a loop, of so many calls each.
pub fn stays_always(i: usize, times: &[usize], rows: &[CallInstance]) -> bool
    ensures { result ≡ list_all (spec.stays i) (spec.cut times.now rows.now) }
{
    let mut rest = rows;
    for size in times {
        if !stays(i, front(rest, *size)) {
            return false;
        }
        rest = behind(rest, *size);
    }
    true
}
