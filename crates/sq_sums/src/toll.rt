//! What an action adds to a sum over the events of a plan.

ghost use Rattle.std.specs.Prelude.{◌≡◌, ◌*◌, if◌then◌else◌};
ghost use Rattle.sq_num.specs.Elements as elements;
ghost use Rattle.sq_ir.specs.Traffic as edges;
ghost use Rattle.sq_nests.specs.Stacks.{capped};
ghost use Rattle.sq_sums.specs.Tolls.{level_of, toll};

use sq_ir::{Action, Buffer};
use sq_num::{Elem, width};

/// What is summed: the bytes that an edge carries down or up, or the events of a kind.
#[derive(Clone, Copy, Drop)]
pub(crate) enum Kind {
    Down(u32),
    Up(u32),
    Copies,
    Fills,
    Accumulations,
    Leaves,
}

// The level of a buffer.
fn level_of(buffers: &[Buffer], b: u32) -> u32
    ensures { result ≡ level_of buffers.now b }
{
    match sqlite_items::at(buffers, b as usize) {
        None => 0,
        Some(buffer) => buffer.level,
    }
}

fn is_edge(upper: u32, lower: u32, edge: u32) -> bool
    ensures { result ≡ edges.is_edge upper lower edge }
{
    upper == edge && u64::from(lower) == u64::from(edge) + 1
}

// Bytes between two buffers, if an edge lies between them.
fn over(buffers: &[Buffer], upper: u32, lower: u32, edge: u32, bytes: u64) -> u64
    ensures { result ≡ (if edges.is_edge (level_of buffers.now upper) (level_of buffers.now lower) edge then bytes
        else 0) }
{
    if is_edge(level_of(buffers, upper), level_of(buffers, lower), edge) {
        bytes
    } else {
        0
    }
}

fn row_bytes(count: u32, elem: Elem) -> u64
    ensures { result ≡ count * elements.width elem }
{
    u64::from(count) * width(elem) as u64
}

/// What an action adds.
pub(crate) fn toll(buffers: &[Buffer], kind: Kind, action: &Action) -> u64
    ensures { result ≡ toll buffers.now kind action.now }
{
    match action {
        Action::CopyRow { from, to, bytes } => match kind {
            Kind::Down(edge) => over(buffers, from.buffer, to.buffer, edge, u64::from(*bytes)),
            Kind::Up(edge) => over(buffers, to.buffer, from.buffer, edge, u64::from(*bytes)),
            Kind::Copies => 1,
            Kind::Fills | Kind::Accumulations | Kind::Leaves => 0,
        },
        Action::FillRow { .. } => match kind {
            Kind::Fills => 1,
            _ => 0,
        },
        Action::AccRow {
            op: _,
            elem,
            from,
            to,
            count,
        } => match kind {
            Kind::Up(edge) => {
                let bytes = row_bytes(*count, *elem);
                over(buffers, to.buffer, from.buffer, edge, bytes)
            }
            Kind::Accumulations => 1,
            Kind::Down(_) | Kind::Copies | Kind::Fills | Kind::Leaves => 0,
        },
        Action::Leaf { .. } => match kind {
            Kind::Leaves => 1,
            _ => 0,
        },
    }
}

/// A number of 64 bits stops nowhere.
pub(crate) fn word(x: u64) -> u64
    ensures { result ≡ capped x }
{
    x
}
