//! Whether buffers lie at a level of the machine, within what a buffer may have.

ghost use Rattle.std.specs.Prelude.{◌≡◌};
ghost use Rattle.sq_text.specs.Found.{firsts, noted, nothing_found};
ghost use Rattle.sq_text.specs.declared.code.Phase.TheVariants as phase;
ghost use Rattle.sq_planheads.specs.Buffers as spec;

use sq_plantext::BufferLine;
use sq_text::{Code, Fault, FirstFault, Phase};
use std::alloc::Global;

/// Where a buffer ends at most.
const MOST_END: u64 = 1 << 30;

fn is_buffer(last: u64, buffer: &BufferLine) -> bool
    ensures { result ≡ spec.is_buffer last buffer.now }
{
    buffer.level <= last && buffer.offset <= MOST_END && buffer.size <= MOST_END - buffer.offset
}

fn note_buffer(first: &mut FirstFault, last: u64, buffer: &BufferLine)
    ensures { first.new ≡ noted first.old (spec.buffer_breach last buffer.now) }
{
    first.note_place(Code::BadBuffer, buffer.place, !is_buffer(last, buffer));
}

/// The first fault of the buffers of a machine with levels down to this one.
pub(crate) fn first_buffer_fault(alloc: Global, last: u64, buffers: &[BufferLine]) -> Option<Fault>
    ensures { result ≡ (firsts (spec.buffer_breach last) (nothing_found phase.Plan) buffers.now).fault }
{
    let mut first = FirstFault::new(alloc, Phase::Plan);
    for buffer in buffers {
        note_buffer(&mut first, last, buffer);
    }
    first.finish()
}
