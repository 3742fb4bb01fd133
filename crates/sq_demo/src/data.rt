//! The data of the demo as the text of its arrays.
ghost use Rattle.std.specs.Prelude.{◌≡◌, ◌≤◌, ◌++◌, ◌∷◌, [], ℕ, List, length, IfOk, IsErr};
ghost use Rattle.sq_port.specs.Memory.{mem_written};
ghost use Rattle.sq_port.specs.Ports.{Wrote};
ghost use Rattle.sq_demo.specs.Data.{matrix_text, demo_data};

use sq_arrays::{Want, write_array};
use sq_num::Elem;
use sq_port::{Failed, MemSink, Sink};
use sq_rect::Dims;
use sq_report::{demo_elements, demo_fill};
use sq_text::Name;
use std::alloc::{AllocError, Global};

// More than the text of three arrays of 16384 elements has: a number of 3 digits and a space each, and a head.
const ROOM: usize = 1 << 18;

// 128 by 128.
fn extents() -> Dims
    ensures { result ≡ 128 ∷ 128 ∷ [] }
{
    let mut extents = Dims::new(128);
    extents.push(128);
    extents
}

// The text of an array.
#[tactic(auto, unfolding(crate::specs::Data::matrix_text))]
fn put_matrix<S: Sink>(sink: &mut S, name: &Name, bytes: &[u8]) -> Result<(), Failed>
    requires { length bytes.now ≡ 65536 }
    ensures later { S.faults sink.old ≤ S.faults sink.new }
    ensures wrote { Wrote (S.written sink.old) (S.written sink.new) (S.faults sink.old) (S.faults sink.new)
        (matrix_text name.now bytes.now) result }
{
    let want = Want {
        name,
        elem: Elem::Int,
        extents: extents(),
    };
    write_array(sink, &want, bytes)
}

// Goes on with the text of an array.
fn put_next_matrix<S: Sink>(
    sink: &mut S,
    so_far: Result<(), Failed>,
    name: &Name,
    bytes: &[u8],
) -> Result<(), Failed>
    requires { length bytes.now ≡ 65536 }
    ensures later { S.faults sink.old ≤ S.faults sink.new }
    ensures wrote { (start : _) (faults : ℕ) (text : List ℕ) → Wrote start (S.written sink.old) faults
        (S.faults sink.old) text so_far
        → Wrote start (S.written sink.new) faults (S.faults sink.new) (text ++ matrix_text name.now bytes.now) result }
{
    match so_far {
        Ok(()) => put_matrix(sink, name, bytes),
        Err(failed) => Err(failed),
    }
}

// The texts of the arrays.
#[tactic(auto, unfolding(crate::specs::Data::demo_data))]
fn put_data<S: Sink>(
    alloc: Global,
    sink: &mut S,
    seed: u64,
) -> Result<Result<(), Failed>, AllocError>
    ensures wrote { IfOk result (λ put. Wrote (S.written sink.old) (S.written sink.new) (S.faults sink.old)
        (S.faults sink.new) (demo_data seed) put) }
{
    let size = demo_elements() * 4;
    let mut first = vec![in alloc; 0; size]?;
    let mut second = vec![in alloc; 0; size]?;
    let third = vec![in alloc; 0; size]?;
    demo_fill(seed, first.as_mut_slice(), second.as_mut_slice());
    let first_name = Name::new(alloc, b"A")?;
    let second_name = Name::new(alloc, b"B")?;
    let third_name = Name::new(alloc, b"C")?;
    let put = put_matrix(sink, &first_name, first.as_slice());
    let put = put_next_matrix(sink, put, &second_name, second.as_slice());
    Ok(put_next_matrix(sink, put, &third_name, third.as_slice()))
}

// What a sink got.
fn copied(alloc: Global, sink: &MemSink) -> Result<Vec<u8>, AllocError>
    ensures { IfOk result (λ text. text.items ≡ mem_written sink.now) }
{
    sink.written().to_vec(alloc)
}

/// The text of the data of the demo of this number.
pub(crate) fn data_text(alloc: Global, seed: u64) -> Result<Vec<u8>, AllocError>
    ensures { IfOk result (λ text. text.items ≡ demo_data seed) }
{
    let mut sink = MemSink::new(alloc, ROOM)?;
    match put_data(alloc, &mut sink, seed) {
        Ok(Ok(())) => copied(alloc, &sink),
        Ok(Err(Failed)) => Err(AllocError),
        Err(error) => Err(error),
    }
}
