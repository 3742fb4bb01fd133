//! Array text, read from files and written to a sink in memory.
ghost use Rattle.std.specs.Prelude.{◌≡◌, ◌*◌, ◌∷◌, [], length};
ghost use Rattle.sq_num.specs.Elements.{width};

use sq_arrays::{
    ArrayReader, ArrayTarget, ArraysEnd, InputCode, InputEnd, Want, read_arrays, write_array,
};
use sq_num::Elem;
use sq_port::{MemFiles, MemSink};
use sq_rect::Dims;
use sq_text::{Name, Place};
use std::alloc::{AllocError, Global};
use std::fmt::Write;
use std::process::Abort;
use std::test::Fail;

// Reads an array, and then the head of a further one.
fn read(files: &mut MemFiles, want: &Want, into: &mut [u8]) -> Result<(), InputEnd>
    requires two { want.now.extents ≡ 2 ∷ [] }
    requires room { length into.old ≡ 2 * width want.now.elem }
{
    let mut reader = ArrayReader::new();
    reader.next_head(files, "D", want)?;
    reader.next_values(files, "D", into)?;
    reader.next_head(files, "D", want)
}

#[test]
fn a_head_is_read_behind_values(rt: HostRuntime) -> Result<(), Fail> {
    let mut files = MemFiles::new(rt.alloc());
    files.add("D", b"array A byte [2] 1 2 array A byte [2]")?;
    let name = Name::new(rt.alloc(), b"A")?;
    let want = Want {
        name: &name,
        elem: Elem::Byte,
        extents: Dims::new(2),
    };
    let mut into = [7; 2];
    assert_eq!(rt; read(&mut files, &want, &mut into), Ok(()));
    assert_eq!(rt; into, [1, 2]);
    Ok(())
}

// The end of a first call that doesn't read a head, where two further calls answer the same.
fn kept_end(files: &mut MemFiles, want: &Want) -> Option<InputEnd> {
    let mut reader = ArrayReader::new();
    let Err(end) = reader.next_head(files, "D", want) else {
        return None;
    };
    let again = reader.next_head(files, "D", want);
    let last = reader.finish(files, "D");
    if again == Err(end) && last == Err(end) {
        Some(end)
    } else {
        None
    }
}

#[test]
fn a_refusal_and_a_failed_read_are_kept(rt: HostRuntime) -> Result<(), Fail> {
    let mut files = MemFiles::new(rt.alloc());
    files.add("D", b"array B byte [1] 1")?;
    let name = Name::new(rt.alloc(), b"A")?;
    let want = Want {
        name: &name,
        elem: Elem::Byte,
        extents: Dims::new(1),
    };
    let refused = InputEnd::Refused {
        code: InputCode::Name,
        place: Place { line: 1, col: 7 },
    };
    assert_eq!(rt; kept_end(&mut files, &want), Some(refused));
    files.fail_at(2);
    assert_eq!(rt; kept_end(&mut files, &want), Some(InputEnd::Failed));
    Ok(())
}

fn two_by_two_by_two() -> Dims
    ensures { result ≡ 2 ∷ 2 ∷ 2 ∷ [] }
{
    let mut extents = Dims::new(2);
    extents.push(2);
    extents.push(2);
    extents
}

// Writes eight bytes into a sink with so much room; whether it took all, and what it holds.
fn written(alloc: Global, room: usize) -> Result<(bool, MemSink), AllocError> {
    let name = Name::new(alloc, b"Sums")?;
    let want = Want {
        name: &name,
        elem: Elem::Byte,
        extents: two_by_two_by_two(),
    };
    let mut sink = MemSink::new(alloc, room)?;
    let is_whole = write_array(&mut sink, &want, &[0, 7, 10, 255, 1, 2, 3, 4]).is_ok();
    Ok((is_whole, sink))
}

const TEXT: &[u8] = b"array Sums byte [2][2][2]\n0 7\n10 255\n1 2\n3 4\n";

#[test]
fn a_written_array_has_a_line_for_each_row(rt: HostRuntime) -> Result<(), Fail> {
    for (room, taken) in [(TEXT.len(), TEXT.len()), (30, 30)] {
        let (is_whole, sink) = written(rt.alloc(), room)?;
        assert_eq!(rt; is_whole, room == TEXT.len());
        assert_eq!(rt; sink.written(), &TEXT[..taken]);
    }
    Ok(())
}

// Two arrays of bytes.
#[derive(Drop)]
struct Held {
    first: [u8; 2],
    second: [u8; 4],
}

impl ArrayTarget for Held {
    ghost arrays = { λ h. h.first ∷ h.second ∷ [] };

    ghost keeps = { λ h k. Unit {0} };

    fn put(&mut self, array: usize, at: usize, bytes: &[u8]) {
        if array == 0 {
            self.first[at..at + bytes.len()].copy_from_slice(bytes);
        } else {
            self.second[at..at + bytes.len()].copy_from_slice(bytes);
        }
    }

    ghost keeps_itself = { λ h. tt };

    ghost keeps_on = { λ h k l first second. tt };
}

// Reads the arrays A of two bytes and B of one `int`.
fn two_arrays(alloc: Global, text: &[u8], held: &mut Held) -> Result<Result<(), ArraysEnd>, Fail> {
    let mut files = MemFiles::new(alloc);
    files.add("D", text)?;
    let first = Name::new(alloc, b"A")?;
    let second = Name::new(alloc, b"B")?;
    let wants = [
        Want {
            name: &first,
            elem: Elem::Byte,
            extents: Dims::new(2),
        },
        Want {
            name: &second,
            elem: Elem::Int,
            extents: Dims::new(1),
        },
    ];
    Ok(read_arrays(&mut files, "D", &wants, held))
}

#[test]
fn arrays_are_read_one_after_the_other(rt: HostRuntime) -> Result<(), Fail> {
    let mut held = Held {
        first: [0; 2],
        second: [0; 4],
    };
    let text = b"array A byte [2] 1 2 array B int [1] -3";
    let read = two_arrays(rt.alloc(), text, &mut held)?;
    assert_eq!(rt; read, Ok(()));
    assert_eq!(rt; held.first, [1, 2]);
    assert_eq!(rt; held.second, [253, 255, 255, 255]);
    Ok(())
}
