//! Writes an array.
ghost use Rattle.std.specs.Prelude.{◌≡◌, ◌++◌, ◌∷◌, [], ◌≤◌, ◌*◌, ◌==◌, ◌+◌, ℕ, List, Bool, true, cond, length, take};
ghost use Rattle.std.specs.Prelude.{drop};
ghost use Rattle.std.specs.Fmt.{signed_decimal};
ghost use Rattle.sq_num.specs.Elements.{width, values_in};
ghost use Rattle.sq_port.specs.Ports.{Wrote};
ghost use Rattle.sq_port.specs.Lines.{Gathers};
ghost use Rattle.sq_rect.specs.Extents.{product, rows_of, last_of};
ghost use Rattle.sq_arrays.specs.Arrays.{wanted};
ghost use Rattle.sq_arrays.specs.Written.{array_text, head_text, row_text, rows_text};

use crate::Want;
use crate::head::{SHAPE, put_shape, word_of};
use sq_num::{Elem, load_elem, width};
use sq_port::{Failed, Line, Sink};

// A space before each number of a row but the first.
fn put_space<S: Sink>(sink: &mut S, line: &mut Line, first: bool)
    ensures later { S.faults sink.old ≤ S.faults sink.new }
    ensures gathers { (start : _) (faults : ℕ) (text : List ℕ) →
        Gathers start (S.written sink.old) faults (S.faults sink.old) text line.old →
        Gathers start (S.written sink.new) faults (S.faults sink.new) (text ++ cond first [] (32 ∷ [])) line.new }
{
    if !first {
        line.add(sink, b" ");
    }
}

// One number of a row.
fn put_value<S: Sink>(sink: &mut S, line: &mut Line, first: bool, v: i64)
    ensures later { S.faults sink.old ≤ S.faults sink.new }
    ensures gathers { (start : _) (faults : ℕ) (text : List ℕ) →
        Gathers start (S.written sink.old) faults (S.faults sink.old) text line.old →
        Gathers start (S.written sink.new) faults (S.faults sink.new) (text ++ cond first [] (32 ∷ []) ++ signed_decimal v) line.new }
{
    put_space(sink, line, first);
    line.add_signed(sink, v);
}

// The values of a row.
fn put_row<S: Sink>(sink: &mut S, line: &mut Line, elem: Elem, last: usize, row: &[u8])
    requires { length row.now ≡ last * width elem }
    ensures later { S.faults sink.old ≤ S.faults sink.new }
    ensures gathers { (start : _) (faults : ℕ) (text : List ℕ) →
        Gathers start (S.written sink.old) faults (S.faults sink.old) text line.old →
        Gathers start (S.written sink.new) faults (S.faults sink.new) (text ++ row_text (values_in elem last row.now)) line.new }
{
    let size = width(elem);
    for i in 0..last {
        let v = load_elem(elem, &row[i * size..i * size + size]);
        put_value(sink, line, i == 0, v);
    }
    line.add(sink, b"\n");
}

fn behind(bytes: &[u8], count: usize) -> &[u8]
    requires { count ≤ length bytes.now }
    ensures { result.now ≡ drop count bytes.now }
{
    &bytes[count..]
}

// Rows of values.
fn put_rows<S: Sink>(sink: &mut S, line: &mut Line, elem: Elem, rows: u64, last: u32, bytes: &[u8])
    requires { length bytes.now ≡ rows * last * width elem }
    ensures later { S.faults sink.old ≤ S.faults sink.new }
    ensures gathers { (start : _) (faults : ℕ) (text : List ℕ) →
        Gathers start (S.written sink.old) faults (S.faults sink.old) text line.old →
        Gathers start (S.written sink.new) faults (S.faults sink.new) (text ++ rows_text rows last (values_in elem (rows * last) bytes.now)) line.new }
{
    let length = last as usize * width(elem);
    let mut rest = bytes;
    for _ in 0..rows {
        put_row(sink, line, elem, last as usize, &rest[..length]);
        rest = behind(rest, length);
    }
}

// The line of the head.
fn put_head<S: Sink>(sink: &mut S, line: &mut Line, want: &Want)
    ensures later { S.faults sink.old ≤ S.faults sink.new }
    ensures gathers { (start : _) (faults : ℕ) (text : List ℕ) →
        Gathers start (S.written sink.old) faults (S.faults sink.old) text line.old →
        Gathers start (S.written sink.new) faults (S.faults sink.new) (text ++ head_text (wanted want.now)) line.new }
{
    let mut shape = [0u8; SHAPE];
    let end = put_shape(&mut shape, want.extents.as_slice());
    line.add(sink, b"array ");
    line.add(sink, want.name.bytes());
    line.add(sink, b" ");
    line.add(sink, word_of(want.elem));
    line.add(sink, b" ");
    line.add(sink, &shape[..end]);
    line.add(sink, b"\n");
}

/// Writes an array whose values these bytes hold, little-endian and in order of coordinates.
/// A sink that fails got a prefix of the text.
pub fn write_array<S: Sink>(sink: &mut S, want: &Want, bytes: &[u8]) -> Result<(), Failed>
    requires { length bytes.now ≡ product want.now.extents * width want.now.elem }
    ensures later { S.faults sink.old ≤ S.faults sink.new }
    ensures wrote { Wrote (S.written sink.old) (S.written sink.new) (S.faults sink.old) (S.faults sink.new)
        (array_text (wanted want.now) (values_in want.now.elem (product want.now.extents) bytes.now)) result }
{
    let mut line = Line::new();
    put_head(sink, &mut line, want);
    let rows = want.extents.rows();
    let last = want.extents.last();
    put_rows(sink, &mut line, want.elem, rows, last, bytes);
    line.put(sink)
}
