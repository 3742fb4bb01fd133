//! Pieces of a text that is gathered for a sink.

ghost use Rattle.std.specs.Fmt.{signed_decimal};
ghost use Rattle.sq_report.specs.Adding.{Adds};
ghost use Rattle.sq_report.specs.Reports.{field};

use sq_port::{Line, Sink};

/// Adds these bytes.
pub(crate) fn add<S: Sink>(line: &mut Line, sink: &mut S, piece: &[u8])
    ensures { Adds (S.written sink.old) (S.written sink.new) (S.faults sink.old) (S.faults sink.new) line.old line.new
        piece.now }
{
    line.add(sink, piece);
}

/// Adds the digits of a number, and `-` before them where it is below 0.
pub(crate) fn add_signed<S: Sink>(line: &mut Line, sink: &mut S, number: i64)
    ensures { Adds (S.written sink.old) (S.written sink.new) (S.faults sink.old) (S.faults sink.new) line.old line.new
        (signed_decimal number) }
{
    line.add_signed(sink, number);
}

/// Adds a word, and the digits of a number behind it.
pub(crate) fn add_field<S: Sink>(line: &mut Line, sink: &mut S, word: &[u8], number: u64)
    ensures { Adds (S.written sink.old) (S.written sink.new) (S.faults sink.old) (S.faults sink.new) line.old line.new
        (field word.now number) }
{
    line.add(sink, word);
    line.add_number(sink, number);
}
