//! The lines that say why a command isn't done.

ghost use Rattle.std.specs.Prelude.{◌≡◌, ◌≤◌};
ghost use Rattle.std.specs.List.{flat_map};
ghost use Rattle.sq_port.specs.Ports.{Wrote};
ghost use Rattle.sq_report.specs.Adding.{Adds};
ghost use Rattle.sq_report.specs.Answers as answers;

use crate::adding::{add, add_field, add_number, add_place, add_spaced};
use crate::trap::{Trap, kind_word};
use sq_ir::TrapKind;
use sq_port::{Failed, Line, Sink};
use sq_text::{Arg, Fault, Place, Span};

// ---- faults

// With a space before it, where there is a place.
fn add_where<S: Sink>(line: &mut Line, sink: &mut S, place: &Option<Place>)
    ensures { Adds (S.written sink.old) (S.written sink.new) (S.faults sink.old) (S.faults sink.new) line.old line.new
        (answers.where_text place.now) }
{
    if let Some(place) = place {
        add(line, sink, b" ");
        add_place(line, sink, *place);
    }
}

fn add_span<S: Sink>(line: &mut Line, sink: &mut S, span: Span)
    ensures { Adds (S.written sink.old) (S.written sink.new) (S.faults sink.old) (S.faults sink.new) line.old line.new
        (answers.span_text span) }
{
    add_field(line, sink, b"[", u64::from(span.lo));
    add_field(line, sink, b"..", u64::from(span.hi));
    add(line, sink, b"]");
}

fn add_spans<S: Sink>(line: &mut Line, sink: &mut S, spans: &[Span])
    ensures { Adds (S.written sink.old) (S.written sink.new) (S.faults sink.old) (S.faults sink.new) line.old line.new
        (flat_map answers.span_text spans.now) }
{
    for span in spans {
        add_span(line, sink, *span);
    }
}

fn add_arg<S: Sink>(line: &mut Line, sink: &mut S, arg: &Arg)
    ensures { Adds (S.written sink.old) (S.written sink.new) (S.faults sink.old) (S.faults sink.new) line.old line.new
        (answers.spaced_arg arg.now) }
{
    add(line, sink, b" ");
    match arg {
        Arg::Word(name) => add(line, sink, name.bytes()),
        Arg::Number(number) => add_number(line, sink, *number),
        Arg::Block(spans) => add_spans(line, sink, spans.as_slice()),
    }
}

fn add_args<S: Sink>(line: &mut Line, sink: &mut S, args: &[Arg])
    ensures { Adds (S.written sink.old) (S.written sink.new) (S.faults sink.old) (S.faults sink.new) line.old line.new
        (flat_map answers.spaced_arg args.now) }
{
    for arg in args {
        add_arg(line, sink, arg);
    }
}

fn add_fault<S: Sink>(line: &mut Line, sink: &mut S, fault: &Fault)
    ensures { Adds (S.written sink.old) (S.written sink.new) (S.faults sink.old) (S.faults sink.new) line.old line.new
        (answers.fault_line fault.now) }
{
    add(line, sink, b"refused ");
    add(line, sink, fault.phase.name());
    add_spaced(line, sink, fault.code.name());
    add_where(line, sink, &fault.place);
    add_args(line, sink, fault.args.as_slice());
    add(line, sink, b"\n");
}

/// Puts the line of a fault: its phase, its code, its place where it has one, and its arguments.
pub fn put_fault<S: Sink>(sink: &mut S, fault: &Fault) -> Result<(), Failed>
    ensures later { S.faults sink.old ≤ S.faults sink.new }
    ensures wrote { Wrote (S.written sink.old) (S.written sink.new) (S.faults sink.old) (S.faults sink.new)
        (answers.fault_line fault.now) result }
{
    let mut line = Line::new();
    add_fault(&mut line, sink, fault);
    line.put(sink)
}

// ---- traps

fn add_next<S: Sink>(line: &mut Line, sink: &mut S, numbers: &[u32])
    ensures { Adds (S.written sink.old) (S.written sink.new) (S.faults sink.old) (S.faults sink.new) line.old line.new
        (flat_map answers.next_number numbers.now) }
{
    for number in numbers {
        add_field(line, sink, b"/", u64::from(*number));
    }
}

// The numbers of a path, or `-` where there are none.
fn add_path<S: Sink>(line: &mut Line, sink: &mut S, path: &[u32])
    ensures { Adds (S.written sink.old) (S.written sink.new) (S.faults sink.old) (S.faults sink.new) line.old line.new
        (answers.path_text path.now) }
{
    match path {
        [] => add(line, sink, b"-"),
        [first, rest @ ..] => {
            add_number(line, sink, u64::from(*first));
            add_next(line, sink, rest);
        }
    }
}

fn add_kind<S: Sink>(line: &mut Line, sink: &mut S, kind: TrapKind)
    ensures { Adds (S.written sink.old) (S.written sink.new) (S.faults sink.old) (S.faults sink.new) line.old line.new
        (answers.trapped_text kind) }
{
    add(line, sink, b"trapped ");
    add(line, sink, kind_word(kind));
}

fn add_trap<S: Sink>(line: &mut Line, sink: &mut S, trap: &Trap)
    ensures { Adds (S.written sink.old) (S.written sink.new) (S.faults sink.old) (S.faults sink.new) line.old line.new
        (answers.trap_line trap.now) }
{
    add_kind(line, sink, trap.kind);
    add(line, sink, b" ");
    add_place(line, sink, trap.place);
    add(line, sink, b" path ");
    add_path(line, sink, trap.path.as_slice());
    add(line, sink, b"\n");
}

/// Puts the line of a trap: its kind, its place in the program, and the numbers of the iterations round the leaf call.
pub fn put_trap<S: Sink>(sink: &mut S, trap: &Trap) -> Result<(), Failed>
    ensures later { S.faults sink.old ≤ S.faults sink.new }
    ensures wrote { Wrote (S.written sink.old) (S.written sink.new) (S.faults sink.old) (S.faults sink.new)
        (answers.trap_line trap.now) result }
{
    let mut line = Line::new();
    add_trap(&mut line, sink, trap);
    line.put(sink)
}

// ---- files

/// Puts a word and the name that it is about, as a line.
pub fn put_named<S: Sink>(sink: &mut S, word: &[u8], name: &[u8]) -> Result<(), Failed>
    ensures later { S.faults sink.old ≤ S.faults sink.new }
    ensures wrote { Wrote (S.written sink.old) (S.written sink.new) (S.faults sink.old) (S.faults sink.new)
        (answers.named_line word.now name.now) result }
{
    let mut line = Line::new();
    add(&mut line, sink, word);
    add(&mut line, sink, name);
    add(&mut line, sink, b"\n");
    line.put(sink)
}
