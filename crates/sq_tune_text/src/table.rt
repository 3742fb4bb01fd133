//! The text of a table.

ghost use Rattle.std.specs.Prelude.{◌≡◌, ◌≤◌, ◌++◌, codes, slice_get};
ghost use Rattle.std.specs.Option.{option_copied};
ghost use Rattle.sq_port.specs.Ports.{Wrote};
ghost use Rattle.sq_report.specs.Adding.{Adds};
ghost use Rattle.sq_report.specs.Answers.{fault_line};
ghost use Rattle.sq_report.specs.Reports.{numbered};
ghost use Rattle.sq_tune_text.specs.Text as spec;

use crate::adding::{add, add_field};
use crate::settings::add_settings;
use sq_mapfile::Choices;
use sq_port::{Failed, Line, Sink};
use sq_report::put_fault;
use sq_text::Fault;
use sq_tune::{RowEnd, Table};

// ---- choices

fn add_choice<S: Sink>(line: &mut Line, sink: &mut S, choices: &Choices, n: usize)
    ensures { Adds (S.written sink.old) (S.written sink.new) (S.faults sink.old) (S.faults sink.new) line.old line.new
        (spec.choice_text choices.now n) }
{
    add_field(line, sink, b"choice ", n as u64);
    add_settings(line, sink, choices, n);
}

fn add_accepted<S: Sink>(line: &mut Line, sink: &mut S, choices: &Choices, n: usize, traffic: u64)
    ensures { Adds (S.written sink.old) (S.written sink.new) (S.faults sink.old) (S.faults sink.new) line.old line.new
        (spec.choice_text choices.now n ++ spec.traffic_text traffic ++ codes "\n") }
{
    add_choice(line, sink, choices, n);
    add_field(line, sink, b" traffic ", traffic);
    add(line, sink, b"\n");
}

fn put_accepted<S: Sink>(
    sink: &mut S,
    choices: &Choices,
    n: usize,
    traffic: u64,
) -> Result<(), Failed>
    ensures later { S.faults sink.old ≤ S.faults sink.new }
    ensures wrote { Wrote (S.written sink.old) (S.written sink.new) (S.faults sink.old) (S.faults sink.new)
        (spec.choice_text choices.now n ++ spec.traffic_text traffic ++ codes "\n") result }
{
    let mut line = Line::new();
    add_accepted(&mut line, sink, choices, n, traffic);
    line.put(sink)
}

fn add_before_fault<S: Sink>(line: &mut Line, sink: &mut S, choices: &Choices, n: usize)
    ensures { Adds (S.written sink.old) (S.written sink.new) (S.faults sink.old) (S.faults sink.new) line.old line.new
        (spec.choice_text choices.now n ++ codes " ") }
{
    add_choice(line, sink, choices, n);
    add(line, sink, b" ");
}

// What stands before the fault.
fn put_before_fault<S: Sink>(sink: &mut S, choices: &Choices, n: usize) -> Result<(), Failed>
    ensures later { S.faults sink.old ≤ S.faults sink.new }
    ensures wrote { Wrote (S.written sink.old) (S.written sink.new) (S.faults sink.old) (S.faults sink.new)
        (spec.choice_text choices.now n ++ codes " ") result }
{
    let mut line = Line::new();
    add_before_fault(&mut line, sink, choices, n);
    line.put(sink)
}

fn put_refused<S: Sink>(
    sink: &mut S,
    choices: &Choices,
    n: usize,
    fault: &Fault,
) -> Result<(), Failed>
    ensures later { S.faults sink.old ≤ S.faults sink.new }
    ensures wrote { Wrote (S.written sink.old) (S.written sink.new) (S.faults sink.old) (S.faults sink.new)
        (spec.choice_text choices.now n ++ codes " " ++ fault_line fault.now) result }
{
    match put_before_fault(sink, choices, n) {
        Ok(()) => put_fault(sink, fault),
        Err(end) => Err(end),
    }
}

fn put_row<S: Sink>(sink: &mut S, choices: &Choices, n: usize, row: &RowEnd) -> Result<(), Failed>
    ensures later { S.faults sink.old ≤ S.faults sink.new }
    ensures wrote { Wrote (S.written sink.old) (S.written sink.new) (S.faults sink.old) (S.faults sink.new)
        (spec.choice_line choices.now n row.now) result }
{
    match row {
        RowEnd::Traffic(traffic) => put_accepted(sink, choices, n, *traffic),
        RowEnd::Refused(fault) => put_refused(sink, choices, n, fault),
    }
}

fn put_rows<S: Sink>(sink: &mut S, choices: &Choices, rows: &[RowEnd]) -> Result<(), Failed>
    ensures later { S.faults sink.old ≤ S.faults sink.new }
    ensures wrote { Wrote (S.written sink.old) (S.written sink.new) (S.faults sink.old) (S.faults sink.new)
        (numbered (spec.choice_line choices.now) 0 rows.now) result }
{
    for (n, row) in rows.iter().enumerate() {
        match put_row(sink, choices, n, row) {
            Ok(()) => {}
            Err(end) => return Err(end),
        }
    }
    Ok(())
}

// ---- the best

fn add_traffic<S: Sink>(line: &mut Line, sink: &mut S, row: Option<&RowEnd>)
    ensures { Adds (S.written sink.old) (S.written sink.new) (S.faults sink.old) (S.faults sink.new) line.old line.new
        (spec.accepted_text (option_copied row.entry)) }
{
    if let Some(RowEnd::Traffic(traffic)) = row {
        add_field(line, sink, b" traffic ", *traffic);
    }
}

fn add_best<S: Sink>(line: &mut Line, sink: &mut S, rows: &[RowEnd], best: Option<u32>)
    ensures { Adds (S.written sink.old) (S.written sink.new) (S.faults sink.old) (S.faults sink.new) line.old line.new
        (spec.best_line rows.now best) }
{
    match best {
        None => add(line, sink, b"best none\n"),
        Some(n) => {
            add_field(line, sink, b"best ", u64::from(n));
            add_traffic(line, sink, sqlite_items::at(rows, n as usize));
            add(line, sink, b"\n");
        }
    }
}

fn put_best<S: Sink>(sink: &mut S, rows: &[RowEnd], best: Option<u32>) -> Result<(), Failed>
    ensures later { S.faults sink.old ≤ S.faults sink.new }
    ensures wrote { Wrote (S.written sink.old) (S.written sink.new) (S.faults sink.old) (S.faults sink.new)
        (spec.best_line rows.now best) result }
{
    let mut line = Line::new();
    add_best(&mut line, sink, rows, best);
    line.put(sink)
}

/// Puts a line for each choice, with the settings of the tunables that have more than one alternative and with its row,
/// and a line for the best. It takes no memory.
pub fn put_table<S: Sink>(sink: &mut S, choices: &Choices, table: &Table) -> Result<(), Failed>
    ensures later { S.faults sink.old ≤ S.faults sink.new }
    ensures wrote { Wrote (S.written sink.old) (S.written sink.new) (S.faults sink.old) (S.faults sink.new)
        (spec.table_text choices.now table.now) result }
{
    let rows = table.rows.as_slice();
    match put_rows(sink, choices, rows) {
        Ok(()) => put_best(sink, rows, table.best),
        Err(end) => Err(end),
    }
}
