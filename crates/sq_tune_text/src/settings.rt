//! The settings of a choice.

ghost use Rattle.std.specs.Prelude.{◌++◌};
ghost use Rattle.std.specs.List.{flat_map};
ghost use Rattle.sq_report.specs.Adding.{Adds};
ghost use Rattle.sq_mapfile.specs.Chosen.{tuning_at};
ghost use Rattle.sq_tune_text.specs.Text as spec;
ghost use Rattle.sq_tune_text.specs.Walk as walk;

use crate::adding::{add, add_signed};
use sq_mapfile::{Choices, Digits, Ways, digits_past};
use sq_mapping::{Instance, Setting};
use sq_port::{Line, Sink};
use sq_text::Name;

fn add_next_value<S: Sink>(line: &mut Line, sink: &mut S, value: i64)
    ensures { Adds (S.written sink.old) (S.written sink.new) (S.faults sink.old) (S.faults sink.new) line.old line.new
        (spec.next_value value) }
{
    add(line, sink, b",");
    add_signed(line, sink, value);
}

fn add_values<S: Sink>(line: &mut Line, sink: &mut S, values: &[i64])
    ensures { Adds (S.written sink.old) (S.written sink.new) (S.faults sink.old) (S.faults sink.new) line.old line.new
        (flat_map spec.next_value values.now) }
{
    for value in values {
        add_next_value(line, sink, *value);
    }
}

fn add_list<S: Sink>(line: &mut Line, sink: &mut S, values: &[i64])
    ensures { Adds (S.written sink.old) (S.written sink.new) (S.faults sink.old) (S.faults sink.new) line.old line.new
        (spec.list_text values.now) }
{
    match values {
        [] => add(line, sink, b"[]"),
        [first, rest @ ..] => {
            add(line, sink, b"[");
            add_signed(line, sink, *first);
            add_values(line, sink, rest);
            add(line, sink, b"]");
        }
    }
}

fn add_setting<S: Sink>(line: &mut Line, sink: &mut S, setting: &Setting)
    ensures { Adds (S.written sink.old) (S.written sink.new) (S.faults sink.old) (S.faults sink.new) line.old line.new
        (spec.setting_text setting.now) }
{
    match setting {
        Setting::One(value) => add_signed(line, sink, *value),
        Setting::Many(values) => add_list(line, sink, values.as_slice()),
    }
}

// The setting that is picked for the next tunable of the instance.
fn add_told<S: Sink>(line: &mut Line, sink: &mut S, instance: &Name, left: Digits, ways: &Ways)
    ensures { Adds (S.written sink.old) (S.written sink.new) (S.faults sink.old) (S.faults sink.new) line.old line.new
        (spec.told_text instance.now (tuning_at left ways.now)) }
{
    add(line, sink, b" ");
    add(line, sink, instance.bytes());
    add(line, sink, b".");
    add(line, sink, ways.name.bytes());
    add(line, sink, b"=");
    add_setting(line, sink, left.pick(&ways.values));
}

// The same, where the tunable has more than one alternative.
fn add_way<S: Sink>(line: &mut Line, sink: &mut S, instance: &Name, left: Digits, ways: &Ways)
    ensures { Adds (S.written sink.old) (S.written sink.new) (S.faults sink.old) (S.faults sink.new) line.old line.new
        (walk.way_text instance.now left ways.now) }
{
    match ways.values.others.as_slice() {
        [] => {}
        [_, ..] => add_told(line, sink, instance, left, ways),
    }
}

fn add_ways<S: Sink>(line: &mut Line, sink: &mut S, instance: &Name, digits: Digits, list: &[Ways])
    ensures { Adds (S.written sink.old) (S.written sink.new) (S.faults sink.old) (S.faults sink.new) line.old line.new
        (walk.ways_text instance.now digits list.now) }
{
    let mut left = digits;
    for ways in list {
        add_way(line, sink, instance, left, ways);
        left = left.past(&ways.values);
    }
}

// The settings of these instances of the choices.
fn add_walk<S: Sink>(
    line: &mut Line,
    sink: &mut S,
    choices: &Choices,
    digits: Digits,
    list: &[Instance],
)
    ensures { Adds (S.written sink.old) (S.written sink.new) (S.faults sink.old) (S.faults sink.new) line.old line.new
        (walk.walk_text choices.now.tunables digits 0 list.now) }
{
    let mut left = digits;
    for (i, x) in list.iter().enumerate() {
        let ways = choices.ways(i);
        add_ways(line, sink, &x.name, left, ways);
        left = digits_past(left, ways);
    }
}

/// Adds the settings of a choice: of each tunable that has more than one alternative.
pub(crate) fn add_settings<S: Sink>(line: &mut Line, sink: &mut S, choices: &Choices, n: usize)
    ensures { Adds (S.written sink.old) (S.written sink.new) (S.faults sink.old) (S.faults sink.new) line.old line.new
        (spec.settings_text choices.now n) }
{
    let digits = choices.digits(n);
    add_walk(
        line,
        sink,
        choices,
        digits,
        choices.first().instances.as_slice(),
    );
}
