//! What choices the mappings of data/ make, and their tables. Of a mapping the row is the sum of all settings: refused where
//! it is more than the root of the machine has bytes, or below 0.
#![tactic(auto)]

ghost use Rattle.std.specs.Prelude.{◌<◌, ℕ};
ghost use Rattle.sq_mapping.specs.Sound.{Sound};
ghost use Rattle.sq_mapfile.specs.Made.{mapping_of};

use fixture_cases::{Case, read_cases};
use sq_machfile::{Machine, read_machine};
use sq_mapfile::{Choices, read_choices};
use sq_mapping::{Mapping, Setting};
use sq_port::MemSink;
use sq_report::put_fault;
use sq_source::read_program;
use sq_text::{Arg, Code, Fault, Phase, Stop};
use sq_tune::{Planner, RowEnd, tune};
use sq_tune_text::put_table;
use sq_types::Typed;
use sqlite_items::Items;
use std::alloc::{AllocError, Global};
use std::fmt::Write;
use std::io;
use std::mem::forget;

fn main(rt: HostRuntime) -> io::Result<()> {
    let cases = read_cases(&rt, "choices.cases")?;
    let mut out = String::new(rt.alloc());
    for case in &cases {
        let name = case.name.as_str();
        write!(out, "{name}:\n")?;
        add_case(rt.alloc(), case, &mut out)?;
    }
    print!(rt; "{out}")
}

// The tree of the program is forgotten: then its drop is none of this function's.
fn add_case(alloc: Global, case: &Case, out: &mut String) -> Result<(), AllocError> {
    match read_program(alloc, case.text("program").unwrap_or_default()) {
        Ok(program) => {
            let added = add_for(alloc, &program, case, out);
            forget(program);
            added
        }
        Err(_) => out.push_str("no program\n"),
    }
}

fn add_for(
    alloc: Global,
    program: &Typed,
    case: &Case,
    out: &mut String,
) -> Result<(), AllocError> {
    match read_machine(alloc, case.text("machine").unwrap_or_default()) {
        Ok(machine) => add_on(alloc, program, &machine, case, out),
        Err(_) => out.push_str("no machine\n"),
    }
}

fn add_on(
    alloc: Global,
    program: &Typed,
    machine: &Machine,
    case: &Case,
    out: &mut String,
) -> Result<(), AllocError> {
    let text = case.text("text").unwrap_or_default();
    match read_choices(alloc, text, program, machine) {
        Ok(choices) => add_choices(alloc, program, machine, &choices, out),
        Err(Stop::Refused(fault)) => add_fault(alloc, &fault, out),
        Err(Stop::NoMemory) => Err(AllocError),
    }
}

fn add_fault(alloc: Global, fault: &Fault, out: &mut String) -> Result<(), AllocError> {
    let mut sink = MemSink::new(alloc, 1000)?;
    match put_fault(&mut sink, fault) {
        Ok(()) => out.push_str(str::from_utf8(sink.written()).unwrap_or_default()),
        Err(_) => out.push_str("no room\n"),
    }
}

// The table of few choices, or else which is the best of many.
fn add_choices(
    alloc: Global,
    program: &Typed,
    machine: &Machine,
    choices: &Choices,
    out: &mut String,
) -> Result<(), AllocError>
    requires { (n : ℕ) → n < choices.now.number → Sound program.now machine.now.levels (mapping_of choices.now n) }
{
    add_varied(choices, out)?;
    let mut sums = Sums { program, machine };
    let table = tune(alloc, &mut sums, choices)?;
    let mut sink = MemSink::new(alloc, 1000)?;
    match put_table(&mut sink, choices, &table) {
        Ok(()) => out.push_str(str::from_utf8(sink.written()).unwrap_or_default()),
        Err(_) => {
            let best = table.best;
            write!(out, "best {best:?}\n")
        }
    }
}

// How many choices, and the tunables that vary, each by its instance and its place there.
fn add_varied(choices: &Choices, out: &mut String) -> Result<(), AllocError> {
    let count = choices.count();
    write!(out, "{count} choices of")?;
    for (i, instance) in choices.first().instances.as_slice().iter().enumerate() {
        for (k, _) in instance.tunings.as_slice().iter().enumerate() {
            if is_varied(choices, i, k) {
                write!(out, " {i}.{k}")?;
            }
        }
    }
    out.push_str("\n")
}

fn is_varied(choices: &Choices, instance: usize, tuning: usize) -> bool {
    match (u32::try_from(instance), u32::try_from(tuning)) {
        (Ok(instance), Ok(tuning)) => choices.varied(instance, tuning),
        _ => false,
    }
}

// The row of a mapping is the sum of its settings.
#[derive(Drop)]
struct Sums<'a> {
    program: &'a Typed,
    machine: &'a Machine,
}

impl<'a> Planner for Sums<'a> {
    ghost program = { λ s. s.program.now };

    ghost machine = { λ s. s.machine.now };

    ghost IsRow = { λ program machine mapping row. Unit {0} };

    fn row(&mut self, alloc: Global, mapping: &Mapping) -> Result<RowEnd, AllocError> {
        row_of(alloc, self.machine, sum_of(mapping))
    }
}

fn row_of(alloc: Global, machine: &Machine, sum: i64) -> Result<RowEnd, AllocError> {
    let root = &machine.levels()[0];
    match u64::try_from(sum) {
        Ok(sum) if sum <= root.capacity => Ok(RowEnd::Traffic(sum)),
        _ => {
            let mut args = Items::new(alloc);
            args.push(Arg::Word(root.name.copy(alloc)?))?;
            args.push(Arg::Number(root.capacity))?;
            Ok(RowEnd::Refused(Fault {
                phase: Phase::Capacity,
                code: Code::Capacity,
                place: None,
                args,
            }))
        }
    }
}

fn sum_of(mapping: &Mapping) -> i64 {
    let mut sum: i64 = 0;
    for instance in mapping.instances.as_slice() {
        for tuning in instance.tunings.as_slice() {
            sum = with_setting(sum, &tuning.setting);
        }
    }
    sum
}

fn with_setting(sum: i64, setting: &Setting) -> i64 {
    match setting {
        Setting::One(number) => sum.saturating_add(*number),
        Setting::Many(numbers) => {
            let mut all = sum;
            for number in numbers.as_slice() {
                all = all.saturating_add(*number);
            }
            all
        }
    }
}
