//! What no command of `sq` shows of the programs in data/: counts of forms and accesses, forms, the forms of races, the
//! bytes that leaf code leaves, and arrays that `out` parameters begin with.
#![tactic(auto)]

mod flat;
mod forms;
mod leaf;

use fixture_cases::{Case, read_cases};
use sq_machfile::{Machine, read_machine};
use sq_mapfile::read_mapping;
use sq_source::read_program;
use sq_spec::{Resolved, resolve};
use sq_text::Stop;
use sq_types::Typed;
use std::alloc::{AllocError, Global};
use std::io;

const FILES: [&str; 4] = ["forms.cases", "races.cases", "leaves.cases", "flat.cases"];

fn main(rt: HostRuntime) -> io::Result<()> {
    for file in FILES {
        for case in read_cases(&rt, file)?.as_slice() {
            let name = case.name.as_str();
            match show(rt.alloc(), case) {
                Ok(shown) => println!(rt; "{name}: {shown}")?,
                Err(stop) => println!(rt; "{name}: {stop:?}")?,
            }
        }
    }
    Ok(())
}

fn part<'a>(case: &'a Case, name: &str) -> &'a [u8] {
    case.text(name).unwrap_or_default()
}

fn show(alloc: Global, case: &Case) -> Result<String, Stop> {
    let typed = read_program(alloc, part(case, "program"))?;
    let shown = show_program(alloc, case, &typed);
    drop(typed);
    shown
}

fn show_program(alloc: Global, case: &Case, typed: &Typed) -> Result<String, Stop> {
    let machine = read_machine(alloc, part(case, "machine"))?;
    let shown = show_mapped(alloc, case, typed, &machine);
    drop(machine);
    shown
}

fn show_mapped(
    alloc: Global,
    case: &Case,
    typed: &Typed,
    machine: &Machine,
) -> Result<String, Stop> {
    let mapping = read_mapping(alloc, part(case, "mapping"), typed, machine)?;
    let shown = match resolve(alloc, typed, &mapping, machine) {
        Ok(resolved) => {
            let shown = show_resolved(alloc, case, &resolved);
            drop(resolved);
            shown.map_err(Stop::from)
        }
        Err(stop) => Err(stop),
    };
    drop(mapping);
    shown
}

fn show_resolved(
    alloc: Global,
    case: &Case,
    resolved: &Resolved<'_>,
) -> Result<String, AllocError> {
    match case.words("show") {
        "counts" => forms::counts(alloc, resolved),
        "forms" => forms::all(alloc, resolved),
        "race" => forms::race(alloc, resolved),
        "leaf" => leaf::run(alloc, case, resolved),
        _ => flat::evaluated(alloc, case, resolved),
    }
}
