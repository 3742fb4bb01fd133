//! Mappings, instance by instance.

use crate::tokens::add_name;
use fixture_cases::Case;
use sq_machfile::{Machine, read_machine};
use sq_mapfile::read_mapping;
use sq_mapping::{Instance, Mapping, Route, Setting, SizeSet, Tuning};
use sq_source::read_program;
use sq_types::Typed;
use std::alloc::{AllocError, Global};
use std::fmt::Write;
use std::mem::forget;

/// The mapping of a text for the program and the machine of its case. The tree of the program is forgotten: then its drop
/// is none of this function's.
pub fn add(alloc: Global, case: &Case, text: &[u8], out: &mut String) -> Result<(), AllocError> {
    match read_program(alloc, case.text("program").unwrap_or_default()) {
        Ok(program) => {
            let added = add_for(alloc, &program, case, text, out);
            forget(program);
            added
        }
        Err(_) => out.push_str(" no program"),
    }
}

fn add_for(
    alloc: Global,
    program: &Typed,
    case: &Case,
    text: &[u8],
    out: &mut String,
) -> Result<(), AllocError> {
    match read_machine(alloc, case.text("machine").unwrap_or_default()) {
        Ok(machine) => add_on(alloc, program, &machine, text, out),
        Err(_) => out.push_str(" no machine"),
    }
}

fn add_on(
    alloc: Global,
    program: &Typed,
    machine: &Machine,
    text: &[u8],
    out: &mut String,
) -> Result<(), AllocError> {
    match read_mapping(alloc, text, program, machine) {
        Ok(mapping) => add_mapping(&mapping, out),
        Err(_) => out.push_str(" none"),
    }
}

fn add_mapping(mapping: &Mapping, out: &mut String) -> Result<(), AllocError> {
    let entry = mapping.entry;
    write!(out, "\n  entry {entry}")?;
    for size in mapping.sizes.as_slice() {
        add_size(size, out)?;
    }
    for instance in mapping.instances.as_slice() {
        add_instance(instance, out)?;
    }
    Ok(())
}

fn add_size(size: &SizeSet, out: &mut String) -> Result<(), AllocError> {
    out.push_str(", ")?;
    add_name(&size.name, out)?;
    let value = size.value;
    write!(out, " = {value}")
}

fn add_instance(instance: &Instance, out: &mut String) -> Result<(), AllocError> {
    out.push_str("\n  ")?;
    add_name(&instance.name, out)?;
    out.push_str(" = ")?;
    add_name(&instance.task, out)?;
    let Instance {
        kind,
        level,
        spread,
        ..
    } = instance;
    write!(out, "::{kind:?} @ {level} {spread:?}")?;
    for tuning in instance.tunings.as_slice() {
        add_tuning(tuning, out)?;
    }
    for route in instance.routes.as_slice() {
        add_route(route, out)?;
    }
    Ok(())
}

fn add_tuning(tuning: &Tuning, out: &mut String) -> Result<(), AllocError> {
    out.push_str(", ")?;
    add_name(&tuning.name, out)?;
    match &tuning.setting {
        Setting::One(number) => write!(out, " = {number}"),
        Setting::Many(numbers) => {
            let numbers = numbers.as_slice();
            write!(out, " = {numbers:?}")
        }
    }
}

fn add_route(route: &Route, out: &mut String) -> Result<(), AllocError> {
    out.push_str(", ")?;
    add_name(&route.task, out)?;
    let instance = route.instance;
    write!(out, " -> {instance}")
}
