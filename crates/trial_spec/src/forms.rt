//! Forms, their accesses, and the first race of them.

use sq_forms::{Form, Use};
use sq_race::{Race, first_race};
use sq_rect::Rect;
use sq_spec::Resolved;
use std::alloc::{AllocError, Global};

/// How many forms there are, and accesses of the entry.
pub fn counts(alloc: Global, resolved: &Resolved<'_>) -> Result<String, AllocError> {
    let forms = resolved.forms().len();
    format!(in alloc; "forms {forms} uses {}", uses_of(resolved, 0).len())
}

fn uses_of<'a>(resolved: &'a Resolved<'_>, form: usize) -> &'a [Use] {
    match u32::try_from(form) {
        Ok(number) if form < resolved.forms().len() => resolved.uses(number),
        _ => &[],
    }
}

/// Each form, and the accesses of the entry.
pub fn all(alloc: Global, resolved: &Resolved<'_>) -> Result<String, AllocError> {
    let mut out = counts(alloc, resolved)?;
    let tasks = resolved.typed().program().tasks.len();
    let instances = resolved.mapping().instances.len();
    let levels = resolved.machine().levels().len();
    write!(out, "\ntasks {tasks} instances {instances} levels {levels}")?;
    for (number, form) in resolved.forms().iter().enumerate() {
        add_form(&mut out, form)?;
        write!(out, " uses {}", uses_of(resolved, number).len())?;
    }
    for access in uses_of(resolved, 0) {
        add_use(&mut out, access)?;
    }
    Ok(out)
}

fn add_form(out: &mut String, form: &Form) -> Result<(), AllocError> {
    let (instance, level, caller) = (form.instance, form.level, form.caller);
    write!(
        out,
        "\nform instance {instance} level {level} caller {caller:?} extents"
    )?;
    for extents in form.extents.as_slice() {
        write!(out, " {:?}", extents.as_slice())?;
    }
    let in_place = form.in_place.as_slice();
    write!(out, " in place {in_place:?} locals {}", form.locals.len())
}

fn add_use(out: &mut String, access: &Use) -> Result<(), AllocError> {
    let Use {
        call,
        arg,
        array,
        mode,
        callee,
        ..
    } = access;
    write!(
        out,
        "\nuse call {call} arg {arg} array {array} {mode:?} callee {callee}"
    )?;
    write!(out, " iterations {:?} rect ", access.iterations.as_slice())?;
    add_rect(out, &access.rect)
}

fn add_rect(out: &mut String, rect: &Rect) -> Result<(), AllocError> {
    for span in rect.as_slice() {
        write!(out, "[{}..{}]", span.lo, span.hi)?;
    }
    Ok(())
}

/// The first race.
pub fn race(alloc: Global, resolved: &Resolved<'_>) -> Result<String, AllocError> {
    match first_race(alloc, resolved)? {
        Some(race) => {
            let shown = shown(alloc, &race);
            drop(race);
            shown
        }
        None => String::from_str(alloc, "no race"),
    }
}

fn shown(alloc: Global, race: &Race) -> Result<String, AllocError> {
    let (form, place) = (race.form, race.place);
    let array = str::from_utf8(race.array.bytes()).unwrap_or_default();
    let mut out = format!(in alloc; "race form {form} {}:{} {array}", place.line, place.col)?;
    write!(out, " {} ", race.iter_a)?;
    add_rect(&mut out, &race.rect_a)?;
    write!(out, " {} ", race.iter_b)?;
    add_rect(&mut out, &race.rect_b)?;
    Ok(out)
}
