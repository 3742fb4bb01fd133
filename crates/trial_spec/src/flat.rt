//! Programs on one flat memory.

ghost use Rattle.std.specs.Prelude.{◌≡◌};

use crate::leaf::{numbers_of, put_numbers};
use fixture_cases::Case;
use sq_flat::{Arrays, eval_flat};
use sq_race::first_race;
use sq_race::laws::without_a_race;
use sq_spec::Resolved;
use std::alloc::{AllocError, Global};

/// The bytes of the entry's arrays behind a run. Each array, also of an `out` parameter, holds the numbers of the part
/// that has its name before.
pub fn evaluated(
    alloc: Global,
    case: &Case,
    resolved: &Resolved<'_>,
) -> Result<String, AllocError> {
    let mut arrays = Arrays::new(alloc, resolved)?;
    fill(alloc, case, resolved, &mut arrays)?;
    without_a_race();
    match first_race(alloc, resolved)? {
        None => match eval_flat(alloc, resolved, arrays) {
            Ok(arrays) => shown(alloc, resolved, &arrays),
            Err(_) => String::from_str(alloc, "no end"),
        },
        Some(_) => String::from_str(alloc, "a race"),
    }
}

fn fill(
    alloc: Global,
    case: &Case,
    resolved: &Resolved<'_>,
    arrays: &mut Arrays,
) -> Result<(), AllocError>
    ensures { arrays.new.shapes ≡ arrays.old.shapes }
{
    for (number, param) in resolved.entry_params().iter().enumerate() {
        if number < arrays.count() {
            let mut bytes = vec![in alloc; 0u8; arrays.bytes(number).len()]?;
            put_numbers(param.elem, numbers_of(case, param), 0, &mut bytes);
            arrays.put(number, 0, &bytes);
        }
    }
    Ok(())
}

fn shown(alloc: Global, resolved: &Resolved<'_>, arrays: &Arrays) -> Result<String, AllocError> {
    let mut out = String::from_str(alloc, "arrays")?;
    for (number, param) in resolved.entry_params().iter().enumerate() {
        if number < arrays.count() {
            let name = str::from_utf8(param.name.bytes()).unwrap_or_default();
            write!(out, " {name} {:?}", arrays.bytes(number))?;
        }
    }
    Ok(out)
}
