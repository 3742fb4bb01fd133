//! Why the walk stops.

ghost use Rattle.std.specs.Prelude.{◌≡◌, Ok, Err};
ghost use Rattle.sq_forms.specs.Faults as spec;

use sq_blocks::ConstFault;
use sq_text::{Arg, Code, Fault, Name, Phase, Place, Stop};
use sqlite_items::Items;
use std::alloc::{AllocError, Global};

/// Refused at a place, without an argument.
pub fn refusal(alloc: Global, code: Code, place: Place) -> Stop
    ensures { spec.Stops result (spec.fault_at code place) }
{
    Stop::Refused(Fault {
        phase: Phase::Resolve,
        code,
        place: Some(place),
        args: Items::new(alloc),
    })
}

fn fault_named(alloc: Global, code: Code, place: Place, name: &Name) -> Result<Fault, AllocError>
    ensures { spec.Makes result (spec.fault_named code place name.now) }
{
    let mut args = Items::new(alloc);
    args.push(Arg::Word(name.copy(alloc)?))?;
    Ok(Fault {
        phase: Phase::Resolve,
        code,
        place: Some(place),
        args,
    })
}

/// Refused at the place of a name.
pub fn refusal_named(alloc: Global, code: Code, place: Place, name: &Name) -> Stop
    ensures { spec.Stops result (spec.fault_named code place name.now) }
{
    match fault_named(alloc, code, place, name) {
        Ok(fault) => Stop::Refused(fault),
        Err(_) => Stop::NoMemory,
    }
}

fn code_of(fault: ConstFault) -> Code
    ensures { result ≡ spec.code_of fault }
{
    match fault {
        ConstFault::DivZero => Code::DivZero,
        ConstFault::Overflow => Code::Overflow,
        ConstFault::BlockIndex => Code::BlockIndex,
        ConstFault::BadChop => Code::BadChop,
    }
}

/// Refused at an operator of a constant.
pub fn refusal_of_constant(alloc: Global, bad: (ConstFault, Place)) -> Stop
    ensures { spec.Stops result (spec.fault_of bad) }
{
    let (fault, place) = bad;
    refusal(alloc, code_of(fault), place)
}
