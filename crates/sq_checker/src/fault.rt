//! The faults of plans.

ghost use Rattle.std.specs.Prelude.{◌≡◌, ◌∷◌, ◌++◌, [], map, IfOk, OnOk};
ghost use Rattle.sq_text.specs.declared.fault.Arg.TheVariants.{Number};
ghost use Rattle.sq_checker.specs.Flaws as spec;

use sq_check_laws::Flaw;
use sq_text::{Arg, Args, Code, Fault, Phase};
use std::alloc::{AllocError, Global};

// The numbers as arguments.
fn args_of(alloc: Global, numbers: &[u32]) -> Result<Args, AllocError>
    ensures { IfOk result (λ args. args ≡ map (λ n. Number n) numbers.now) }
{
    let mut args = Args::new(alloc);
    for number in numbers {
        args.push(Arg::Number(u64::from(*number)))?;
    }
    Ok(args)
}

// The fault with this code and these numbers.
fn numbered(alloc: Global, code: Code, numbers: &[u32]) -> Result<Fault, AllocError>
    ensures { IfOk result (λ fault. fault ≡ spec.numbered code numbers.now) }
{
    let args = args_of(alloc, numbers)?;
    Ok(Fault {
        phase: Phase::Plan,
        code,
        place: None,
        args,
    })
}

/// The fault of a plan with this flaw.
pub(crate) fn fault_of(alloc: Global, flaw: Flaw) -> Result<Fault, AllocError>
    ensures { IfOk result (λ fault. fault ≡ spec.flaw_fault flaw) }
{
    match flaw {
        Flaw::TooManyEvents => numbered(alloc, Code::LimitEvents, &[]),
        Flaw::Clash { earlier, later } => numbered(alloc, Code::Clash, &[earlier, later]),
        Flaw::NoRoom {
            node,
            earlier,
            later,
        } => numbered(alloc, Code::Space, &[node, earlier, later]),
    }
}
