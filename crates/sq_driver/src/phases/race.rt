//! The fault of a race.
ghost use Rattle.std.specs.Prelude.{◌≡◌, IfOk};
ghost use Rattle.sq_text.specs.declared.fault.Arg.TheVariants.{Block};
ghost use Rattle.sq_driver.specs.Races.{race_fault};

use sq_race::Race;
use sq_rect::Rect;
use sq_text::{Arg, Args, Code, Fault, Phase, Spans};
use std::alloc::{AllocError, Global};

// The block as an argument.
fn block(alloc: Global, rect: &Rect) -> Result<Arg, AllocError>
    ensures { IfOk result (λ arg. arg ≡ Block rect.now) }
{
    let mut spans = Spans::new(alloc);
    for span in rect.as_slice() {
        spans.push(*span)?;
    }
    Ok(Arg::Block(spans))
}

// The array, and of each access the map's iteration and the block.
fn args_of(alloc: Global, race: &Race) -> Result<Args, AllocError>
    ensures { IfOk result (λ args. args ≡ (race_fault race.now).args) }
{
    let array = race.array.copy(alloc)?;
    let earlier = block(alloc, &race.rect_a)?;
    let later = block(alloc, &race.rect_b)?;
    let mut args = Args::new(alloc);
    args.push(Arg::Word(array))?;
    args.push(Arg::Number(u64::from(race.iter_a)))?;
    args.push(earlier)?;
    args.push(Arg::Number(u64::from(race.iter_b)))?;
    args.push(later)?;
    Ok(args)
}

/// The fault that tells a race.
pub fn race_fault(alloc: Global, race: &Race) -> Result<Fault, AllocError>
    ensures { IfOk result (λ f. f ≡ race_fault race.now) }
{
    let args = args_of(alloc, race)?;
    Ok(Fault {
        phase: Phase::Race,
        code: Code::Race,
        place: Some(race.place),
        args,
    })
}
