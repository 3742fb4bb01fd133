//! What is chosen for the forms of a program.

ghost use Rattle.std.specs.Prelude.{◌≡◌, IfOk};
ghost use Rattle.sq_pipe.specs.Greedy as spec;

use sq_hoist::{Choice, flag_at};
use sqlite_items::Items;
use std::alloc::{AllocError, Global};

fn with_overlap(alloc: Global, c: &Choice, taken: bool) -> Result<Choice, AllocError>
    ensures { IfOk result (λ d. d ≡ spec.with_overlap c.now taken) }
{
    let in_place = Items::from_slice(alloc, c.in_place.as_slice())?;
    let leaves = Items::from_slice(alloc, c.leaves.as_slice())?;
    Ok(Choice {
        in_place,
        leaves,
        overlaps: taken,
    })
}

/// These choices, where besides the loops that call these forms overlap their transfers.
pub fn overlaps_of(
    alloc: Global,
    taken: &[bool],
    choices: &[Choice],
) -> Result<Items<Choice>, AllocError>
    ensures { IfOk result (λ cs. cs ≡ spec.overlaps_from taken.now 0 choices.now) }
{
    let mut out = Items::new(alloc);
    for (form, c) in choices.iter().enumerate() {
        out.push(with_overlap(alloc, c, flag_at(taken, form))?)?;
    }
    Ok(out)
}
