//! What is chosen for forms.

ghost use Rattle.std.specs.Prelude.{◌≡◌, IfOk};
ghost use Rattle.sq_chosen.specs.Forms as spec;

use sq_ir::Notes;
use sqlite_items::{Items, at};
use std::alloc::AllocError;

/// Of the parameters of a form: which are in place, and how many of the loops round its call each leaves, from the
/// inside, 0 where it leaves none; and whether the transfers of the loop round its call overlap with its work.
#[derive(Drop)]
pub struct Choice {
    pub in_place: Items<bool>,
    pub leaves: Items<u32>,
    pub overlaps: bool,
}

/// What is chosen for all forms of a program, and what is told of it.
#[derive(Drop)]
pub struct Chosen {
    pub choices: Items<Choice>,
    pub notes: Notes,
}

/// What is chosen for a form.
pub fn choice_at(choices: &[Choice], form: usize) -> Result<&Choice, AllocError>
    ensures { IfOk result (λ c. c.now ≡ spec.choice_in choices.now form) }
{
    match at(choices, form) {
        Some(c) => Ok(c),
        None => Err(AllocError),
    }
}
