//! The limits of machines, and the rules that both versions of their files share.

ghost use Rattle.std.specs.Prelude.{◌≡◌, OnOk};
ghost use Rattle.sq_text.specs.Found.{Finds};
ghost use Rattle.sq_machfile.specs.Faults as spec;
ghost use Rattle.sq_machfile.specs.Faults.{judge};
ghost use Rattle.sq_machfile.specs.Walk.{level_name, with_name};
ghost use Rattle.sq_machfile.specs.Tallies.{names_in};

use crate::names::is_again;
use sq_text::limits::NODE_BYTES;
use sq_text::{Code, FirstFault, FirstItems, Word};
use std::alloc::AllocError;

const MOST_LEVELS: usize = 8;

const MOST_CHILDREN: u64 = 64;

const MOST_BYTES: u64 = 1 << 31;

/// Whether the number grows from within the limit to beyond it.
pub fn passes(limit: u64, before: u64, after: u64) -> bool
    ensures { result ≡ spec.passes limit before after }
{
    before <= limit && limit < after
}

/// Whether a node has too few or too many children.
pub fn is_bad_fan(children: u64) -> bool
    ensures { result ≡ spec.is_bad_fan children }
{
    children < 1 || MOST_CHILDREN < children
}

/// Whether a capacity is too much, by itself or where the bytes of all memories grow with it.
pub fn is_over_capacity(capacity: u64, before: u64, after: u64) -> bool
    ensures { result ≡ spec.is_over_capacity capacity before after }
{
    NODE_BYTES < capacity || passes(MOST_BYTES, before, after)
}

/// The rules on the name of a level, the index-th from the root.
pub fn level_name(
    first: &mut FirstFault,
    names: &mut FirstItems,
    index: usize,
    name: &Word,
) -> Result<(), AllocError>
    ensures found { OnOk result (Finds judge first.old first.new (level_name index (names_in names.old) name.now)) }
    ensures names { OnOk result (names_in names.new ≡ with_name name.now.name (names_in names.old)) }
{
    let is_again = is_again(first.alloc(), names, &name.name)?;
    first.note_word(Code::DupLevel, name, is_again)?;
    first.note_word(Code::LimitLevels, name, index == MOST_LEVELS)?;
    Ok(())
}
