//! Names that stood before.

ghost use Rattle.std.specs.Prelude.{◌≡◌, IfOk, OnOk};
ghost use Rattle.sq_machfile.specs.Walk.{with_name};
ghost use Rattle.sq_machfile.specs.Tallies.{names_in};

use sq_text::{FirstItems, Name};
use std::alloc::{AllocError, Global};

/// Whether the name stood before. From now on it did.
pub fn is_again(alloc: Global, names: &mut FirstItems, name: &Name) -> Result<bool, AllocError>
    ensures again { IfOk result (λ is_again. is_again ≡ names_in names.old name.now) }
    ensures names { OnOk result (names_in names.new ≡ with_name name.now (names_in names.old)) }
{
    let is_new = names.enter(alloc, name, 0)?;
    Ok(!is_new)
}
