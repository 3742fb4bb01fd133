//! The values of an array, into bytes.
ghost use Rattle.std.specs.Prelude.{◌≡◌, ◌+◌, ◌*◌, ◌/◌, ◌≤◌, ℕ, List, length, IsErrOf};
ghost use Rattle.sq_arrays.specs.Window.{IsTold, IsMissing, Stands};
ghost use Rattle.sq_arrays.specs.Steps.{rest_of};
ghost use Rattle.sq_arrays.specs.Causes.{EndCause};
ghost use Rattle.sq_arrays.specs.ArrayText.{next_values};
ghost use Rattle.sq_num.specs.Elements.{width};
ghost use Rattle.sq_arrays.specs.Cells.{GivesValues};

use crate::InputEnd;
use crate::expect::expect_value;
use crate::window::Window;
use sq_num::{Elem, store_elem, width};
use sq_port::Files;

/// Reads as many values as there is room for.
pub(crate) fn values<F: Files>(
    window: &mut Window,
    files: &mut F,
    name: &str,
    elem: Elem,
    into: &mut [u8],
) -> Result<(), InputEnd>
    requires stands { Stands (F.content files.old) name.now window.old }
    requires whole { (length into.old / width elem) * width elem ≡ length into.old }
    ensures content { F.content files.new ≡ F.content files.old }
    ensures stands { Stands (F.content files.new) name.now window.new }
    ensures gives { (bytes : List ℕ) → IsTold (F.content files.old) name.now bytes →
        GivesValues elem into.new (rest_of window.new bytes) result (next_values (length into.old / width elem) elem (rest_of window.old bytes)) }
    ensures missing { IsErrOf result InputEnd.Absent → IsMissing (F.content files.old) name.now }
    ensures cause { EndCause (F.faults files.old) (F.faults files.new) (F.misses files.old) (F.misses files.new)
        result }
{
    let size = width(elem);
    let count = into.len() / size;
    for i in 0..count {
        match expect_value(window, files, name, elem) {
            Ok(v) => store_elem(elem, v, &mut into[i * size..i * size + size]),
            Err(end) => return Err(end),
        }
    }
    Ok(())
}
