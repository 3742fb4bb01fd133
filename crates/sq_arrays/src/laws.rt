//! What is true of every text of arrays.

ghost use Rattle.std.specs.Prelude.{◌≡◌, ℕ, List, Ok, ℤ, length, false};
ghost use Rattle.std.specs.List.{All, AllZip};
ghost use Rattle.sq_arrays.specs.Arrays.{Wanted, arrays_of, AreValuesOf};
ghost use Rattle.sq_arrays.specs.Words.{is_over};
ghost use Rattle.sq_arrays.specs.Written.{arrays_text, HasHead};

/// What is read of an array are as many values as it has elements, all of its type.
pub fn values_are_those_of_their_array()
    ensures { (ws : List Wanted) (bytes : List ℕ) (vss : List (List ℤ)) → arrays_of ws bytes ≡ Ok vss
        → AllZip AreValuesOf ws vss }
{}

/// What is written of arrays, one after the other, is a file of which just these values are read, where it isn't longer
/// than a file may be.
pub fn written_arrays_read_back()
    ensures { (ws : List Wanted) (vss : List (List ℤ)) → All HasHead ws → AllZip AreValuesOf ws vss
        → is_over (arrays_text ws vss) ≡ false
        → arrays_of ws (arrays_text ws vss) ≡ Ok vss }
{}
