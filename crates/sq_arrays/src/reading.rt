//! Reads all arrays of a file, in constant memory.
ghost use Rattle.std.specs.Prelude.{◌≡◌, ◌+◌, ◌*◌, ◌/◌, ◌^◌, ◌<◌, ◌≤◌, ℕ, List, [], length, map, ◌-◌, ◌==◌};
ghost use Rattle.std.specs.Prelude.{if◌then◌else◌, Some, None, OnOk, OnErr, IsErrOf, false};
ghost use Rattle.sq_num.specs.Elements.{width};
ghost use Rattle.sq_arrays.specs.ArrayText.{next_values};
ghost use Rattle.sq_arrays.specs.Arrays.{wanted, size_of, array_of_text, arrays_of};
ghost use Rattle.sq_arrays.specs.Targets.{HasRange, HasRoom, GivesArrays, GivesValuesIn, put_in, end_of};
ghost use Rattle.sq_arrays.specs.Window.{IsTold, IsMissing};
ghost use Rattle.sq_arrays.specs.Cells.{GivesValues};
ghost use Rattle.sq_arrays.specs.Causes.{EndCause, IsThereUnlessFailed};
ghost use Rattle.sq_arrays.specs.Reader.{left_of, elem_of, is_first, kept_of, rest_at, IsReady};

use crate::{ArrayReader, ArrayTarget, ArraysEnd, InputEnd, Want};
use sq_num::width;
use sq_port::Files;

/// How many values are read at a time: with at most 8 bytes each they take 4,096 bytes of the stack.
const PIECE: usize = 512;

// So many values of an array, from that byte of it on.
#[derive(Clone, Copy)]
struct ArraySpot {
    array: usize,
    at: usize,
    count: usize,
}

// Reads so many values and puts them into the array.
fn put_piece<F: Files, T: ArrayTarget>(
    reader: &mut ArrayReader,
    files: &mut F,
    name: &str,
    target: &mut T,
    spot: ArraySpot,
    into: &mut [u8],
) -> Result<(), InputEnd>
    requires ready { IsReady (F.content files.old) name.now reader.old }
    requires good { kept_of reader.old ≡ None }
    requires whole { length into.old ≡ spot.count * width (elem_of reader.old) }
    requires few { spot.count ≤ left_of reader.old }
    requires room { HasRange (T.arrays target.old) spot.array spot.at (spot.count * width (elem_of reader.old)) }
    ensures content { F.content files.new ≡ F.content files.old }
    ensures ready { IsReady (F.content files.new) name.now reader.new }
    ensures ok { OnOk result ((kept_of reader.new ≡ None) × (elem_of reader.new ≡ elem_of reader.old)
        × (is_first reader.new ≡ is_first reader.old)
        × (left_of reader.new + spot.count ≡ left_of reader.old)) }
    ensures size { length into.new ≡ spot.count * width (elem_of reader.old) }
    ensures put { OnOk result (T.arrays target.new ≡ put_in spot.array spot.at into.new (T.arrays target.old)) }
    ensures sizes { map length (T.arrays target.new) ≡ map length (T.arrays target.old) }
    ensures keeps { T.keeps target.old target.new }
    ensures missing { IsErrOf result InputEnd.Absent → IsMissing (F.content files.old) name.now }
    ensures gives { (bytes : List ℕ) → IsTold (F.content files.old) name.now bytes →
        GivesValues (elem_of reader.old) into.new (rest_at reader.new bytes) result (next_values spot.count (elem_of reader.old) (rest_at reader.old bytes)) }
    ensures cause { EndCause (F.faults files.old) (F.faults files.new) (F.misses files.old) (F.misses files.new)
        result }
{
    match reader.next_values(files, name, into) {
        Ok(()) => {
            target.put(spot.array, spot.at, into);
            Ok(())
        }
        Err(end) => Err(end),
    }
}

// Puts all values that are left of the array into it.
fn put_values<F: Files, T: ArrayTarget>(
    reader: &mut ArrayReader,
    files: &mut F,
    name: &str,
    target: &mut T,
    array: usize,
    count: usize,
) -> Result<(), InputEnd>
    requires ready { IsReady (F.content files.old) name.now reader.old }
    requires good { kept_of reader.old ≡ None }
    requires count { left_of reader.old ≡ count }
    requires small { count * width (elem_of reader.old) < 2 ^ 64 }
    requires room { HasRange (T.arrays target.old) array 0 (count * width (elem_of reader.old)) }
    ensures content { F.content files.new ≡ F.content files.old }
    ensures ready { IsReady (F.content files.new) name.now reader.new }
    ensures ok { OnOk result ((kept_of reader.new ≡ None) × (is_first reader.new ≡ is_first reader.old)
        × (left_of reader.new ≡ 0)) }
    ensures sizes { map length (T.arrays target.new) ≡ map length (T.arrays target.old) }
    ensures keeps { T.keeps target.old target.new }
    ensures missing { IsErrOf result InputEnd.Absent → IsMissing (F.content files.old) name.now }
    ensures gives { (bytes : List ℕ) → IsTold (F.content files.old) name.now bytes →
        GivesValuesIn array (elem_of reader.old) (T.arrays target.old) (T.arrays target.new) (rest_at reader.new bytes) result
        (next_values count (elem_of reader.old) (rest_at reader.old bytes)) }
    ensures cause { EndCause (F.faults files.old) (F.faults files.new) (F.misses files.old) (F.misses files.new)
        result }
{
    let size = width(reader.elem());
    let mut window = [0u8; 8 * PIECE];
    let mut done = 0;
    while done < count {
        let more = PIECE.min(count - done);
        match put_piece(
            reader,
            files,
            name,
            target,
            ArraySpot {
                array,
                at: done * size,
                count: more,
            },
            &mut window[..more * size],
        ) {
            Ok(()) => done += more,
            Err(end) => return Err(end),
        }
    }
    Ok(())
}

// Reads the next array whole into the array of that number.
fn read_array<F: Files, T: ArrayTarget>(
    reader: &mut ArrayReader,
    files: &mut F,
    name: &str,
    want: &Want,
    target: &mut T,
    array: usize,
) -> Result<(), InputEnd>
    requires ready { IsReady (F.content files.old) name.now reader.old }
    requires none { left_of reader.old ≡ 0 }
    requires good { kept_of reader.old ≡ None }
    requires small { size_of (wanted want.now) < 2 ^ 64 }
    requires room { HasRange (T.arrays target.old) array 0 (size_of (wanted want.now)) }
    ensures content { F.content files.new ≡ F.content files.old }
    ensures ready { IsReady (F.content files.new) name.now reader.new }
    ensures ok { OnOk result ((kept_of reader.new ≡ None) × (is_first reader.new ≡ false) × (left_of reader.new ≡ 0)) }
    ensures sizes { map length (T.arrays target.new) ≡ map length (T.arrays target.old) }
    ensures keeps { T.keeps target.old target.new }
    ensures there { IsThereUnlessFailed (F.content files.old) name.now result }
    ensures gives { (bytes : List ℕ) → IsTold (F.content files.old) name.now bytes →
        GivesValuesIn array want.now.elem (T.arrays target.old) (T.arrays target.new) (rest_at reader.new bytes) result
        (array_of_text (is_first reader.old) (wanted want.now) (rest_at reader.old bytes)) }
    ensures cause { EndCause (F.faults files.old) (F.faults files.new) (F.misses files.old) (F.misses files.new)
        result }
{
    match reader.next_head(files, name, want) {
        Ok(()) => {}
        Err(end) => return Err(end),
    }
    let count = want.extents.elements() as usize;
    match put_values(reader, files, name, target, array, count) {
        Ok(()) => Ok(()),
        Err(end) => Err(end),
    }
}

// The number of the last of so many arrays.
fn last_of(count: usize) -> Option<usize>
    ensures { result ≡ (if count == 0 then None else Some (count - 1)) }
{
    if count == 0 { None } else { Some(count - 1) }
}

/// Reads all arrays of a file into the target, each into the array of its number. After a refusal the target's arrays
/// hold anything; nothing else of the target changes.
pub fn read_arrays<F: Files, T: ArrayTarget>(
    files: &mut F,
    name: &str,
    wants: &[Want],
    target: &mut T,
) -> Result<(), ArraysEnd>
    requires { HasRoom (map wanted wants.now) (T.arrays target.old) }
    ensures content { F.content files.new ≡ F.content files.old }
    ensures sizes { map length (T.arrays target.new) ≡ map length (T.arrays target.old) }
    ensures keeps { T.keeps target.old target.new }
    ensures there { IsThereUnlessFailed (F.content files.old) name.now (end_of result) }

    // The calls, and pieces of any size, make up the one definition over the file's bytes.
    ensures gives { (bytes : List ℕ) → IsTold (F.content files.old) name.now bytes →
        GivesArrays (map wanted wants.now) (T.arrays target.new) result (arrays_of (map wanted wants.now) bytes) }
    ensures cause { EndCause (F.faults files.old) (F.faults files.new) (F.misses files.old) (F.misses files.new)
        (end_of result) }
{
    let mut reader = ArrayReader::new();
    for (array, want) in wants.iter().enumerate() {
        match read_array(&mut reader, files, name, want, target, array) {
            Ok(()) => {}
            Err(end) => {
                return Err(ArraysEnd {
                    end,
                    array: Some(array),
                });
            }
        }
    }
    match reader.finish(files, name) {
        Ok(()) => Ok(()),
        Err(end) => Err(ArraysEnd {
            end,
            array: last_of(wants.len()),
        }),
    }
}
