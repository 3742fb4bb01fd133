//! The texts of the arrays that are written.

ghost use Rattle.std.specs.Prelude.{◌≡◌, ◌≤◌, ◌*◌, ◌++◌, ℕ, List, length};
ghost use Rattle.std.specs.List.{All};
ghost use Rattle.sq_num.specs.Elements.{width};
ghost use Rattle.sq_port.specs.Ports.{Wrote};
ghost use Rattle.sq_rect.specs.Extents.{product};
ghost use Rattle.sq_tree.specs.Bank.{bytes_at, size_in};
ghost use Rattle.sq_root.specs.Places.{IsWithin};
ghost use Rattle.sq_launch.specs.Arrays as spec;

use crate::places::place_of;
use sq_arrays::{Want, write_array};
use sq_ir::Plan;
use sq_planfile::EntryArray;
use sq_port::{Failed, Sink};
use sq_root::part_of;
use sq_tree::Bank;

// The text of an array.
fn put_array<S: Sink>(out: &mut S, array: &EntryArray, bytes: &[u8]) -> Result<(), Failed>
    requires { length bytes.now ≡ product array.now.extents * width array.now.elem }
    ensures later { S.faults out.old ≤ S.faults out.new }
    ensures wrote { Wrote (S.written out.old) (S.written out.new) (S.faults out.old) (S.faults out.new)
        (spec.array_bytes_text array.now bytes.now) result }
{
    let want = Want {
        name: &array.name,
        elem: array.elem,
        extents: array.extents.copy(),
    };
    write_array(out, &want, bytes)
}

// The text of an array, where it is written.
fn put_written<S: Sink>(out: &mut S, array: &EntryArray, bytes: &[u8]) -> Result<(), Failed>
    requires { length bytes.now ≡ product array.now.extents * width array.now.elem }
    ensures later { S.faults out.old ≤ S.faults out.new }
    ensures wrote { Wrote (S.written out.old) (S.written out.new) (S.faults out.old) (S.faults out.new)
        (spec.stored_text array.now bytes.now) result }
{
    if array.mode.is_written() {
        put_array(out, array, bytes)
    } else {
        Ok(())
    }
}

// Goes on with the text of an array.
fn put_next<S: Sink>(
    out: &mut S,
    so_far: Result<(), Failed>,
    array: &EntryArray,
    bytes: &[u8],
) -> Result<(), Failed>
    requires { length bytes.now ≡ product array.now.extents * width array.now.elem }
    ensures later { S.faults out.old ≤ S.faults out.new }
    ensures wrote { (start : _) (faults : ℕ) (text : List ℕ) → Wrote start (S.written out.old) faults
        (S.faults out.old) text so_far
        → Wrote start (S.written out.new) faults (S.faults out.new) (text ++ spec.stored_text array.now bytes.now)
        result }
{
    match so_far {
        Ok(()) => put_written(out, array, bytes),
        Err(failed) => Err(failed),
    }
}

/// Writes the arrays that are written, as they stand in the root's memory.
pub fn write_arrays<S: Sink, B: Bank>(
    out: &mut S,
    plan: &Plan,
    arrays: &[EntryArray],
    bank: &B,
) -> Result<(), Failed>
    requires small { spec.AreSmall arrays.now }
    requires within { All (IsWithin (size_in (B.seen bank.now).nodes 0)) (spec.places_of plan.now arrays.now) }
    ensures later { S.faults out.old ≤ S.faults out.new }
    ensures wrote { Wrote (S.written out.old) (S.written out.new) (S.faults out.old) (S.faults out.new)
        (spec.root_text plan.now arrays.now (bytes_at (B.seen bank.now).nodes 0)) result }
{
    let mut so_far = Ok(());
    for array in arrays {
        so_far = put_next(out, so_far, array, part_of(bank, place_of(plan, array)));
    }
    so_far
}
