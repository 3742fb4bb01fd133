//! Arrays in the root's memory.
ghost use Rattle.std.specs.Prelude.{◌≡◌, ◌+◌, ◌<◌, ◌≤◌, ◌^◌, ℕ, List, length, map};
ghost use Rattle.std.specs.List.{All};
ghost use Rattle.std.proofs.Common.{refl, ◌∙◌};
ghost use Rattle.sq_arrays.specs.Arrays.{wanted, size_of, arrays_of};
ghost use Rattle.sq_arrays.specs.Causes.{EndCause, IsThereUnlessFailed};
ghost use Rattle.sq_arrays.specs.Targets.{GivesArrays, end_of};
ghost use Rattle.sq_arrays.specs.Window.{IsTold};
ghost use Rattle.sq_tree.specs.Bank.{bytes_at, size_in};
ghost use Rattle.sq_root.specs.Places.{part, parts, IsWithin, Fits, KeepsOutside, keeps_itself, keeps_on};
ghost use Rattle.sq_root.specs.Roots.{arrays_at};

use crate::place::Place;
use sq_arrays::{ArrayTarget, ArraysEnd, Want, read_arrays};
use sq_port::Files;
use sq_tree::Bank;

/// Reads all arrays of a file into the root, each into its place. After a refusal the places hold anything; nothing
/// else of the bank changes.
pub fn read_root<F: Files, B: Bank>(
    files: &mut F,
    name: &str,
    wants: &[Want],
    bank: &mut B,
    places: &[Place],
) -> Result<(), ArraysEnd>
    requires fits { Fits places.now (size_in (B.seen bank.old).nodes 0) }
    requires sizes { map (λ p. p.size) places.now ≡ map size_of (map wanted wants.now) }
    requires small { All (λ w. size_of w < 2 ^ 64) (map wanted wants.now) }
    ensures content { F.content files.new ≡ F.content files.old }
    ensures keeps { KeepsOutside places.now (B.seen bank.old) (B.seen bank.new) }
    ensures there { IsThereUnlessFailed (F.content files.old) name.now (end_of result) }
    ensures gives { (bytes : List ℕ) → IsTold (F.content files.old) name.now bytes →
        GivesArrays (map wanted wants.now) (parts places.now (bytes_at (B.seen bank.new).nodes 0)) result
        (arrays_of (map wanted wants.now) bytes) }
    ensures cause { EndCause (F.faults files.old) (F.faults files.new) (F.misses files.old) (F.misses files.new)
        (end_of result) }
{
    let mut root = Root { bank, places };
    read_arrays(files, name, wants, &mut root)
}

/// Lends the bytes of an array of the root.
pub fn part_of<B: Bank>(bank: &B, place: Place) -> &[u8]
    requires { IsWithin (size_in (B.seen bank.now).nodes 0) place }
    ensures { result.now ≡ part place (bytes_at (B.seen bank.now).nodes 0) }
{
    bank.root_bytes(place.at, place.size)
}

// How many bytes of the root stand before a byte of a place, or before the first behind it. Both are lengths of bytes
// that are there, so that their sum isn't too large.
fn bytes_before<B: Bank>(bank: &B, place: Place, at: usize) -> usize
    requires within { IsWithin (size_in (B.seen bank.now).nodes 0) place }
    requires at { at ≤ place.size }
    ensures { result ≡ place.at + at }
{
    bank.root_bytes(0, place.at).len() + bank.root_bytes(place.at, at).len()
}

/// Arrays of a bank's root, each at its place.
#[derive(Drop)]
struct Root<'a, 'p, B: Bank> {
    bank: &'a mut B,
    places: &'p [Place],
}

impl<B: Bank> ArrayTarget for Root<'_, '_, B> {
    ghost arrays = { λ r. arrays_at r.places.now (bytes_at (B.seen r.bank.now).nodes 0) };

    ghost keeps = { λ r s. (s.bank.ghost_name ≡ r.bank.ghost_name) × (s.places.now ≡ r.places.now)
        × KeepsOutside r.places.now (B.seen r.bank.now) (B.seen s.bank.now) };

    fn put(&mut self, array: usize, at: usize, bytes: &[u8]) {
        let places = self.places;
        let begin = bytes_before(self.bank, places[array], at);
        self.bank.put_root(begin, bytes);
    }

    ghost keeps_itself = { λ r. (refl, refl, keeps_itself r.places.now (B.seen r.bank.now)) };

    ghost keeps_on = { λ r s t first second. (
      second.0 ∙ first.0,
      second.1 ∙ first.1,
      keeps_on r.places.now s.places.now (B.seen r.bank.now) (B.seen s.bank.now) (B.seen t.bank.now) first.1
          first.2 second.2,
    ) };
}
