//! The arrays of the entry's parameters.

ghost use Rattle.std.specs.Prelude.{◌≡◌, ◌+◌, ◌<◌, ◌≤◌, [], false, Some, get_or, map, length, slice_get, IfOk};
ghost use Rattle.sq_leaf.specs.Source.{Arrays as SpecArrays};
ghost use Rattle.sq_leaf.specs.declared.shape.Shape.{Shape};
ghost use Rattle.sq_leaf.specs.Spots.{put_at};
ghost use Rattle.sq_leaf.specs.Views.{shape_of};
ghost use Rattle.sq_work.specs.InTurn.{serial};
ghost use Rattle.sq_work.specs.Work.{Call};
ghost use Rattle.sq_flat.specs.Ends.{HoldsInside};
ghost use Rattle.sq_flat.specs.Memory.{size_of};
ghost use Rattle.sq_flat.specs.Held as spec;
ghost use Rattle.sq_flat.specs.Works.{form_work};

use crate::codes::lined;
use crate::entry::entry_shapes;
use crate::eval::run_call;
use crate::form::{End, FormCode};
use crate::memory::{bytes_of, push_zeros};
use crate::ready::{are_lined, total};
use sq_rect::{View, Views};
use sq_spec::{CallInstance, Resolved};
use std::alloc::{AllocError, Global};
use std::marker::Model;

/// The arrays of the entry's parameters, one behind the other in one memory. Contracts see their shapes, and the bytes
/// of each: its elements in order of coordinates, little-endian.
#[derive(Drop)]
pub struct Arrays {
    views: Views,
    bytes: Vec<u8>,
}

impl Model for Arrays {
    ghost use Rattle.sq_flat.specs.Held.{Stored, AreStored, stored};

    ghost Value = { Stored };

    ghost view = { λ a. stored a.views a.bytes.items };

    ghost invariant = { λ a. AreStored a.views a.bytes.items };
}

// Zeros in the arrays that these views show.
fn zeros_in(alloc: Global, views: Views) -> Result<Arrays, AllocError>
    ensures { IfOk result (λ a. a ≡ record {
      shapes = map shape_of views;
      bytes = spec.zero_bytes
          (map shape_of views);
    }) }
{
    if !are_lined(views.as_slice()) {
        return Err(AllocError);
    }
    let mut bytes = Vec::new(alloc);
    push_zeros(total(views.as_slice()), &mut bytes)?;
    Ok(Arrays { views, bytes })
}

// The bytes of one of the arrays that these views show.
fn array_of<'a>(views: &[View], array: usize, bytes: &'a [u8]) -> &'a [u8]
    requires there { array < length views.now }
    requires stored { spec.AreStored views.now bytes.now }
    ensures { result.now ≡ get_or (spec.split (map shape_of views.now) bytes.now) array [] }
{
    bytes_of(&views[array], bytes)
}

fn put_part(view: &View, at: usize, part: &[u8], bytes: &mut [u8])
    requires { view.now.at + at + length part.now ≤ length bytes.old }
    ensures { bytes.new ≡ put_at (view.now.at + at) part.now bytes.old }
{
    let from = view.at as usize + at;
    bytes[from..from + part.len()].copy_from_slice(part);
}

// Makes the bytes of an array from that place on those of `part`.
fn put_in(views: &[View], array: usize, at: usize, part: &[u8], bytes: &mut [u8])
    requires there { array < length views.now }
    requires stored { spec.AreStored views.now bytes.old }
    requires part { spec.HasPart (spec.split (map shape_of views.now) bytes.old) array at (length part.now) }
    ensures { spec.split (map shape_of views.now) bytes.new ≡ spec.put_part array at part.now
        (spec.split (map shape_of views.now) bytes.old) }
{
    put_part(&views[array], at, part, bytes);
}

impl Arrays {
    /// Zeros, in the shapes of the parameters of a program's entry. Also without memory where the arrays are more than
    /// 32, or where one of them would begin 2^32 bytes or more behind the first.
    pub fn new(alloc: Global, r: &Resolved<'_>) -> Result<Arrays, AllocError>
        ensures shapes { IfOk result (λ a. a.shapes ≡ spec.entry_shapes r.now.typed.now.tasks r.now.mapping.now
            r.now.found.entries) }
        ensures zeros { IfOk result (λ a. a.bytes ≡ spec.zero_bytes a.shapes) }
        ensures whole { IfOk result (λ a. spec.AreWhole a) }
    {
        let shapes = entry_shapes(alloc, r)?;
        let Some(views) = lined(shapes.as_slice()) else {
            return Err(AllocError);
        };
        let arrays = zeros_in(alloc, views)?;
        Ok(arrays)
    }

    /// How many arrays there are.
    pub fn count(&self) -> usize
        ensures { result ≡ length self.now.bytes }
    {
        self.views.as_slice().len()
    }

    /// Makes the bytes of an array from that place on those of `bytes`.
    pub fn put(&mut self, array: usize, at: usize, bytes: &[u8])
        requires { spec.HasPart self.old.bytes array at (length bytes.now) }
        ensures { self.new ≡ record {
          shapes = self.old.shapes;
          bytes = spec.put_part array at bytes.now
              self.old.bytes;
        } }
    {
        put_in(
            self.views.as_slice(),
            array,
            at,
            bytes,
            self.bytes.as_mut_slice(),
        );
    }

    /// The bytes of an array.
    pub fn bytes(&self, array: usize) -> &[u8]
        requires { array < length self.now.bytes }
        ensures bytes { result.now ≡ get_or self.now.bytes array [] }
        ensures whole { (s : Shape) → slice_get self.now.shapes array ≡ Some s → length result.now ≡ size_of s }
    {
        array_of(self.views.as_slice(), array, self.bytes.as_slice())
    }

    // Calls a form with blocks of these arrays.
    pub(crate) fn run(
        &mut self,
        alloc: Global,
        forms: &[FormCode],
        entry: &CallInstance,
    ) -> Result<(), End>
        ensures { (s : SpecArrays) → spec.Holds self.old.shapes self.old.bytes s
            → HoldsInside self.old.shapes self.new result (serial (Call entry.now.form false entry.now.args
            (form_work forms.now (length forms.now) entry.now.form)) s) }
    {
        run_call(alloc, forms, entry, &self.views, self.bytes.as_mut_slice())
    }
}
