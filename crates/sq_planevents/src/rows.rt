//! Rows of events.

ghost use Rattle.std.specs.Prelude.{◌≡◌, ◌+◌, ◌*◌, ◌<◌, ◌^◌};
ghost use Rattle.sq_num.specs.Elements as elements;
ghost use Rattle.sq_planevents.specs.Rows as spec;

use crate::lines::Lines;
use crate::standing::Standing;
use sq_num::Elem;
use sq_plantext::SlotText;

/// How many bytes so many elements have.
pub(crate) fn bytes_of(elem: Elem, count: u64) -> u128
    ensures is { result ≡ count * elements.width elem }
    ensures small { result < 2 ^ 70 }
{
    match elem {
        Elem::Byte => u128::from(count),
        Elem::Int => u128::from(count) * 4,
        Elem::Long => u128::from(count) * 8,
    }
}

impl Lines<'_> {
    /// Where a slot's byte is in its node.
    pub fn place(&self, slot: SlotText) -> u128
        ensures is { result ≡ spec.place_of self.now.text.now slot }
        ensures small { result < 2 ^ 65 }
    {
        u128::from(self.room(slot.buffer).offset) + u128::from(slot.at)
    }

    // The node of a slot.
    fn node_of(&self, at: &Standing, slot: SlotText) -> u64
        ensures { result ≡ spec.node_of self.now.text.now at.now.nodes slot }
    {
        at.node_in(self.room(slot.buffer).level)
    }

    /// Whether so many bytes from a slot on lie in its buffer, which is in scope, and in its node.
    pub fn is_row(&self, at: &Standing, slot: SlotText, bytes: u128) -> bool
        requires { bytes < 2 ^ 70 }
        ensures { result ≡ spec.is_row self.now.text.now at.now.nodes at.now.scopes slot bytes }
    {
        let room = self.room(slot.buffer);
        let capacity = self.node(self.node_of(at, slot)).capacity;
        at.scopes.has(slot.buffer)
            && u128::from(slot.at) + bytes <= u128::from(room.size)
            && self.place(slot) + bytes <= u128::from(capacity)
    }

    // Whether two rows of so many bytes lie apart.
    fn are_apart(&self, at: &Standing, from: SlotText, to: SlotText, bytes: u128) -> bool
        requires { bytes < 2 ^ 70 }
        ensures { result ≡ spec.are_apart self.now.text.now at.now.nodes from to bytes }
    {
        self.node_of(at, from) != self.node_of(at, to)
            || self.place(from) + bytes <= self.place(to)
            || self.place(to) + bytes <= self.place(from)
    }

    /// Whether so many bytes can be taken from one row to another.
    pub fn is_move(&self, at: &Standing, from: SlotText, to: SlotText, bytes: u128) -> bool
        requires { bytes < 2 ^ 70 }
        ensures { result ≡ spec.is_move self.now.text.now at.now.nodes at.now.scopes from to bytes }
    {
        self.is_row(at, from, bytes)
            && self.is_row(at, to, bytes)
            && self.are_apart(at, from, to, bytes)
    }
}
