//! Forms and their accesses.

ghost use Rattle.std.specs.Prelude.{◌≡◌, IfOk, nat_eq};
ghost use Rattle.std.specs.Hash as fed;
ghost use Rattle.std.specs.Cmp.Lexicographic.{pointwise, nat_list_eq_equiv};
ghost use Rattle.std.specs.Cmp.{partial_equiv_from_equiv};
ghost use Rattle.std.specs.Cmp.Rules.{hashing};
ghost use Rattle.std.proofs.Common.{rules};

use sq_ast::{Elem, Mode};
use sq_blocks::views::{Dims, Rect};
use sqlite_items::Items;
use std::hash::{Hash, Hasher};
use std::marker::Model;

/// A call of a form. Calls are numbered in text order.
#[derive(Clone, Copy, Debug, PartialEq, Eq)]
pub struct Caller {
    pub form: u32,
    pub call: u32,
}

/// An array that a form declares.
#[derive(Drop)]
pub struct LocalArray {
    pub elem: Elem,
    pub extents: Dims,
}

/// An instance that is reached from one call of one caller's form, with these extents and arguments in place.
#[derive(Drop)]
pub struct Form {
    /// Of the mapping.
    pub instance: u32,
    /// From the root, at 0.
    pub level: u32,
    /// Of the parameters.
    pub extents: Items<Dims>,
    /// Which arguments of its call are in place; none of the entry's.
    pub in_place: Items<bool>,
    /// The call by which it is reached; the entry has none.
    pub caller: Option<Caller>,
    /// In text order.
    pub locals: Items<LocalArray>,
}

/// What is known of a form when it is found.
#[derive(Drop)]
pub struct Found {
    pub instance: u32,
    pub level: u32,
    pub extents: Items<Dims>,
    pub in_place: Items<bool>,
    pub caller: Option<Caller>,
    /// The maps round the call that it is reached by, from the entry down.
    pub maps: usize,
    /// The forms from the entry down to this one, both included.
    pub depth: usize,
}

/// An access: one argument of one call.
#[derive(Drop)]
pub struct Use {
    /// In text order of the calls of the form's variant.
    pub call: u32,
    /// The argument's position in the call.
    pub arg: u32,
    /// The numbers of the iterations of the maps round the call in its own form, outermost first. A map of several
    /// ranges has one number.
    pub iterations: Items<u32>,
    /// In text order of the form's parameters and then its locals.
    pub array: u32,
    pub rect: Rect,
    pub mode: Mode,
    /// The form that the call reaches.
    pub callee: u32,
}

/// By what two finds of a form are known as one: the caller's form and call, the instance, and the flags and extents of
/// the arguments.
#[derive(Debug, Drop)]
pub struct Key {
    numbers: Items<u32>,
}

impl Model for Key {
    ghost use Rattle.std.specs.Prelude.{ℕ, List};

    ghost Value = { List ℕ };

    ghost view = { λ k. k.numbers };
}

impl Key {
    pub fn new(numbers: Items<u32>) -> Key
        ensures { result ≡ numbers }
    {
        Key { numbers }
    }
}

impl PartialEq for Key {
    ghost eq = { pointwise nat_eq };

    ghost laws = { partial_equiv_from_equiv nat_list_eq_equiv };

    fn eq(&self, other: &Key) -> bool {
        self.numbers.as_slice() == other.numbers.as_slice()
    }
}

impl Eq for Key {
    ghost laws = { nat_list_eq_equiv };
}

impl Hash for Key {
    ghost hash_input = { fed.slice fed.u32 };

    ghost respects_eq = { Prim.search (hashing, rules) };

    fn hash<H: Hasher>(&self, state: &mut H) {
        self.numbers.as_slice().hash(state);
    }
}
