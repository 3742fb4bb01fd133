//! What is true of the numbers of buffers.

ghost use Rattle.sq_homes.specs.Laws.{HomesAreOwn, LocalsAreOwn};

/// The buffers of a form's parameters and locals are its own.
pub fn buffers_are_own()
    ensures params { HomesAreOwn }
    ensures locals { LocalsAreOwn }
{}
