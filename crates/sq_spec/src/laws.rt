//! What is true of a resolved program.

ghost use Rattle.sq_spec.specs.Entry.{EntryIsFirst};

/// The first form is the entry's, with the extents that the mapping's sizes give its parameters.
pub fn entry_is_first()
    ensures { EntryIsFirst }
{}
