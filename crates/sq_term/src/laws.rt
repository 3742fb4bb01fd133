//! What the term of forms means.

ghost use Rattle.sq_term.specs.Laws.{TermIsTree, EntryIsTree};

/// Written out, the term of a form is the tree of what is placed.
pub fn term_is_tree()
    ensures { TermIsTree }
{}

/// And that of the entry.
pub fn entry_is_tree()
    ensures { EntryIsTree }
{}
