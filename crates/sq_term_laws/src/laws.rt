//! What holds of the scopes of drafts.

ghost use Rattle.sq_term_laws.specs.Callers.{NumberedAreOrdered};
ghost use Rattle.sq_term_laws.specs.Lowered.{LoweredIsPlaceable};
ghost use Rattle.sq_term_laws.specs.ScopeLaws.{TreesAreAside, TermsStack, EntryStacks, EntryIsAside, PlacedIsSpreadWell};

/// In the term of a form each buffer stands behind the same others of its level wherever a scope names it, where the
/// buffers of forms are numbered.
pub fn drafts_are_stacked()
    ensures stack { TermsStack }
    ensures entry_stacks { EntryStacks }
    ensures order { NumberedAreOrdered }
{}

/// Two scopes of a placed source that stand in two parts beside one another never have one node.
pub fn drafts_are_aside()
    ensures aside { TreesAreAside }
    ensures entry_aside { EntryIsAside }
    ensures spread { PlacedIsSpreadWell }
{}

/// A draft of tables and homes, with its buffers numbered, can be placed where its numbers have their values.
pub fn lowered_drafts_can_be_placed()
    ensures { LoweredIsPlaceable }
{}
