//! The leaf calls of sources, and the leaf events of plans that are good for programs.

ghost use Rattle.sq_event_laws.specs.LeafEvents.{LeafEventsAreLeafCalls, NamesAreCounted};
ghost use Rattle.sq_event_laws.specs.LeafEvents.{LeafEventsRunTheirForms, CodesAreApart};
ghost use Rattle.sq_event_laws.specs.SourceCalls.{TablesCountLeafCalls};

/// The leaf calls of a resolved program by its tables are those of its source's work, each with its form and its path.
pub fn tables_count_leaf_calls()
    ensures { TablesCountLeafCalls }
{}

/// A plan that is good for a program has one leaf event for each leaf call of the source and no other, with its path
/// and the number of its form's code; and so, by the names that a trace prints, for those of each instance.
pub fn leaf_events_are_leaf_calls()
    ensures calls { LeafEventsAreLeafCalls }
    ensures names { NamesAreCounted }
{}

/// Each leaf event of such a plan runs the leaf of a form: the variant of its instance's task and kind, under its
/// instance's name, at a node of its level. Two forms that are leaves have two numbers.
pub fn leaf_events_run_their_forms()
    ensures run { LeafEventsRunTheirForms }
    ensures apart { CodesAreApart }
{}
