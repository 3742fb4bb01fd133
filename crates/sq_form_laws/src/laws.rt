//! What follows from the definitions of the walk.

ghost use Rattle.sq_form_laws.specs.Laws.{FirstFault, AllPassed, KeyIsForm, PassedIsUnaliased, AliasIsExact};
ghost use Rattle.sq_form_laws.specs.Laws.{InPlaceIsApart, FlagsAreExact, ShapeIsExact, LimitIsExact, EachWalked};
ghost use Rattle.sq_form_laws.specs.Laws.{FewForms, CallersFirst};
ghost use Rattle.sq_form_laws.specs.Insides.{ArgumentsLieInside, AccessesLieInside};
ghost use Rattle.sq_form_laws.specs.Served.{CallsAreServed, FormsFit, FormsRun};
ghost use Rattle.sq_form_laws.specs.Reached.{CallsAreReached, UsesAreInOrder, AsManyForms, FormsAreFound};
ghost use Rattle.sq_form_laws.specs.Reached.{FormsCallersFirst, FormsRan};

/// The walk stops at the first of its steps that is at fault.
pub fn first_fault_is_first()
    ensures { FirstFault }
{}

/// Where the walk goes through, nothing that was tested is at fault.
pub fn what_is_tested_passes()
    ensures { AllPassed }
{}

/// One key is one form.
pub fn key_is_a_form()
    ensures { KeyIsForm }
{}

/// Where a call passes, no two written arguments share an element.
pub fn what_passes_is_unaliased()
    ensures { PassedIsUnaliased }
{}

/// No argument of a call is an alias exactly where no two written arguments share an element.
pub fn alias_is_exact()
    ensures { AliasIsExact }
{}

/// An argument in place is apart from the others.
pub fn what_is_in_place_is_apart()
    ensures { InPlaceIsApart }
{}

/// An argument is in place exactly where its call is at the same level and it is apart from the others.
pub fn flags_are_exact()
    ensures { FlagsAreExact }
{}

/// Arguments have the shapes of their parameters exactly where each size name has one value.
pub fn shape_is_exact()
    ensures { ShapeIsExact }
{}

/// An outermost map has exactly as many uses as are allowed before one is at fault.
pub fn limit_of_uses_is_exact()
    ensures { LimitIsExact }
{}

/// Each form of the result was walked without a fault.
pub fn each_form_was_walked()
    ensures { EachWalked }
{}

/// There are no more forms than the greatest number of them.
pub fn forms_are_few()
    ensures { FewForms }
{}

/// Forms are a tree: each but the entry is called from a form before it, of those that are found and of the answer's.
pub fn callers_come_first()
    ensures found { CallersFirst }
    ensures forms { FormsCallersFirst }
{}

/// The forms of the answer are those that were found, as many and in their order, with their locals.
pub fn forms_are_those_found()
    ensures many { AsManyForms }
    ensures each { FormsAreFound }
{}

/// Where a form's statements go through, each call among their steps is reached: its arguments are there, and none of
/// its tests is at fault.
pub fn calls_are_reached()
    ensures { CallsAreReached }
{}

/// The accesses that steps add are those of their calls, in order.
pub fn uses_are_in_order()
    ensures { UsesAreInOrder }
{}

/// Each form of the answer ran: its locals are those of its declarations, its accesses those of its calls in order,
/// each call is reached, and the form that its accesses name is its callee.
pub fn forms_ran()
    ensures { FormsRan }
{}

/// Each argument of a form's calls lies inside its array, and so does each of its accesses.
pub fn accesses_lie_inside()
    ensures arguments { ArgumentsLieInside }
    ensures accesses { AccessesLieInside }
{}

/// Under a mapping that was read each call of an instance's variant is served by an instance with a variant.
pub fn calls_are_served()
    ensures { CallsAreServed }
{}

/// Under a program without a fault and a mapping that was read each form of the answer has an instance, a variant and
/// extents that fit its parameters; so it ran.
pub fn every_form_runs()
    ensures fit { FormsFit }
    ensures run { FormsRun }
{}
