//! What may be chosen is chosen, and noted.

ghost use Rattle.sq_choice_laws.specs.Leaving.{HoistedIsOutermost};
ghost use Rattle.sq_choice_laws.specs.Overlapping.{LoopsAreAll, CandidatesAreAll};
ghost use Rattle.sq_choice_laws.specs.Noted.{HoistNotesAreChoices, NotesAreChoices};
ghost use Rattle.sq_choice_laws.specs.ReadNotes.{MapsOfReadProgramsRise, NotesOfReadProgramsAreChoices};

use sq_draft_laws::laws::resolved_programs_were_walked;
use sq_rise_laws::laws::maps_of_texts_rise;

/// An argument leaves n loops exactly where n is the greatest number of plain loops round its call that it may leave.
pub fn hoisted_is_outermost()
    ensures { HoistedIsOutermost }
{}

/// The loops that are asked whether they may overlap are all loops of lower calls that the source of a plan has.
pub fn loops_are_all()
    ensures { LoopsAreAll }
{}

/// A loop is a candidate exactly where it may overlap its transfers.
pub fn candidates_are_all()
    ensures { CandidatesAreAll }
{}

/// The notes of hoisting are those of the arguments that leave loops, in the order of the text.
pub fn hoist_notes_are_choices()
    ensures { HoistNotesAreChoices }
{}

/// With the loops that overlap they are those of both, where the maps of each form stand in the order of their places.
pub fn notes_are_choices()
    ensures { NotesAreChoices }
{}

/// In each form of a program that was read the maps stand at rising places; and so the notes are those of what is chosen
/// for it, in the order of the text.
pub fn notes_of_read_programs_are_choices()
    ensures rise { MapsOfReadProgramsRise }
    ensures notes { NotesOfReadProgramsAreChoices }
{
    maps_of_texts_rise();
    resolved_programs_were_walked();
    notes_are_choices();
}
