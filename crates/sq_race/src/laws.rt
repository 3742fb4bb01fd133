//! Where the maps of a program stand, and what follows where no accesses race.

ghost use Rattle.sq_race.specs.Free.{NoRaceIsFree};
ghost use Rattle.sq_race.specs.TextOrder.{InTextOrder, NumberedInTextOrder, StandApart, FirstInText};

/// Where the forms have no race, the work of the program has none.
pub fn without_a_race()
    ensures { NoRaceIsFree }
{}

/// In a program that a text gives, the maps of a variant stand in the text in the order of their numbers.
pub fn maps_stand_in_text_order()
    ensures order { InTextOrder }
    ensures number { NumberedInTextOrder }
    ensures apart { StandApart }
{}

/// In a program that a text gives, the first race is the first by where the maps of a form stand in the text.
pub fn the_first_race_is_first_in_the_text()
    ensures { FirstInText }
{}
