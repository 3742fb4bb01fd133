//! Where the maps of a program stand.

ghost use Rattle.sq_rise_laws.specs.Rising.{MapsOfTextsRise};

/// The maps of a program that a text gives stand at places that rise in the order of the text.
pub fn maps_of_texts_rise()
    ensures { MapsOfTextsRise }
{}
