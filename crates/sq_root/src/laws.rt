//! What is true of places, and of banks of which only places have changed.

ghost use Rattle.sq_root.specs.PlaceLaws.{ClearPartsStay, SizesStay, PreparedStays};
ghost use Rattle.sq_root.specs.PlaceLaws.{FlaggedParts, FlaggedFit, OthersAreClear};

/// An array stays as it was if its place shares no byte with those that were read into.
pub fn clear_parts_stay()
    ensures { ClearPartsStay }
{}

/// Reading changes the size of no node, and a bank that is open with a plan stays so.
pub fn banks_stay_open()
    ensures sizes { SizesStay }
    ensures prepared { PreparedStays }
{}

/// Places that are picked have the arrays that are picked. They fit where all do, and share no byte with the others.
pub fn picked_places_fit()
    ensures parts { FlaggedParts }
    ensures fit { FlaggedFit }
    ensures others { OthersAreClear }
{}
