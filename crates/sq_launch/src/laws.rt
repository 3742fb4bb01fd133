//! What is true of the arrays of an entry, and of the memories from which a run on them starts.

ghost use Rattle.sq_launch.specs.Starts.{BanksHaveRoom, FilledAreStarts, PlacesHaveSizes, SizesAreSmall};
ghost use Rattle.sq_launch.specs.Starts.{RootsAreTexts, SoundFilesHaveRoom, StartsAreOne};

use sq_root::laws::{banks_stay_open, picked_places_fit};
use sq_tree::laws::opened_banks_are_prepared;

/// Arrays that have places in the root of a plan have them in each bank that is open with it. The places of those that
/// are read have as many bytes as the data gives, and that is a word.
pub fn banks_have_room()
    ensures room { BanksHaveRoom }
    ensures sizes { PlacesHaveSizes }
    ensures small { SizesAreSmall }
{
    picked_places_fit();
}

/// A bank that was opened, and into whose root the data was read, is one from which a run starts.
pub fn filled_banks_are_starts()
    ensures { FilledAreStarts }
{
    opened_banks_are_prepared();
    banks_stay_open();
}

/// Data leads to one start, and the texts of arrays are those of the bytes of the root.
pub fn starts_are_one()
    ensures one { StartsAreOne }
    ensures texts { RootsAreTexts }
{}

/// The arrays of a sound plan file whose plan is good have places in the root.
pub fn sound_files_have_room()
    ensures { SoundFilesHaveRoom }
{}
