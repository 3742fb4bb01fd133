//! What the walk keeps.

ghost use Rattle.std.specs.Prelude.{◌≡◌, ◌≤◌, ◌<◌, ◌+◌, ◌++◌, ◌∷◌, [], OnOk, IfOk};
ghost use Rattle.sq_forms.specs.Steps as spec;
ghost use Rattle.sq_forms.specs.Steps.{Opens, Counts};

use crate::faults::refusal;
use crate::form::{Found, Key, Use};
use indexmap::IndexMap;
use sq_text::{Code, Place, Stop};
use sqlite_items::Items;
use std::alloc::{AllocError, Global};

const MOST_USES: u32 = 1_048_576;

const MOST_FORMS: usize = 4_096;

/// How many more uses the outermost map may have, the forms by what makes them one, and the accesses of the form that
/// is walked.
#[derive(Drop)]
pub struct Walk {
    pub left: u32,
    pub forms: IndexMap<Key, Found>,
    pub uses: Items<Use>,
}

impl Walk {
    /// An outermost map begins.
    #[tactic(auto, unfolding(crate::specs::Steps::most_uses))]
    pub fn open(&mut self)
        ensures { spec.state_of self.new
            ≡ record {
              left = spec.most_uses;
              forms = (spec.state_of self.old).forms;
              uses =
                  (spec.state_of self.old).uses;
            } }
    {
        self.left = MOST_USES;
    }

    /// A use, in the outermost map at this place.
    pub fn count(&mut self, alloc: Global, place: Place) -> Result<(), Stop>
        ensures steps { spec.Walks result (spec.state_of self.old) (spec.state_of self.new)
            (λ later. Counts place ∷ later) }
        ensures left { OnOk result (self.new.left < self.old.left) }
    {
        if self.left == 0 {
            return Err(refusal(alloc, Code::LimitAccess, place));
        }
        self.left -= 1;
        Ok(())
    }

    /// The number of the form that is reached, unless it is one too many.
    #[tactic(auto, unfolding(crate::specs::Steps::most_forms))]
    pub fn enter(&mut self, key: Key, form: Found) -> Result<Option<usize>, AllocError>
        ensures number { IfOk result (λ n. n ≡ spec.number_of self.old.forms.entries key) }
        ensures forms { IfOk result (λ n. self.new.forms.entries ≡ spec.forms_after self.old.forms.entries key form n) }
        ensures left { self.new.left ≡ self.old.left }
        ensures uses { self.new.uses ≡ self.old.uses }
    {
        if let Some(number) = self.forms.get_index_of(&key) {
            return Ok(Some(number));
        }
        let number = self.forms.len();
        if number >= MOST_FORMS {
            return Ok(None);
        }
        self.forms.insert(key, form)?;
        Ok(Some(number))
    }
}
