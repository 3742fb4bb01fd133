//! The parts of choices, by which the settings of a choice are told without its mapping.

ghost use Rattle.std.specs.Prelude.{◌≡◌, slice_get};
ghost use Rattle.sq_mapfile.specs.Chosen as spec;

use crate::choices::Choices;
use crate::digits::Digits;
use crate::tunings::{Ways, ways_at};
use sq_mapping::Mapping;

impl Choices {
    /// The mapping of the first choice. In all others the tunables alone have other settings.
    pub fn first(&self) -> &Mapping
        ensures { result.now ≡ self.now.first }
    {
        &self.first
    }

    /// The tunables of an instance with their alternatives, in the order of the text; none where there is no such
    /// instance.
    pub fn ways(&self, instance: usize) -> &[Ways]
        ensures { result.now ≡ spec.listed (slice_get self.now.tunables instance) }
    {
        ways_at(self.tunables.as_slice(), instance)
    }

    /// The number of a choice, to be taken apart tunable by tunable.
    pub fn digits(&self, n: usize) -> Digits
        ensures { result ≡ record { number = n; choices = self.now.number } }
    {
        Digits {
            number: n,
            choices: self.number as usize,
        }
    }
}
