//! The number of a choice, taken apart: which alternative each tunable has.

ghost use Rattle.std.specs.Prelude.{◌≡◌, length};
ghost use Rattle.sq_mapfile.specs.Digits as spec;

use crate::text::Alternatives;
use sq_mapping::Setting;

/// The number of a choice of the tunables that are left, of which there are so many choices.
#[derive(Clone, Copy)]
pub struct Digits {
    pub number: usize,
    pub choices: usize,
}

// How many choices the tunables behind this one have.
fn behind(choices: usize, others: &[Setting]) -> usize
    ensures { result ≡ spec.behind choices (length others.now) }
{
    (choices / (others.len() + 1)).max(1)
}

// The alternative of this number: the first, or one of the others.
fn alternative(values: &Alternatives, at: usize) -> &Setting
    ensures { result.now ≡ spec.alternative values.now at }
{
    if at == 0 {
        return &values.first;
    }
    match values.others.get(at - 1) {
        Some(setting) => setting,
        None => &values.first,
    }
}

impl Digits {
    /// The alternative of the next tunable.
    pub fn pick(self, values: &Alternatives) -> &Setting
        ensures { result.now ≡ spec.pick self values.now }
    {
        let behind = behind(self.choices, values.others.as_slice());
        alternative(values, self.number / behind)
    }

    /// What is left behind the next tunable.
    pub fn past(self, values: &Alternatives) -> Digits
        ensures { result ≡ spec.past self values.now }
    {
        let behind = behind(self.choices, values.others.as_slice());
        Digits {
            number: self.number % behind,
            choices: behind,
        }
    }
}
