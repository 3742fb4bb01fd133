//! A word that has to be one text.
ghost use Rattle.std.specs.Prelude.{◌≡◌};
ghost use Rattle.sq_arrays.specs.Exact.{same_step, same_by};

use crate::InputCode;
use crate::observer::Observer;
use crate::value::match_byte;

#[derive(Drop)]
pub(crate) struct ExactText<'a> {
    pub(crate) text: &'a [u8],
    pub(crate) matched: usize,
}

impl ExactText<'_> {
    pub(crate) fn verdict(self, code: InputCode) -> Result<(), InputCode>
        ensures { result ≡ same_by code self.entry }
    {
        if self.matched == self.text.len() {
            Ok(())
        } else {
            Err(code)
        }
    }
}

impl Observer for ExactText<'_> {
    ghost step = { same_step };

    fn observe(&mut self, piece: &[u8]) {
        for b in piece {
            self.matched = match_byte(self.text, self.matched, *b);
        }
    }
}
