//! What a word is in place of a value.
ghost use Rattle.std.specs.Prelude.{◌≡◌, ◌+◌, ◌<◌, ◌≤◌, ◌^◌, ◌-◌, ◌*◌, ℕ, length, Bool, true, cond, IsTrue, ◌&&◌, ◌==◌};
ghost use Rattle.sq_arrays.specs.ArrayText.{is_digit, fits, signed, reach};
ghost use Rattle.sq_arrays.specs.Exact.{array_by};
ghost use Rattle.sq_arrays.specs.Numbers.{match_step, more, number_step, no_number, value_by};

use crate::InputCode;
use crate::number::Number;
use crate::observer::Observer;
use sq_num::{Elem, greatest, least};

const ARRAY: [u8; 5] = *b"array";

/// How much of the text has come after one more byte; one more than all of it where another came.
pub(crate) fn match_byte(text: &[u8], matched: usize, b: u8) -> usize
    ensures { result ≡ match_step text.now matched b }
{
    if matched < text.len() && text[matched] == b {
        matched + 1
    } else {
        text.len() + 1
    }
}

fn is_digit_byte(b: u8) -> bool
    ensures { result ≡ is_digit b }
{
    b > 47 && b < 58
}

fn with_digit(magnitude: u64, digit: u8) -> u64
    requires { digit ≤ 9 }
    ensures { result ≡ more magnitude digit }
{
    if magnitude < 1_000_000_000_000_000_000 {
        10 * magnitude + u64::from(digit)
    } else {
        10_000_000_000_000_000_000
    }
}

fn reach_of(elem: Elem, negative: bool) -> u64
    ensures { result ≡ reach elem negative }
{
    if negative {
        least(elem).unsigned_abs()
    } else {
        greatest(elem).unsigned_abs()
    }
}

fn fits_in(elem: Elem, negative: bool, magnitude: u64) -> bool
    ensures { result ≡ fits elem negative magnitude }
{
    magnitude <= reach_of(elem, negative)
}

fn signed_of(negative: bool, magnitude: u64) -> i64
    requires { magnitude < (cond negative 9223372036854775808 9223372036854775807) + 1 }
    ensures { result ≡ signed negative magnitude }
{
    if negative {
        if magnitude == 0 {
            0
        } else {
            -((magnitude - 1) as i64) - 1
        }
    } else {
        magnitude as i64
    }
}

impl Number {
    pub(crate) fn new() -> Number
        ensures { result ≡ no_number }
    {
        Number {
            begun: false,
            negative: false,
            digits: false,
            valid: true,
            magnitude: 0,
            matched: 0,
        }
    }

    fn after(self, b: u8) -> Number
        ensures { result ≡ number_step self b }
    {
        let digit = is_digit_byte(b);
        Number {
            begun: true,
            negative: if self.begun { self.negative } else { b == b'-' },
            digits: self.digits || digit,
            valid: self.valid && (digit || (!self.begun && b == b'-')),
            magnitude: if digit {
                with_digit(self.magnitude, b - 48)
            } else {
                self.magnitude
            },
            matched: match_byte(&ARRAY, self.matched, b),
        }
    }

    pub(crate) fn array(self, first: bool) -> Result<(), InputCode>
        ensures { result ≡ array_by first self }
    {
        if self.matched == ARRAY.len() {
            Ok(())
        } else if first {
            Err(InputCode::Syntax)
        } else if self.digits && self.valid {
            Err(InputCode::Extra)
        } else {
            Err(InputCode::Syntax)
        }
    }

    pub(crate) fn value(self, elem: Elem) -> Result<i64, InputCode>
        ensures { result ≡ value_by elem self }
    {
        if self.matched == ARRAY.len() {
            Err(InputCode::Short)
        } else if self.digits && self.valid {
            if fits_in(elem, self.negative, self.magnitude) {
                Ok(signed_of(self.negative, self.magnitude))
            } else {
                Err(InputCode::Range)
            }
        } else {
            Err(InputCode::Syntax)
        }
    }
}

impl Observer for Number {
    ghost step = { number_step };

    fn observe(&mut self, piece: &[u8]) {
        let mut kept = *self;
        for b in piece {
            kept = kept.after(*b);
        }
        *self = kept;
    }
}
