//! The sum of the numbers of a text, byte by byte.
ghost use Rattle.std.specs.Prelude.{◌≡◌, ◌+◌, ◌-◌, ◌*◌, ◌%◌, ◌^◌};
ghost use Rattle.sq_adder.specs.Sums as sums;

// Half of the numbers of 64 bits.
const HALF: u64 = 1 << 63;

/// What the bytes so far make: whether the first line is past, and behind it the number that stands open with its sign,
/// and the sum of those before it, modulo 2^64.
#[derive(Clone, Copy)]
pub(crate) struct Adding {
    pub(crate) past: bool,
    pub(crate) minus: bool,
    pub(crate) number: u64,
    pub(crate) sum: u64,
}

// The digit's number behind that of the digits before it.
fn with_digit(number: u64, digit: u8) -> u64
    ensures { result ≡ (number * 10 + (digit - 48)) % 2 ^ 64 }
{
    number
        .wrapping_mul(10)
        .wrapping_add(u64::from(digit.saturating_sub(b'0')))
}

impl Adding {
    /// Nothing is read yet.
    pub(crate) fn new() -> Adding
        ensures { result ≡ sums.nothing_added }
    {
        Adding {
            past: false,
            minus: false,
            number: 0,
            sum: 0,
        }
    }

    // The sum with the number that stands open.
    fn sum(self) -> u64
        ensures { result ≡ sums.sum_of self }
    {
        if self.minus {
            self.sum.wrapping_sub(self.number)
        } else {
            self.sum.wrapping_add(self.number)
        }
    }

    /// The sum with the number that stands open, with its sign.
    pub(crate) fn total(self) -> i64
        ensures { result ≡ sums.with_sign (sums.sum_of self) }
    {
        signed(self.sum())
    }

    // A byte behind the first line.
    fn with_byte(self, b: u8) -> Adding
        ensures { result ≡ sums.byte_added self b }
    {
        if b >= b'0' && b <= b'9' {
            Adding {
                past: true,
                minus: self.minus,
                number: with_digit(self.number, b),
                sum: self.sum,
            }
        } else if b == b'-' {
            Adding {
                past: true,
                minus: true,
                number: self.number,
                sum: self.sum,
            }
        } else {
            Adding {
                past: true,
                minus: false,
                number: 0,
                sum: self.sum(),
            }
        }
    }

    /// With one byte more.
    pub(crate) fn with(self, b: u8) -> Adding
        ensures { result ≡ sums.added self b }
    {
        if self.past {
            self.with_byte(b)
        } else {
            Adding {
                past: b == b'\n',
                minus: self.minus,
                number: self.number,
                sum: self.sum,
            }
        }
    }
}

// As a number with a sign.
fn signed(n: u64) -> i64
    ensures { result ≡ sums.with_sign n }
{
    if n < HALF {
        n as i64
    } else {
        (n - HALF) as i64 + i64::MIN
    }
}
