//! The number of a seed.
ghost use Rattle.std.specs.Prelude.{◌≡◌, ◌<◌, ◌^◌, SomeIff};
ghost use Rattle.std.specs.List.{list_all};
ghost use Rattle.sq_words.specs.Words as spec;

const MOST_DIGITS: usize = 20;

fn is_digit(b: u8) -> bool
    ensures { result ≡ spec.is_digit b }
{
    b >= b'0' && b <= b'9'
}

fn is_number(text: &[u8]) -> bool
    ensures { result ≡ list_all spec.is_digit text.now }
{
    text.iter().all(|b| is_digit(*b))
}

// The number with one more digit, where it has 64 bits.
fn with_digit(number: u64, digit: u8) -> Option<u64>
    ensures { SomeIff result (spec.with_digit number digit < 2 ^ 64) (spec.with_digit number digit) }
{
    number
        .checked_mul(10)?
        .checked_add(u64::from(digit.saturating_sub(b'0')))
}

// The number of the digits, where it has 64 bits.
fn number_of(digits: &[u8]) -> Option<u64>
    ensures { SomeIff result (spec.number digits.now < 2 ^ 64) (spec.number digits.now) }
{
    let mut number = 0;
    for digit in digits {
        match with_digit(number, *digit) {
            Some(more) => number = more,
            None => return None,
        }
    }
    Some(number)
}

/// The number of a seed: 1 to 20 digits, of at most `u64::MAX`.
pub(crate) fn seed_number(text: &str) -> Option<u64>
    ensures { result ≡ spec.seed_number text.now }
{
    let digits = text.as_bytes();
    if digits.is_empty() || digits.len() > MOST_DIGITS || !is_number(digits) {
        return None;
    }
    number_of(digits)
}
