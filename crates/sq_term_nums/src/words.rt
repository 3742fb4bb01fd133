//! Numbers as words of 64 bits. What has no such word is 0.

ghost use Rattle.std.specs.Prelude.{◌≡◌, ◌+ℤ◌, ◌-ℤ◌, ◌*ℤ◌};
ghost use Rattle.sq_term_nums.specs.Words.{fit, div_of, rem_of, nat_part, pick_of};

/// A number of 64 bits; one that has none is 0.
pub fn fit64(x: i128) -> i64
    ensures { result ≡ fit x }
{
    if x < -9_223_372_036_854_775_808 {
        return 0;
    }
    if x < 9_223_372_036_854_775_808 {
        x as i64
    } else {
        0
    }
}

/// A number that is not negative; a negative one is 0.
pub fn natural(x: i64) -> u64
    ensures { result ≡ nat_part x }
{
    if x < 0 { 0 } else { x as u64 }
}

/// The item at a number, or 0.
#[tactic(auto, using(crate::proofs::Lists::past))]
pub fn item_of(items: &[i64], x: i64) -> i64
    ensures { result ≡ pick_of items.now x }
{
    if x < 0 {
        return 0;
    }
    let i = x as usize;
    if i < items.len() { items[i] } else { 0 }
}

/// The sum of two numbers.
pub fn sum(x: i64, y: i64) -> i64
    ensures { result ≡ fit (x +ℤ y) }
{
    match x.checked_add(y) {
        Some(sum) => sum,
        None => 0,
    }
}

/// The difference of two numbers.
pub fn difference(x: i64, y: i64) -> i64
    ensures { result ≡ fit (x -ℤ y) }
{
    match x.checked_sub(y) {
        Some(difference) => difference,
        None => 0,
    }
}

/// The product of two numbers.
pub fn product(x: i64, y: i64) -> i64
    ensures { result ≡ fit (x *ℤ y) }
{
    match x.checked_mul(y) {
        Some(product) => product,
        None => 0,
    }
}

/// The quotient of two numbers; by 0 it is 0.
pub fn quotient(x: i64, y: i64) -> i64
    ensures { result ≡ div_of x y }
{
    if y == 0 {
        return 0;
    }
    match x.checked_div(y) {
        Some(quotient) => quotient,
        None => 0,
    }
}

/// The remainder of two numbers; by 0 it is 0.
pub fn remainder(x: i64, y: i64) -> i64
    ensures { result ≡ rem_of x y }
{
    if y == 0 { 0 } else { x.wrapping_rem(y) }
}
