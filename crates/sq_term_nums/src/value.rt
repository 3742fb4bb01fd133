//! The value of a number under the loops round it.

ghost use Rattle.std.specs.Prelude.{◌≡◌, get_or};
ghost use Rattle.sq_term_nums.specs.Words.{turns_of, env_of, value, count};

use crate::words::{difference, fit64, item_of, natural, product, quotient, remainder, sum};
use sq_ir::Num;

/// The numbers of the iterations round a part, innermost first.
#[derive(Drop)]
pub enum Turns<'a> {
    Root,
    Link(u64, &'a Turns<'a>),
}

/// What a number may depend on: the iterations round it, and how many children the node in force has.
#[derive(Clone, Copy, Drop)]
pub struct Env<'a> {
    pub turns: &'a Turns<'a>,
    pub children: u32,
}

// The number of the iteration of a loop; 0 is the innermost one.
fn turn_at(turns: &Turns<'_>, depth: u32) -> u64
    ensures { result ≡ get_or (turns_of turns.now) depth 0 }
{
    match turns {
        Turns::Root => 0,
        Turns::Link(turn, outer) => {
            if depth == 0 {
                *turn
            } else {
                turn_at(outer, depth - 1)
            }
        }
    }
}

/// The value of a number, and 0 for each part of it that has no value in 64 bits. Where the number has its value
/// (`laws::numbers_have_their_values`), it is that value.
pub fn value_of(number: &Num, env: &Env<'_>) -> i64
    ensures { result ≡ value number.now (env_of env.now) }
{
    match number {
        Num::Const(k) => *k,
        Num::Index(depth) => fit64(turn_at(env.turns, *depth) as i128),
        Num::Add(a, b) => sum(value_of(a.get(), env), value_of(b.get(), env)),
        Num::Sub(a, b) => difference(value_of(a.get(), env), value_of(b.get(), env)),
        Num::Mul(a, b) => product(value_of(a.get(), env), value_of(b.get(), env)),
        Num::Div(a, b) => quotient(value_of(a.get(), env), value_of(b.get(), env)),
        Num::Rem(a, b) => remainder(value_of(a.get(), env), value_of(b.get(), env)),
        Num::Min(a, b) => {
            let x = value_of(a.get(), env);
            let y = value_of(b.get(), env);
            if y < x { y } else { x }
        }
        Num::Pick(numbers, at) => {
            let x = value_of(at.get(), env);
            item_of(numbers.as_slice(), x)
        }
        Num::Children => env.children as i64,
    }
}

/// The value of a number that counts; 0 where it is negative.
pub fn count_of(number: &Num, env: &Env<'_>) -> u64
    ensures { result ≡ count number.now (env_of env.now) }
{
    natural(value_of(number, env))
}
