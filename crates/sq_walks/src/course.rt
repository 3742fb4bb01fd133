//! The iterations of a loop and of a spread.

ghost use Rattle.std.specs.Prelude.{◌≡◌};
ghost use Rattle.sq_walks.specs.Walks as walks;
ghost use Rattle.sq_walks.specs.Walks.{turns_in};

use crate::action::acts;
use sq_ir::{Num, Term};
use sq_sched::{Env, Spread, children_of, count_of};
use sq_text::SpreadRule;

// How many iterations are looked at: none of a body that can't have an event.
fn turns_of(count: &Num, body: &Term, env: &Env<'_>) -> u64
    ensures { result ≡ turns_in env.now count.now body.now }
{
    if acts(body) { count_of(count, env) } else { 0 }
}

/// A loop: a spread over one child.
pub fn loop_of(count: &Num, body: &Term, env: &Env<'_>) -> Spread
    ensures { result ≡ walks.loop_of env.now count.now body.now }
{
    Spread {
        rule: SpreadRule::Cyclic,
        turns: turns_of(count, body, env),
        children: 1,
    }
}

/// A spread where it stands.
pub fn spread_of(count: &Num, rule: SpreadRule, body: &Term, env: &Env<'_>) -> Spread
    ensures { result ≡ walks.spread_of env.now count.now rule body.now }
{
    Spread {
        rule,
        turns: turns_of(count, body, env),
        children: children_of(env),
    }
}
