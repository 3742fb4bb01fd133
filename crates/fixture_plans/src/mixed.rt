//! A plan of parts of each kind beside one another.

ghost use Rattle.std.specs.Prelude.{◌≡◌, ◌≤◌, IfOk};
ghost use Rattle.fixture_plans.specs.Mixed as spec;

use crate::stored::{on_a_family, planned, shared};
use sq_ir::{Action, Num, Plan, Slot, Term, Terms, Trap};
use sq_num::Elem;
use sq_sched::Control;
use sq_text::SpreadRule;
use sqlite_items::{Boxed as Box, Items};
use std::alloc::{AllocError, Global};

fn fill(at: Num, value: i64) -> Term
    ensures { result ≡ spec.fill at value }
{
    Term::Act(Action::FillRow {
        to: Slot { buffer: 0, at },
        elem: Elem::Byte,
        count: 4,
        value,
    })
}

fn call(alloc: Global, path: u32) -> Result<Term, AllocError>
    ensures { IfOk result (λ t. t ≡ spec.call path) }
{
    let mut numbers = Items::new(alloc);
    numbers.push(Num::Const(i64::from(path)))?;
    Ok(Term::Act(Action::Leaf {
        code: 0,
        views: Items::new(alloc),
        path: numbers,
    }))
}

fn calls(alloc: Global, first: u32, second: u32) -> Result<Term, AllocError>
    ensures { IfOk result (λ t. t ≡ spec.calls first second) }
{
    let mut calls = Items::new(alloc);
    calls.push(call(alloc, first)?)?;
    calls.push(call(alloc, second)?)?;
    let parts = vec![in alloc; Term::Par(calls), fill(Num::Const(0), 5)]?;
    Ok(Term::Seq(Items::from_vec(parts)))
}

fn choice(alloc: Global, pick: u32, first: u32, second: u32) -> Result<Term, AllocError>
    ensures { IfOk result (λ t. t ≡ spec.choice pick first second) }
{
    let calls = calls(alloc, first, second)?;
    let arms = vec![in alloc; fill(Num::Const(0), 1), fill(Num::Const(0), 2), calls]?;
    Ok(Term::Case {
        pick: Num::Const(i64::from(pick)),
        arms: Items::from_vec(arms),
    })
}

fn spread(alloc: Global, rule: SpreadRule, count: u32) -> Result<Term, AllocError>
    ensures { IfOk result (λ t. t ≡ spec.spread rule count) }
{
    let body = Box::new(alloc, fill(Num::Index(0), 3))?;
    Ok(Term::Spread {
        count: Num::Const(i64::from(count)),
        rule,
        body,
    })
}

fn turns(alloc: Global, count: u32) -> Result<Term, AllocError>
    ensures { IfOk result (λ t. t ≡ spec.turns count) }
{
    let turn = vec![in alloc; Term::Skip, fill(Num::Index(0), 4)]?;
    let body = Box::new(alloc, Term::Seq(Items::from_vec(turn)))?;
    Ok(Term::Loop {
        count: Num::Const(i64::from(count)),
        body,
    })
}

// The fill 1 or 2 or two calls by a number, so many fills over the children, and so many in turn.
fn parts(
    alloc: Global,
    rule: SpreadRule,
    pick: u32,
    count: u32,
    times: u32,
    first: u32,
    second: u32,
) -> Result<Terms, AllocError>
    ensures { IfOk result (λ ts. ts ≡ spec.parts rule pick count times first second) }
{
    let mut parts = Items::new(alloc);
    parts.push(choice(alloc, pick, first, second)?)?;
    parts.push(spread(alloc, rule, count)?)?;
    parts.push(turns(alloc, times)?)?;
    Ok(parts)
}

fn mixed_plan(
    alloc: Global,
    rule: SpreadRule,
    pick: u32,
    count: u32,
    times: u32,
    first: u32,
    second: u32,
) -> Result<Plan, AllocError>
    ensures { IfOk result (λ p. p ≡ spec.mixed rule pick count times first second) }
{
    let stored = on_a_family(alloc)?;
    let parts = parts(alloc, rule, pick, count, times, first, second)?;
    Ok(planned(alloc, stored, Items::new(alloc), Term::Par(parts)))
}

/// The control of these beside one another: for 0 the fill 1, for 1 the fill 2, for 2 leaf calls beside one another
/// with these paths and then the fill 5; so many fills 3 over two children; and so many fills 4 in turn.
pub(crate) fn mixed(
    alloc: Global,
    rule: SpreadRule,
    pick: u32,
    count: u32,
    times: u32,
    first: u32,
    second: u32,
) -> Result<Control<Trap>, AllocError>
    requires { (count ≤ 13) × (times ≤ 13) }
{
    let made = mixed_plan(alloc, rule, pick, count, times, first, second)?;
    let plan = shared(alloc, made)?;
    let control = Control::new(alloc, plan)?;
    Ok(control)
}
