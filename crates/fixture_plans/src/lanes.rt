//! A plan of three iterations, spread over the two children of a root.

ghost use Rattle.std.specs.Prelude.{◌≡◌, ◌∷◌, [], pos, IfOk};
ghost use Rattle.sq_num.specs.declared.Elem.TheVariants.{Int};
ghost use Rattle.sq_ir.specs.Plans.{IsGood};
ghost use Rattle.sq_ir.specs.DraftLeaves.{shapes_of, leaves_of};
ghost use Rattle.sq_ir.specs.Examples as examples;
ghost use Rattle.sq_num.specs.declared.RedOp.TheVariants as op;
ghost use Rattle.sq_ir.specs.declared.num.Num.TheVariants as num;
ghost use Rattle.sq_ir.specs.declared.term.Action.TheVariants as action;
ghost use Rattle.sq_ir.specs.declared.term.Term.TheVariants as term;
ghost use Rattle.fixture_plans.specs.Lanes as spec;

use crate::stored::{on_a_family, one_leaf, planned, shared};
use sq_ir::{Action, Leaf, LeafView, Num, Numbers, Plan, Slot, Term, Terms};
use sq_num::{Elem, RedOp};
use sq_rect::Dims;
use sq_text::SpreadRule;
use sqlite_items::{Boxed as Box, Items};
use std::alloc::{AllocError, Global};
use std::rc::Rc;

// ---- actions

pub(crate) fn slot(buffer: u32, at: Num) -> Slot
    ensures { result ≡ examples.slot buffer at }
{
    Slot { buffer, at }
}

// Where the int of an iteration begins.
fn own(alloc: Global) -> Result<Num, AllocError>
    ensures { IfOk result (λ n. n ≡ spec.own) }
{
    let numbers = Numbers::new(alloc, vec![in alloc; 0, 4, 8]?)?;
    let own = Num::pick(alloc, numbers, Num::Index(0))?;
    Ok(own)
}

fn down(alloc: Global) -> Result<Term, AllocError>
    ensures { IfOk result (λ t. t ≡ term.Act spec.down) }
{
    let from = own(alloc)?;
    Ok(Term::Act(Action::CopyRow {
        from: slot(0, from),
        to: slot(1, Num::Const(0)),
        bytes: 4,
    }))
}

fn up(alloc: Global) -> Result<Term, AllocError>
    ensures { IfOk result (λ t. t ≡ term.Act spec.up) }
{
    let to = own(alloc)?;
    Ok(Term::Act(Action::CopyRow {
        from: slot(1, Num::Const(4)),
        to: slot(0, to),
        bytes: 4,
    }))
}

fn call(alloc: Global) -> Result<Term, AllocError>
    ensures { IfOk result (λ t. t ≡ term.Act spec.call) }
{
    let view = LeafView {
        slot: slot(1, Num::Const(0)),
        elem: Elem::Int,
        extents: Dims::new(1),
        strides: Dims::new(1),
    };
    let views = vec![in alloc; view]?;
    let path = vec![in alloc; Num::Index(0)]?;
    Ok(Term::Act(Action::Leaf {
        code: 0,
        views: Items::from_vec(views),
        path: Items::from_vec(path),
    }))
}

fn fill() -> Term
    ensures { result ≡ term.Act spec.fill }
{
    Term::Act(Action::FillRow {
        to: slot(1, Num::Const(4)),
        elem: Elem::Int,
        count: 1,
        value: 5,
    })
}

// The second int of a child and an int of that buffer, at a place.
fn add(from: i64, to: Slot) -> Term
    ensures { result ≡ term.Act (action.AccRow op.Add Int (examples.slot 1 (num.Const from)) to 1) }
{
    Term::Act(Action::AccRow {
        op: RedOp::Add,
        elem: Elem::Int,
        from: slot(1, Num::Const(from)),
        to,
        count: 1,
    })
}

// A 5, to which the child's int is added, and which is added to the root's last int.
fn sums(alloc: Global) -> Result<Terms, AllocError>
    ensures { IfOk result (λ ts. ts ≡ term.Act spec.fill ∷ term.Act spec.add ∷ term.Act spec.collect ∷ []) }
{
    let own = add(0, slot(1, Num::Const(4)));
    let all = add(4, slot(0, Num::Const(12)));
    Ok(Items::from_vec(vec![in alloc; fill(), own, all]?))
}

// ---- the term

// Down and the leaf call, the sums, and up.
fn steps(alloc: Global) -> Result<Terms, AllocError>
    ensures { IfOk result (λ ts. ts ≡ spec.steps) }
{
    let mut steps = Items::new(alloc);
    steps.push(down(alloc)?)?;
    steps.push(call(alloc)?)?;
    steps.append(sums(alloc)?)?;
    steps.push(up(alloc)?)?;
    Ok(steps)
}

// The children of the iterations.
fn children(alloc: Global, rule: SpreadRule) -> Result<Vec<i64>, AllocError>
    ensures { IfOk result (λ ks. ks.items ≡ spec.children_of rule) }
{
    match rule {
        SpreadRule::Cyclic => Ok(vec![in alloc; 0, 1, 0]?),
        SpreadRule::Blocked => Ok(vec![in alloc; 0, 0, 1]?),
    }
}

fn child(alloc: Global, rule: SpreadRule) -> Result<Num, AllocError>
    ensures { IfOk result (λ n. n ≡ num.Pick (spec.children_of rule) (num.Index 0)) }
{
    let numbers = Numbers::new(alloc, children(alloc, rule)?)?;
    let child = Num::pick(alloc, numbers, Num::Index(0))?;
    Ok(child)
}

fn lane(alloc: Global, rule: SpreadRule) -> Result<Term, AllocError>
    ensures { IfOk result (λ t. t ≡ spec.lane rule) }
{
    let buffers = Items::from_slice(alloc, &[1])?;
    let body = Box::new(alloc, Term::Seq(steps(alloc)?))?;
    let child = child(alloc, rule)?;
    Ok(Term::Within {
        child: Some(child),
        buffers,
        body,
    })
}

fn spread(alloc: Global, rule: SpreadRule) -> Result<Term, AllocError>
    ensures { IfOk result (λ t. t ≡ term.Spread (num.Const (pos 3)) rule (spec.lane rule)) }
{
    let body = Box::new(alloc, lane(alloc, rule)?)?;
    Ok(Term::Spread {
        count: Num::Const(3),
        rule,
        body,
    })
}

// ---- the plan

fn lanes_plan(alloc: Global, rule: SpreadRule, leaf: Leaf) -> Result<Plan, AllocError>
    ensures { IfOk result (λ p. p ≡ spec.lanes rule leaf) }
{
    let leaves = one_leaf(alloc, leaf)?;
    let stored = on_a_family(alloc)?;
    let term = spread(alloc, rule)?;
    Ok(planned(alloc, stored, leaves, term))
}

/// Three iterations over four ints of the root, spread over two children. Each takes its int, gives it to the leaf,
/// adds 5, adds that to the root's last int, and puts it in the place of its own.
pub fn three_lanes(alloc: Global, rule: SpreadRule, leaf: Leaf) -> Result<Rc<Plan>, AllocError>
    requires { shapes_of leaf.code ≡ record { elem = Int; extents = 1 ∷ [] } ∷ [] }
    ensures { IfOk result (λ p. IsGood (leaves_of p.value.draft) p.value) }
{
    let lanes = lanes_plan(alloc, rule, leaf)?;
    let plan = shared(alloc, lanes)?;
    Ok(plan)
}
