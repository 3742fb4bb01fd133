//! What is done for the arguments of a call, and of a loop.

ghost use Rattle.std.specs.Prelude.{◌≡◌, ◌++◌, [], ◌∷◌, map, IfOk, OnOk};
ghost use Rattle.sq_ir.specs.declared.term.Term.TheVariants as term;
ghost use Rattle.sq_tables.specs.Placed.Trees as trees;
ghost use Rattle.sq_tables.specs.Term.Terms as terms;
ghost use Rattle.sq_draft.specs.Building as building;

use crate::moves::{back_term, bring_term, copy_term};
use sq_ast::Mode;
use sq_ir::{Term, Terms};
use sq_tables::{Home, Move};
use sqlite_items::Items;
use std::alloc::{AllocError, Global};

/// What is done for an argument.
#[derive(Clone, Copy)]
pub enum Transfer {
    /// Before a call.
    Bring,
    /// After a call.
    Back,
    /// In a loop whose transfers overlap: what comes in beside another iteration.
    Come,
    /// And what is filled just before the call.
    Fill,
    /// Before a loop that the argument leaves.
    HoldIn,
    /// After such a loop.
    HoldOut,
}

fn is_held(home: Home) -> bool
    ensures { result ≡ trees.is_held home }
{
    match home {
        Home::InPlace | Home::Own(_) | Home::Twin { .. } => false,
        Home::Held { .. } => true,
    }
}

fn hold_in_term(alloc: Global, m: &Move) -> Result<Term, AllocError>
    ensures { IfOk result (λ x. x ≡ terms.hold_in_term m.now) }
{
    match m.mode {
        Mode::Output => Ok(Term::Skip),
        Mode::Input | Mode::Both => copy_term(alloc, &m.own, &m.outside, &m.own),
    }
}

fn hold_out_term(alloc: Global, m: &Move) -> Result<Term, AllocError>
    ensures { IfOk result (λ x. x ≡ terms.hold_out_term m.now) }
{
    match m.mode {
        Mode::Input => Ok(Term::Skip),
        Mode::Output | Mode::Both => copy_term(alloc, &m.own, &m.own, &m.outside),
    }
}

fn come_in_term(alloc: Global, m: &Move) -> Result<Term, AllocError>
    ensures { IfOk result (λ x. x ≡ terms.come_in_term m.now) }
{
    if is_held(m.home) {
        Ok(Term::Skip)
    } else {
        bring_term(alloc, m)
    }
}

fn fill_held_term(alloc: Global, m: &Move) -> Result<Term, AllocError>
    ensures { IfOk result (λ x. x ≡ terms.fill_held_term m.now) }
{
    if is_held(m.home) {
        bring_term(alloc, m)
    } else {
        Ok(Term::Skip)
    }
}

fn transfer_term(alloc: Global, which: Transfer, m: &Move) -> Result<Term, AllocError>
    ensures { IfOk result (λ x. x ≡ building.transfer_term which m.now) }
{
    match which {
        Transfer::Bring => bring_term(alloc, m),
        Transfer::Back => back_term(alloc, m),
        Transfer::Come => come_in_term(alloc, m),
        Transfer::Fill => fill_held_term(alloc, m),
        Transfer::HoldIn => hold_in_term(alloc, m),
        Transfer::HoldOut => hold_out_term(alloc, m),
    }
}

fn transfers(alloc: Global, which: Transfer, ms: &[Move]) -> Result<Terms, AllocError>
    ensures { IfOk result (λ ts. ts ≡ map (building.transfer_term which) ms.now) }
{
    let mut out = Vec::new(alloc);
    for m in ms {
        let term = transfer_term(alloc, which, m)?;
        out.push(term)?;
    }
    Ok(Items::from_vec(out))
}

/// What is done for all arguments, beside one another.
pub fn transfers_term(alloc: Global, which: Transfer, ms: &[Move]) -> Result<Term, AllocError>
    ensures { IfOk result (λ x. x ≡ term.Par (map (building.transfer_term which) ms.now)) }
{
    let parts = transfers(alloc, which, ms)?;
    Ok(Term::Par(parts))
}

/// The same behind other parts.
pub fn push_transfers(
    alloc: Global,
    out: &mut Terms,
    which: Transfer,
    ms: &[Move],
) -> Result<(), AllocError>
    ensures { OnOk result (out.new ≡ out.old ++ term.Par (map (building.transfer_term which) ms.now) ∷ []) }
{
    let part = transfers_term(alloc, which, ms)?;
    out.push(part)?;
    Ok(())
}
