//! What is left of a part of a plan that is written out.

ghost use Rattle.std.specs.Prelude.{◌≡◌, ◌++◌, ◌∷◌, [], true, IfOk, OnOk};
ghost use Rattle.sq_ast.specs.Unplaced.{nowhere};
ghost use Rattle.sq_planfile.specs.declared.left.Left.TheVariants as is;
ghost use Rattle.sq_planfile.specs.Left as spec;
ghost use Rattle.sq_planfile.specs.Left.{is_nothing, is_left_out};

use sq_plantext::{Naturals, TermText, TermTexts};
use sq_text::Place;
use sqlite_items::{Boxed as Box, Items};
use std::alloc::{AllocError, Global};
use std::mem::replace;

/// Nothing; two parts or more, one after another or beside one another; or an event or a scope.
#[derive(Drop)]
pub enum Left {
    Nothing,
    InTurn(TermTexts),
    Beside(TermTexts),
    Alone(TermText),
}

// A list of one part.
fn one(alloc: Global, part: TermText) -> Result<TermTexts, AllocError>
    ensures { IfOk result (λ parts. parts ≡ part ∷ []) }
{
    let mut parts = Items::new(alloc);
    parts.push(part)?;
    Ok(parts)
}

// As the parts of a sequence.
fn in_turn(alloc: Global, left: Left) -> Result<TermTexts, AllocError>
    ensures { IfOk result (λ parts. parts ≡ spec.in_turn left) }
{
    match left {
        Left::Nothing => Ok(Items::new(alloc)),
        Left::InTurn(parts) => Ok(parts),
        Left::Beside(parts) => one(alloc, TermText::Par(parts)),
        Left::Alone(part) => one(alloc, part),
    }
}

// As parts beside one another.
fn beside(alloc: Global, left: Left) -> Result<TermTexts, AllocError>
    ensures { IfOk result (λ parts. parts ≡ spec.beside left) }
{
    match left {
        Left::Nothing => Ok(Items::new(alloc)),
        Left::InTurn(parts) => one(alloc, TermText::Seq(parts)),
        Left::Beside(parts) => Ok(parts),
        Left::Alone(part) => one(alloc, part),
    }
}

// Whether a scope changes nothing: it stays at its node, and names no buffers.
fn is_left_out(here: u64, node: u64, buffers: &[u64]) -> bool
    ensures { result ≡ is_left_out here node buffers.now }
{
    match buffers {
        [] => here == node,
        [_, ..] => false,
    }
}

// The parts of a sequence behind others.
fn behind(alloc: Global, parts: TermTexts, next: Left) -> Result<Left, AllocError>
    ensures { IfOk result (λ l. l ≡ is.InTurn (parts ++ spec.in_turn next)) }
{
    let mut parts = parts;
    let more = in_turn(alloc, next)?;
    parts.append(more)?;
    Ok(Left::InTurn(parts))
}

// Parts beside others.
fn among(alloc: Global, parts: TermTexts, next: Left) -> Result<Left, AllocError>
    ensures { IfOk result (λ l. l ≡ is.Beside (parts ++ spec.beside next)) }
{
    let mut parts = parts;
    let more = beside(alloc, next)?;
    parts.append(more)?;
    Ok(Left::Beside(parts))
}

#[tactic(auto, using(crate::proofs::Joins::seq_first, crate::proofs::Joins::seq_last, crate::proofs::Joins::seq_both))]
fn then_seq(alloc: Global, first: Left, next: Left) -> Result<Left, AllocError>
    ensures { IfOk result (λ l. l ≡ spec.then_seq first next) }
{
    if first.is_nothing() {
        return Ok(next);
    }
    if next.is_nothing() {
        return Ok(first);
    }
    match in_turn(alloc, first) {
        Ok(parts) => behind(alloc, parts, next),
        Err(_) => Err(AllocError),
    }
}

#[tactic(auto, using(crate::proofs::Joins::par_first, crate::proofs::Joins::par_last, crate::proofs::Joins::par_both))]
fn then_par(alloc: Global, first: Left, next: Left) -> Result<Left, AllocError>
    ensures { IfOk result (λ l. l ≡ spec.then_par first next) }
{
    if first.is_nothing() {
        return Ok(next);
    }
    if next.is_nothing() {
        return Ok(first);
    }
    match beside(alloc, first) {
        Ok(parts) => among(alloc, parts, next),
        Err(_) => Err(AllocError),
    }
}

impl Left {
    fn is_nothing(&self) -> bool
        ensures { result ≡ is_nothing self.now }
    {
        match self {
            Left::Nothing => true,
            Left::InTurn(_) => false,
            Left::Beside(_) => false,
            Left::Alone(_) => false,
        }
    }

    /// What comes after it.
    pub(crate) fn then(&mut self, alloc: Global, next: Left) -> Result<(), AllocError>
        ensures { OnOk result (self.new ≡ spec.then_seq self.old next) }
    {
        let first = replace(self, Left::Nothing);
        *self = then_seq(alloc, first, next)?;
        Ok(())
    }

    /// What stands beside it.
    pub(crate) fn and(&mut self, alloc: Global, next: Left) -> Result<(), AllocError>
        ensures { OnOk result (self.new ≡ spec.then_par self.old next) }
    {
        let first = replace(self, Left::Nothing);
        *self = then_par(alloc, first, next)?;
        Ok(())
    }

    /// A term; of nothing it is an empty sequence.
    pub(crate) fn whole(self, alloc: Global) -> TermText
        ensures { result ≡ spec.whole self }
    {
        match self {
            Left::Nothing => TermText::Seq(Items::new(alloc)),
            Left::InTurn(parts) => TermText::Seq(parts),
            Left::Beside(parts) => TermText::Par(parts),
            Left::Alone(part) => part,
        }
    }

    /// A scope round it where this node is in force; there is none round nothing, and none that changes nothing.
    #[tactic(auto, using(crate::proofs::Joins::scope_nothing, crate::proofs::Joins::scope_out, crate::proofs::Joins::scope_some))]
    pub(crate) fn within(
        self,
        alloc: Global,
        here: u64,
        node: u64,
        buffers: Naturals,
    ) -> Result<Left, AllocError>
        ensures { IfOk result (λ l. l ≡ spec.scope here node buffers self) }
    {
        if self.is_nothing() {
            return Ok(Left::Nothing);
        }
        if is_left_out(here, node, buffers.as_slice()) {
            return Ok(self);
        }
        let body = Box::new(alloc, self.whole(alloc))?;
        Ok(Left::Alone(TermText::At {
            place: Place { line: 0, col: 0 },
            node,
            buffers,
            body,
        }))
    }
}
