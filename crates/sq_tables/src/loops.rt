//! How maps go through their iterations, and which are loops of one call.

ghost use Rattle.std.specs.Prelude.{◌≡◌, ◌+◌, IfOk, map};
ghost use Rattle.std.specs.Option.{option_copied};
ghost use Rattle.sq_term.specs.Placed.Tables as tables;
ghost use Rattle.sq_tables.specs.Loops as loops;
ghost use Rattle.sq_spec.specs.Spreads.{is_beside};

use sq_num::RedOp;
use sq_spec::{CallInstance, LoopKind, Statement};
use sq_text::SpreadRule;
use std::alloc::AllocError;

/// By which operator a map reduces.
pub fn op_of(kind: LoopKind) -> Option<RedOp>
    ensures { result ≡ tables.op_of kind }
{
    match kind {
        LoopKind::Sequential | LoopKind::Parallel => None,
        LoopKind::Reduction(r) => Some(r.op),
    }
}

fn stand_beside(kind: LoopKind) -> bool
    ensures { result ≡ is_beside kind }
{
    match kind {
        LoopKind::Sequential => false,
        LoopKind::Parallel | LoopKind::Reduction(_) => true,
    }
}

/// The rule of a map that is spread.
pub fn spread_of(
    rule: SpreadRule,
    kind: LoopKind,
    inside: bool,
    lower: bool,
    same: bool,
) -> Option<SpreadRule>
    ensures { result ≡ tables.spread_of rule kind inside lower same }
{
    if stand_beside(kind) && (!inside && (lower && !same)) {
        Some(rule)
    } else {
        None
    }
}

/// The rows of the call that a statement is a loop of.
#[cycle(rows)]
#[tactic(auto, using(crate::proofs::InStatements::loops, crate::proofs::Chains::chains))]
pub fn rows_in(x: &Statement) -> Option<&[CallInstance]>
    ensures { option_copied result ≡ loops.rows_of_chain (loops.chain_in x.now) }
{
    match x {
        Statement::Call { lower, instances } => {
            if *lower {
                Some(instances.as_slice())
            } else {
                None
            }
        }
        Statement::Map { kind, body, .. } => rows_in_map(*kind, body.as_slice()),
    }
}

#[cycle(rows)]
fn rows_in_map(kind: LoopKind, list: &[Statement]) -> Option<&[CallInstance]>
    ensures { option_copied result ≡ loops.rows_of_list kind (map loops.chain_in list.now) }
{
    match kind {
        LoopKind::Sequential => match list {
            [x] => rows_in(x),
            _ => None,
        },
        LoopKind::Parallel | LoopKind::Reduction(_) => None,
    }
}

fn one_more(loops: u32) -> Result<u32, AllocError>
    ensures { IfOk result (λ n. n ≡ loops + 1) }
{
    match loops.checked_add(1) {
        Some(n) => Ok(n),
        None => Err(AllocError),
    }
}

/// How many loops stand round that call.
#[cycle(loops)]
#[tactic(auto, using(crate::proofs::InStatements::loops, crate::proofs::Chains::chains))]
pub fn loops_in(x: &Statement) -> Result<u32, AllocError>
    ensures { IfOk result (λ n. n ≡ loops.loops_of_chain (loops.chain_in x.now)) }
{
    match x {
        Statement::Call { .. } => Ok(0),
        Statement::Map { kind, body, .. } => {
            let loops = loops_in_map(*kind, body.as_slice())?;
            Ok(loops)
        }
    }
}

#[cycle(loops)]
fn loops_in_map(kind: LoopKind, list: &[Statement]) -> Result<u32, AllocError>
    ensures { IfOk result (λ n. n ≡ loops.loops_of_list kind (map loops.chain_in list.now)) }
{
    match kind {
        LoopKind::Sequential => match list {
            [x] => {
                let inner = loops_in(x)?;
                more_loops(rows_in(x), inner)
            }
            _ => Ok(0),
        },
        LoopKind::Parallel | LoopKind::Reduction(_) => Ok(0),
    }
}

fn more_loops(rows: Option<&[CallInstance]>, inner: u32) -> Result<u32, AllocError>
    ensures { IfOk result (λ n. n ≡ loops.loops_by (option_copied rows.entry) inner) }
{
    match rows {
        None => Ok(0),
        Some(_) => one_more(inner),
    }
}
