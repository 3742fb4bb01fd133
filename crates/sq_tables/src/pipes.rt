//! Loops whose transfers overlap.

ghost use Rattle.std.specs.Prelude.{◌≡◌, map, slice_get};
ghost use Rattle.std.specs.Option.{option_copied};
ghost use Rattle.sq_term.specs.Placed.Tables as tables;
ghost use Rattle.sq_term.specs.Terms as terms;
ghost use Rattle.sq_tables.specs.Loops as loops;

use sq_spec::{CallInstance, LoopKind, Statement};
use sq_term::Homes;
use sq_text::SpreadRule;
use sqlite_items::at;
use std::marker::Model;

/// A loop whose transfers overlap: the rule by which it is spread, if it is, and the rows of its call.
#[derive(Drop)]
pub struct Pipe<'a> {
    pub spread: Option<SpreadRule>,
    pub rows: &'a [CallInstance],
}

impl<'a> Model for Pipe<'a> {
    ghost use Rattle.std.specs.Coded.{codes};
    ghost use Rattle.sq_spec.specs.contracts.statement.CallInstance as contract;
    ghost use Rattle.sq_term.specs.Placed.Tables.{Pipe as PipeOfTables};

    ghost Value = { PipeOfTables };

    ghost coded = { Prim.hlevel (codes, contract.the_row.coded) };

    ghost view = { λ p. record { spread = p.spread; rows = p.rows.now } };
}

fn form_overlaps(homes: &[Homes], form: usize) -> bool
    ensures { result ≡ (terms.homes_in homes.now form).overlaps }
{
    match at(homes, form) {
        None => false,
        Some(own) => own.overlaps,
    }
}

fn overlaps(homes: &[Homes], rows: &[CallInstance]) -> bool
    ensures { result ≡ (terms.homes_in homes.now (tables.row_form (slice_get rows.now 0))).overlaps }
{
    match at(rows, 0) {
        None => form_overlaps(homes, 0),
        Some(row) => form_overlaps(homes, row.form),
    }
}

fn rows_where<'a>(
    homes: &[Homes],
    lower: bool,
    rows: &'a [CallInstance],
) -> Option<&'a [CallInstance]>
    ensures { option_copied result ≡ tables.overlapped (terms.homes_in homes.now) (loops.chain_of_call lower rows.now) }
{
    if lower && overlaps(homes, rows) {
        Some(rows)
    } else {
        None
    }
}

// The rows of a lower call, where its form's transfers overlap.
#[tactic(auto, using(crate::proofs::InStatements::loops))]
fn overlapped<'a>(homes: &[Homes], x: &'a Statement) -> Option<&'a [CallInstance]>
    ensures { option_copied result ≡ tables.overlapped (terms.homes_in homes.now) (loops.chain_in x.now) }
{
    match x {
        Statement::Call { lower, instances } => rows_where(homes, *lower, instances.as_slice()),
        Statement::Map { .. } => None,
    }
}

fn overlapped_in<'a>(homes: &[Homes], list: &'a [Statement]) -> Option<&'a [CallInstance]>
    ensures { option_copied result ≡ tables.overlapped_in (terms.homes_in homes.now) (map loops.chain_in list.now) }
{
    match list {
        [x] => overlapped(homes, x),
        _ => None,
    }
}

fn lanes_of(kind: LoopKind, spread: Option<SpreadRule>) -> Option<Option<SpreadRule>>
    ensures { result ≡ tables.lanes_of kind spread }
{
    match kind {
        LoopKind::Sequential => Some(None),
        LoopKind::Parallel => match spread {
            None => None,
            Some(rule) => Some(Some(rule)),
        },
        LoopKind::Reduction(_) => None,
    }
}

fn pipe_by<'a>(
    lanes: Option<Option<SpreadRule>>,
    homes: &[Homes],
    list: &'a [Statement],
) -> Option<Pipe<'a>>
    ensures { result ≡ tables.pipe_by lanes
        (tables.overlapped_in (terms.homes_in homes.now) (map loops.chain_in list.now)) }
{
    match lanes {
        None => None,
        Some(spread) => match overlapped_in(homes, list) {
            None => None,
            Some(rows) => Some(Pipe { spread, rows }),
        },
    }
}

/// A map of these statements as such a loop, if it is one.
pub fn pipe_of<'a>(
    homes: &[Homes],
    kind: LoopKind,
    spread: Option<SpreadRule>,
    list: &'a [Statement],
) -> Option<Pipe<'a>>
    ensures { result ≡ tables.pipe_of (terms.homes_in homes.now) kind spread (map loops.chain_in list.now) }
{
    pipe_by(lanes_of(kind, spread), homes, list)
}
