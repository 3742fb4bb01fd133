//! The term that a text's term stands for: numbers are constants, and scopes name children.

ghost use Rattle.std.specs.Prelude.{◌≡◌, map, IfOk};
ghost use Rattle.sq_ir.specs.Plans.{node_at};
ghost use Rattle.sq_ir.specs.declared.term.Term.TheVariants.{Within};
ghost use Rattle.sq_planlines.specs.Narrow as narrow;

use crate::event::action_of;
use crate::words::{long, words};
use sq_ir::{Num, PlanNode, Term, Terms};
use sq_plantext::TermText;
use sqlite_items::{Boxed as Box, Items};
use std::alloc::{AllocError, Global};

fn first_child(nodes: &[PlanNode], node: u64) -> u32
    ensures { result ≡ (node_at nodes.now node).first_child }
{
    let i = node as usize;
    if i < nodes.len() {
        nodes[i].first_child
    } else {
        0
    }
}

// Where the body of a scope at a node runs: at this node, or at which child of it.
fn child_at(nodes: &[PlanNode], here: u64, node: u64) -> Option<Num>
    ensures { result ≡ narrow.child_at nodes.now here node }
{
    if here == node {
        return None;
    }
    let first = u64::from(first_child(nodes, here));
    Some(Num::Const(long(node.saturating_sub(first))))
}

// A scope.
#[cycle(forming)]
fn within(
    alloc: Global,
    nodes: &[PlanNode],
    node: u64,
    buffers: &[u64],
    body: &TermText,
    here: u64,
) -> Result<Term, AllocError>
    ensures { IfOk result (λ t. t ≡ Within (narrow.child_at nodes.now here node) (map narrow.word buffers.now)
        (narrow.term_of nodes.now body.now node)) }
{
    let buffers = words(alloc, buffers)?;
    let body = term_of(alloc, nodes, body, node)?;
    Ok(Term::Within {
        child: child_at(nodes, here, node),
        buffers,
        body: Box::new(alloc, body)?,
    })
}

#[cycle(forming)]
fn terms_of(
    alloc: Global,
    nodes: &[PlanNode],
    texts: &[TermText],
    here: u64,
) -> Result<Terms, AllocError>
    ensures { IfOk result (λ ts. ts ≡ narrow.terms_of nodes.now texts.now here) }
{
    let mut terms = Items::new(alloc);
    for text in texts {
        let term = term_of(alloc, nodes, text, here)?;
        terms.push(term)?;
    }
    Ok(terms)
}

/// What a term is where this node is in force.
#[cycle(forming)]
#[tactic(auto, using(crate::proofs::Forms::forms))]
pub fn term_of(
    alloc: Global,
    nodes: &[PlanNode],
    text: &TermText,
    here: u64,
) -> Result<Term, AllocError>
    ensures { IfOk result (λ t. t ≡ narrow.term_of nodes.now text.now here) }
{
    match text {
        TermText::Seq(parts) => {
            let terms = terms_of(alloc, nodes, parts.as_slice(), here)?;
            Ok(Term::Seq(terms))
        }
        TermText::Par(parts) => {
            let terms = terms_of(alloc, nodes, parts.as_slice(), here)?;
            Ok(Term::Par(terms))
        }
        TermText::At {
            node,
            buffers,
            body,
            ..
        } => within(alloc, nodes, *node, buffers.as_slice(), body.get(), here),
        TermText::Act { event, .. } => {
            let action = action_of(alloc, event)?;
            Ok(Term::Act(action))
        }
    }
}
