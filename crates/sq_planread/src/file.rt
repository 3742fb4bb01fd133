//! A whole plan file.

ghost use Rattle.std.specs.Prelude.{◌≡◌, ℕ};
ghost use Rattle.sq_ast.specs.declared.program.TheConstants.{MOST_LEVELS};
ghost use Rattle.sq_planread.specs.Reading as spec;
ghost use Rattle.sq_planread.specs.Reading.{Reads};

use crate::cursor::Cursor;
use crate::lines::{OneArray, OneBuffer, OneLeaf, OneNode};
use crate::pieces::more;
use crate::terms::term;
use sq_lexer::Sign;
use sq_plantext::{ArrayLines, BufferLines, LeafTexts, NodeLines, PlanText};
use sq_reader::ParseError;
use sqlite_items::Items;
use std::alloc::Global;

#[tactic(auto, unfolding(crate::specs::Reading::head))]
fn head(tokens: &mut Cursor<'_>) -> Result<(), ParseError>
    ensures { Reads (spec.head tokens.old) result tokens.new }
{
    tokens.word(b"plan")?;
    tokens.one()?;
    tokens.sign(Sign::Semi)
}

#[tactic(auto, unfolding(crate::specs::Reading::nodes))]
fn nodes(alloc: Global, tokens: &mut Cursor<'_>) -> Result<NodeLines, ParseError>
    ensures { Reads (spec.nodes tokens.old) result tokens.new }
{
    more::<OneNode>(alloc, tokens, 0, Items::new(alloc))
}

#[tactic(auto, unfolding(crate::specs::Reading::buffers))]
fn buffers(alloc: Global, tokens: &mut Cursor<'_>) -> Result<BufferLines, ParseError>
    ensures { Reads (spec.buffers tokens.old) result tokens.new }
{
    more::<OneBuffer>(alloc, tokens, 0, Items::new(alloc))
}

#[tactic(auto, unfolding(crate::specs::Reading::leaves))]
fn leaves(alloc: Global, tokens: &mut Cursor<'_>, depth: usize) -> Result<LeafTexts, ParseError>
    ensures { Reads (spec.leaves depth MOST_LEVELS tokens.old) result tokens.new }
{
    more::<OneLeaf>(alloc, tokens, depth, Items::new(alloc))
}

#[tactic(auto, unfolding(crate::specs::Reading::arrays))]
fn arrays(alloc: Global, tokens: &mut Cursor<'_>, depth: usize) -> Result<ArrayLines, ParseError>
    ensures { Reads (spec.arrays depth tokens.old) result tokens.new }
{
    more::<OneArray>(alloc, tokens, depth, Items::new(alloc))
}

/// A whole plan file, with so many levels of nesting at most.
#[tactic(auto, unfolding(crate::specs::Reading::plan))]
pub fn plan(alloc: Global, tokens: &mut Cursor<'_>, depth: usize) -> Result<PlanText, ParseError>
    ensures { Reads (spec.plan depth MOST_LEVELS tokens.old) result tokens.new }
{
    head(tokens)?;
    let nodes = nodes(alloc, tokens)?;
    let buffers = buffers(alloc, tokens)?;
    let leaves = leaves(alloc, tokens, depth)?;
    let arrays = arrays(alloc, tokens, depth)?;
    let term = term(alloc, tokens, depth)?;
    tokens.end()?;
    Ok(PlanText {
        nodes,
        buffers,
        leaves,
        arrays,
        term,
    })
}
