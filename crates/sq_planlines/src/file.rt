//! The whole file.

ghost use Rattle.std.specs.Prelude.{◌≡◌, ◌<◌, ◌^◌, IfOk, length, map};
ghost use Rattle.sq_planfile.specs.Files as files;
ghost use Rattle.sq_planfile.specs.Sound.{IsSound};
ghost use Rattle.sq_planlines.specs.Narrow as narrow;

use crate::lines::{arrays_of, buffers_of, entry_of, nodes_of, offsets_of};
use crate::terms::term_of;
use sq_ir::{Draft, Leaves, Plan, PlanNode};
use sq_planfile::PlanFile;
use sq_plantext::PlanText;
use sqlite_items::Items;
use std::alloc::{AllocError, Global};
use std::rc::Rc;

fn draft_of(
    alloc: Global,
    nodes: &[PlanNode],
    text: &PlanText,
    leaves: Leaves,
) -> Result<Draft, AllocError>
    ensures { IfOk result (λ d. d ≡ narrow.draft_of nodes.now text.now leaves) }
{
    let buffers = buffers_of(alloc, text.buffers.as_slice())?;
    let entry = entry_of(alloc, text.arrays.as_slice())?;
    let term = term_of(alloc, nodes, &text.term, 0)?;
    Ok(Draft {
        term,
        buffers,
        leaves,
        entry,
        notes: Items::new(alloc),
    })
}

fn plan_of(alloc: Global, text: &PlanText, leaves: Leaves) -> Result<Plan, AllocError>
    ensures { IfOk result (λ p. p ≡ narrow.plan_of text.now leaves) }
{
    let nodes = nodes_of(alloc, text.nodes.as_slice())?;
    let offsets = offsets_of(alloc, text.buffers.as_slice())?;
    let draft = draft_of(alloc, nodes.as_slice(), text, leaves)?;
    Ok(Plan {
        draft,
        offsets,
        nodes,
    })
}

fn shared(alloc: Global, plan: Plan) -> Result<Rc<Plan>, AllocError>
    ensures { IfOk result (λ p. p.value ≡ plan) }
{
    let plan = Rc::new(alloc, plan)?;
    Ok(plan)
}

// The file, whatever the numbers are.
fn narrowed(alloc: Global, text: &PlanText, leaves: Leaves) -> Result<PlanFile, AllocError>
    ensures { IfOk result (λ f. f ≡ narrow.file_of text.now leaves) }
{
    let plan = plan_of(alloc, text, leaves)?;
    let plan = shared(alloc, plan)?;
    let arrays = arrays_of(alloc, text.arrays.as_slice())?;
    Ok(PlanFile::new(plan, arrays))
}

/// The plan file that sound lines stand for, whose leaves these are.
#[tactic(auto, using(crate::proofs::Agrees::file_same))]
pub fn file_of(alloc: Global, text: &PlanText, leaves: Leaves) -> Result<PlanFile, AllocError>
    requires sound { IsSound text.now }
    requires leaves { leaves ≡ map files.leaf_of text.now.leaves }
    // They can be numbered with 32 bits.
    requires few_leaves { length text.now.leaves < 2 ^ 32 }
    requires few_buffers { length text.now.buffers < 2 ^ 32 }
    ensures { IfOk result (λ f. f ≡ files.file_of text.now) }
{
    let file = narrowed(alloc, text, leaves)?;
    Ok(file)
}
