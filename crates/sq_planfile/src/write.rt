//! Plan files as they are written.

ghost use Rattle.std.specs.Prelude.{◌≡◌, ◌<◌, nat_lt, length, IfOk};
ghost use Rattle.sq_text.specs.Answers.{Answers};
ghost use Rattle.sq_text.specs.First.{InTurn};
ghost use Rattle.sq_text.specs.declared.fault.Stop.TheVariants as stop;
ghost use Rattle.sq_ir.specs.DraftLeaves.{leaves_of};
ghost use Rattle.sq_ir.specs.Plans.{IsWellFormed};
ghost use Rattle.sq_sched.specs.Words.{root, fans_of};
ghost use Rattle.sq_plantext.specs.Layout.{laid_out};
ghost use Rattle.sq_planfile.specs.Left.{whole};
ghost use Rattle.sq_planfile.specs.Written.{written, left_by};
ghost use Rattle.sq_planfile.specs.Limits.{no_place, most_events, DepthFault, LengthFault, TextFault};
ghost use Rattle.sq_planfile.specs.Words.{reading, number};

use crate::collect::collect;
use crate::count::{MOST_EVENTS, count};
use crate::depth::is_deeper;
use crate::file::PlanFile;
use crate::left::Left;
use crate::lines::put_file;
use sq_ast::Text;
use sq_ir::Plan;
use sq_plantext::{PLAN_LEVELS, TermText};
use sq_sched::{Chain, Env, fans_of};
use sq_text::limits::PLAN_BYTES;
use sq_text::{Code, Fault, Phase, Stop};
use sqlite_items::Items;
use std::alloc::{AllocError, Global};

// A fault of the text that would be written.
fn refused(alloc: Global, code: Code) -> Stop
    ensures { result ≡ stop.Refused (no_place code) }
{
    Stop::Refused(Fault {
        phase: Phase::Plan,
        code,
        place: None,
        args: Items::new(alloc),
    })
}

// Whether a plan has more events than a plan file may have.
fn has_too_many_events(plan: &Plan, fans: &[u32]) -> bool
    requires { fans.now ≡ fans_of plan.now.nodes }
    ensures { result ≡ nat_lt most_events (number (left_by (reading plan.now) plan.now.draft.term (root plan.now))) }
{
    let top = Chain::Root;
    let nodes = Chain::Link(0, &top);
    let env = Env {
        plan,
        turns: &top,
        nodes: &nodes,
        fans,
    };
    MOST_EVENTS < count(&plan.draft.term, &env)
}

// What is left of the term of a plan.
fn left_of(alloc: Global, plan: &Plan, fans: &[u32]) -> Result<Left, AllocError>
    requires { fans.now ≡ fans_of plan.now.nodes }
    ensures { IfOk result (λ l. l ≡ left_by (reading plan.now) plan.now.draft.term (root plan.now)) }
{
    let top = Chain::Root;
    let nodes = Chain::Link(0, &top);
    let env = Env {
        plan,
        turns: &top,
        nodes: &nodes,
        fans,
    };
    let mut left = Left::Nothing;
    collect(alloc, &plan.draft.term, &env, &mut left)?;
    Ok(left)
}

// The text of a file whose term is this one.
fn text_with(alloc: Global, f: &PlanFile, term: &TermText) -> Result<Text, AllocError>
    requires { term.now ≡ (written f.now).term }
    ensures { IfOk result (λ t. t ≡ laid_out (written f.now)) }
{
    let mut out = Vec::new(alloc);
    put_file(alloc, &mut out, f, term)?;
    Ok(Text::new(out))
}

// The text of a file whose term is this one, if it isn't too deep or too long.
fn text_within(alloc: Global, f: &PlanFile, term: TermText) -> Result<Text, Stop>
    requires { term ≡ (written f.now).term }
    ensures answers { Answers (InTurn (DepthFault f.now) (LengthFault f.now)) result }
    ensures text { IfOk result (λ t. t ≡ laid_out (written f.now)) }
{
    if is_deeper(&term, PLAN_LEVELS) {
        return Err(refused(alloc, Code::TooDeep));
    }
    let text = text_with(alloc, f, &term)?;
    if PLAN_BYTES < text.as_slice().len() {
        return Err(refused(alloc, Code::LimitFile));
    }
    Ok(text)
}

/// The text of a plan file: the plan written out, its loops iteration by iteration and each number as its value.
///
/// Refused with `LimitEvents` where it has more than 65,536 events, which are counted before anything is written; else
/// with `TooDeep` where more than 1,024 brackets would be open at once; else with `LimitFile` where it would have more
/// than 16,777,216 bytes.
pub fn plan_text(alloc: Global, f: &PlanFile) -> Result<Text, Stop>
    requires { IsWellFormed (leaves_of f.now.plan.draft) f.now.plan }
    // Ok exactly where none of the three holds; refused with the first that does.
    ensures answers { Answers (TextFault f.now) result }
    ensures text { IfOk result (λ t. t ≡ laid_out (written f.now)) }
{
    let plan = f.plan();
    let fans = fans_of(plan.nodes.as_slice(), alloc)?;
    let fans = fans.as_slice();
    if has_too_many_events(plan, fans) {
        return Err(refused(alloc, Code::LimitEvents));
    }
    let left = left_of(alloc, plan, fans)?;
    text_within(alloc, f, left.whole(alloc))
}
