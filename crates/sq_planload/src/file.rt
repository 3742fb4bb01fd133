//! Plan files.

ghost use Rattle.std.specs.Prelude.{◌≡◌, ◌+◌, ◌<◌, ◌^◌, IfOk, Ok, length};
ghost use Rattle.sq_text.specs.Answers.{Answers, Gives};
ghost use Rattle.sq_text.specs.declared.code.Code.TheVariants as code;
ghost use Rattle.sq_lexer.specs.Tokens.{HasEnd};
ghost use Rattle.sq_planfile.specs.File as spec;
ghost use Rattle.sq_planfile.specs.Faults as faults;
ghost use Rattle.sq_planfile.specs.Faults.{PlanFault, Means};
ghost use Rattle.sq_planheads.specs.Heads.{AreGiven, Compiles};
ghost use Rattle.sq_planload.specs.Loading.{AreOfText, AnswersLines, AnswersTokens};

use sq_ir::Leaves;
use sq_lexer::{TokenList, tokens};
use sq_planevents::first_bad_event;
use sq_planfile::PlanFile;
use sq_planheads::compile_heads;
use sq_planlines::file_of;
use sq_planread::parse_plan;
use sq_plantext::PlanText;
use sq_text::{Args, Code, Fault, Phase, Place, Stop};
use std::alloc::Global;

fn bad_event(alloc: Global, place: Place) -> Fault
    ensures { result ≡ faults.at code.BadEvent place }
{
    Fault {
        phase: Phase::Plan,
        code: Code::BadEvent,
        place: Some(place),
        args: Args::new(alloc),
    }
}

// The leaves with their code, where nothing before the events is at fault.
fn leaves_of(alloc: Global, text: PlanText) -> Result<Leaves, Stop>
    requires { AreGiven text.leaves }
    ensures { Compiles text result }
{
    let PlanText {
        nodes,
        buffers,
        leaves,
        arrays,
        term,
    } = text;
    drop(term);
    compile_heads(
        alloc,
        nodes.as_slice(),
        buffers.as_slice(),
        leaves,
        arrays.as_slice(),
    )
}

// The file of lines that have no fault before their events.
fn file_by(alloc: Global, text: &PlanText, leaves: Leaves) -> Result<PlanFile, Stop>
    requires heads { Compiles text.now (Ok leaves) }
    requires few { length text.now.buffers + length text.now.leaves < 2 ^ 32 }
    ensures { AnswersLines text.now result }
{
    if let Some(place) = first_bad_event(alloc, text)? {
        return Err(Stop::Refused(bad_event(alloc, place)));
    }
    let file = file_of(alloc, text, leaves)?;
    Ok(file)
}

fn of_tokens(alloc: Global, tokens: &TokenList) -> Result<PlanFile, Stop>
    requires ended { HasEnd tokens.now }
    requires read { AreOfText tokens.now }
    ensures { AnswersTokens tokens.now result }
{
    let text = match parse_plan(alloc, tokens) {
        Ok(text) => text,
        Err(stop) => return Err(stop),
    };
    let leaves = match leaves_of(alloc, text) {
        Ok(leaves) => leaves,
        Err(stop) => return Err(stop),
    };
    // Compiling the tasks has taken them.
    let text = match parse_plan(alloc, tokens) {
        Ok(text) => text,
        Err(stop) => return Err(stop),
    };
    let file = file_by(alloc, &text, leaves);
    drop(text);
    file
}

/// The plan file that a text stands for, or its first fault.
pub fn read_plan(alloc: Global, text: &[u8]) -> Result<PlanFile, Stop>
    // Ok exactly where no fault holds; else the first one.
    ensures answers { Answers (PlanFault text.now) result }
    ensures found { IfOk result (λ f. Means text.now f) }
    // A text stands for one file at most.
    ensures only { (f : spec.PlanFile) → Means text.now f → Gives result f }
{
    let list = match tokens(alloc, Phase::Plan, text) {
        Ok(list) => list,
        Err(stop) => return Err(stop),
    };
    of_tokens(alloc, &list)
}
