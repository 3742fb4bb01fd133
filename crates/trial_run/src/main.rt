//! What is told of drafts and plans that no command shows: the cases of data/ are drafts and numbers in words, steps of
//! controls and runs on banks.
#![tactic(auto)]

use fixture_cases::{Case, read_cases};
use fixture_plans::{tell_draft, tell_logged, tell_number, tell_run, tell_steps};
use sq_tree::RawBank;
use std::alloc::{AllocError, Global};
use std::fmt::Write;
use std::io;

fn main(rt: HostRuntime) -> io::Result<()> {
    let alloc = rt.alloc();
    let mut out = String::new(alloc);
    let mut bank = RawBank::new();
    for case in &read_cases(&rt, "drafts.cases")? {
        tell_draft_case(alloc, case, &mut out)?;
    }
    for case in &read_cases(&rt, "plans.cases")? {
        tell_plan_case(alloc, case, &mut bank, &mut out)?;
    }
    print!(rt; "{out}")
}

// What is asked of a draft has a line for each machine that it is asked on.
fn tell_draft_case(alloc: Global, case: &Case, out: &mut String) -> Result<(), AllocError> {
    let name = case.name.as_str();
    for question in ["offsets", "places", "sums", "needs", "totals"] {
        for machine in case.words(question).lines() {
            write!(out, "{name}, {question}:")?;
            let words = [
                case.words("buffers"),
                case.words("entry"),
                case.words("term"),
            ];
            tell_draft(alloc, words, question, machine, out)?;
            out.push_str("\n")?;
        }
    }
    Ok(())
}

// A number, steps of a control, or a run on a bank: on that one, or on one with room for so many events.
fn tell_plan_case(
    alloc: Global,
    case: &Case,
    bank: &mut RawBank,
    out: &mut String,
) -> Result<(), AllocError> {
    let name = case.name.as_str();
    write!(out, "{name}:")?;
    if case.text("room").is_some() {
        return tell_logged(alloc, case, out);
    }
    if case.text("order").is_some() {
        return tell_run(alloc, case, bank, out);
    }
    match case.text("steps") {
        Some(_) => tell_steps(alloc, case.words("plan"), case.words("steps"), out)?,
        None => tell_number(alloc, case.words("number"), out)?,
    }
    out.push_str("\n")
}
