//! What texts of plan files are read as, which no command shows whole: each text of data/ is read and written again, or
//! refused; and texts are cut before each of their tokens.
#![tactic(auto)]

use fixture_cases::{Case, read_cases};
use sq_lexer::{Phase, Place, tokens};
use sq_planread::parse_plan;
use sq_plantext::{PlanText, put_plan};
use sq_text::Stop;
use std::alloc::{AllocError, Global};
use std::fmt::Write;
use std::io;
use std::mem::forget;

// Of a longer text the lines are counted.
const MOST_LINES: usize = 20;

fn main(rt: HostRuntime) -> io::Result<()> {
    let mut out = String::new(rt.alloc());
    for case in &read_cases(&rt, "texts.cases")? {
        add_text(rt.alloc(), case, &mut out)?;
    }
    for case in &read_cases(&rt, "cuts.cases")? {
        add_cuts(rt.alloc(), case, &mut out)?;
    }
    print!(rt; "{out}")
}

fn add_text(alloc: Global, case: &Case, out: &mut String) -> Result<(), AllocError> {
    let text = case.text("text").unwrap_or_default();
    let name = case.name.as_str();
    write!(out, "{name}:")?;
    match read(alloc, text) {
        Ok(plan) => {
            let added = add_again(alloc, text, &plan, out);
            // Its drop is none of this function's.
            forget(plan);
            added?;
        }
        Err(stop) => add_stop(&stop, out)?,
    }
    out.push_str("\n")
}

fn read(alloc: Global, text: &[u8]) -> Result<PlanText, Stop> {
    let list = tokens(alloc, Phase::Plan, text)?;
    parse_plan(alloc, &list)
}

// What is written for it, where that differs.
fn add_again(
    alloc: Global,
    text: &[u8],
    plan: &PlanText,
    out: &mut String,
) -> Result<(), AllocError> {
    let mut again = Vec::new(alloc);
    put_plan(&mut again, plan)?;
    if again.as_slice() == text {
        return out.push_str(" same");
    }
    let again = str::from_utf8(again.as_slice()).unwrap_or("?").trim();
    let lines = again.lines().count();
    if lines > MOST_LINES {
        return write!(out, " {lines} lines");
    }
    write!(out, "\n{again}")
}

fn add_stop(stop: &Stop, out: &mut String) -> Result<(), AllocError> {
    match stop {
        Stop::Refused(fault) => {
            let code = fault.code;
            write!(out, " {code:?}")?;
            match fault.place {
                Some(Place { line, col }) => write!(out, " {line}:{col}"),
                None => Ok(()),
            }
        }
        Stop::NoMemory => Err(AllocError),
    }
}

// How many of the texts that end before one of its tokens are refused at their end; and the others.
fn add_cuts(alloc: Global, case: &Case, out: &mut String) -> Result<(), AllocError> {
    let text = case.text("text").unwrap_or_default();
    let name = case.name.as_str();
    write!(out, "{name}:")?;
    let Ok(list) = tokens(alloc, Phase::Plan, text) else {
        return out.push_str(" no tokens\n");
    };
    let mut ends = 0_u32;
    for token in list.as_slice() {
        let Place { line, col } = token.place;
        let front = text.get(..offset(text, token.place)).unwrap_or_default();
        let mut found = String::new(alloc);
        match read(alloc, front) {
            Ok(plan) => {
                forget(plan);
                found.push_str(" read")?;
            }
            Err(stop) => add_stop(&stop, &mut found)?,
        }
        let at_end = format!(in alloc; " Syntax {line}:{col}")?;
        if found == at_end {
            ends = ends.saturating_add(1);
        } else {
            write!(out, " before {line}:{col}{found};")?;
        }
    }
    writeln!(out, " {ends} refused at their end")
}

// How many bytes stand before a place.
fn offset(text: &[u8], place: Place) -> usize {
    let mut at = Place { line: 1, col: 1 };
    let mut count = 0_usize;
    for byte in text {
        if at == place {
            return count;
        }
        count = count.saturating_add(1);
        if *byte == b'\n' {
            at = Place {
                line: at.line.saturating_add(1),
                col: 1,
            };
        } else {
            at.col = at.col.saturating_add(1);
        }
    }
    count
}
