//! What texts are read as, which no command shows whole: the cases of data/ are texts, and their tokens, the trees of
//! programs, order lists, machines and mappings are written.
#![tactic(auto)]

mod machines;
mod mappings;
mod orders;
mod patterns;
mod programs;
mod tokens;

use fixture_cases::{Case, read_cases};
use std::alloc::{AllocError, Global};
use std::fmt::Write;
use std::io;

// The files of data/, each of which has texts for one reader.
const READERS: [&str; 6] = [
    "tokens", "patterns", "programs", "orders", "machines", "mappings",
];

fn main(rt: HostRuntime) -> io::Result<()> {
    let mut out = String::new(rt.alloc());
    for reader in READERS {
        let file = format!(in rt.alloc(); "{reader}.cases")?;
        let cases = read_cases(&rt, file.as_str())?;
        add_cases(rt.alloc(), reader, &cases, &mut out)?;
    }
    print!(rt; "{out}")
}

fn add_cases(
    alloc: Global,
    reader: &str,
    cases: &[Case],
    out: &mut String,
) -> Result<(), AllocError> {
    for case in cases {
        let name = case.name.as_str();
        write!(out, "{name}:")?;
        add_case(alloc, reader, case, out)?;
        out.push_str("\n")?;
    }
    Ok(())
}

fn add_case(alloc: Global, reader: &str, case: &Case, out: &mut String) -> Result<(), AllocError> {
    let text = case.text("text").unwrap_or_default();
    match reader {
        "tokens" => tokens::add(alloc, text, out),
        "patterns" => patterns::add(alloc, text, out),
        "programs" => programs::add(alloc, text, out),
        "orders" => orders::add(alloc, text, out),
        "machines" => machines::add(alloc, text, out),
        _ => mappings::add(alloc, case, text, out),
    }
}
