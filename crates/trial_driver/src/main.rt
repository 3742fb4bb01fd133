//! Commands whose devices fail, at each read and at each front of a text: files that are missing, files whose reads fail,
//! and an `out` and an `err` that have no more room. Of each command of data/ it is written how many of these end as they
//! should.
#![tactic(auto)]

use fixture_cases::{Case, read_cases};
use sq_driver::sq_top;
use sq_port::{MemFiles, MemSink};
use sq_tree::LogBank;
use std::alloc::{AllocError, Global};
use std::fmt::Write;
use std::io;

// The read that fails, the file that isn't there, and how many bytes the sinks take.
#[derive(Copy, Clone, Drop)]
struct Devices<'a> {
    read: u64,
    missing: &'a str,
    out: usize,
    err: usize,
}

// None fails.
const WHOLE: Devices<'static> = Devices {
    read: 0,
    missing: "",
    out: 500,
    err: 500,
};

// What a command ends with, and how many events its bank tells.
#[derive(Drop)]
struct Ended {
    status: u8,
    out: MemSink,
    err: MemSink,
    events: Option<usize>,
}

impl Ended {
    fn is_so(&self, status: u8, out: &[u8], err: &[u8]) -> bool {
        self.status == status && self.out.written() == out && self.err.written() == err
    }
}

fn main(rt: HostRuntime) -> io::Result<()> {
    let cases = read_cases(&rt, "commands.cases")?;
    let mut out = String::new(rt.alloc());
    for case in &cases {
        add_counts(rt.alloc(), case, &mut out)?;
    }
    print!(rt; "{out}")
}

fn words_of(alloc: Global, text: &str) -> Result<Vec<String>, AllocError> {
    let mut words = Vec::new(alloc);
    for word in text.split_whitespace() {
        words.push(String::from_str(alloc, word)?)?;
    }
    Ok(words)
}

// The files of a case, but the one that is missing.
fn files_of(alloc: Global, case: &Case, missing: &str) -> Result<MemFiles, AllocError> {
    let mut files = MemFiles::new(alloc);
    for part in &case.parts {
        if let Some(name) = part.name.as_str().strip_prefix("file:")
            && name != missing
        {
            files.add(name, part.text.as_slice())?;
        }
    }
    Ok(files)
}

fn run(alloc: Global, case: &Case, devices: Devices<'_>) -> Result<Ended, AllocError> {
    let words = words_of(alloc, case.words("words"))?;
    let mut files = files_of(alloc, case, devices.missing)?;
    files.fail_at(devices.read);
    let mut out = MemSink::new(alloc, devices.out)?;
    let mut err = MemSink::new(alloc, devices.err)?;
    let mut bank = LogBank::new(alloc, 9)?;
    let status = sq_top(alloc, &words, &mut files, &mut out, &mut err, &mut bank);
    Ok(Ended {
        status: status as u8,
        out,
        err,
        events: bank.events().map(|events| events.len()),
    })
}

fn add_counts(alloc: Global, case: &Case, text: &mut String) -> Result<(), AllocError> {
    let name = case.name.as_str();
    write!(text, "{name}:")?;
    add_whole(alloc, case, text)?;
    let reads = count_reads(alloc, case)?;
    let absences = count_absences(alloc, case)?;
    let outs = count_outs(alloc, case)?;
    let errs = count_errs(alloc, case)?;
    write!(
        text,
        " {reads} reads, {absences} files, {outs} fronts of out, {errs} of err\n"
    )
}

fn wanted(case: &Case) -> u8 {
    case.words("status").parse::<u8>().unwrap_or(255)
}

fn text_of<'a>(case: &'a Case, name: &str) -> &'a [u8] {
    case.text(name).unwrap_or(b"")
}

// Where no device fails, and what the bank tells then: it has room for nine events.
fn add_whole(alloc: Global, case: &Case, text: &mut String) -> Result<(), AllocError> {
    let ended = run(alloc, case, WHOLE)?;
    if !ended.is_so(wanted(case), text_of(case, "out"), text_of(case, "err")) {
        text.push_str(" differs,")?;
    }
    match ended.events {
        Some(events) => write!(text, " {events} events,"),
        None => text.push_str(" untold events,"),
    }
}

// The line of a status that names a file.
fn named_line(alloc: Global, word: &[u8], name: &str) -> Result<Vec<u8>, AllocError> {
    let mut line = Vec::new(alloc);
    line.extend_from_slice(word)?;
    line.extend_from_slice(name.as_bytes())?;
    line.extend_from_slice(b"\n")?;
    Ok(line)
}

// Whether a failing read names this file.
fn names_fault(alloc: Global, case: &Case, read: u64, name: &str) -> Result<bool, AllocError> {
    let line = named_line(alloc, b"fault ", name)?;
    let ended = run(alloc, case, Devices { read, ..WHOLE })?;
    Ok(ended.is_so(4, b"", &line))
}

// Each file is read to its end: by one read that gives it and one that gives nothing.
fn count_reads(alloc: Global, case: &Case) -> Result<u32, AllocError> {
    let mut read = 0u64;
    let mut count = 0u32;
    for name in case.words("reads").split_whitespace() {
        for _ in 0..2 {
            read = read.saturating_add(1);
            if names_fault(alloc, case, read, name)? {
                count = count.saturating_add(1);
            }
        }
    }
    Ok(count)
}

// Whether a file that isn't there is named.
fn names_absence(alloc: Global, case: &Case, missing: &str) -> Result<bool, AllocError> {
    let line = named_line(alloc, b"absent ", missing)?;
    let ended = run(alloc, case, Devices { missing, ..WHOLE })?;
    Ok(ended.is_so(7, b"", &line))
}

fn count_absences(alloc: Global, case: &Case) -> Result<u32, AllocError> {
    let mut count = 0u32;
    for name in case.words("reads").split_whitespace() {
        if names_absence(alloc, case, name)? {
            count = count.saturating_add(1);
        }
    }
    Ok(count)
}

// A front of the text, where there is room for no more of it.
fn front(text: &[u8], room: usize) -> &[u8] {
    text.get(0..room).unwrap_or(b"")
}

// A trace precedes what goes to `out`.
fn count_outs(alloc: Global, case: &Case) -> Result<u32, AllocError> {
    let out = text_of(case, "out");
    let mut count = 0u32;
    for room in 0..out.len() {
        let ended = run(alloc, case, Devices { out: room, ..WHOLE })?;
        if ended.is_so(5, front(out, room), text_of(case, "err")) {
            count = count.saturating_add(1);
        }
    }
    Ok(count)
}

// And `out` gets nothing before all of the trace is put.
fn count_errs(alloc: Global, case: &Case) -> Result<u32, AllocError> {
    let err = text_of(case, "err");
    let mut count = 0u32;
    for room in 0..err.len() {
        let ended = run(alloc, case, Devices { err: room, ..WHOLE })?;
        if ended.is_so(5, b"", front(err, room)) {
            count = count.saturating_add(1);
        }
    }
    Ok(count)
}
