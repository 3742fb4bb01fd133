//! `sq`: checks, formats, plans and evaluates programs, and runs them on the memories of machines.
#![tactic(auto)]

mod adapters;

use adapters::{DiskFiles, StreamSink};
use sq_driver::{Status, put_usage, sq_top};
use sq_tree::RawBank;
use std::process::ExitCode;
use std::{env, io};

fn main(rt: HostRuntime) -> ExitCode {
    ExitCode::from(tool(&rt) as u8)
}

fn tool(rt: &HostRuntime) -> Status {
    let mut out = StreamSink::new(rt.stdout());
    let mut err = StreamSink::new(rt.stderr());
    let words = match gather(rt) {
        Ok(words) => words,
        Err(NoWords::NoMemory) => return Status::NoMemory,
        Err(NoWords::NotText) => return put_usage(&mut err),
    };
    let mut files = match DiskFiles::new(rt.alloc(), rt) {
        Ok(files) => files,
        Err(_) => return Status::NoMemory,
    };
    let mut bank = RawBank::new();
    sq_top(
        rt.alloc(),
        &words,
        &mut files,
        &mut out,
        &mut err,
        &mut bank,
    )
}

enum NoWords {
    NoMemory,
    NotText,
}

// The words after the program's name.
fn gather(rt: &HostRuntime) -> Result<Vec<String>, NoWords> {
    let words = match env::args(rt) {
        Ok(words) => words,
        Err(error) => {
            return Err(if error.kind() == io::ErrorKind::OutOfMemory {
                NoWords::NoMemory
            } else {
                NoWords::NotText
            });
        }
    };
    match words.skip(1).collect(rt.alloc()) {
        Ok(words) => Ok(words),
        Err(_) => Err(NoWords::NoMemory),
    }
}
