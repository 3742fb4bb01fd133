//! Cases as lines of a file, for programs that write what calls answer:
//!
//!     # ..             says something to a reader
//!     case NAME        the next case
//!     part NAME TEXT   a part of it, whose text begins with TEXT, if there is any, and goes on in the lines below;
//!                      above the first case, a part of each
//!     | TEXT           a line of the text
//!     > TEXT           text without a newline
//!     * N TEXT         text N times, without a newline
//!     \ TEXT           text without a newline in which \x00 is a byte
#![tactic(auto)]

use std::alloc::{AllocError, Global};
use std::rt::Files;
use std::{fs, io};

#[derive(Debug, Drop)]
pub struct Case {
    pub name: String,
    /// Those that stand above the first case come first.
    pub parts: Vec<Part>,
}

#[derive(Clone, Debug, Drop)]
pub struct Part {
    pub name: String,
    pub text: Vec<u8>,
}

impl Case {
    /// The text of the last part of this name; none, where it has no such part.
    pub fn text(&self, name: &str) -> Option<&[u8]> {
        let mut found = None;
        for part in &self.parts {
            if part.name.as_str() == name {
                found = Some(part.text.as_slice());
            }
        }
        found
    }

    /// That text without blanks at its ends; nothing, where there is none, or it is no UTF-8.
    pub fn words(&self, name: &str) -> &str {
        match self.text(name) {
            Some(text) => str::from_utf8(text).unwrap_or_default().trim(),
            None => "",
        }
    }
}

/// The cases of a file, each in the order in which it stands there.
pub fn read_cases(rt: &(impl Files + AllocGlobal), name: &str) -> io::Result<Vec<Case>> {
    let text = fs::read_to_string(rt, name)?;
    parse_cases(rt.alloc(), text.as_str())
}

/// The cases of a text; an error with the first line that begins with no such word or mark.
pub fn parse_cases(alloc: Global, text: &str) -> io::Result<Vec<Case>> {
    // What stands above the first case is one without a name.
    let mut cases = vec![in alloc; new_case(alloc, "", &[])?]?;
    for line in text.lines() {
        let (mark, rest) = line.split_once(' ').unwrap_or((line, ""));
        if mark == "case" {
            let case = match cases.first() {
                Some(shared) => new_case(alloc, rest, shared.parts.as_slice())?,
                None => new_case(alloc, rest, &[])?,
            };
            cases.push(case)?;
        } else if let Some(case) = cases.last_mut()
            && !add_line(alloc, case, mark, rest)?
        {
            return Err(io::Error::new(io::ErrorKind::InvalidData, line));
        }
    }
    Ok(cases.into_iter().skip(1).collect(alloc)?)
}

fn new_case(alloc: Global, name: &str, shared: &[Part]) -> Result<Case, AllocError> {
    let mut parts = Vec::new(alloc);
    for part in shared {
        parts.push(part.clone()?)?;
    }
    Ok(Case {
        name: String::from_str(alloc, name)?,
        parts,
    })
}

// Adds a line to a case, and says whether it is one.
fn add_line(alloc: Global, case: &mut Case, mark: &str, rest: &str) -> Result<bool, AllocError> {
    if mark.is_empty() || mark == "#" {
        return Ok(true);
    }
    if mark == "part" {
        let (name, text) = rest.split_once(' ').unwrap_or((rest, ""));
        case.parts.push(Part {
            name: String::from_str(alloc, name)?,
            text: Vec::from_slice(alloc, text.as_bytes())?,
        })?;
        return Ok(true);
    }
    match case.parts.last_mut() {
        Some(part) => add_text(&mut part.text, mark, rest),
        None => Ok(false),
    }
}

fn add_text(text: &mut Vec<u8>, mark: &str, rest: &str) -> Result<bool, AllocError> {
    match mark {
        "|" => {
            text.extend_from_slice(rest.as_bytes())?;
            text.push(b'\n')?;
        }
        ">" => text.extend_from_slice(rest.as_bytes())?,
        "*" => {
            let (count, piece) = rest.split_once(' ').unwrap_or((rest, ""));
            let Ok(count) = count.parse::<u32>() else {
                return Ok(false);
            };
            for _ in 0..count {
                text.extend_from_slice(piece.as_bytes())?;
            }
        }
        "\\" => add_bytes(text, rest)?,
        _ => return Ok(false),
    }
    Ok(true)
}

fn add_bytes(text: &mut Vec<u8>, rest: &str) -> Result<(), AllocError> {
    for (place, piece) in rest.split("\\x").enumerate() {
        match piece.split_at_checked(2) {
            Some((code, piece)) if place > 0 => {
                text.push(u8::from_str_radix(code, 16).unwrap_or(0))?;
                text.extend_from_slice(piece.as_bytes())?;
            }
            _ => text.extend_from_slice(piece.as_bytes())?,
        }
    }
    Ok(())
}
