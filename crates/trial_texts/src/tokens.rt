//! Tokens with their places.

use sq_lexer::{Kind, Name, Phase, Place, Token, tokens};
use std::alloc::{AllocError, Global};
use std::fmt::Write;

pub fn add(alloc: Global, text: &[u8], out: &mut String) -> Result<(), AllocError> {
    match tokens(alloc, Phase::Mapping, text) {
        Ok(list) => add_tokens(list.as_slice(), out),
        Err(_) => out.push_str(" none"),
    }
}

fn add_tokens(list: &[Token], out: &mut String) -> Result<(), AllocError> {
    for (i, token) in list.iter().enumerate() {
        out.push_str(if i == 0 { " " } else { ", " })?;
        add_kind(&token.kind, out)?;
        add_place(token.place, out)?;
    }
    Ok(())
}

fn add_kind(kind: &Kind, out: &mut String) -> Result<(), AllocError> {
    match kind {
        Kind::Word(name) => add_name(name, out),
        Kind::Number(value) => write!(out, "{value}"),
        Kind::Sign(sign) => write!(out, "{sign:?}"),
        Kind::End => out.push_str("end"),
    }
}

/// A name as text.
pub fn add_name(name: &Name, out: &mut String) -> Result<(), AllocError> {
    out.push_str(str::from_utf8(name.bytes()).unwrap_or("?"))
}

/// A place behind a blank.
pub fn add_place(place: Place, out: &mut String) -> Result<(), AllocError> {
    let Place { line, col } = place;
    write!(out, " {line}:{col}")
}
