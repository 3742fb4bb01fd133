//! The contents of tokens: their words, numbers and places.

ghost use Rattle.std.specs.Prelude.{◌≡◌, IfOk, slice_get};
ghost use Rattle.sq_patterns.specs.Reading as spec;

use sq_lexer::{Kind, Name, Numeral, Place, Token, Word};
use std::alloc::{AllocError, Global};

const NOWHERE: Place = Place { line: 0, col: 0 };

/// The word at this index.
pub fn word_at(alloc: Global, tokens: &[Token], at: usize) -> Result<Word, AllocError>
    ensures { IfOk result (λ word. word ≡ spec.word_in (slice_get tokens.now at)) }
{
    match tokens.get(at) {
        Some(token) => match &token.kind {
            Kind::Word(name) => Ok(Word {
                place: token.place,
                name: name.copy(alloc)?,
            }),
            _ => no_word(alloc),
        },
        None => no_word(alloc),
    }
}

fn no_word(alloc: Global) -> Result<Word, AllocError>
    ensures { IfOk result (λ word. word ≡ spec.no_word) }
{
    let name = Name::new(alloc, &[])?;
    Ok(Word {
        place: NOWHERE,
        name,
    })
}

/// The number at this index.
pub fn number_at(tokens: &[Token], at: usize) -> i64
    ensures { result ≡ spec.number_in (slice_get tokens.now at) }
{
    match tokens.get(at) {
        Some(token) => match &token.kind {
            Kind::Number(number) if *number >= 0 => *number,
            _ => 0,
        },
        None => 0,
    }
}

/// The number at this index, with its place.
pub fn numeral_at(tokens: &[Token], at: usize) -> Numeral
    ensures { result ≡ spec.numeral_in (slice_get tokens.now at) }
{
    let none = Numeral {
        place: NOWHERE,
        value: 0,
    };
    match tokens.get(at) {
        Some(token) => match &token.kind {
            Kind::Number(number) if *number >= 0 => Numeral {
                place: token.place,
                value: *number as u64,
            },
            _ => none,
        },
        None => none,
    }
}

/// The place of the token at this index.
pub fn place_at(tokens: &[Token], at: usize) -> Place
    ensures { result ≡ spec.place_in (slice_get tokens.now at) }
{
    match tokens.get(at) {
        Some(token) => token.place,
        None => NOWHERE,
    }
}
