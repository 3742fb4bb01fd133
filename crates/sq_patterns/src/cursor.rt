//! A cursor over tokens, which contracts see as the list of those that are left.

ghost use Rattle.std.specs.Prelude.{◌≡◌, ◌≤◌, drop, length, OnErr};
ghost use Rattle.sq_patterns.specs.Reading as spec;
ghost use Rattle.sq_patterns.specs.Reading.{ReadsFront};

use crate::pattern::{Pattern, fits};
use sq_lexer::Token;
use std::alloc::AllocError;
use std::marker::Model;

/// Why nothing was read. The number says how many tokens are left, with the first that doesn't fit.
#[derive(Clone, Copy, Debug, PartialEq, Eq)]
pub enum ReadError {
    NoMemory,
    Syntax(usize),
}

impl From<AllocError> for ReadError {
    ghost use Rattle.std.specs.Prelude.{◌≡◌};
    ghost use Rattle.sq_patterns.specs.declared.cursor.ReadError.TheVariants.{NoMemory};

    ghost from_gives = { λ _ e. e ≡ NoMemory };

    fn from(_error: AllocError) -> ReadError {
        ReadError::NoMemory
    }
}

#[derive(Drop)]
pub struct Tokens<'a> {
    rest: &'a [Token],
}

impl<'a> Model for Tokens<'a> {
    ghost use Rattle.std.specs.Prelude.{List};
    ghost use Rattle.sq_lexer.specs.declared.token.Token.{Token};

    ghost Value = { List Token };

    ghost view = { λ t. t.rest.now };
}

// Whether the token at this index is of the pattern.
fn fits_at(pattern: Pattern, tokens: &[Token], at: usize) -> bool
    ensures { result ≡ spec.sees pattern (drop at tokens.now) }
{
    match tokens.get(at) {
        Some(token) => fits(pattern, &token.kind),
        None => false,
    }
}

// How many of the first tokens are of these patterns, one by one.
#[tactic(auto, using(crate::proofs::Fitting::fitting_there))]
fn count_fitting(patterns: &[Pattern], tokens: &[Token]) -> usize
    ensures count { result ≡ spec.fitting patterns.now tokens.now }
    ensures within { result ≤ length tokens.now }
{
    for (i, pattern) in patterns.iter().enumerate() {
        if !fits_at(*pattern, tokens, i) {
            return i;
        }
    }
    patterns.len()
}

impl<'a> Tokens<'a> {
    pub fn new(rest: &'a [Token]) -> Tokens<'a>
        ensures { result ≡ rest.now }
    {
        Tokens { rest }
    }

    pub fn len(&self) -> usize
        ensures { result ≡ length self.now }
    {
        self.rest.len()
    }

    /// Whether the next token is of this pattern.
    pub fn sees(&self, pattern: Pattern) -> bool
        ensures { result ≡ spec.sees pattern self.now }
    {
        match self.rest {
            [] => false,
            [first, ..] => fits(pattern, &first.kind),
        }
    }

    /// The next tokens, which have to be of these patterns. Where they aren't, none is taken.
    pub fn all(&mut self, patterns: &[Pattern]) -> Result<&'a [Token], ReadError>
        ensures front { ReadsFront (spec.all patterns.now self.old) result self.new }
        ensures kept { OnErr result (self.new ≡ self.old) }
    {
        let count = count_fitting(patterns, self.rest);
        if count < patterns.len() {
            return Err(ReadError::Syntax(self.rest.len() - count));
        }
        let (front, rest) = self.rest.split_at(count);
        self.rest = rest;
        Ok(front)
    }
}
