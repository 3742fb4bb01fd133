//! A cursor over tokens, which contracts see as the list of those that are left.

ghost use Rattle.std.specs.Prelude.{◌≡◌, ◌≢◌, ◌≤ℤ◌, pos, length, IfOk};
ghost use Rattle.sq_planread.specs.Reading as spec;
ghost use Rattle.sq_planread.specs.Reading.{Reads};
ghost use Rattle.sq_plantext.specs.Grammar as grammar;
ghost use Rattle.sq_ast.specs.Grammar as ast;

use sq_ast::{Mode, Variant};
use sq_lexer::{Kind, Sign, Token};
use sq_num::{Elem, RedOp};
use sq_reader::{ParseError, read_leaf};
use sq_text::{Name, Place};
use std::alloc::Global;
use std::marker::Model;

#[derive(Drop)]
pub struct Cursor<'a> {
    rest: &'a [Token],
}

impl<'a> Model for Cursor<'a> {
    ghost use Rattle.std.specs.Prelude.{List};
    ghost use Rattle.sq_lexer.specs.declared.token.Token.{Token};

    ghost Value = { List Token };

    ghost view = { λ t. t.rest.now };
}

fn is_word(word: &[u8], kind: &Kind) -> bool
    ensures { result ≡ spec.is_word word.now kind.now }
{
    match kind {
        Kind::Word(name) => name.bytes() == word,
        _ => false,
    }
}

fn is_sign(sign: Sign, kind: &Kind) -> bool
    ensures { result ≡ spec.is_sign sign kind.now }
{
    match kind {
        Kind::Sign(other) => *other == sign,
        _ => false,
    }
}

fn natural_in(kind: &Kind) -> Option<u64>
    ensures { result ≡ spec.natural_in kind.now }
{
    match kind {
        Kind::Number(n) if *n >= 0 => Some(*n as u64),
        _ => None,
    }
}

fn elem_of(kind: &Kind) -> Option<Elem>
    ensures { result ≡ grammar.elem_of kind.now }
{
    sq_reader::elem_of(sq_reader::class_of(kind))
}

fn operator_of(kind: &Kind) -> Option<RedOp>
    ensures { result ≡ grammar.operator_of kind.now }
{
    sq_reader::reduction_of(sq_reader::class_of(kind))
}

fn mode_of(kind: &Kind) -> Option<Mode>
    ensures { result ≡ grammar.mode_of kind.now }
{
    sq_reader::mode_of(sq_reader::class_of(kind))
}

impl<'a> Cursor<'a> {
    pub fn new(rest: &'a [Token]) -> Cursor<'a>
        ensures { result ≡ rest.now }
    {
        Cursor { rest }
    }

    pub fn left(&self) -> usize
        ensures { result ≡ length self.now }
    {
        self.rest.len()
    }

    pub fn place(&self) -> Place
        ensures { result ≡ spec.place self.now }
    {
        match self.rest {
            [] => Place { line: 0, col: 0 },
            [first, ..] => first.place,
        }
    }

    pub fn take(&mut self)
        ensures { self.new ≡ spec.next self.old }
    {
        if let [_, rest @ ..] = self.rest {
            self.rest = rest;
        }
    }

    pub fn refuse(&self) -> ParseError
        ensures { result ≡ ParseError.Syntax (length self.now) }
    {
        ParseError::Syntax(self.rest.len())
    }

    fn too_deep(&self) -> ParseError
        ensures { result ≡ ParseError.TooDeep (length self.now) }
    {
        ParseError::TooDeep(self.rest.len())
    }

    pub fn sees_word(&self, word: &[u8]) -> bool
        ensures { result ≡ spec.sees_word word.now self.now }
    {
        match self.rest {
            [] => false,
            [first, ..] => is_word(word, &first.kind),
        }
    }

    pub fn sees_sign(&self, sign: Sign) -> bool
        ensures { result ≡ spec.sees_sign sign self.now }
    {
        match self.rest {
            [] => false,
            [first, ..] => is_sign(sign, &first.kind),
        }
    }

    pub fn word(&mut self, word: &[u8]) -> Result<(), ParseError>
        ensures { Reads (spec.expect_word word.now self.old) result self.new }
    {
        if self.sees_word(word) {
            self.take();
            Ok(())
        } else {
            Err(self.refuse())
        }
    }

    pub fn sign(&mut self, sign: Sign) -> Result<(), ParseError>
        ensures { Reads (spec.expect_sign sign self.old) result self.new }
    {
        if self.sees_sign(sign) {
            self.take();
            Ok(())
        } else {
            Err(self.refuse())
        }
    }

    /// Takes a sign that opens a level of nesting, and gives how many levels are left then.
    pub fn open(&mut self, sign: Sign, depth: usize) -> Result<usize, ParseError>
        ensures { Reads (spec.opening sign depth self.old) result self.new }
    {
        if !self.sees_sign(sign) {
            return Err(self.refuse());
        }
        if depth == 0 {
            return Err(self.too_deep());
        }
        self.take();
        Ok(depth - 1)
    }

    pub fn name(&mut self, alloc: Global) -> Result<Name, ParseError>
        ensures { Reads (spec.any_word self.old) result self.new }
    {
        match self.rest {
            [first, ..] => match &first.kind {
                Kind::Word(name) => {
                    let name = name.copy(alloc)?;
                    self.take();
                    Ok(name)
                }
                _ => Err(self.refuse()),
            },
            [] => Err(self.refuse()),
        }
    }

    pub fn natural(&mut self) -> Result<u64, ParseError>
        ensures { Reads (spec.natural self.old) result self.new }
    {
        match self.rest {
            [first, ..] => match natural_in(&first.kind) {
                Some(n) => {
                    self.take();
                    Ok(n)
                }
                None => Err(self.refuse()),
            },
            [] => Err(self.refuse()),
        }
    }

    /// A number as one that may be negative.
    pub fn whole(&mut self) -> Result<i64, ParseError>
        ensures number { Reads (spec.whole self.old) result self.new }
        ensures natural { IfOk result (λ z. pos 0 ≤ℤ z) }
    {
        match self.rest {
            [first, ..] => match &first.kind {
                Kind::Number(n) if *n >= 0 => {
                    let n = *n;
                    self.take();
                    Ok(n)
                }
                _ => Err(self.refuse()),
            },
            [] => Err(self.refuse()),
        }
    }

    pub fn elem(&mut self) -> Result<Elem, ParseError>
        ensures { Reads (spec.expect_some grammar.elem_of self.old) result self.new }
    {
        match self.rest {
            [first, ..] => match elem_of(&first.kind) {
                Some(elem) => {
                    self.take();
                    Ok(elem)
                }
                None => Err(self.refuse()),
            },
            [] => Err(self.refuse()),
        }
    }

    pub fn operator(&mut self) -> Result<RedOp, ParseError>
        ensures { Reads (spec.expect_some grammar.operator_of self.old) result self.new }
    {
        match self.rest {
            [first, ..] => match operator_of(&first.kind) {
                Some(op) => {
                    self.take();
                    Ok(op)
                }
                None => Err(self.refuse()),
            },
            [] => Err(self.refuse()),
        }
    }

    pub fn mode(&mut self) -> Result<Mode, ParseError>
        ensures { Reads (spec.expect_some grammar.mode_of self.old) result self.new }
    {
        match self.rest {
            [first, ..] => match mode_of(&first.kind) {
                Some(mode) => {
                    self.take();
                    Ok(mode)
                }
                None => Err(self.refuse()),
            },
            [] => Err(self.refuse()),
        }
    }

    /// The number 1.
    pub fn one(&mut self) -> Result<(), ParseError>
        ensures { Reads (spec.expect_some spec.one_in self.old) result self.new }
    {
        match self.rest {
            [first, ..] => match &first.kind {
                Kind::Number(1) => {
                    self.take();
                    Ok(())
                }
                _ => Err(self.refuse()),
            },
            [] => Err(self.refuse()),
        }
    }

    /// The end, behind which no token is.
    pub fn end(&mut self) -> Result<(), ParseError>
        ensures { Reads (spec.finish self.old) result self.new }
    {
        match self.rest {
            [last] => match &last.kind {
                Kind::End => {
                    self.take();
                    Ok(())
                }
                _ => Err(self.refuse()),
            },
            _ => Err(self.refuse()),
        }
    }

    /// A leaf, as the parser of programs reads it.
    #[tactic(auto, unfolding(crate::specs::Reading::task))]
    pub fn task(&mut self, alloc: Global, depth: usize) -> Result<Variant, ParseError>
        ensures { Reads (spec.task depth self.old) result self.new }
    {
        let whole = self.rest;
        let mut inner = sq_reader::Tokens::new(whole);
        let task = read_leaf(alloc, &mut inner, depth)?;
        let read = whole.len().saturating_sub(inner.left());
        let (_, rest) = whole.split_at(read);
        self.rest = rest;
        Ok(task)
    }
}
