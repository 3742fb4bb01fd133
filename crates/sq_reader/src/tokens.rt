//! A cursor over tokens, which contracts see as the list of those that are left.

ghost use Rattle.std.specs.Prelude.{◌≡◌, ◌≢◌, length, IfOk};
ghost use Rattle.sq_ast.specs.Symbols.{symbols};
ghost use Rattle.sq_ast.specs.Grammar as grammar;
ghost use Rattle.sq_reader.specs.Reading as spec;
ghost use Rattle.sq_reader.specs.Reading.{Reads};

use crate::class::{class_of, same};
use crate::error::ParseError;
use sq_ast::{Class, Extent};
use sq_lexer::{Kind, Token};
use sq_text::{Name, Place, Word};
use std::alloc::{AllocError, Global};
use std::marker::Model;

#[derive(Drop)]
pub struct Tokens<'a> {
    rest: &'a [Token],
}

impl<'a> Model for Tokens<'a> {
    ghost use Rattle.std.specs.Prelude.{List};
    ghost use Rattle.sq_lexer.specs.declared.token.Token.{Token};

    ghost Value = { List Token };

    ghost view = { λ t. t.rest.now };
}

impl<'a> Tokens<'a> {
    pub fn new(rest: &'a [Token]) -> Tokens<'a>
        ensures { result ≡ rest.now }
    {
        Tokens { rest }
    }

    pub fn peek(&self) -> Class
        ensures { result ≡ grammar.class (symbols self.now) }
    {
        match self.rest {
            [] => Class::End,
            [first, ..] => class_of(&first.kind),
        }
    }

    pub fn place(&self) -> Place
        ensures { result ≡ spec.place (symbols self.now) }
    {
        match self.rest {
            [] => Place { line: 0, col: 0 },
            [first, ..] => first.place,
        }
    }

    /// The number that the token is, or 0.
    pub fn number(&self) -> i64
        ensures { result ≡ spec.number (symbols self.now) }
    {
        match self.rest {
            [first, ..] => match &first.kind {
                Kind::Number(n) => *n,
                _ => 0,
            },
            [] => 0,
        }
    }

    // The name that the token is.
    fn name(&self, alloc: Global) -> Result<Name, AllocError>
        requires { grammar.class (symbols self.now) ≡ Class.Word }
        ensures { IfOk result (λ w. w ≡ spec.name (symbols self.now)) }
    {
        match self.rest {
            [first, ..] => match &first.kind {
                Kind::Word(name) => name.copy(alloc),
                _ => Name::new(alloc, &[]),
            },
            [] => Name::new(alloc, &[]),
        }
    }

    pub fn take(&mut self)
        ensures { symbols self.new ≡ spec.next (symbols self.old) }
    {
        if let [_, rest @ ..] = self.rest {
            self.rest = rest;
        }
    }

    #[tactic(auto, using(crate::proofs::Lengths::length_symbols))]
    pub fn left(&self) -> usize
        ensures { result ≡ length (symbols self.now) }
    {
        self.rest.len()
    }

    #[tactic(auto, using(crate::proofs::Lengths::length_symbols))]
    pub fn refuse(&self) -> ParseError
        ensures { result ≡ ParseError.Syntax (length (symbols self.now)) }
    {
        ParseError::Syntax(self.rest.len())
    }

    #[tactic(auto, using(crate::proofs::Lengths::length_symbols))]
    pub fn too_deep(&self) -> ParseError
        ensures { result ≡ ParseError.TooDeep (length (symbols self.now)) }
    {
        ParseError::TooDeep(self.rest.len())
    }

    pub fn sees(&self, class: Class) -> bool
        ensures { result ≡ spec.sees class (symbols self.now) }
    {
        match self.rest {
            [] => false,
            [first, ..] => same(class_of(&first.kind), class),
        }
    }

    pub fn expect(&mut self, class: Class) -> Result<(), ParseError>
        ensures { Reads (spec.expect class (symbols self.old)) result self.new }
    {
        if self.sees(class) {
            self.take();
            Ok(())
        } else {
            Err(self.refuse())
        }
    }

    /// Takes a token that opens a level of nesting, and gives how many levels are left then.
    pub fn open(&mut self, class: Class, depth: usize) -> Result<usize, ParseError>
        ensures { Reads (spec.opening class depth (symbols self.old)) result self.new }
    {
        if !self.sees(class) {
            return Err(self.refuse());
        }
        if depth == 0 {
            return Err(self.too_deep());
        }
        self.take();
        Ok(depth - 1)
    }

    /// A name where it stands.
    pub fn word(&mut self, alloc: Global) -> Result<Word, ParseError>
        ensures { Reads (spec.expect_word (symbols self.old)) result self.new }
    {
        let place = self.place();
        match self.peek() {
            Class::Word => {
                let name = self.name(alloc)?;
                self.take();
                Ok(Word { place, name })
            }
            _ => Err(self.refuse()),
        }
    }

    /// A number token of value 0.
    pub fn zero(&mut self) -> Result<(), ParseError>
        ensures { Reads (spec.expect_zero (symbols self.old)) result self.new }
    {
        if self.sees(Class::Number) && self.number() == 0 {
            self.take();
            Ok(())
        } else {
            Err(self.refuse())
        }
    }

    /// A size name or a number.
    pub fn extent(&mut self, alloc: Global) -> Result<Extent, ParseError>
        ensures { Reads (spec.extent_value (symbols self.old)) result self.new }
    {
        let place = self.place();
        match self.peek() {
            Class::Word => {
                let name = self.name(alloc)?;
                self.take();
                Ok(Extent::Size(place, name))
            }
            Class::Number => {
                let number = self.number();
                self.take();
                Ok(Extent::Fixed(place, number))
            }
            _ => Err(self.refuse()),
        }
    }
}
