//! What the grammar sees of a token.

ghost use Rattle.std.specs.Prelude.{◌≡◌, map};
ghost use Rattle.sq_ast.specs.Symbols as symbols;
ghost use Rattle.sq_reader.specs.Reading as spec;
ghost use Rattle.sq_reader.specs.Words.{look_up};

use sq_ast::{Class, Keyword};
use sq_lexer::Kind;

// The keyword of this spelling.
#[tactic(auto, unfolding(crate::specs::Words::look_up))]
fn look_up(word: &[u8], keywords: &[(&[u8], Keyword)]) -> Option<Keyword>
    ensures { result ≡ look_up word.now (map (λ k. (k.0.now, k.1)) keywords.now) }
{
    for (spelling, keyword) in keywords {
        if word == *spelling {
            return Some(*keyword);
        }
    }
    None
}

#[tactic(auto, unfolding(sq_ast::specs::Symbols::keyword_of, crate::specs::Words::look_up))]
fn keyword_of(word: &[u8]) -> Option<Keyword>
    ensures { result ≡ symbols.keyword_of word.now }
{
    let keywords: [(&[u8], Keyword); 26] = [
        (b"void", Keyword::Void),
        (b"task", Keyword::Task),
        (b"inner", Keyword::Inner),
        (b"leaf", Keyword::Leaf),
        (b"in", Keyword::In),
        (b"out", Keyword::Out),
        (b"inout", Keyword::Inout),
        (b"byte", Keyword::Byte),
        (b"int", Keyword::Int),
        (b"long", Keyword::Long),
        (b"tunable", Keyword::Tunable),
        (b"local", Keyword::Local),
        (b"blkset", Keyword::Blkset),
        (b"rchop", Keyword::Rchop),
        (b"ichop", Keyword::Ichop),
        (b"mappar", Keyword::Mappar),
        (b"mapseq", Keyword::Mapseq),
        (b"mapreduce", Keyword::Mapreduce),
        (b"reduce", Keyword::Reduce),
        (b"to", Keyword::To),
        (b"if", Keyword::If),
        (b"else", Keyword::Else),
        (b"for", Keyword::For),
        (b"min", Keyword::Min),
        (b"max", Keyword::Max),
        (b"len", Keyword::Len),
    ];
    look_up(word, &keywords)
}

/// What the grammar sees of a token.
pub fn class_of(kind: &Kind) -> Class
    ensures { result ≡ spec.class_of kind.now }
{
    match kind {
        Kind::Word(name) => match keyword_of(name.bytes()) {
            Some(keyword) => Class::Key(keyword),
            None => Class::Word,
        },
        Kind::Number(_) => Class::Number,
        Kind::Sign(sign) => Class::Sign(*sign),
        Kind::End => Class::End,
    }
}

pub fn same(a: Class, b: Class) -> bool
    ensures { result ≡ spec.same a b }
{
    match (a, b) {
        (Class::Key(a), Class::Key(b)) => a == b,
        (Class::Sign(a), Class::Sign(b)) => a == b,
        (Class::Word, Class::Word) => true,
        (Class::Number, Class::Number) => true,
        (Class::End, Class::End) => true,
        _ => false,
    }
}
