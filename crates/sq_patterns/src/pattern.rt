//! What a grammar wants of a token.

ghost use Rattle.std.specs.Prelude.{◌≡◌};
ghost use Rattle.sq_patterns.specs.Patterns as spec;

use sq_lexer::{Kind, Sign};

/// The tokens that grammars name. Those up to `Byte` are words, and `Exactly` is any number token of that value.
#[derive(Clone, Copy, Debug)]
pub enum Pattern {
    Machine,
    Level,
    Levels,
    Node,
    Capacity,
    Children,
    Mapping,
    Entry,
    Instance,
    Tunable,
    Call,
    Spread,
    Cyclic,
    Blocked,
    Inner,
    Leaf,
    Cost,
    Row,
    Byte,
    AnyWord,
    AnyNumber,
    Exactly(u32),
    Sign(Sign),
    End,
}

fn is_word(kind: &Kind, word: &[u8]) -> bool
    ensures { result ≡ spec.is_word kind.now word.now }
{
    match kind {
        Kind::Word(name) => name.bytes() == word,
        _ => false,
    }
}

/// Whether the token is of this pattern.
pub fn fits(pattern: Pattern, kind: &Kind) -> bool
    ensures { result ≡ spec.fits pattern kind.now }
{
    match pattern {
        Pattern::Machine => is_word(kind, b"machine"),
        Pattern::Level => is_word(kind, b"level"),
        Pattern::Levels => is_word(kind, b"levels"),
        Pattern::Node => is_word(kind, b"node"),
        Pattern::Capacity => is_word(kind, b"capacity"),
        Pattern::Children => is_word(kind, b"children"),
        Pattern::Mapping => is_word(kind, b"mapping"),
        Pattern::Entry => is_word(kind, b"entry"),
        Pattern::Instance => is_word(kind, b"instance"),
        Pattern::Tunable => is_word(kind, b"tunable"),
        Pattern::Call => is_word(kind, b"call"),
        Pattern::Spread => is_word(kind, b"spread"),
        Pattern::Cyclic => is_word(kind, b"cyclic"),
        Pattern::Blocked => is_word(kind, b"blocked"),
        Pattern::Inner => is_word(kind, b"inner"),
        Pattern::Leaf => is_word(kind, b"leaf"),
        Pattern::Cost => is_word(kind, b"cost"),
        Pattern::Row => is_word(kind, b"row"),
        Pattern::Byte => is_word(kind, b"byte"),
        Pattern::AnyWord => matches!(kind, Kind::Word(_)),
        Pattern::AnyNumber => matches!(kind, Kind::Number(number) if *number >= 0),
        Pattern::Exactly(value) => matches!(kind, Kind::Number(number) if *number == value as i64),
        Pattern::Sign(sign) => matches!(kind, Kind::Sign(other) if *other == sign),
        Pattern::End => matches!(kind, Kind::End),
    }
}
