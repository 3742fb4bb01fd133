//! Pieces of a plan file that stand in lists.

ghost use Rattle.std.specs.Prelude.{◌≡◌, ℕ, Bool, List, [], ◌∷◌, IfOk};
ghost use Rattle.sq_lexer.specs.declared.token.Token.{Token};
ghost use Rattle.sq_lexer.specs.declared.token.Sign.TheVariants as g;
ghost use Rattle.sq_planread.specs.Reading as spec;
ghost use Rattle.sq_planread.specs.Reading.{Reader, Reads};

use crate::cursor::Cursor;
use sq_lexer::Sign;
use sq_plantext::Naturals;
use sq_reader::ParseError;
use sqlite_items::Items;
use std::alloc::{AllocError, Global};
use std::marker::PhantomData;

/// A piece of a plan file, by its name. Its reader takes the number of levels of nesting that are left.
pub trait Piece {
    type Tree: Drop;

    ghost reader: { ℕ → Reader Self.Tree };

    fn read(alloc: Global, tokens: &mut Cursor<'_>, depth: usize) -> Result<Self::Tree, ParseError>
        ensures { Reads (reader depth tokens.old) result tokens.new };
}

/// A piece that its first token tells from what may stand in its place.
pub trait Leading: Piece {
    ghost begins: { List Token → Bool };

    fn begins(tokens: &Cursor<'_>) -> bool
        ensures { result ≡ begins tokens.now };
}

/// A comma, and the piece.
pub struct AfterComma<P> {
    piece: PhantomData<P>,
}

impl<P: Piece> Piece for AfterComma<P> {
    type Tree = P::Tree;

    ghost reader = { λ n. spec.after_comma (P.reader n) };

    fn read(alloc: Global, tokens: &mut Cursor<'_>, depth: usize) -> Result<P::Tree, ParseError> {
        tokens.take();
        P::read(alloc, tokens, depth)
    }
}

impl<P: Piece> Leading for AfterComma<P> {
    ghost begins = { spec.sees_sign g.Comma };

    fn begins(tokens: &Cursor<'_>) -> bool {
        tokens.sees_sign(Sign::Comma)
    }
}

/// All pieces that stand next, after those that are found.
#[tactic(auto, unfolding(crate::specs::Reading::many_after, crate::specs::Reading::many_from))]
pub fn more<P: Leading>(
    alloc: Global,
    tokens: &mut Cursor<'_>,
    depth: usize,
    before: Items<P::Tree>,
) -> Result<Items<P::Tree>, ParseError>
    ensures { Reads (spec.many_after P.begins (P.Piece.reader depth) before tokens.old) result tokens.new }
{
    let mut found = before;
    for _turn in 0..tokens.left() {
        if !P::begins(tokens) {
            return Ok(found);
        }
        let next = P::read(alloc, tokens, depth)?;
        found.push(next)?;
    }
    Ok(found)
}

/// One alone.
fn one<T: Drop>(alloc: Global, item: T) -> Result<Items<T>, AllocError>
    ensures { IfOk result (λ items. items ≡ item ∷ []) }
{
    let mut items = Items::new(alloc);
    items.push(item)?;
    Ok(items)
}

/// Any number of pieces with commas between them, before a closing sign.
#[tactic(auto, unfolding(crate::specs::Reading::separated))]
pub fn separated<P: Piece>(
    alloc: Global,
    tokens: &mut Cursor<'_>,
    depth: usize,
    close: Sign,
) -> Result<Items<P::Tree>, ParseError>
    ensures { Reads (spec.separated close (P.reader depth) tokens.old) result tokens.new }
{
    if tokens.sees_sign(close) {
        return Ok(Items::new(alloc));
    }
    let first = P::read(alloc, tokens, depth)?;
    more::<AfterComma<P>>(alloc, tokens, depth, one(alloc, first)?)
}

/// A number.
struct Natural;

impl Piece for Natural {
    type Tree = u64;

    ghost reader = { λ n. spec.natural };

    fn read(_alloc: Global, tokens: &mut Cursor<'_>, _depth: usize) -> Result<u64, ParseError> {
        tokens.natural()
    }
}

/// Numbers between `[` and `]`.
#[tactic(auto, unfolding(crate::specs::Reading::list))]
pub fn list(alloc: Global, tokens: &mut Cursor<'_>, depth: usize) -> Result<Naturals, ParseError>
    ensures { Reads (spec.list depth tokens.old) result tokens.new }
{
    tokens.open(Sign::BracketOpen, depth)?;
    let all = separated::<Natural>(alloc, tokens, depth, Sign::BracketClose)?;
    tokens.sign(Sign::BracketClose)?;
    Ok(all)
}

// After a minus.
fn negative(tokens: &mut Cursor<'_>) -> Result<i64, ParseError>
    ensures { Reads (spec.negative tokens.old) result tokens.new }
{
    let n = tokens.whole()?;
    Ok(-n)
}

/// A number with a sign of its own, or the least.
#[tactic(auto, unfolding(sq_plantext::specs::Grammar::lowest))]
pub fn value(tokens: &mut Cursor<'_>) -> Result<i64, ParseError>
    ensures { Reads (spec.value tokens.old) result tokens.new }
{
    if tokens.sees_word(b"lowest") {
        tokens.take();
        return Ok(i64::MIN);
    }
    if tokens.sees_sign(Sign::Minus) {
        tokens.take();
        return negative(tokens);
    }
    tokens.whole()
}
