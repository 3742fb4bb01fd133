//! The lines of nodes, buffers, leaves and arrays.

ghost use Rattle.std.specs.Prelude.{◌≡◌, ℕ, codes};
ghost use Rattle.sq_lexer.specs.declared.token.Sign.TheVariants as g;
ghost use Rattle.sq_ast.specs.declared.program.TheConstants.{MOST_LEVELS};
ghost use Rattle.sq_planread.specs.Reading as spec;
ghost use Rattle.sq_planread.specs.Reading.{Reads};

use crate::cursor::Cursor;
use crate::pieces::{Leading, Piece, list, separated, value};
use sq_ast::MOST_LEVELS;
use sq_lexer::Sign;
use sq_plantext::{ArrayLine, Binding, BufferLine, LeafText, NodeLine};
use sq_reader::ParseError;
use sq_text::{Place, Word};
use std::alloc::Global;

#[tactic(auto, unfolding(crate::specs::Reading::node))]
fn node(tokens: &mut Cursor<'_>) -> Result<NodeLine, ParseError>
    ensures { Reads (spec.node tokens.old) result tokens.new }
{
    let level = tokens.natural()?;
    let capacity = tokens.natural()?;
    let first_child = tokens.natural()?;
    let children = tokens.natural()?;
    tokens.sign(Sign::Semi)?;
    Ok(NodeLine {
        level,
        capacity,
        first_child,
        children,
    })
}

/// A line of a node.
pub struct OneNode;

impl Piece for OneNode {
    type Tree = NodeLine;

    ghost reader = { λ n. spec.after_word (λ p. spec.node) };

    fn read(
        _alloc: Global,
        tokens: &mut Cursor<'_>,
        _depth: usize,
    ) -> Result<NodeLine, ParseError> {
        tokens.take();
        node(tokens)
    }
}

impl Leading for OneNode {
    ghost begins = { spec.sees_word (codes "node") };

    fn begins(tokens: &Cursor<'_>) -> bool {
        tokens.sees_word(b"node")
    }
}

#[tactic(auto, unfolding(crate::specs::Reading::buffer))]
fn buffer(alloc: Global, tokens: &mut Cursor<'_>, place: Place) -> Result<BufferLine, ParseError>
    ensures { Reads (spec.buffer place tokens.old) result tokens.new }
{
    let level = tokens.natural()?;
    let offset = tokens.natural()?;
    let size = tokens.natural()?;
    let instance = tokens.name(alloc)?;
    let array = tokens.name(alloc)?;
    tokens.sign(Sign::Semi)?;
    Ok(BufferLine {
        place,
        level,
        offset,
        size,
        instance,
        array,
    })
}

/// A line of a buffer.
pub struct OneBuffer;

impl Piece for OneBuffer {
    type Tree = BufferLine;

    ghost reader = { λ n. spec.after_word spec.buffer };

    fn read(
        alloc: Global,
        tokens: &mut Cursor<'_>,
        _depth: usize,
    ) -> Result<BufferLine, ParseError> {
        let place = tokens.place();
        tokens.take();
        buffer(alloc, tokens, place)
    }
}

impl Leading for OneBuffer {
    ghost begins = { spec.sees_word (codes "buffer") };

    fn begins(tokens: &Cursor<'_>) -> bool {
        tokens.sees_word(b"buffer")
    }
}

/// A name and its number.
struct OneBinding;

impl Piece for OneBinding {
    type Tree = Binding;

    ghost reader = { λ n. spec.one_binding };

    fn read(alloc: Global, tokens: &mut Cursor<'_>, _depth: usize) -> Result<Binding, ParseError> {
        binding(alloc, tokens)
    }
}

#[tactic(auto, unfolding(crate::specs::Reading::one_binding))]
fn binding(alloc: Global, tokens: &mut Cursor<'_>) -> Result<Binding, ParseError>
    ensures { Reads (spec.one_binding tokens.old) result tokens.new }
{
    let name = tokens.name(alloc)?;
    tokens.sign(Sign::Set)?;
    let value = value(tokens)?;
    Ok(Binding { name, value })
}

// After the word `leaf`, which stands at the place.
#[tactic(auto, unfolding(crate::specs::Reading::leaf))]
fn leaf(
    alloc: Global,
    tokens: &mut Cursor<'_>,
    depth: usize,
    place: Place,
) -> Result<LeafText, ParseError>
    ensures { Reads (spec.leaf depth MOST_LEVELS place tokens.old) result tokens.new }
{
    let instance = tokens.name(alloc)?;
    let inside = tokens.open(Sign::ParenOpen, depth)?;
    let numbers = separated::<OneBinding>(alloc, tokens, inside, Sign::ParenClose)?;
    tokens.sign(Sign::ParenClose)?;
    let task = tokens.task(alloc, MOST_LEVELS)?;
    Ok(LeafText {
        place,
        instance,
        numbers,
        task,
    })
}

/// The lines of a leaf.
pub struct OneLeaf;

impl Piece for OneLeaf {
    type Tree = LeafText;

    ghost reader = { λ n. spec.after_word (spec.leaf n MOST_LEVELS) };

    fn read(alloc: Global, tokens: &mut Cursor<'_>, depth: usize) -> Result<LeafText, ParseError> {
        let place = tokens.place();
        tokens.take();
        leaf(alloc, tokens, depth, place)
    }
}

impl Leading for OneLeaf {
    ghost begins = { spec.sees_word (codes "leaf") };

    fn begins(tokens: &Cursor<'_>) -> bool {
        tokens.sees_word(b"leaf")
    }
}

// The name of an array.
fn array_name(alloc: Global, tokens: &mut Cursor<'_>) -> Result<Word, ParseError>
    ensures { Reads (spec.array_name tokens.old) result tokens.new }
{
    let place = tokens.place();
    let name = tokens.name(alloc)?;
    Ok(Word { place, name })
}

#[tactic(auto, unfolding(crate::specs::Reading::array))]
fn array(alloc: Global, tokens: &mut Cursor<'_>, depth: usize) -> Result<ArrayLine, ParseError>
    ensures { Reads (spec.array depth tokens.old) result tokens.new }
{
    let mode = tokens.mode()?;
    let elem = tokens.elem()?;
    let name = array_name(alloc, tokens)?;
    let extents = list(alloc, tokens, depth)?;
    let buffer = tokens.natural()?;
    tokens.sign(Sign::Semi)?;
    Ok(ArrayLine {
        mode,
        elem,
        name,
        extents,
        buffer,
    })
}

/// A line of an array.
pub struct OneArray;

impl Piece for OneArray {
    type Tree = ArrayLine;

    ghost reader = { λ n. spec.after_word (λ p. spec.array n) };

    fn read(alloc: Global, tokens: &mut Cursor<'_>, depth: usize) -> Result<ArrayLine, ParseError> {
        tokens.take();
        array(alloc, tokens, depth)
    }
}

impl Leading for OneArray {
    ghost begins = { spec.sees_word (codes "array") };

    fn begins(tokens: &Cursor<'_>) -> bool {
        tokens.sees_word(b"array")
    }
}
