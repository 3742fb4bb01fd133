//! What single tokens mean, as the grammar's tables say.

ghost use Rattle.std.specs.Prelude.{◌≡◌};
ghost use Rattle.sq_ast.specs.Symbols.{symbols};
ghost use Rattle.sq_ast.specs.Grammar as grammar;
ghost use Rattle.sq_reader.specs.Reading as spec;
ghost use Rattle.sq_reader.specs.Reading.{Reads};

use crate::error::ParseError;
use crate::start::Start;
use crate::tokens::Tokens;
use sq_ast::{AssignOp, BinOp, Class, Keyword, MapKind, Mode, UnOp};
use sq_lexer::Sign;
use sq_num::{Elem, RedOp};

// An operator's level, counted from the tightest, and what it does.
fn binary(class: Class) -> Option<(usize, BinOp)>
    ensures { result ≡ grammar.binary class }
{
    match class {
        Class::Sign(Sign::Star) => Some((0, BinOp::Mul)),
        Class::Sign(Sign::Slash) => Some((0, BinOp::Div)),
        Class::Sign(Sign::Percent) => Some((0, BinOp::Rem)),
        Class::Sign(Sign::Plus) => Some((1, BinOp::Add)),
        Class::Sign(Sign::Minus) => Some((1, BinOp::Sub)),
        Class::Sign(Sign::Shl) => Some((2, BinOp::Shl)),
        Class::Sign(Sign::Shr) => Some((2, BinOp::Shr)),
        Class::Sign(Sign::Less) => Some((3, BinOp::Less)),
        Class::Sign(Sign::AtMost) => Some((3, BinOp::AtMost)),
        Class::Sign(Sign::More) => Some((3, BinOp::More)),
        Class::Sign(Sign::AtLeast) => Some((3, BinOp::AtLeast)),
        Class::Sign(Sign::Same) => Some((4, BinOp::Same)),
        Class::Sign(Sign::Differ) => Some((4, BinOp::Differ)),
        Class::Sign(Sign::And) => Some((5, BinOp::And)),
        Class::Sign(Sign::Caret) => Some((6, BinOp::Xor)),
        Class::Sign(Sign::Bar) => Some((7, BinOp::Or)),
        Class::Sign(Sign::AndAlso) => Some((8, BinOp::AndAlso)),
        Class::Sign(Sign::OrElse) => Some((9, BinOp::OrElse)),
        _ => None,
    }
}

/// The operator of this level that the token is.
pub fn operator(level: usize, class: Class) -> Option<BinOp>
    ensures { result ≡ grammar.operator level class }
{
    match binary(class) {
        Some((found, op)) => { if found == level { Some(op) } else { None } }
        None => None,
    }
}

/// The levels of operators of a constant or an expression.
pub fn levels(constant: bool) -> usize
    ensures { result ≡ grammar.levels constant }
{
    if constant { 2 } else { 10 }
}

/// The unary operator that the token is, in a constant or an expression.
pub fn prefix(constant: bool, class: Class) -> Option<UnOp>
    ensures { result ≡ grammar.prefix constant class }
{
    match class {
        Class::Sign(Sign::Minus) => Some(UnOp::Neg),
        Class::Sign(Sign::Bang) => { if constant { None } else { Some(UnOp::Not) } }
        Class::Sign(Sign::Tilde) => { if constant { None } else { Some(UnOp::Inv) } }
        _ => None,
    }
}

/// How an expression or a constant without operators begins.
pub fn start_of(constant: bool, class: Class) -> Start
    ensures { result ≡ spec.start_of constant class }
{
    match class {
        Class::Number => Start::Number,
        Class::Word => {
            if constant {
                Start::Name
            } else {
                Start::Element
            }
        }
        Class::Sign(Sign::ParenOpen) => Start::Brackets,
        Class::Key(Keyword::Len) => {
            if constant {
                Start::Length
            } else {
                Start::Other
            }
        }
        Class::Key(Keyword::Min) => { if constant { Start::Other } else { Start::Least } }
        Class::Key(Keyword::Max) => { if constant { Start::Other } else { Start::Most } }
        _ => Start::Other,
    }
}

/// The mode that the token is.
pub fn mode_of(class: Class) -> Option<Mode>
    ensures { result ≡ grammar.mode_of class }
{
    match class {
        Class::Key(Keyword::In) => Some(Mode::Input),
        Class::Key(Keyword::Out) => Some(Mode::Output),
        Class::Key(Keyword::Inout) => Some(Mode::Both),
        _ => None,
    }
}

/// The element type that the token is.
pub fn elem_of(class: Class) -> Option<Elem>
    ensures { result ≡ grammar.elem_of class }
{
    match class {
        Class::Key(Keyword::Byte) => Some(Elem::Byte),
        Class::Key(Keyword::Int) => Some(Elem::Int),
        Class::Key(Keyword::Long) => Some(Elem::Long),
        _ => None,
    }
}

/// The kind of a map that is no reduction.
pub fn map_of(class: Class) -> Option<MapKind>
    ensures { result ≡ grammar.map_of class }
{
    match class {
        Class::Key(Keyword::Mappar) => Some(MapKind::Par),
        Class::Key(Keyword::Mapseq) => Some(MapKind::Seq),
        _ => None,
    }
}

/// The operator that the token is.
pub fn reduction_of(class: Class) -> Option<RedOp>
    ensures { result ≡ grammar.reduction_of class }
{
    match class {
        Class::Sign(Sign::Plus) => Some(RedOp::Add),
        Class::Sign(Sign::Star) => Some(RedOp::Mul),
        Class::Key(Keyword::Min) => Some(RedOp::Min),
        Class::Key(Keyword::Max) => Some(RedOp::Max),
        Class::Sign(Sign::And) => Some(RedOp::And),
        Class::Sign(Sign::Bar) => Some(RedOp::Or),
        Class::Sign(Sign::Caret) => Some(RedOp::Xor),
        _ => None,
    }
}

fn assignment_of(class: Class) -> Option<AssignOp>
    ensures { result ≡ grammar.assignment_of class }
{
    match class {
        Class::Sign(Sign::Set) => Some(AssignOp::Set),
        Class::Sign(Sign::PlusSet) => Some(AssignOp::Add),
        Class::Sign(Sign::MinusSet) => Some(AssignOp::Sub),
        Class::Sign(Sign::StarSet) => Some(AssignOp::Mul),
        _ => None,
    }
}

pub fn mode(tokens: &mut Tokens<'_>) -> Result<Mode, ParseError>
    ensures { Reads (spec.expect_some grammar.mode_of (symbols tokens.old)) result tokens.new }
{
    let Some(mode) = mode_of(tokens.peek()) else {
        return Err(tokens.refuse());
    };
    tokens.take();
    Ok(mode)
}

pub fn elem(tokens: &mut Tokens<'_>) -> Result<Elem, ParseError>
    ensures { Reads (spec.expect_some grammar.elem_of (symbols tokens.old)) result tokens.new }
{
    let Some(elem) = elem_of(tokens.peek()) else {
        return Err(tokens.refuse());
    };
    tokens.take();
    Ok(elem)
}

/// The operator of a reduction.
pub fn reduction_op(tokens: &mut Tokens<'_>) -> Result<RedOp, ParseError>
    ensures { Reads (spec.expect_some grammar.reduction_of (symbols tokens.old)) result tokens.new }
{
    let Some(op) = reduction_of(tokens.peek()) else {
        return Err(tokens.refuse());
    };
    tokens.take();
    Ok(op)
}

pub fn assign_op(tokens: &mut Tokens<'_>) -> Result<AssignOp, ParseError>
    ensures { Reads (spec.expect_some grammar.assignment_of (symbols tokens.old)) result tokens.new }
{
    let Some(op) = assignment_of(tokens.peek()) else {
        return Err(tokens.refuse());
    };
    tokens.take();
    Ok(op)
}

/// Whether a statement of an inner task can begin so.
pub fn begins_stmt(class: Class) -> bool
    ensures { result ≡ spec.begins_stmt class }
{
    matches!(
        class,
        Class::Word | Class::Key(Keyword::Mappar | Keyword::Mapseq | Keyword::Mapreduce)
    )
}

/// Whether a statement of a leaf task can begin so.
pub fn begins_leaf_stmt(class: Class) -> bool
    ensures { result ≡ spec.begins_leaf_stmt class }
{
    matches!(class, Class::Word | Class::Key(Keyword::If | Keyword::For))
}

/// Whether a declaration, of an inner task or a leaf task, can begin so.
pub fn begins_decl(is_inner: bool, class: Class) -> bool
    ensures { result ≡ spec.begins_decl is_inner class }
{
    match class {
        Class::Key(Keyword::Tunable | Keyword::Local) => true,
        Class::Key(Keyword::Blkset) => is_inner,
        _ => false,
    }
}

/// Whether a task can begin so.
pub fn begins_task(class: Class) -> bool
    ensures { result ≡ spec.begins_task class }
{
    matches!(class, Class::Key(Keyword::Void | Keyword::Task))
}
