//! Reading the tokens of a machine file.

ghost use Rattle.std.specs.Prelude.{IfOk};
ghost use Rattle.sq_text.specs.Answers.{IfRefused};
ghost use Rattle.sq_lexer.specs.Tokens.{HasEnd};
ghost use Rattle.sq_machfile.specs.Grammar.{IsText};
ghost use Rattle.sq_machfile.specs.Machines.{IsSyntaxFault};
ghost use Rattle.sq_machfile.specs.Reading as spec;
ghost use Rattle.sq_patterns.specs.Reading.{Reads};

use crate::text::{Below, LevelText, LevelsText, MachineText, NodeText, NodesText};
use sq_lexer::{Sign, Token};
use sq_patterns::{Pattern, ReadError, Tokens, numeral_at, syntax_fault, word_at};
use sq_text::{Phase, Stop, Word};
use sqlite_items::Items;
use std::alloc::Global;

const ONE: [Pattern; 2] = [Pattern::Exactly(1), Pattern::Sign(Sign::Semi)];

const LEVEL: [Pattern; 7] = [
    Pattern::Level,
    Pattern::AnyWord,
    Pattern::Sign(Sign::BraceOpen),
    Pattern::Capacity,
    Pattern::AnyNumber,
    Pattern::Sign(Sign::Semi),
    Pattern::Sign(Sign::BraceClose),
];

const CHILDREN: [Pattern; 3] = [
    Pattern::Children,
    Pattern::AnyNumber,
    Pattern::Sign(Sign::Semi),
];

const TWO: [Pattern; 4] = [
    Pattern::Exactly(2),
    Pattern::Sign(Sign::Semi),
    Pattern::Levels,
    Pattern::AnyWord,
];

const NAME: [Pattern; 2] = [Pattern::Sign(Sign::Comma), Pattern::AnyWord];

const NODE: [Pattern; 6] = [
    Pattern::Node,
    Pattern::AnyWord,
    Pattern::Sign(Sign::BraceOpen),
    Pattern::Capacity,
    Pattern::AnyNumber,
    Pattern::Sign(Sign::Semi),
];

fn level(alloc: Global, tokens: &mut Tokens<'_>) -> Result<LevelText, ReadError>
    ensures { Reads (spec.level tokens.old) result tokens.new }
{
    let read = tokens.all(&LEVEL)?;
    let name = word_at(alloc, read, 1)?;
    let capacity = numeral_at(read, 4);
    Ok(LevelText { name, capacity })
}

fn below(alloc: Global, tokens: &mut Tokens<'_>) -> Result<Below, ReadError>
    ensures { Reads (spec.below tokens.old) result tokens.new }
{
    let read = tokens.all(&CHILDREN)?;
    let children = numeral_at(read, 1);
    let level = level(alloc, tokens)?;
    Ok(Below { children, level })
}

#[tactic(auto, unfolding(crate::specs::Reading::levels_below, sq_patterns::specs::Reading::until))]
fn levels_below(alloc: Global, tokens: &mut Tokens<'_>) -> Result<Items<Below>, ReadError>
    ensures { Reads (spec.levels_below tokens.old) result tokens.new }
{
    let mut found = Items::new(alloc);
    for _turn in 0..tokens.len() {
        if tokens.sees(Pattern::End) {
            return Ok(found);
        }
        let next = below(alloc, tokens)?;
        found.push(next)?;
    }
    Ok(found)
}

#[tactic(auto, unfolding(crate::specs::Reading::levels))]
fn levels(alloc: Global, tokens: &mut Tokens<'_>) -> Result<LevelsText, ReadError>
    ensures { Reads (spec.levels tokens.old) result tokens.new }
{
    let _head = tokens.all(&ONE)?;
    let root = level(alloc, tokens)?;
    let below = levels_below(alloc, tokens)?;
    Ok(LevelsText { root, below })
}

fn name(alloc: Global, tokens: &mut Tokens<'_>) -> Result<Word, ReadError>
    ensures { Reads (spec.name tokens.old) result tokens.new }
{
    let read = tokens.all(&NAME)?;
    let word = word_at(alloc, read, 1)?;
    Ok(word)
}

#[tactic(auto, unfolding(crate::specs::Reading::names_from, sq_patterns::specs::Reading::until))]
fn names_from(alloc: Global, tokens: &mut Tokens<'_>, first: Word) -> Result<Items<Word>, ReadError>
    ensures { Reads (spec.names_from first tokens.old) result tokens.new }
{
    let mut found = Items::new(alloc);
    found.push(first)?;
    for _turn in 0..tokens.len() {
        if tokens.sees(Pattern::Sign(Sign::Semi)) {
            return Ok(found);
        }
        let next = name(alloc, tokens)?;
        found.push(next)?;
    }
    Ok(found)
}

// A node up to those in it.
fn node(alloc: Global, tokens: &mut Tokens<'_>, depth: usize) -> Result<NodeText, ReadError>
    ensures { Reads (spec.node depth tokens.old) result tokens.new }
{
    let read = tokens.all(&NODE)?;
    let name = word_at(alloc, read, 1)?;
    let capacity = numeral_at(read, 4);
    Ok(NodeText {
        depth,
        name,
        capacity,
    })
}

// The nodes up to the end of this one. A depth beyond all numbers is beyond all memory.
#[tactic(auto, unfolding(crate::specs::Reading::nodes_of, crate::specs::Reading::nodes_in))]
fn nodes_of(
    alloc: Global,
    tokens: &mut Tokens<'_>,
    root: NodeText,
) -> Result<Items<NodeText>, ReadError>
    ensures { Reads (spec.nodes_of root tokens.old) result tokens.new }
{
    let mut found = Items::new(alloc);
    found.push(root)?;
    let mut depth: usize = 1;
    for _turn in 0..tokens.len() {
        if depth == 0 {
            return Ok(found);
        }
        if tokens.sees(Pattern::Sign(Sign::BraceClose)) {
            let _brace = tokens.all(&[Pattern::Sign(Sign::BraceClose)])?;
            depth -= 1;
        } else {
            let node = node(alloc, tokens, depth)?;
            found.push(node)?;
            depth = depth.checked_add(1).ok_or(ReadError::NoMemory)?;
        }
    }
    if depth > 0 {
        return Err(ReadError::Syntax(tokens.len()));
    }
    Ok(found)
}

#[tactic(auto, unfolding(crate::specs::Reading::nodes))]
fn nodes(alloc: Global, tokens: &mut Tokens<'_>) -> Result<NodesText, ReadError>
    ensures { Reads (spec.nodes tokens.old) result tokens.new }
{
    let head = tokens.all(&TWO)?;
    let first = word_at(alloc, head, 3)?;
    let names = names_from(alloc, tokens, first)?;
    let _semi = tokens.all(&[Pattern::Sign(Sign::Semi)])?;
    let root = node(alloc, tokens, 0)?;
    let nodes = nodes_of(alloc, tokens, root)?;
    Ok(NodesText { names, nodes })
}

fn either(alloc: Global, tokens: &mut Tokens<'_>) -> Result<MachineText, ReadError>
    ensures { Reads (spec.either tokens.old) result tokens.new }
{
    if tokens.sees(Pattern::Exactly(1)) {
        let text = levels(alloc, tokens)?;
        Ok(MachineText::Levels(text))
    } else {
        let text = nodes(alloc, tokens)?;
        Ok(MachineText::Nodes(text))
    }
}

#[tactic(auto, unfolding(crate::specs::Reading::machine))]
fn machine(alloc: Global, tokens: &mut Tokens<'_>) -> Result<MachineText, ReadError>
    ensures { Reads (spec.machine tokens.old) result tokens.new }
{
    let _head = tokens.all(&[Pattern::Machine])?;
    let text = either(alloc, tokens)?;
    let _end = tokens.all(&[Pattern::End])?;
    if tokens.len() > 0 {
        return Err(ReadError::Syntax(tokens.len()));
    }
    Ok(text)
}

/// What the tokens write, or the first token with which no text of the grammar begins.
pub fn parse(alloc: Global, tokens: &[Token]) -> Result<MachineText, Stop>
    requires { HasEnd tokens.now }
    ensures found { IfOk result (λ machine. IsText tokens.now machine) }
    ensures refused { IfRefused result (λ f. IsSyntaxFault tokens.now f) }
{
    let mut rest = Tokens::new(tokens);
    match machine(alloc, &mut rest) {
        Ok(found) => Ok(found),
        Err(ReadError::NoMemory) => Err(Stop::NoMemory),
        Err(ReadError::Syntax(left)) => {
            let fault = syntax_fault(alloc, Phase::Machine, tokens, left);
            Err(Stop::Refused(fault))
        }
    }
}
