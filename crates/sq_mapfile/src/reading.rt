//! Reading the tokens of a mapping file.

ghost use Rattle.std.specs.Prelude.{◌≡◌, ◌≤◌, IfOk};
ghost use Rattle.sq_text.specs.Answers.{IfRefused};
ghost use Rattle.sq_lexer.specs.Tokens.{HasEnd};
ghost use Rattle.sq_mapfile.specs.Grammar.{IsTextOf};
ghost use Rattle.sq_mapfile.specs.Mappings.{IsSyntaxFaultOf};
ghost use Rattle.sq_mapfile.specs.Reading as spec;
ghost use Rattle.sq_patterns.specs.Reading.{Reads, ReadsFront};

use crate::text::{Alternatives, InstanceText, ItemText, MappingText, SizeText, Tunables, Version};
use sq_ast::VariantKind;
use sq_lexer::{Sign, Token};
use sq_mapping::{Numbers, Setting};
use sq_patterns::{Pattern, ReadError, Tokens, number_at, syntax_fault, word_at};
use sq_text::{Phase, SpreadRule, Stop, Word};
use sqlite_items::Items;
use std::alloc::{AllocError, Global};

// Behind the word `mapping`.
const FIRST_HEAD: [Pattern; 5] = [
    Pattern::Exactly(1),
    Pattern::Sign(Sign::Semi),
    Pattern::Entry,
    Pattern::AnyWord,
    Pattern::Sign(Sign::ParenOpen),
];

const SECOND_HEAD: [Pattern; 5] = [
    Pattern::Exactly(2),
    Pattern::Sign(Sign::Semi),
    Pattern::Entry,
    Pattern::AnyWord,
    Pattern::Sign(Sign::ParenOpen),
];

const SIZE: [Pattern; 3] = [
    Pattern::AnyWord,
    Pattern::Sign(Sign::Set),
    Pattern::AnyNumber,
];

const NEXT_SIZE: [Pattern; 4] = [
    Pattern::Sign(Sign::Comma),
    Pattern::AnyWord,
    Pattern::Sign(Sign::Set),
    Pattern::AnyNumber,
];

const SIZES_END: [Pattern; 2] = [Pattern::Sign(Sign::ParenClose), Pattern::Sign(Sign::Semi)];

const MINUS: [Pattern; 2] = [Pattern::Sign(Sign::Minus), Pattern::AnyNumber];

const TUNABLE: [Pattern; 3] = [Pattern::Tunable, Pattern::AnyWord, Pattern::Sign(Sign::Set)];

const CALL: [Pattern; 5] = [
    Pattern::Call,
    Pattern::AnyWord,
    Pattern::Sign(Sign::Arrow),
    Pattern::AnyWord,
    Pattern::Sign(Sign::Semi),
];

const SPREAD: [Pattern; 2] = [Pattern::Spread, Pattern::Sign(Sign::Set)];

const INSTANCE: [Pattern; 5] = [
    Pattern::Instance,
    Pattern::AnyWord,
    Pattern::Sign(Sign::Set),
    Pattern::AnyWord,
    Pattern::Sign(Sign::Path),
];

const LEVEL: [Pattern; 3] = [
    Pattern::Sign(Sign::At),
    Pattern::AnyWord,
    Pattern::Sign(Sign::BraceOpen),
];

// ---- sizes

fn size_at(alloc: Global, read: &[Token], at: usize) -> Result<SizeText, AllocError>
    requires { at ≤ 1 }
    ensures { IfOk result (λ size. size ≡ spec.size_at at read.now) }
{
    let name = word_at(alloc, read, at)?;
    let value = number_at(read, at + 2);
    Ok(SizeText { name, value })
}

fn first_size(alloc: Global, tokens: &mut Tokens<'_>) -> Result<SizeText, ReadError>
    ensures { Reads (spec.first_size tokens.old) result tokens.new }
{
    let read = tokens.all(&SIZE)?;
    let size = size_at(alloc, read, 0)?;
    Ok(size)
}

fn next_size(alloc: Global, tokens: &mut Tokens<'_>) -> Result<SizeText, ReadError>
    ensures { Reads (spec.next_size tokens.old) result tokens.new }
{
    let read = tokens.all(&NEXT_SIZE)?;
    let size = size_at(alloc, read, 1)?;
    Ok(size)
}

// The first size and those after it, up to the bracket.
#[tactic(auto, unfolding(crate::specs::Reading::more_sizes, sq_patterns::specs::Reading::until))]
fn more_sizes(
    alloc: Global,
    tokens: &mut Tokens<'_>,
    first: SizeText,
) -> Result<Items<SizeText>, ReadError>
    ensures { Reads (spec.more_sizes first tokens.old) result tokens.new }
{
    let mut found = Items::new(alloc);
    found.push(first)?;
    for _turn in 0..tokens.len() {
        if tokens.sees(Pattern::Sign(Sign::ParenClose)) {
            return Ok(found);
        }
        let next = next_size(alloc, tokens)?;
        found.push(next)?;
    }
    Ok(found)
}

fn sizes(alloc: Global, tokens: &mut Tokens<'_>) -> Result<Items<SizeText>, ReadError>
    ensures { Reads (spec.sizes tokens.old) result tokens.new }
{
    if tokens.sees(Pattern::Sign(Sign::ParenClose)) {
        return Ok(Items::new(alloc));
    }
    let first = first_size(alloc, tokens)?;
    more_sizes(alloc, tokens, first)
}

// ---- settings

fn negative(tokens: &mut Tokens<'_>) -> Result<i64, ReadError>
    ensures { Reads (spec.negative tokens.old) result tokens.new }
{
    let read = tokens.all(&MINUS)?;
    Ok(-number_at(read, 1))
}

fn plain(tokens: &mut Tokens<'_>) -> Result<i64, ReadError>
    ensures { Reads (spec.plain tokens.old) result tokens.new }
{
    let read = tokens.all(&[Pattern::AnyNumber])?;
    Ok(number_at(read, 0))
}

fn value(tokens: &mut Tokens<'_>) -> Result<i64, ReadError>
    ensures { Reads (spec.value tokens.old) result tokens.new }
{
    if tokens.sees(Pattern::Sign(Sign::Minus)) {
        return negative(tokens);
    }
    plain(tokens)
}

fn next_value(tokens: &mut Tokens<'_>) -> Result<i64, ReadError>
    ensures { Reads (spec.next_value tokens.old) result tokens.new }
{
    let _comma = tokens.all(&[Pattern::Sign(Sign::Comma)])?;
    value(tokens)
}

// The first value and those after it, up to the bracket.
#[tactic(auto, unfolding(crate::specs::Reading::more_values, sq_patterns::specs::Reading::until))]
fn more_values(alloc: Global, tokens: &mut Tokens<'_>, first: i64) -> Result<Numbers, ReadError>
    ensures { Reads (spec.more_values first tokens.old) result tokens.new }
{
    let mut found = Items::new(alloc);
    found.push(first)?;
    for _turn in 0..tokens.len() {
        if tokens.sees(Pattern::Sign(Sign::BracketClose)) {
            return Ok(found);
        }
        let next = next_value(tokens)?;
        found.push(next)?;
    }
    Ok(found)
}

fn values(alloc: Global, tokens: &mut Tokens<'_>) -> Result<Numbers, ReadError>
    ensures { Reads (spec.values tokens.old) result tokens.new }
{
    if tokens.sees(Pattern::Sign(Sign::BracketClose)) {
        return Ok(Items::new(alloc));
    }
    let first = value(tokens)?;
    more_values(alloc, tokens, first)
}

fn many(alloc: Global, tokens: &mut Tokens<'_>) -> Result<Setting, ReadError>
    ensures { Reads (spec.many tokens.old) result tokens.new }
{
    let _open = tokens.all(&[Pattern::Sign(Sign::BracketOpen)])?;
    let numbers = values(alloc, tokens)?;
    let _close = tokens.all(&[Pattern::Sign(Sign::BracketClose)])?;
    Ok(Setting::Many(numbers))
}

fn setting(alloc: Global, tokens: &mut Tokens<'_>) -> Result<Setting, ReadError>
    ensures { Reads (spec.setting tokens.old) result tokens.new }
{
    if tokens.sees(Pattern::Sign(Sign::BracketOpen)) {
        return many(alloc, tokens);
    }
    let number = value(tokens)?;
    Ok(Setting::One(number))
}

fn next_setting(alloc: Global, tokens: &mut Tokens<'_>) -> Result<Setting, ReadError>
    ensures { Reads (spec.next_setting tokens.old) result tokens.new }
{
    let _bar = tokens.all(&[Pattern::Sign(Sign::Bar)])?;
    setting(alloc, tokens)
}

// The settings behind the first one, up to the semicolon.
#[tactic(auto, unfolding(crate::specs::Reading::more_settings, sq_patterns::specs::Reading::until))]
fn more_settings(alloc: Global, tokens: &mut Tokens<'_>) -> Result<Items<Setting>, ReadError>
    ensures { Reads (spec.more_settings tokens.old) result tokens.new }
{
    let mut found = Items::new(alloc);
    for _turn in 0..tokens.len() {
        if tokens.sees(Pattern::Sign(Sign::Semi)) {
            return Ok(found);
        }
        let next = next_setting(alloc, tokens)?;
        found.push(next)?;
    }
    Ok(found)
}

fn others(
    alloc: Global,
    tokens: &mut Tokens<'_>,
    tunables: Tunables,
) -> Result<Items<Setting>, ReadError>
    ensures { Reads (spec.others tunables tokens.old) result tokens.new }
{
    match tunables {
        Tunables::Fixed => Ok(Items::new(alloc)),
        Tunables::Varied => more_settings(alloc, tokens),
    }
}

fn alternatives(
    alloc: Global,
    tokens: &mut Tokens<'_>,
    tunables: Tunables,
) -> Result<Alternatives, ReadError>
    ensures { Reads (spec.alternatives tunables tokens.old) result tokens.new }
{
    let first = setting(alloc, tokens)?;
    let others = others(alloc, tokens, tunables)?;
    Ok(Alternatives { first, others })
}

// ---- instances

fn tunable(
    alloc: Global,
    tokens: &mut Tokens<'_>,
    tunables: Tunables,
) -> Result<ItemText, ReadError>
    ensures { Reads (spec.tunable tunables tokens.old) result tokens.new }
{
    let read = tokens.all(&TUNABLE)?;
    let values = alternatives(alloc, tokens, tunables)?;
    let _semi = tokens.all(&[Pattern::Sign(Sign::Semi)])?;
    let name = word_at(alloc, read, 1)?;
    Ok(ItemText::Tunable { name, values })
}

fn call(alloc: Global, tokens: &mut Tokens<'_>) -> Result<ItemText, ReadError>
    ensures { Reads (spec.call tokens.old) result tokens.new }
{
    let read = tokens.all(&CALL)?;
    let task = word_at(alloc, read, 1)?;
    let instance = word_at(alloc, read, 3)?;
    Ok(ItemText::Call { task, instance })
}

fn rule(tokens: &mut Tokens<'_>) -> Result<SpreadRule, ReadError>
    ensures { Reads (spec.rule tokens.old) result tokens.new }
{
    if tokens.sees(Pattern::Cyclic) {
        let _cyclic = tokens.all(&[Pattern::Cyclic])?;
        return Ok(SpreadRule::Cyclic);
    }
    let _blocked = tokens.all(&[Pattern::Blocked])?;
    Ok(SpreadRule::Blocked)
}

fn spread(alloc: Global, tokens: &mut Tokens<'_>) -> Result<ItemText, ReadError>
    ensures { Reads (spec.spread tokens.old) result tokens.new }
{
    let read = tokens.all(&SPREAD)?;
    let rule = rule(tokens)?;
    let _semi = tokens.all(&[Pattern::Sign(Sign::Semi)])?;
    let word = word_at(alloc, read, 0)?;
    Ok(ItemText::Spread { word, rule })
}

// An item of either version.
fn plain_item(
    alloc: Global,
    tokens: &mut Tokens<'_>,
    tunables: Tunables,
) -> Result<ItemText, ReadError>
    ensures { Reads (spec.plain_item tunables tokens.old) result tokens.new }
{
    if tokens.sees(Pattern::Tunable) {
        return tunable(alloc, tokens, tunables);
    }
    call(alloc, tokens)
}

fn item(
    alloc: Global,
    tokens: &mut Tokens<'_>,
    tunables: Tunables,
    version: Version,
) -> Result<ItemText, ReadError>
    ensures { Reads (spec.item tunables version tokens.old) result tokens.new }
{
    match version {
        Version::First => plain_item(alloc, tokens, tunables),
        Version::Second => {
            if tokens.sees(Pattern::Spread) {
                return spread(alloc, tokens);
            }
            plain_item(alloc, tokens, tunables)
        }
    }
}

#[tactic(auto, unfolding(crate::specs::Reading::items, sq_patterns::specs::Reading::until))]
fn items(
    alloc: Global,
    tokens: &mut Tokens<'_>,
    tunables: Tunables,
    version: Version,
) -> Result<Items<ItemText>, ReadError>
    ensures { Reads (spec.items tunables version tokens.old) result tokens.new }
{
    let mut found = Items::new(alloc);
    for _turn in 0..tokens.len() {
        if tokens.sees(Pattern::Sign(Sign::BraceClose)) {
            return Ok(found);
        }
        let next = item(alloc, tokens, tunables, version)?;
        found.push(next)?;
    }
    Ok(found)
}

fn kind(tokens: &mut Tokens<'_>) -> Result<VariantKind, ReadError>
    ensures { Reads (spec.kind tokens.old) result tokens.new }
{
    if tokens.sees(Pattern::Inner) {
        let _inner = tokens.all(&[Pattern::Inner])?;
        return Ok(VariantKind::Inner);
    }
    let _leaf = tokens.all(&[Pattern::Leaf])?;
    Ok(VariantKind::Leaf)
}

// The words of an instance, beside what else was read of it.
fn instance_of(
    alloc: Global,
    head: &[Token],
    kind: VariantKind,
    level: &[Token],
    items: Items<ItemText>,
) -> Result<InstanceText, AllocError>
    ensures { IfOk result (λ instance. instance ≡ spec.instance_of head.now kind level.now items) }
{
    let name = word_at(alloc, head, 1)?;
    let task = word_at(alloc, head, 3)?;
    let level = word_at(alloc, level, 1)?;
    Ok(InstanceText {
        name,
        task,
        kind,
        level,
        items,
    })
}

fn instance(
    alloc: Global,
    tokens: &mut Tokens<'_>,
    tunables: Tunables,
    version: Version,
) -> Result<InstanceText, ReadError>
    ensures { Reads (spec.instance tunables version tokens.old) result tokens.new }
{
    let head = tokens.all(&INSTANCE)?;
    let kind = kind(tokens)?;
    let level = tokens.all(&LEVEL)?;
    let items = items(alloc, tokens, tunables, version)?;
    let _close = tokens.all(&[Pattern::Sign(Sign::BraceClose)])?;
    let instance = instance_of(alloc, head, kind, level, items)?;
    Ok(instance)
}

#[tactic(auto, unfolding(crate::specs::Reading::instances, sq_patterns::specs::Reading::until))]
fn instances(
    alloc: Global,
    tokens: &mut Tokens<'_>,
    tunables: Tunables,
    version: Version,
) -> Result<Items<InstanceText>, ReadError>
    ensures { Reads (spec.instances tunables version tokens.old) result tokens.new }
{
    let mut found = Items::new(alloc);
    for _turn in 0..tokens.len() {
        if tokens.sees(Pattern::End) {
            return Ok(found);
        }
        let next = instance(alloc, tokens, tunables, version)?;
        found.push(next)?;
    }
    Ok(found)
}

// ---- the whole

// The number of the version and what stands before the sizes.
fn head<'t>(tokens: &mut Tokens<'t>, version: Version) -> Result<&'t [Token], ReadError>
    ensures { ReadsFront (spec.head version tokens.old) result tokens.new }
{
    match version {
        Version::First => tokens.all(&FIRST_HEAD),
        Version::Second => tokens.all(&SECOND_HEAD),
    }
}

// The name of the entry, and its sizes.
fn entry(
    alloc: Global,
    tokens: &mut Tokens<'_>,
    version: Version,
) -> Result<(Word, Items<SizeText>), ReadError>
    ensures { Reads (spec.entry version tokens.old) result tokens.new }
{
    let head = head(tokens, version)?;
    let sizes = sizes(alloc, tokens)?;
    let _close = tokens.all(&SIZES_END)?;
    let entry = word_at(alloc, head, 3)?;
    Ok((entry, sizes))
}

// What stands behind the word `mapping`.
#[tactic(auto, unfolding(crate::specs::Reading::body))]
fn body(
    alloc: Global,
    tokens: &mut Tokens<'_>,
    tunables: Tunables,
    version: Version,
) -> Result<MappingText, ReadError>
    ensures { Reads (spec.body tunables version tokens.old) result tokens.new }
{
    let (entry, sizes) = entry(alloc, tokens, version)?;
    let instances = instances(alloc, tokens, tunables, version)?;
    let _end = tokens.all(&[Pattern::End])?;
    if tokens.len() > 0 {
        return Err(ReadError::Syntax(tokens.len()));
    }
    Ok(MappingText {
        entry,
        sizes,
        instances,
    })
}

fn mapping(
    alloc: Global,
    tokens: &mut Tokens<'_>,
    tunables: Tunables,
) -> Result<MappingText, ReadError>
    ensures { Reads (spec.mapping tunables tokens.old) result tokens.new }
{
    let _word = tokens.all(&[Pattern::Mapping])?;
    if tokens.sees(Pattern::Exactly(1)) {
        return body(alloc, tokens, tunables, Version::First);
    }
    body(alloc, tokens, tunables, Version::Second)
}

/// What the tokens write, or the first token with which no text of the grammar begins.
pub fn parse(alloc: Global, tokens: &[Token], tunables: Tunables) -> Result<MappingText, Stop>
    requires { HasEnd tokens.now }
    ensures found { IfOk result (λ m. IsTextOf tunables tokens.now m) }
    ensures refused { IfRefused result (λ f. IsSyntaxFaultOf tunables tokens.now f) }
{
    let mut rest = Tokens::new(tokens);
    match mapping(alloc, &mut rest, tunables) {
        Ok(found) => Ok(found),
        Err(ReadError::NoMemory) => Err(Stop::NoMemory),
        Err(ReadError::Syntax(left)) => {
            let fault = syntax_fault(alloc, Phase::Mapping, tokens, left);
            Err(Stop::Refused(fault))
        }
    }
}
