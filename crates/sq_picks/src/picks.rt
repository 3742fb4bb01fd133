//! The numbers of an order list.

ghost use Rattle.std.specs.Prelude.{◌≡◌, ◌<◌, ◌≤◌, ◌^◌, None, length, MatchOption};
ghost use Rattle.std.specs.List.{list_all};
ghost use Rattle.sq_picks.specs.OrderList as spec;

use sq_port::Picks;
use sq_text::limits::DATA_BYTES;
use sq_text::{Args, Code, Fault, Phase, Place, Stop};
use std::alloc::{AllocError, Global};

fn is_blank(b: u8) -> bool
    ensures { result ≡ spec.is_blank b }
{
    b == b' ' || b == b'\t' || b == b'\r' || b == b'\n'
}

fn is_digit(b: u8) -> bool
    ensures { result ≡ spec.is_digit b }
{
    b >= b'0' && b <= b'9'
}

fn fault_at(alloc: Global, code: Code, place: Place) -> Fault
    ensures { result ≡ spec.fault_at code place }
{
    Fault {
        phase: Phase::Order,
        code,
        place: Some(place),
        args: Args::new(alloc),
    }
}

// Whether all of it are digits.
fn is_number(word: &[u8]) -> bool
    ensures { result ≡ list_all spec.is_digit word.now }
{
    word.iter().all(|b| is_digit(*b))
}

// The number of the digits, where it has 32 bits.
fn number_of(digits: &[u8]) -> Option<u32>
    ensures { MatchOption result (4294967295 < spec.number digits.now) (λ n. n ≡ spec.number digits.now) }
{
    let mut number = 0u64;
    for b in digits {
        number = 10 * number + u64::from(b.saturating_sub(b'0'));
        if number > u64::from(u32::MAX) {
            return None;
        }
    }
    Some(number as u32)
}

fn pick_of(alloc: Global, place: Place, word: &[u8]) -> Result<u32, Fault>
    ensures { result ≡ spec.pick_of (record { place = place; bytes = word.now }) }
{
    if !is_number(word) {
        return Err(fault_at(alloc, Code::Syntax, place));
    }
    match number_of(word) {
        Some(number) => Ok(number),
        None => Err(fault_at(alloc, Code::Range, place)),
    }
}

// A word: the place and the number of its first byte.
#[derive(Clone, Copy)]
struct Begun {
    place: Place,
    from: usize,
}

// Adds the number of the word that ends before the i-th byte, if one has begun.
fn close(
    alloc: Global,
    text: &[u8],
    begun: Option<Begun>,
    i: usize,
    picks: &mut Vec<u32>,
) -> Result<(), Stop>
    requires within { i ≤ length text.now }
    requires begun { spec.IsBegun begun i }
    ensures { spec.Closes result picks.old.items picks.new.items (spec.begun_word text.now begun i) }
{
    let Some(word) = begun else {
        return Ok(());
    };
    match pick_of(alloc, word.place, &text[word.from..i]) {
        Ok(pick) => match picks.push(pick) {
            Ok(()) => Ok(()),
            Err(_) => Err(Stop::NoMemory),
        },
        Err(fault) => Err(Stop::Refused(fault)),
    }
}

// Reads the i-th byte, which stands at this place: the word that has begun behind it.
fn read_byte(
    alloc: Global,
    text: &[u8],
    i: usize,
    place: Place,
    begun: Option<Begun>,
    picks: &mut Vec<u32>,
) -> Result<Option<Begun>, Stop>
    requires within { i < length text.now }
    requires begun { spec.IsBegun begun i }
    ensures { spec.Reads text.now i place begun picks.old.items picks.new.items result }
{
    if is_blank(text[i]) {
        close(alloc, text, begun, i, picks)?;
        return Ok(None);
    }
    match begun {
        Some(word) => Ok(Some(word)),
        None => Ok(Some(Begun { place, from: i })),
    }
}

// The numbers of the words.
fn picks_of(alloc: Global, text: &[u8]) -> Result<Picks, Stop>
    requires { length text.now < 2 ^ 31 }
    ensures { spec.Gives result (spec.picks_of (spec.words_from (record { line = 1; col = 1 }) None text.now)) }
{
    let mut picks = Vec::new(alloc);
    let mut place = Place { line: 1, col: 1 };
    let mut begun = None;
    for i in 0..text.len() {
        begun = read_byte(alloc, text, i, place, begun, &mut picks)?;
        place = place.after(text[i]);
    }
    close(alloc, text, begun, text.len(), &mut picks)?;
    Ok(Picks::new(picks))
}

/// The numbers of an order list in turn, each of 32 bits: words of digits with blanks between them. Else its first
/// fault: a list of more than 268,435,456 bytes, or the first word that is no number or has more bits.
pub fn read_picks(alloc: Global, text: &[u8]) -> Result<Picks, Stop>
    ensures { spec.Gives result (spec.order_list text.now) }
{
    if text.len() > DATA_BYTES {
        return Err(Stop::Refused(Fault {
            phase: Phase::Order,
            code: Code::LimitFile,
            place: None,
            args: Args::new(alloc),
        }));
    }
    let picks = picks_of(alloc, text)?;
    Ok(picks)
}
