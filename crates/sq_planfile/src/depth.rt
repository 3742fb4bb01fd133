//! Whether a term has too many levels of brackets.

ghost use Rattle.std.specs.Prelude.{◌≡◌, suc, nat_lt, map};
ghost use Rattle.sq_planfile.specs.Limits as limits;
ghost use Rattle.sq_planfile.specs.Limits.{event_depth, greatest};

use sq_plantext::{EventText, TermText};

// Whether an event opens more levels than so many.
fn is_deeper_event(event: &EventText, levels: usize) -> bool
    ensures { result ≡ nat_lt levels (event_depth event.now) }
{
    match event {
        EventText::Run { views, .. } => {
            if views.len() == 0 {
                levels < 1
            } else {
                levels < 2
            }
        }
        _ => false,
    }
}

/// Whether a term opens more levels than so many.
#[cycle(measuring)]
#[tactic(auto, using(crate::proofs::Sizes::depth_forms))]
pub(crate) fn is_deeper(term: &TermText, levels: usize) -> bool
    ensures { result ≡ nat_lt levels (limits.depth term.now) }
{
    match term {
        TermText::Seq(parts) => is_list_deeper(parts.as_slice(), levels),
        TermText::Par(parts) => is_list_deeper(parts.as_slice(), levels),
        TermText::At { body, .. } => is_body_deeper(body.get(), levels),
        TermText::Act { event, .. } => is_deeper_event(event, levels),
    }
}

// The same of a scope round a term.
#[cycle(measuring)]
#[tactic(auto, using(crate::proofs::Depths::one_less, crate::proofs::Depths::none_left))]
fn is_body_deeper(body: &TermText, levels: usize) -> bool
    ensures { result ≡ nat_lt levels (suc (limits.depth body.now)) }
{
    if levels == 0 {
        return true;
    }
    is_deeper(body, levels - 1)
}

// The same of parts in braces.
#[cycle(measuring)]
#[tactic(auto, using(crate::proofs::Depths::one_less, crate::proofs::Depths::none_left))]
fn is_list_deeper(parts: &[TermText], levels: usize) -> bool
    ensures { result ≡ nat_lt levels (suc (greatest (map limits.depth parts.now))) }
{
    if levels == 0 {
        return true;
    }
    is_any_deeper(parts, levels - 1)
}

// Whether one of some parts opens more levels than so many.
#[cycle(measuring)]
fn is_any_deeper(parts: &[TermText], levels: usize) -> bool
    ensures { result ≡ nat_lt levels (greatest (map limits.depth parts.now)) }
{
    for part in parts {
        if is_deeper(part, levels) {
            return true;
        }
    }
    false
}
