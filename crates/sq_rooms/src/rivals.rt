//! The least buffer that lacks room with a later one.

ghost use Rattle.std.specs.Prelude.{◌≡◌, ◌&&◌, nat_lt, None};
ghost use Rattle.sq_ir.specs.Plans.{setting_of};
ghost use Rattle.sq_rooms.specs.Rivals as spec;

use crate::named::Named;
use crate::room::{passes, share};
use sq_ir::Plan;

fn is_same(later: Named, name: Named) -> bool
    ensures { result ≡ spec.is_same later name }
{
    name.node == later.node && name.buffer == later.buffer
}

fn is_rival(plan: &Plan, later: Named, name: Named) -> bool
    ensures { result ≡ spec.is_rival (setting_of plan.now) later name }
{
    name.node == later.node
        && (name.buffer < later.buffer && share(plan, name.buffer, later.buffer))
}

fn lesser(best: Option<u32>, number: u32) -> Option<u32>
    ensures { result ≡ spec.lesser best number }
{
    match best {
        None => Some(number),
        Some(known) => Some(known.min(number)),
    }
}

fn lesser_if(is_met: bool, best: Option<u32>, number: u32) -> Option<u32>
    ensures { result ≡ spec.lesser_if is_met best number }
{
    if is_met { lesser(best, number) } else { best }
}

fn end_with(later: Named, end: u32, name: Named) -> u32
    ensures { result ≡ spec.end_with later end name }
{
    if is_same(later, name) {
        end.max(name.end)
    } else {
        end
    }
}

fn is_met_behind(plan: &Plan, later: Named, end: u32, name: Named) -> bool
    ensures { result ≡ nat_lt name.first end && spec.is_rival (setting_of plan.now) later name }
{
    name.first < end && is_rival(plan, later, name)
}

// Rivals that stand behind the later buffer.
fn behind(plan: &Plan, names: &[Named], later: Named) -> Option<u32>
    ensures { result ≡ spec.behind (setting_of plan.now) later 0 None names.now }
{
    let mut end = 0;
    let mut best = None;
    for name in names {
        let is_met = is_met_behind(plan, later, end, *name);
        best = lesser_if(is_met, best, name.buffer);
        end = end_with(later, end, *name);
    }
    best
}

fn begins_in(start: Option<u32>, name: Named) -> bool
    ensures { result ≡ spec.begins_in start name }
{
    match start {
        None => false,
        Some(start) => start < name.end,
    }
}

fn is_met_before(plan: &Plan, later: Named, start: Option<u32>, name: Named) -> bool
    ensures { result ≡ spec.begins_in start name && spec.is_rival (setting_of plan.now) later name }
{
    begins_in(start, name) && is_rival(plan, later, name)
}

fn start_with(later: Named, start: Option<u32>, name: Named) -> Option<u32>
    ensures { result ≡ spec.start_with later start name }
{
    lesser_if(is_same(later, name), start, name.first)
}

// Rivals that stand before it, too.
fn before(plan: &Plan, names: &[Named], later: Named, found: Option<u32>) -> Option<u32>
    ensures { result ≡ spec.before (setting_of plan.now) later found names.now }
{
    let mut start = None;
    let mut best = found;
    let mut i = names.len();
    while i > 0 {
        i -= 1;
        let name = names[i];
        let is_met = is_met_before(plan, later, start, name);
        best = lesser_if(is_met, best, name.buffer);
        start = start_with(later, start, name);
    }
    best
}

fn or_itself(plan: &Plan, later: Named, found: Option<u32>) -> Option<u32>
    ensures { result ≡ spec.or_itself (setting_of plan.now) later found }
{
    match found {
        Some(earlier) => Some(earlier),
        None => {
            if passes(plan, later.node, later.buffer) {
                Some(later.buffer)
            } else {
                None
            }
        }
    }
}

/// The least buffer that lacks room with the one of this name, at its node.
pub(crate) fn earliest(plan: &Plan, names: &[Named], later: Named) -> Option<u32>
    ensures { result ≡ spec.earliest (setting_of plan.now) names.now later }
{
    let found = behind(plan, names, later);
    let found = before(plan, names, later, found);
    or_itself(plan, later, found)
}
