//! The rules of alternatives, and how many choices these make.

ghost use Rattle.std.specs.Prelude.{◌≡◌, IfOk, OnOk, length};
ghost use Rattle.std.specs.Option.{option_copied};
ghost use Rattle.sq_text.specs.Found.{Finds};
ghost use Rattle.sq_mapfile.specs.Choices as spec;
ghost use Rattle.sq_mapfile.specs.Faults.{breach_of};
ghost use Rattle.sq_mapfile.specs.Scopes.{scope_of};

use crate::required::Required;
use crate::rules::is_other_kind;
use crate::scope::Scope;
use crate::text::{Alternatives, InstanceText, ItemText};
use sq_mapping::Setting;
use sq_text::{Code, FirstFault, Word};
use std::alloc::AllocError;

// There are no more choices.
const MOST_CHOICES: u64 = 4096;

// So many choices, each with the first alternative or one of so many others. Past the most they count as one more.
#[tactic(auto, unfolding(crate::specs::Choices::most_choices))]
fn times(count: u64, others: usize) -> u64
    ensures { result ≡ spec.times count others }
{
    count
        .saturating_add(count.saturating_mul(others as u64))
        .min(MOST_CHOICES + 1)
}

// Whether the choices pass the most, and didn't before.
#[tactic(auto, unfolding(crate::specs::Choices::most_choices))]
fn passes(before: u64, through: u64) -> bool
    ensures { result ≡ spec.passes before through }
{
    before <= MOST_CHOICES && through > MOST_CHOICES
}

// The alternatives behind the first one.
fn kinds(
    found: &mut FirstFault,
    required: Option<&Required>,
    name: &Word,
    others: &[Setting],
) -> Result<(), AllocError>
    ensures { OnOk result (Finds breach_of found.old found.new (spec.kind_rules (option_copied required.entry) name.now
        others.now)) }
{
    for setting in others {
        let is_other = is_other_kind(required, &name.name, setting);
        found.note_word(Code::TunableKind, name, is_other)?;
    }
    Ok(())
}

// A tunable, with which there are so many choices.
fn tunable(
    found: &mut FirstFault,
    required: Option<&Required>,
    count: u64,
    name: &Word,
    values: &Alternatives,
) -> Result<u64, AllocError>
    ensures found { OnOk result (Finds breach_of found.old found.new (spec.tunable_rules
        (option_copied required.entry) count name.now values.now)) }
    ensures count { IfOk result (λ n. n ≡ spec.times count (length values.now.others)) }
{
    let through = times(count, values.others.len());
    let is_over = passes(count, through);
    found.note_word(Code::LimitChoices, name, is_over)?;
    kinds(found, required, name, values.others.as_slice())?;
    Ok(through)
}

fn item(
    found: &mut FirstFault,
    required: Option<&Required>,
    count: u64,
    item: &ItemText,
) -> Result<u64, AllocError>
    ensures found { OnOk result (Finds breach_of found.old found.new (spec.item_rules (option_copied required.entry)
        count item.now)) }
    ensures count { IfOk result (λ n. n ≡ spec.item_count count item.now) }
{
    match item {
        ItemText::Tunable { name, values } => {
            let through = tunable(found, required, count, name, values)?;
            Ok(through)
        }
        _ => Ok(count),
    }
}

fn items(
    found: &mut FirstFault,
    required: Option<&Required>,
    before: u64,
    items: &[ItemText],
) -> Result<u64, AllocError>
    ensures found { OnOk result (Finds breach_of found.old found.new (spec.items_rules (option_copied required.entry)
        before items.now)) }
    ensures count { IfOk result (λ n. n ≡ spec.items_count before items.now) }
{
    let mut count = before;
    for x in items {
        count = item(found, required, count, x)?;
    }
    Ok(count)
}

/// What the alternatives of these instances break, and how many choices they make: one more than there may be where
/// there are too many.
pub fn instances(
    found: &mut FirstFault,
    scope: &Scope<'_>,
    list: &[InstanceText],
) -> Result<u64, AllocError>
    ensures found { OnOk result (Finds breach_of found.old found.new (spec.instances_rules (scope_of scope.now) 1
        list.now)) }
    ensures count { IfOk result (λ n. n ≡ spec.instances_count 1 list.now) }
{
    let mut count = 1;
    for x in list {
        let required = scope.required_of(x);
        count = items(found, required, count, x.items.as_slice())?;
    }
    Ok(count)
}
