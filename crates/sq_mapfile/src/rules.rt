//! The rules of a mapping that need what is required or known, as tests.

ghost use Rattle.std.specs.Prelude.{◌≡◌, ◌==◌, suc};
ghost use Rattle.std.specs.Option.{option_copied};
ghost use Rattle.sq_mapping.specs.Sound.{is_list};
ghost use Rattle.sq_mapfile.specs.Names.{stands_before};
ghost use Rattle.sq_mapfile.specs.Faults as spec;

use crate::given::{ItemTable, SizeTable};
use crate::required::Required;
use crate::text::InstanceText;
use sq_ast::VariantKind;
use sq_mapping::Setting;
use sq_text::Name;

/// Whether the first item of a name stands before an index.
pub fn stands_before(first: Option<usize>, i: usize) -> bool
    ensures { result ≡ stands_before first i }
{
    match first {
        None => false,
        Some(first) => first < i,
    }
}

/// The first task that the variant calls for which the instance has no item.
pub fn missing_call<'r>(required: Option<&'r Required>, items: &ItemTable<'_>) -> Option<&'r Name>
    ensures { option_copied result ≡ spec.missing_call (option_copied required.entry) items.now.items.now }
{
    match required {
        None => None,
        Some(required) => items.missing_call(required.calls()),
    }
}

/// Whether the variant doesn't call this task.
pub fn is_uncalled(required: Option<&Required>, task: &Name) -> bool
    ensures { result ≡ spec.is_uncalled (option_copied required.entry) task.now }
{
    match required {
        None => false,
        Some(required) => !required.is_called(task),
    }
}

/// Whether the instance is one of another task.
pub fn is_of_other_task(instance: Option<&InstanceText>, task: &Name) -> bool
    ensures { result ≡ spec.is_of_other_task (option_copied instance.entry) task.now }
{
    match instance {
        None => false,
        Some(instance) => !(*task == instance.task.name),
    }
}

// Whether a level is the next one below another.
fn is_next(level: usize, above: usize) -> bool
    ensures { result ≡ (level == suc above) }
{
    level > above && level - above == 1
}

/// Whether the callee's level is neither the caller's nor the next.
pub fn is_skip(caller: Option<usize>, callee: Option<usize>) -> bool
    ensures { result ≡ spec.is_skip caller callee }
{
    match (caller, callee) {
        (Some(caller), Some(callee)) => !(callee == caller || is_next(callee, caller)),
        _ => false,
    }
}

pub fn is_below_root(level: Option<usize>) -> bool
    ensures { result ≡ spec.is_below_root level }
{
    match level {
        None => false,
        Some(level) => level != 0,
    }
}

/// The first tunable of the variant for which the instance has no item.
pub fn missing_tunable<'r>(
    required: Option<&'r Required>,
    items: &ItemTable<'_>,
) -> Option<&'r Name>
    ensures { option_copied result ≡ spec.missing_tunable (option_copied required.entry) items.now.items.now }
{
    match required {
        None => None,
        Some(required) => required.missing_tunable(items),
    }
}

/// Whether the variant has no such tunable.
pub fn is_no_tunable(required: Option<&Required>, name: &Name) -> bool
    ensures { result ≡ spec.is_no_tunable (option_copied required.entry) name.now }
{
    match required {
        None => false,
        Some(required) => required.tunable(name).is_none(),
    }
}

fn is_list(setting: &Setting) -> bool
    ensures { result ≡ is_list setting.now }
{
    match setting {
        Setting::One(_) => false,
        Setting::Many(_) => true,
    }
}

fn is_other(wants_list: Option<bool>, setting: &Setting) -> bool
    ensures { result ≡ spec.is_other wants_list setting.now }
{
    match wants_list {
        None => false,
        Some(wants_list) => wants_list != is_list(setting),
    }
}

/// Whether there is a list for a number, or a number for a list.
pub fn is_other_kind(required: Option<&Required>, name: &Name, setting: &Setting) -> bool
    ensures { result ≡ spec.is_other_kind (option_copied required.entry) name.now setting.now }
{
    match required {
        None => false,
        Some(required) => is_other(required.tunable(name), setting),
    }
}

/// The first size name of the entry that has no value.
pub fn missing_size<'r>(required: Option<&'r Required>, sizes: &SizeTable<'_>) -> Option<&'r Name>
    ensures { option_copied result ≡ spec.missing_size (option_copied required.entry) sizes.now.sizes.now }
{
    match required {
        None => None,
        Some(required) => sizes.missing(required.sizes()),
    }
}

/// Whether the entry has no such size name.
pub fn is_no_size(required: Option<&Required>, name: &Name) -> bool
    ensures { result ≡ spec.is_no_size (option_copied required.entry) name.now }
{
    match required {
        None => false,
        Some(required) => !required.has_size(name),
    }
}

pub fn is_leaf(kind: VariantKind) -> bool
    ensures { result ≡ spec.is_leaf kind }
{
    match kind {
        VariantKind::Inner => false,
        VariantKind::Leaf => true,
    }
}
