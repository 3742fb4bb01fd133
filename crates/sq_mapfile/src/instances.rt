//! The rules of the instances.

ghost use Rattle.std.specs.Prelude.{◌≡◌, OnOk};
ghost use Rattle.std.specs.Option.{option_copied};
ghost use Rattle.sq_text.specs.Found.{firsts, Finds};
ghost use Rattle.sq_mapfile.specs.Notes as spec;
ghost use Rattle.sq_mapfile.specs.Faults.{breach_of};
ghost use Rattle.sq_mapfile.specs.Scopes.{scope_of};
ghost use Rattle.sq_mapfile.specs.Walk.{name_of_rules, place_of_rules};

use crate::given::ItemTable;
use crate::items::Inside;
use crate::required::Required;
use crate::rules::{missing_call, missing_tunable, stands_before};
use crate::scope::Scope;
use crate::text::InstanceText;
use sq_text::{Code, FirstFault};
use std::alloc::{AllocError, Global};

// The name of the i-th instance.
fn name(
    found: &mut FirstFault,
    scope: &Scope<'_>,
    required: Option<&Required>,
    i: usize,
    x: &InstanceText,
    items: &ItemTable<'_>,
) -> Result<(), AllocError>
    requires { items.now.items.now ≡ x.now.items }
    ensures { OnOk result (Finds breach_of found.old found.new (name_of_rules (scope_of scope.now)
        (option_copied required.entry) i x.now)) }
{
    let is_again = stands_before(scope.index(&x.name.name), i);
    let call = missing_call(required, items);
    let tunable = missing_tunable(required, items);
    found.note_word(Code::DupInstance, &x.name, is_again)?;
    found.note_lack(Code::CallMissing, &x.name, call)?;
    found.note_lack(Code::TunableMissing, &x.name, tunable)?;
    Ok(())
}

// Its task and its level.
fn place(found: &mut FirstFault, scope: &Scope<'_>, x: &InstanceText) -> Result<(), AllocError>
    ensures { OnOk result (Finds breach_of found.old found.new (place_of_rules (scope_of scope.now) x.now)) }
{
    let is_no_task = scope.lacks_task(&x.task.name);
    let is_no_variant = scope.lacks_variant(&x.task.name, x.kind);
    let is_no_level = scope.level(&x.level.name).is_none();
    found.note_word(Code::NoTask, &x.task, is_no_task)?;
    found.note_word(Code::NoVariant, &x.task, is_no_variant)?;
    found.note_word(Code::NoLevel, &x.level, is_no_level)?;
    Ok(())
}

// The i-th instance.
fn instance(
    alloc: Global,
    found: &mut FirstFault,
    scope: &Scope<'_>,
    i: usize,
    x: &InstanceText,
) -> Result<(), AllocError>
    ensures { OnOk result (Finds breach_of found.old found.new (spec.instance_rules (scope_of scope.now) i x.now)) }
{
    let required = scope.required_of(x);
    let items = ItemTable::new(alloc, x.items.as_slice())?;
    let inside = Inside {
        scope,
        required,
        level: scope.level(&x.level.name),
        kind: x.kind,
        items: &items,
    };
    name(found, scope, required, i, x, &items)?;
    place(found, scope, x)?;
    inside.items(found)?;
    Ok(())
}

/// Notes what the instances of a file break, in the order of the text.
pub fn instances(
    alloc: Global,
    found: &mut FirstFault,
    scope: &Scope<'_>,
    list: &[InstanceText],
) -> Result<(), AllocError>
    ensures { OnOk result (found.new ≡ firsts breach_of found.old (spec.instances_rules (scope_of scope.now) 0
        list.now)) }
{
    for (i, x) in list.iter().enumerate() {
        instance(alloc, found, scope, i, x)?;
    }
    Ok(())
}
