//! The rules of the entry and its sizes.

ghost use Rattle.std.specs.Prelude.{◌≡◌, OnOk};
ghost use Rattle.std.specs.Option.{option_copied};
ghost use Rattle.sq_text.specs.Found.{Finds};
ghost use Rattle.sq_mapfile.specs.Names.{instance_of};
ghost use Rattle.sq_mapfile.specs.Notes as spec;
ghost use Rattle.sq_mapfile.specs.Faults.{breach_of, required_at};
ghost use Rattle.sq_mapfile.specs.Scopes.{scope_of};

use crate::given::SizeTable;
use crate::required::Required;
use crate::rules::{is_below_root, is_no_size, missing_size, stands_before};
use crate::scope::Scope;
use crate::text::SizeText;
use sq_text::{Code, FirstFault, Word};
use std::alloc::{AllocError, Global};

// The i-th of these sizes.
fn size(
    found: &mut FirstFault,
    required: Option<&Required>,
    sizes: &SizeTable<'_>,
    i: usize,
    size: &SizeText,
) -> Result<(), AllocError>
    ensures { OnOk result (Finds breach_of found.old found.new (spec.size_rules (option_copied required.entry)
        sizes.now.sizes.now i size.now)) }
{
    let is_again = stands_before(sizes.get(&size.name.name), i);
    let is_unknown = is_no_size(required, &size.name.name);
    found.note_word(Code::DupItem, &size.name, is_again)?;
    found.note_word(Code::SizeUnknown, &size.name, is_unknown)?;
    Ok(())
}

fn sizes(
    found: &mut FirstFault,
    required: Option<&Required>,
    table: &SizeTable<'_>,
) -> Result<(), AllocError>
    ensures { OnOk result (Finds breach_of found.old found.new (spec.sizes_rules (option_copied required.entry)
        table.now.sizes.now 0 table.now.sizes.now)) }
{
    for (i, x) in table.sizes.iter().enumerate() {
        size(found, required, table, i, x)?;
    }
    Ok(())
}

// The name of the entry, which is this instance where the file has it.
fn entered(
    found: &mut FirstFault,
    scope: &Scope<'_>,
    required: Option<&Required>,
    name: &Word,
    sizes: &SizeTable<'_>,
) -> Result<(), AllocError>
    requires { option_copied required ≡ required_at (scope_of scope.now)
        (instance_of (scope_of scope.now).instances name.now.name) }
    ensures { OnOk result (Finds breach_of found.old found.new (spec.entered_rules (scope_of scope.now)
        (instance_of (scope_of scope.now).instances name.now.name) name.now sizes.now.sizes.now)) }
{
    let is_unknown = scope.index(&name.name).is_none();
    let is_below = is_below_root(scope.level_of_instance(&name.name));
    let missing = missing_size(required, sizes);
    found.note_word(Code::NoInstance, name, is_unknown)?;
    found.note_word(Code::LevelSkip, name, is_below)?;
    found.note_lack(Code::SizeMissing, name, missing)?;
    Ok(())
}

/// The entry and its sizes.
pub fn entry(
    alloc: Global,
    found: &mut FirstFault,
    scope: &Scope<'_>,
    name: &Word,
    list: &[SizeText],
) -> Result<(), AllocError>
    ensures { OnOk result (Finds breach_of found.old found.new (spec.entry_rules (scope_of scope.now)
        (instance_of (scope_of scope.now).instances name.now.name) name.now list.now)) }
{
    let required = scope.required_at(scope.instance(&name.name));
    let table = SizeTable::new(alloc, list)?;
    entered(found, scope, required, name, &table)?;
    sizes(found, required, &table)?;
    Ok(())
}
