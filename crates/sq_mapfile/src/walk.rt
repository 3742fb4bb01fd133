//! The walk over the names of a mapping.

ghost use Rattle.std.specs.Prelude.{◌≡◌, IfOk, OnOk};
ghost use Rattle.sq_text.specs.Found.{firsts};
ghost use Rattle.sq_mapfile.specs.Faults.{breach_of};
ghost use Rattle.sq_mapfile.specs.Choices.{choice_rules, instances_count};
ghost use Rattle.sq_mapfile.specs.Notes.{name_rules};

use crate::alternatives;
use crate::entry::entry;
use crate::instances::instances;
use crate::scope::Scope;
use crate::table::InstanceTable;
use crate::tasks::Tasks;
use crate::text::MappingText;
use sq_ast::Program;
use sq_text::FirstFault;
use std::alloc::{AllocError, Global};

/// Every rule of a name, of which the first that is broken is found.
pub fn note_names(
    alloc: Global,
    found: &mut FirstFault,
    program: &Program,
    table: &InstanceTable<'_>,
    mapping: &MappingText,
) -> Result<(), AllocError>
    requires { table.now.instances.now ≡ mapping.now.instances }
    ensures { OnOk result (found.new ≡ firsts breach_of found.old (name_rules program.now table.now.levels.now
        mapping.now)) }
{
    let tasks = Tasks::new(alloc, program.tasks.as_slice())?;
    let scope = Scope::new(&tasks, table);
    let sizes = mapping.sizes.as_slice();
    entry(alloc, found, &scope, &mapping.entry, sizes)?;
    instances(alloc, found, &scope, mapping.instances.as_slice())?;
    Ok(())
}

/// Every rule of alternatives, and how many choices these make.
pub fn note_choices(
    alloc: Global,
    found: &mut FirstFault,
    program: &Program,
    table: &InstanceTable<'_>,
    mapping: &MappingText,
) -> Result<u64, AllocError>
    requires { table.now.instances.now ≡ mapping.now.instances }
    ensures found { OnOk result (found.new ≡ firsts breach_of found.old (choice_rules program.now table.now.levels.now
        mapping.now)) }
    ensures count { IfOk result (λ n. n ≡ instances_count 1 mapping.now.instances) }
{
    let tasks = Tasks::new(alloc, program.tasks.as_slice())?;
    let scope = Scope::new(&tasks, table);
    let count = alternatives::instances(found, &scope, mapping.instances.as_slice())?;
    Ok(count)
}
