//! The variants of the program, the levels of the machine and the instances of the file, in which names are looked up.

ghost use Rattle.std.specs.Prelude.{◌≡◌, ◌&&◌, not, is_none};
ghost use Rattle.std.specs.Option.{option_copied};
ghost use Rattle.sq_mapping.specs.Names.{variant_of};
ghost use Rattle.sq_mapfile.specs.Names as spec;
ghost use Rattle.sq_mapfile.specs.Faults.{required_of, required_at, level_at};
ghost use Rattle.sq_mapfile.specs.Scopes.{scope_of};

use crate::required::Required;
use crate::table::{InstanceTable, level_of};
use crate::tasks::Tasks;
use crate::text::InstanceText;
use sq_ast::VariantKind;
use sq_text::Name;

/// Where names are looked up.
#[derive(Drop)]
pub struct Scope<'a> {
    tasks: &'a Tasks<'a>,
    table: &'a InstanceTable<'a>,
}

impl<'a> Scope<'a> {
    pub fn new(tasks: &'a Tasks<'a>, table: &'a InstanceTable<'a>) -> Scope<'a>
        ensures { scope_of result ≡ record {
          variants = tasks.now.variants.now;
          levels = table.now.levels.now;
          instances
              = table.now.instances.now;
        } }
    {
        Scope { tasks, table }
    }

    /// Whether the program lacks this task.
    pub fn lacks_task(&self, task: &Name) -> bool
        ensures { result ≡ not (spec.has_task (scope_of self.now).variants task.now) }
    {
        !self.tasks.has(task)
    }

    /// Whether the program has this task without this variant.
    pub fn lacks_variant(&self, task: &Name, kind: VariantKind) -> bool
        ensures { result ≡ (spec.has_task (scope_of self.now).variants task.now && is_none
            (variant_of (scope_of self.now).variants task.now kind)) }
    {
        self.tasks.has(task) && self.tasks.lacks(task, kind)
    }

    /// The index of the level of this name.
    pub fn level(&self, name: &Name) -> Option<usize>
        ensures { result ≡ spec.level_of (scope_of self.now).levels name.now }
    {
        level_of(self.table.levels, name)
    }

    /// The index of the first instance of this name.
    pub fn index(&self, name: &Name) -> Option<usize>
        ensures { result ≡ spec.index_of (scope_of self.now).instances name.now }
    {
        self.table.index(name)
    }

    /// The first instance of this name.
    pub fn instance(&self, name: &Name) -> Option<&'a InstanceText>
        ensures { option_copied result ≡ spec.instance_of (scope_of self.now).instances name.now }
    {
        self.table.get(name)
    }

    /// The level of the first instance of this name, where both are known.
    pub fn level_of_instance(&self, name: &Name) -> Option<usize>
        ensures { result ≡ level_at (scope_of self.now) (spec.instance_of (scope_of self.now).instances name.now) }
    {
        self.table.level(name)
    }

    /// What the variant of an instance requires, where it is in the program.
    pub fn required_of(&self, x: &InstanceText) -> Option<&'a Required>
        ensures { option_copied result ≡ required_of (scope_of self.now) x.now }
    {
        self.tasks.required(&x.task.name, x.kind)
    }

    /// What the variant of a named instance requires, where both are known.
    pub fn required_at(&self, x: Option<&InstanceText>) -> Option<&'a Required>
        ensures { option_copied result ≡ required_at (scope_of self.now) (option_copied x.entry) }
    {
        match x {
            None => None,
            Some(x) => self.required_of(x),
        }
    }
}
