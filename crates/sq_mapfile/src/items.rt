//! The rules of the items of an instance.

ghost use Rattle.std.specs.Prelude.{◌≡◌, OnOk};
ghost use Rattle.std.specs.Option.{option_copied};
ghost use Rattle.sq_text.specs.Found.{Finds};
ghost use Rattle.sq_mapfile.specs.Notes as spec;
ghost use Rattle.sq_mapfile.specs.Faults.{breach_of};
ghost use Rattle.sq_mapfile.specs.Walk.{inside_of, tunable_rules, called_rules, callee_rules, spread_rules};

use crate::given::ItemTable;
use crate::required::Required;
use crate::rules::{
    is_leaf, is_no_tunable, is_of_other_task, is_other_kind, is_skip, is_uncalled, stands_before,
};
use crate::scope::Scope;
use crate::text::ItemText;
use sq_ast::VariantKind;
use sq_mapping::Setting;
use sq_text::{Code, FirstFault, Word};
use std::alloc::AllocError;

/// What is known where the items of an instance stand.
#[derive(Drop)]
pub struct Inside<'a> {
    pub scope: &'a Scope<'a>,
    pub required: Option<&'a Required>,
    pub level: Option<usize>,
    pub kind: VariantKind,
    pub items: &'a ItemTable<'a>,
}

impl<'a> Inside<'a> {
    // The i-th item, which is for a tunable.
    fn tunable(
        &self,
        found: &mut FirstFault,
        i: usize,
        name: &Word,
        setting: &Setting,
    ) -> Result<(), AllocError>
        ensures { OnOk result (Finds breach_of found.old found.new (tunable_rules (inside_of self.now) i name.now
            setting.now)) }
    {
        let is_again = stands_before(self.items.tunable(&name.name), i);
        let is_unknown = is_no_tunable(self.required, &name.name);
        let is_other = is_other_kind(self.required, &name.name, setting);
        found.note_word(Code::DupItem, name, is_again)?;
        found.note_word(Code::TunableUnknown, name, is_unknown)?;
        found.note_word(Code::TunableKind, name, is_other)?;
        Ok(())
    }

    // The task for which the i-th item names an instance.
    fn called(&self, found: &mut FirstFault, i: usize, task: &Word) -> Result<(), AllocError>
        ensures { OnOk result (Finds breach_of found.old found.new (called_rules (inside_of self.now) i task.now)) }
    {
        let is_again = stands_before(self.items.call(&task.name), i);
        let is_unknown = is_uncalled(self.required, &task.name);
        found.note_word(Code::DupItem, task, is_again)?;
        found.note_word(Code::CallUnknown, task, is_unknown)?;
        Ok(())
    }

    // The instance that is named for a task.
    fn callee(&self, found: &mut FirstFault, task: &Word, name: &Word) -> Result<(), AllocError>
        ensures { OnOk result (Finds breach_of found.old found.new (callee_rules (inside_of self.now) task.now
            name.now)) }
    {
        let is_unknown = self.scope.index(&name.name).is_none();
        let is_other = is_of_other_task(self.scope.instance(&name.name), &task.name);
        let is_far = is_skip(self.level, self.scope.level_of_instance(&name.name));
        found.note_word(Code::NoInstance, name, is_unknown)?;
        found.note_word(Code::CallTask, name, is_other)?;
        found.note_word(Code::LevelSkip, name, is_far)?;
        Ok(())
    }

    // The i-th item, which chooses how to spread.
    fn spread(&self, found: &mut FirstFault, i: usize, word: &Word) -> Result<(), AllocError>
        ensures { OnOk result (Finds breach_of found.old found.new (spread_rules (inside_of self.now) i word.now)) }
    {
        let is_again = stands_before(self.items.spread(), i);
        found.note_word(Code::DupItem, word, is_again)?;
        found.note_place(Code::SpreadLeaf, word.place, is_leaf(self.kind));
        Ok(())
    }

    fn item(&self, found: &mut FirstFault, i: usize, item: &ItemText) -> Result<(), AllocError>
        ensures { OnOk result (Finds breach_of found.old found.new (spec.item_rules (inside_of self.now) i item.now)) }
    {
        match item {
            ItemText::Tunable { name, values } => {
                self.tunable(found, i, name, &values.first)?;
                Ok(())
            }
            ItemText::Call { task, instance } => {
                self.called(found, i, task)?;
                self.callee(found, task, instance)?;
                Ok(())
            }
            ItemText::Spread { word, .. } => {
                self.spread(found, i, word)?;
                Ok(())
            }
        }
    }

    /// All items.
    pub fn items(&self, found: &mut FirstFault) -> Result<(), AllocError>
        ensures { OnOk result (Finds breach_of found.old found.new (spec.items_rules (inside_of self.now) 0
            self.now.items.now.items.now)) }
    {
        for (i, item) in self.items.items.iter().enumerate() {
            self.item(found, i, item)?;
        }
        Ok(())
    }
}
