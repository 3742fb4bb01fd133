//! The calls of a file's instances.

ghost use Rattle.std.specs.Prelude.{◌≡◌, ℕ, IfOk, OnOk, All};
ghost use Rattle.sq_mapfile.specs.Names.{index_of};
ghost use Rattle.sq_mapfile.specs.Cycles.{calls_among};
ghost use Rattle.sq_mapfile.specs.Graph.{Adds, IsWithin, call_to, item_calls, items_calls, instance_calls, gathered};

use crate::given::ItemTable;
use crate::rules::stands_before;
use crate::table::InstanceTable;
use crate::text::{InstanceText, ItemText};
use sq_text::Word;
use std::alloc::{AllocError, Global};
use std::marker::Model;

/// A call of one instance by another, each counted from 0 in the order of the text, and where the callee is named.
#[derive(Drop)]
pub struct Call<'a> {
    pub caller: usize,
    pub callee: usize,
    pub name: &'a Word,
}

impl<'a> Model for Call<'a> {
    ghost use Rattle.sq_mapfile.specs.Cycles.{CallText};

    ghost Value = { CallText };

    ghost view = { λ c. record { caller = c.caller; callee = c.callee; name = c.name.now } };
}

// Notes a call of the instance of this name, where there is one.
fn push_call<'a>(
    table: &InstanceTable<'_>,
    calls: &mut Vec<Call<'a>>,
    caller: usize,
    name: &'a Word,
) -> Result<(), AllocError>
    ensures { OnOk result (Adds calls.old.items calls.new.items (call_to caller
        (index_of table.now.instances.now name.now.name) name.now)) }
{
    match table.index(&name.name) {
        None => Ok(()),
        Some(callee) => {
            calls.push(Call {
                caller,
                callee,
                name,
            })?;
            Ok(())
        }
    }
}

// The call of the k-th of these items. Of two items for one task the first counts.
fn item_calls<'a>(
    table: &InstanceTable<'_>,
    calls: &mut Vec<Call<'a>>,
    caller: usize,
    items: &ItemTable<'_>,
    k: usize,
    item: &'a ItemText,
) -> Result<(), AllocError>
    ensures { OnOk result (Adds calls.old.items calls.new.items (item_calls table.now.instances.now caller
        items.now.items.now k item.now)) }
{
    match item {
        ItemText::Call { task, instance } => {
            if stands_before(items.call(&task.name), k) {
                return Ok(());
            }
            push_call(table, calls, caller, instance)?;
            Ok(())
        }
        _ => Ok(()),
    }
}

// The calls of the items of the instance.
fn items_calls<'a>(
    table: &InstanceTable<'_>,
    calls: &mut Vec<Call<'a>>,
    caller: usize,
    items: &ItemTable<'a>,
) -> Result<(), AllocError>
    ensures { OnOk result (Adds calls.old.items calls.new.items (items_calls table.now.instances.now caller
        items.now.items.now 0 items.now.items.now)) }
{
    for (k, item) in items.items.iter().enumerate() {
        item_calls(table, calls, caller, items, k, item)?;
    }
    Ok(())
}

// The calls of the i-th instance. Of two instances of one name the first counts.
fn instance_calls<'a>(
    alloc: Global,
    table: &InstanceTable<'_>,
    calls: &mut Vec<Call<'a>>,
    i: usize,
    instance: &'a InstanceText,
) -> Result<(), AllocError>
    ensures { OnOk result (Adds calls.old.items calls.new.items (instance_calls table.now.instances.now i
        instance.now)) }
{
    if stands_before(table.index(&instance.name.name), i) {
        return Ok(());
    }
    let items = ItemTable::new(alloc, instance.items.as_slice())?;
    items_calls(table, calls, i, &items)?;
    Ok(())
}

fn all_calls<'a>(alloc: Global, table: &InstanceTable<'a>) -> Result<Vec<Call<'a>>, AllocError>
    ensures { IfOk result (λ calls. calls.items ≡ gathered table.now.instances.now) }
{
    let mut calls = Vec::new(alloc);
    for (i, instance) in table.instances.iter().enumerate() {
        instance_calls(alloc, table, &mut calls, i, instance)?;
    }
    Ok(calls)
}

/// All calls of a file, in the order of the text, and how many instances it has.
#[derive(Drop)]
pub struct CallList<'a> {
    pub calls: Vec<Call<'a>>,
    pub count: usize,
    ghost within: { All (IsWithin count) calls.items },
}

impl<'a> CallList<'a> {
    #[tactic(auto, using(crate::proofs::Gathered::all_within, crate::proofs::Listed::gathered_listed))]
    pub fn new(alloc: Global, table: &InstanceTable<'a>) -> Result<CallList<'a>, AllocError>
        ensures { IfOk result (λ list. list.calls.items ≡ calls_among table.now.instances.now) }
    {
        let calls = all_calls(alloc, table)?;
        let count = table.instances.len();
        Ok(CallList { calls, count })
    }
}
