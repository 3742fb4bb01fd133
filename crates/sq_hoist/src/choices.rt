//! What is chosen for the forms of a program.

ghost use Rattle.std.specs.Prelude.{◌≡◌, ◌∷◌, [], List, nat_eq, IfOk, OnOk};
ghost use Rattle.indexmap.specs.IndexMap.{get};
ghost use Rattle.sq_hoist.specs.declared.sites.Site.{Site as SpecSite};
ghost use Rattle.sq_hoist.specs.Choices as spec;

use crate::sites::Site;
use indexmap::IndexMap;
use sq_chosen::Choice;
use sq_spec::Form;
use sqlite_items::Items;
use std::alloc::{AllocError, Global};

/// By the number of a form, how many loops each of its arguments leaves.
#[derive(Drop)]
pub struct LeavesByForm {
    table: IndexMap<usize, Items<u32>>,
}

// What is found at the call of a form; what stands in the table is not replaced.
fn enter(alloc: Global, leaves: &mut LeavesByForm, site: &Site) -> Result<(), AllocError>
    ensures { OnOk result ((rest all : List SpecSite)
        → spec.AreLeaves (site.now ∷ rest) all (get nat_eq leaves.old.table)
        → spec.AreLeaves rest all (get nat_eq leaves.new.table)) }
{
    if leaves.table.get(&site.form).is_some() {
        return Ok(());
    }
    let list = Items::from_slice(alloc, site.leaves.as_slice())?;
    match leaves.table.insert(site.form, list) {
        Ok(_) => Ok(()),
        Err(_) => Err(AllocError),
    }
}

fn by_form(alloc: Global, sites: &[Site]) -> Result<LeavesByForm, AllocError>
    ensures { IfOk result (λ leaves. spec.AreLeaves [] sites.now (get nat_eq leaves.table)) }
{
    let mut leaves = LeavesByForm {
        table: IndexMap::new(alloc),
    };
    for site in sites {
        enter(alloc, &mut leaves, site)?;
    }
    Ok(leaves)
}

fn leaves_at(alloc: Global, leaves: &LeavesByForm, form: usize) -> Result<Items<u32>, AllocError>
    ensures { IfOk result (λ ls. ls ≡ spec.leaves_or (get nat_eq leaves.now.table form)) }
{
    match leaves.table.get(&form) {
        None => Ok(Items::new(alloc)),
        Some(list) => Items::from_slice(alloc, list.as_slice()),
    }
}

fn choice_of(
    alloc: Global,
    leaves: &LeavesByForm,
    number: usize,
    form: &Form,
) -> Result<Choice, AllocError>
    ensures { IfOk result (λ c. c ≡ spec.choice_of (get nat_eq leaves.now.table number) form.now) }
{
    let in_place = Items::from_slice(alloc, form.in_place.as_slice())?;
    let leaves = leaves_at(alloc, leaves, number)?;
    Ok(Choice {
        in_place,
        leaves,
        overlaps: false,
    })
}

fn choices_by(
    alloc: Global,
    leaves: &LeavesByForm,
    forms: &[Form],
) -> Result<Items<Choice>, AllocError>
    ensures { IfOk result (λ cs. cs ≡ spec.choices_from (get nat_eq leaves.now.table) 0 forms.now) }
{
    let mut out = Items::new(alloc);
    for (number, form) in forms.iter().enumerate() {
        out.push(choice_of(alloc, leaves, number, form)?)?;
    }
    Ok(out)
}

/// What is chosen for these forms, by the calls that stand in plain loops.
#[tactic(auto, using(crate::proofs::Entered::chosen_by))]
pub fn choices_of(
    alloc: Global,
    forms: &[Form],
    sites: &[Site],
) -> Result<Items<Choice>, AllocError>
    ensures { IfOk result (λ cs. cs ≡ spec.choices_from (spec.find_leaves sites.now) 0 forms.now) }
{
    let leaves = by_form(alloc, sites)?;
    let choices = choices_by(alloc, &leaves, forms)?;
    Ok(choices)
}
