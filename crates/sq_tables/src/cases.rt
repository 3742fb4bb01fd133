//! The arms of a call.

ghost use Rattle.std.specs.Prelude.{◌≡◌, ◌++◌, suc, IfOk, OnOk, pos, [], ◌∷◌};
ghost use Rattle.std.specs.Prelude.{nat_eq};
ghost use Rattle.std.specs.List.{list_any};
ghost use Rattle.indexmap.specs.IndexMap.{get};
ghost use Rattle.sq_spec.specs.declared.statement.CallInstance.{CallInstance as SpecInstance};
ghost use Rattle.sq_term.specs.Terms as terms;
ghost use Rattle.sq_tables.specs.Cases as cases;

use crate::blocks::signed;
use indexmap::IndexMap;
use sq_ast::Mode;
use sq_spec::{Argument, CallInstance};
use sq_term::parts::Numbers;
use sqlite_items::{Items, at};
use std::alloc::{AllocError, Global};
use std::marker::Model;

/// A row that an arm is made of.
#[derive(Drop)]
pub struct Arm<'a> {
    pub row: &'a CallInstance,
}

impl<'a> Model for Arm<'a> {
    ghost use Rattle.sq_spec.specs.contracts.statement.CallInstance as contract;
    ghost use Rattle.sq_spec.specs.declared.statement.CallInstance.{CallInstance};

    ghost Value = { CallInstance };

    ghost coded = { contract.the_row.coded };

    ghost view = { λ a. a.row.now };
}

fn same_mode(a: Mode, b: Mode) -> bool
    ensures { result ≡ terms.is_mode a b }
{
    match (a, b) {
        (Mode::Input, Mode::Input) | (Mode::Output, Mode::Output) | (Mode::Both, Mode::Both) =>
            true,
        _ => false,
    }
}

fn same_bool(a: bool, b: bool) -> bool
    ensures { result ≡ terms.is_bool a b }
{
    if a { b } else { !b }
}

fn same_head(a: &Argument, b: &Argument) -> bool
    ensures { result ≡ terms.same_head a.now b.now }
{
    same_mode(a.mode, b.mode) && (same_bool(a.is_reduced, b.is_reduced) && a.array == b.array)
}

fn same_heads(xs: &[Argument], ys: &[Argument]) -> bool
    ensures { result ≡ terms.same_heads xs.now ys.now }
{
    match xs {
        [] => match ys {
            [] => true,
            [_, ..] => false,
        },
        [x, more @ ..] => match ys {
            [] => false,
            [y, others @ ..] => same_head(x, y) && same_heads(more, others),
        },
    }
}

fn is_same_arm(r: &CallInstance, q: &CallInstance) -> bool
    ensures { result ≡ terms.is_same_arm r.now q.now }
{
    r.form == q.form && same_heads(r.args.as_slice(), q.args.as_slice())
}

fn arm_number(arms: &[Arm<'_>], r: &CallInstance) -> usize
    ensures { result ≡ terms.arm_number arms.now r.now }
{
    let mut number = 0;
    for arm in arms {
        if is_same_arm(r, arm.row) {
            return number;
        }
        number += 1;
    }
    number
}

fn has_arm(arms: &[Arm<'_>], r: &CallInstance) -> bool
    ensures { result ≡ list_any (terms.is_same_arm r.now) arms.now }
{
    for arm in arms {
        if is_same_arm(r, arm.row) {
            return true;
        }
    }
    false
}

fn find_among(arms: &[Arm<'_>], r: &CallInstance) -> Option<usize>
    ensures { result ≡ cases.find_arm arms.now r.now }
{
    if has_arm(arms, r) {
        Some(arm_number(arms, r))
    } else {
        None
    }
}

/// The arms of a call, and the first arm of each form.
#[derive(Drop)]
pub struct Arms<'a> {
    pub list: Items<Arm<'a>>,
    firsts: IndexMap<usize, usize>,
}

// The arm of a row. The first arm of its form is the one, in all calls of a program: the others are not looked at.
fn find_arm(arms: &Arms<'_>, r: &CallInstance) -> Option<usize>
    requires { cases.AreFirsts arms.now.list (get nat_eq arms.now.firsts) }
    ensures { result ≡ cases.find_arm arms.now.list r.now }
{
    let Some(first) = arms.firsts.get(&r.form) else {
        return None;
    };
    let list = arms.list.as_slice();
    match at(list, *first) {
        None => find_among(list, r),
        Some(arm) => {
            if is_same_arm(r, arm.row) {
                Some(*first)
            } else {
                find_among(list, r)
            }
        }
    }
}

fn add_first(arms: &mut Arms<'_>, form: usize) -> Result<(), AllocError>
    requires { cases.AreFirsts arms.old.list (get nat_eq arms.old.firsts) }
    ensures list { OnOk result (arms.new.list ≡ arms.old.list) }
    ensures firsts { OnOk result ((r : SpecInstance) → r.form ≡ form
        → cases.AreFirsts (arms.new.list ++ r ∷ []) (get nat_eq arms.new.firsts)) }
{
    if arms.firsts.get(&form).is_some() {
        return Ok(());
    }
    let number = arms.list.len();
    match arms.firsts.insert(form, number) {
        Ok(_) => Ok(()),
        Err(_) => Err(AllocError),
    }
}

fn add_arm<'a>(arms: &mut Arms<'a>, row: &'a CallInstance) -> Result<(), AllocError>
    requires { cases.AreFirsts arms.old.list (get nat_eq arms.old.firsts) }
    ensures list { OnOk result (arms.new.list ≡ terms.with_arm arms.old.list row.now) }
    ensures firsts { OnOk result (cases.AreFirsts arms.new.list (get nat_eq arms.new.firsts)) }
{
    if find_arm(arms, row).is_some() {
        return Ok(());
    }
    add_first(arms, row.form)?;
    arms.list.push(Arm { row })?;
    Ok(())
}

/// The rows that differ in more than their blocks.
pub fn arms_of(alloc: Global, instances: &[CallInstance]) -> Result<Arms<'_>, AllocError>
    ensures list { IfOk result (λ qs. qs.list ≡ terms.arms_of instances.now) }
    ensures firsts { IfOk result (λ qs. cases.AreIndexed qs) }
{
    let mut arms = Arms {
        list: Items::new(alloc),
        firsts: IndexMap::new(alloc),
    };
    for row in instances {
        add_arm(&mut arms, row)?;
    }
    Ok(arms)
}

fn pick(arms: &Arms<'_>, row: &CallInstance) -> Result<i64, AllocError>
    requires { cases.AreFirsts arms.now.list (get nat_eq arms.now.firsts) }
    ensures { IfOk result (λ k. k ≡ pos (suc (terms.arm_number arms.now.list row.now))) }
{
    let Some(number) = find_arm(arms, row) else {
        return Err(AllocError);
    };
    match (number as u64).checked_add(1) {
        Some(k) => signed(k),
        None => Err(AllocError),
    }
}

/// Of each row the number that picks its arm.
pub fn picks(
    alloc: Global,
    arms: &Arms<'_>,
    instances: &[CallInstance],
) -> Result<Numbers, AllocError>
    requires { cases.AreIndexed arms.now }
    ensures { IfOk result (λ ks. ks ≡ terms.numbers (terms.picks arms.now.list instances.now)) }
{
    let mut out = Vec::new(alloc);
    for row in instances {
        let number = pick(arms, row)?;
        out.push(number)?;
    }
    Numbers::new(alloc, out)
}
