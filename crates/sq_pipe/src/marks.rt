//! At which nodes of the machine forms run, and what these nodes have.

ghost use Rattle.std.specs.Prelude.{◌≡◌, ◌+◌, ℕ, Bool, List, slice_set, get_or, replicate, length, min, max};
ghost use Rattle.std.specs.Prelude.{[], true, false, if◌then◌else◌, IfOk, OnOk};
ghost use Rattle.std.specs.Option.{option_copied};
ghost use Rattle.sq_pipe.specs.Runs as spec;

use crate::reach::{flag_number, flags_of, no_flags, set_flag};
use sq_forms::{Form, Node};
use sq_hoist::{drop_body, form_number, level_at, rule_at};
use sq_spec::Resolved;
use sqlite_items::{Items, at};
use std::alloc::{AllocError, Global};

/// For each form and each child of a node with so many whether the calls of a form reach it there.
#[derive(Drop)]
pub struct Flags {
    pub children: u32,
    pub list: Items<bool>,
}

/// What is known of the calls of a form, for nodes with several numbers of children. The forms that one form calls have
/// numbers in turn, so that what is known of one caller at a time is made once.
#[derive(Drop)]
struct Reach {
    caller: usize,
    made: Items<Flags>,
}

fn is_marked(marks: &[bool], x: usize) -> bool
    ensures { result ≡ get_or marks.now x false }
{
    match marks.get(x) {
        None => false,
        Some(mark) => *mark,
    }
}

// ---- what nodes have

fn less_room(marks: &[bool], n: usize, node: &Node, most: u64) -> u64
    ensures { result ≡ (if spec.is_marked marks.now n then min node.now.capacity most else most) }
{
    if is_marked(marks, n) {
        node.capacity.min(most)
    } else {
        most
    }
}

/// The least capacity of the marked nodes, and at most so many bytes.
pub fn least_room(marks: &[bool], nodes: &[Node], most: u64) -> u64
    ensures { result ≡ spec.least_room marks.now 0 nodes.now most }
{
    let mut most = most;
    for (n, node) in nodes.iter().enumerate() {
        most = less_room(marks, n, node, most);
    }
    most
}

fn more_children(marks: &[bool], n: usize, node: &Node, least: u32) -> u32
    ensures { result ≡ (if spec.is_marked marks.now n then max node.now.children least else least) }
{
    if is_marked(marks, n) {
        node.children.max(least)
    } else {
        least
    }
}

/// The greatest number of children of the marked nodes.
pub fn most_children(marks: &[bool], nodes: &[Node]) -> u32
    ensures { result ≡ spec.most_children marks.now 0 nodes.now 0 }
{
    let mut least = 0;
    for (n, node) in nodes.iter().enumerate() {
        least = more_children(marks, n, node, least);
    }
    least
}

// The tables of one form are there at a time.
fn flags_at(
    alloc: Global,
    r: &Resolved<'_>,
    caller: usize,
    children: u32,
) -> Result<Items<bool>, AllocError>
    ensures { IfOk result (λ flags. flags ≡ spec.flags_at r.now caller children) }
{
    let made = r.body(alloc, form_number(caller)?)?;
    let flags = flags_of(
        alloc,
        rule_at(r, caller),
        children,
        r.forms().len(),
        &made.body,
    );
    drop_body(made);
    flags
}

// ---- flags that are made once

fn find_flags(list: &[Flags], children: u32) -> Option<&[bool]>
    ensures { option_copied result ≡ spec.find_flags children list.now }
{
    for x in list {
        if x.children == children {
            return Some(x.list.as_slice());
        }
    }
    None
}

#[tactic(auto, using(crate::proofs::Marked::flags_more))]
fn push_flags(
    alloc: Global,
    r: &Resolved<'_>,
    caller: usize,
    children: u32,
    made: &mut Items<Flags>,
) -> Result<(), AllocError>
    requires { spec.AreFlags (spec.flags_at r.now caller) made.old }
    ensures { OnOk result (spec.AreFlags (spec.flags_at r.now caller) made.new) }
{
    let list = flags_at(alloc, r, caller, children)?;
    made.push(Flags { children, list })?;
    Ok(())
}

fn have_flags(
    alloc: Global,
    r: &Resolved<'_>,
    caller: usize,
    children: u32,
    made: &mut Items<Flags>,
) -> Result<(), AllocError>
    requires { spec.AreFlags (spec.flags_at r.now caller) made.old }
    ensures { OnOk result (spec.AreFlags (spec.flags_at r.now caller) made.new) }
{
    if find_flags(made.as_slice(), children).is_some() {
        return Ok(());
    }
    push_flags(alloc, r, caller, children, made)?;
    Ok(())
}

// ---- nodes

fn has_flag(flags: &[bool], children: u32, form: usize, child: u32) -> Result<bool, AllocError>
    ensures { IfOk result (λ b. b ≡ spec.has_flag flags.now children form child) }
{
    let i = flag_number(form, children, child)?;
    Ok(is_marked(flags, i))
}

fn mark_child(
    marks: &mut Items<bool>,
    flags: &[bool],
    children: u32,
    form: usize,
    first: u32,
    child: u32,
) -> Result<(), AllocError>
    ensures { OnOk result (marks.new ≡ (if spec.has_flag flags.now children form child
        then slice_set marks.old (first + child) true else marks.old)) }
{
    if !has_flag(flags, children, form, child)? {
        return Ok(());
    }
    let Some(x) = first.checked_add(child) else {
        return Err(AllocError);
    };
    set_flag(marks, x as usize);
    Ok(())
}

// Of so many children from this one on, those at which the form is reached.
fn mark_children(
    marks: &mut Items<bool>,
    flags: &[bool],
    children: u32,
    form: usize,
    first: u32,
    count: u32,
    child: u32,
) -> Result<(), AllocError>
    ensures { OnOk result (marks.new ≡ spec.mark_children flags.now children form first count child marks.old) }
{
    if count == 0 {
        return Ok(());
    }
    mark_child(marks, flags, children, form, first, child)?;
    let Some(next) = child.checked_add(1) else {
        return Err(AllocError);
    };
    mark_children(marks, flags, children, form, first, count - 1, next)?;
    Ok(())
}

// The children of one node.
#[tactic(auto, using(crate::proofs::Marked::flags_found))]
fn mark_found(
    marks: &mut Items<bool>,
    r: &Resolved<'_>,
    caller: usize,
    made: &[Flags],
    form: usize,
    node: &Node,
) -> Result<(), AllocError>
    requires { spec.AreFlags (spec.flags_at r.now caller) made.now }
    ensures { OnOk result (marks.new ≡ spec.mark_children (spec.flags_at r.now caller node.now.children)
        node.now.children form node.now.first_child node.now.children 0 marks.old) }
{
    let children = node.children;
    match find_flags(made, children) {
        None => Err(AllocError),
        Some(flags) => {
            mark_children(marks, flags, children, form, node.first_child, children, 0)?;
            Ok(())
        }
    }
}

fn mark_under(
    alloc: Global,
    r: &Resolved<'_>,
    caller: usize,
    made: &mut Items<Flags>,
    form: usize,
    is_there: bool,
    node: &Node,
    marks: &mut Items<bool>,
) -> Result<(), AllocError>
    requires { spec.AreFlags (spec.flags_at r.now caller) made.old }
    ensures flags { OnOk result (spec.AreFlags (spec.flags_at r.now caller) made.new) }
    ensures marks { OnOk result (marks.new ≡ (if is_there
        then spec.mark_children (spec.flags_at r.now caller node.now.children) node.now.children form
        node.now.first_child node.now.children 0 marks.old else marks.old)) }
{
    if !is_there {
        return Ok(());
    }
    have_flags(alloc, r, caller, node.children, made)?;
    mark_found(marks, r, caller, made.as_slice(), form, node)?;
    Ok(())
}

// The children of the nodes of the caller.
fn mark_below(
    alloc: Global,
    r: &Resolved<'_>,
    caller: usize,
    made: &mut Items<Flags>,
    form: usize,
    known: &[bool],
    marks: &mut Items<bool>,
) -> Result<(), AllocError>
    requires { spec.AreFlags (spec.flags_at r.now caller) made.old }
    ensures flags { OnOk result (spec.AreFlags (spec.flags_at r.now caller) made.new) }
    ensures marks { OnOk result (marks.new ≡ spec.mark_below (spec.flags_at r.now caller) form known.now 0
        r.now.machine.now.nodes marks.old) }
{
    let nodes = r.machine().tree();
    for (n, node) in nodes.iter().enumerate() {
        mark_under(
            alloc,
            r,
            caller,
            made,
            form,
            is_marked(known, n),
            node,
            marks,
        )?;
    }
    Ok(())
}

// ---- forms

fn marks_in(known: &[Items<bool>], form: usize) -> &[bool]
    ensures { result.now ≡ get_or known.now form [] }
{
    match at(known, form) {
        None => &[],
        Some(marks) => marks.as_slice(),
    }
}

// What is known of another caller is given back.
fn turn_to(alloc: Global, reach: &mut Reach, caller: usize)
    ensures caller { reach.new.caller ≡ caller }
    ensures flags { (flags : ℕ → ℕ → List Bool) → spec.AreFlags (flags reach.old.caller) reach.old.made
        → spec.AreFlags (flags caller) reach.new.made }
{
    if reach.caller == caller {
        return;
    }
    reach.caller = caller;
    reach.made = Items::new(alloc);
}

fn marks_below(
    alloc: Global,
    r: &Resolved<'_>,
    reach: &mut Reach,
    form: usize,
    caller: usize,
    known: &[bool],
) -> Result<Items<bool>, AllocError>
    requires { spec.AreFlags (spec.flags_at r.now reach.old.caller) reach.old.made }
    ensures flags { OnOk result (spec.AreFlags (spec.flags_at r.now reach.new.caller) reach.new.made) }
    ensures marks { IfOk result (λ ms. ms ≡ spec.mark_below (spec.flags_at r.now caller) form known.now 0
        r.now.machine.now.nodes (spec.unmarked r.now.machine.now.nodes)) }
{
    let mut marks = no_flags(alloc, r.machine().tree().len())?;
    turn_to(alloc, reach, caller);
    mark_below(alloc, r, caller, &mut reach.made, form, known, &mut marks)?;
    Ok(marks)
}

fn marks_called(
    alloc: Global,
    r: &Resolved<'_>,
    reach: &mut Reach,
    form: usize,
    level: u32,
    caller: usize,
    known: &[bool],
) -> Result<Items<bool>, AllocError>
    requires { spec.AreFlags (spec.flags_at r.now reach.old.caller) reach.old.made }
    ensures flags { OnOk result (spec.AreFlags (spec.flags_at r.now reach.new.caller) reach.new.made) }
    ensures marks { IfOk result (λ ms. ms ≡ spec.marks_called r.now form level caller known.now) }
{
    if level_at(r, caller) == level {
        return Items::from_slice(alloc, known);
    }
    let marks = marks_below(alloc, r, reach, form, caller, known)?;
    Ok(marks)
}

fn root_alone(alloc: Global, nodes: &[Node]) -> Result<Items<bool>, AllocError>
    ensures { IfOk result (λ ms. ms ≡ slice_set (spec.unmarked nodes.now) 0 true) }
{
    let mut marks = no_flags(alloc, nodes.len())?;
    set_flag(&mut marks, 0);
    Ok(marks)
}

fn marks_by(
    alloc: Global,
    r: &Resolved<'_>,
    reach: &mut Reach,
    form: usize,
    f: &Form,
    known: &[Items<bool>],
) -> Result<Items<bool>, AllocError>
    requires { spec.AreFlags (spec.flags_at r.now reach.old.caller) reach.old.made }
    ensures flags { OnOk result (spec.AreFlags (spec.flags_at r.now reach.new.caller) reach.new.made) }
    ensures marks { IfOk result (λ ms. ms ≡ spec.marks_by r.now form f.now.level f.now.caller known.now) }
{
    match f.caller {
        None => root_alone(alloc, r.machine().tree()),
        Some(c) => {
            let caller = c.form as usize;
            let there = marks_in(known, caller);
            let marks = marks_called(alloc, r, reach, form, f.level, caller, there)?;
            Ok(marks)
        }
    }
}

/// Of each form, by its number, a flag for each node of the machine: whether the form runs there.
pub fn marks_of(alloc: Global, r: &Resolved<'_>) -> Result<Items<Items<bool>>, AllocError>
    ensures { IfOk result (λ ms. ms ≡ spec.marks_of r.now) }
{
    let mut reach = Reach {
        caller: 0,
        made: Items::new(alloc),
    };
    let mut known = Items::new(alloc);
    for (form, f) in r.forms().iter().enumerate() {
        let marks = marks_by(alloc, r, &mut reach, form, f, known.as_slice())?;
        known.push(marks)?;
    }
    Ok(known)
}
