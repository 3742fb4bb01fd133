//! The leaves of a plan file, checked and compiled.

ghost use Rattle.std.specs.Prelude.{◌≡◌, ◌++◌, [], true, reverse, IfOk, OnOk};
ghost use Rattle.sq_text.specs.Found.{at_name, noted, firsts, nothing_found};
ghost use Rattle.sq_text.specs.declared.code.Phase.TheVariants as phase;
ghost use Rattle.sq_ast.specs.Given.{IsGiven};
ghost use Rattle.sq_types.specs.Sound.{is_sound};
ghost use Rattle.sq_leaf.specs.Leaf.{is_leaf_body};
ghost use Rattle.sq_planheads.specs.Leaves as spec;
ghost use Rattle.sq_planheads.specs.Heads.{IsGivenTask, AreGiven};

use crate::names::{are_names_bound, are_wanted, names_of, numbers_of};
use crate::tasks::arrays_fit;
use sq_ast::{Program, Variant};
use sq_blocks::{Bindings as Numbers, Env, ListBindings};
use sq_ir::{Leaf, Leaves};
use sq_leaf::{LeafCode, compile_leaf, leaf_variant};
use sq_plantext::{Binding, LeafText, LeafTexts};
use sq_text::{Code, FirstFault, Name, Phase, Place, Stop};
use sq_types::{Typed, check};
use sqlite_items::Items;
use std::alloc::{AllocError, Global};

// Whether the numbers, which have these names, are those that a task asks for.
fn suits(
    alloc: Global,
    numbers: &Numbers,
    bindings: &[Binding],
    task: &Variant,
) -> Result<bool, AllocError>
    ensures { IfOk result (λ suits. suits ≡ spec.suits numbers.now bindings.now task.now) }
{
    let names = names_of(alloc, task)?;
    Ok(
        are_names_bound(numbers, task)
            && are_wanted(&names, bindings)
            && arrays_fit(alloc, numbers, task),
    )
}

// The numbers of a leaf, where they are those that its task asks for.
fn numbers_for(
    alloc: Global,
    bindings: &[Binding],
    task: &Variant,
) -> Result<Option<Numbers>, AllocError>
    ensures { IfOk result (λ numbers. numbers ≡ spec.numbers_for bindings.now task.now) }
{
    match numbers_of(alloc, bindings)? {
        None => Ok(None),
        Some(numbers) => {
            if suits(alloc, &numbers, bindings, task)? {
                Ok(Some(numbers))
            } else {
                Ok(None)
            }
        }
    }
}

fn compile(alloc: Global, typed: &Typed, numbers: &Numbers) -> Result<Option<LeafCode>, AllocError>
    ensures { (v : Variant) → typed.now ≡ spec.program_of v → is_leaf_body v.body ≡ true
        → IfOk result (λ code. code ≡ Some (record { variant = v; numbers = numbers.now })) }
{
    let lists = ListBindings::new(alloc);
    let env = Env {
        numbers,
        lists: &lists,
    };
    match leaf_variant(typed, 0) {
        None => Ok(None),
        Some(task) => {
            let code = compile_leaf(alloc, task, &env)?;
            Ok(Some(code))
        }
    }
}

// The code of a task with these numbers, where it breaks no rule of programs.
fn checked(alloc: Global, task: Variant, numbers: &Numbers) -> Result<Option<LeafCode>, AllocError>
    requires { IsGivenTask task }
    ensures { IfOk result (λ code. code ≡ spec.checked task (Some numbers.now)) }
{
    let mut tasks = Items::new(alloc);
    tasks.push(task)?;
    match check(alloc, Program { tasks }) {
        Ok(typed) => compile(alloc, &typed, numbers),
        Err(Stop::Refused(_)) => Ok(None),
        Err(Stop::NoMemory) => Err(AllocError),
    }
}

// The code of a leaf, where it is sound.
fn code_of(
    alloc: Global,
    bindings: &[Binding],
    task: Variant,
) -> Result<Option<LeafCode>, AllocError>
    requires { IsGivenTask task }
    ensures { IfOk result (λ code. code ≡ spec.code_of bindings.now task) }
{
    match numbers_for(alloc, bindings, &task)? {
        None => Ok(None),
        Some(numbers) => checked(alloc, task, &numbers),
    }
}

// Puts a leaf behind others, or notes that it is bad.
fn put(
    first: &mut FirstFault,
    made: &mut Leaves,
    place: Place,
    instance: Name,
    code: Option<LeafCode>,
) -> Result<(), AllocError>
    ensures first { OnOk result (first.new ≡ noted first.old (at_name (spec.leaf_code code) place instance)) }
    ensures made { OnOk result (made.new ≡ made.old ++ spec.leaf_by instance code) }
{
    match code {
        Some(code) => made.push(Leaf { instance, code }),
        None => first.note_name(Some(Code::BadLeaf), place, &instance),
    }
}

fn judge(
    alloc: Global,
    first: &mut FirstFault,
    made: &mut Leaves,
    leaf: LeafText,
) -> Result<(), AllocError>
    requires { IsGivenTask leaf.task }
    ensures first { OnOk result (first.new ≡ noted first.old (spec.leaf_breach leaf)) }
    ensures made { OnOk result (made.new
        ≡ made.old ++ spec.leaf_by leaf.instance (spec.code_of leaf.numbers leaf.task)) }
{
    let LeafText {
        place,
        instance,
        numbers,
        task,
    } = leaf;
    let code = code_of(alloc, numbers.as_slice(), task)?;
    put(first, made, place, instance, code)
}

// The same leaves in the reverse order: a list gives away its last item.
fn turned(alloc: Global, mut leaves: LeafTexts) -> Result<LeafTexts, AllocError>
    ensures { IfOk result (λ turned. turned ≡ reverse leaves) }
{
    let mut turned = Items::new(alloc);
    for _left in 0..leaves.len() {
        if let Some(leaf) = leaves.pop() {
            turned.push(leaf)?;
        }
    }
    Ok(turned)
}

// Judges leaves from the last one on.
fn judge_all(
    alloc: Global,
    first: &mut FirstFault,
    made: &mut Leaves,
    mut leaves: LeafTexts,
) -> Result<(), AllocError>
    requires { AreGiven (reverse leaves) }
    ensures first { OnOk result (first.new ≡ firsts spec.leaf_breach first.old (reverse leaves)) }
    ensures made { OnOk result (made.new ≡ made.old ++ spec.leaves_by (reverse leaves)) }
{
    for _left in 0..leaves.len() {
        if let Some(leaf) = leaves.pop() {
            judge(alloc, first, made, leaf)?;
        }
    }
    Ok(())
}

/// The leaves with their code, or the first of their faults.
pub(crate) fn compile_leaves(alloc: Global, leaves: LeafTexts) -> Result<Leaves, Stop>
    requires { AreGiven leaves }
    ensures { spec.CompilesTo leaves result }
{
    let mut first = FirstFault::new(alloc, Phase::Plan);
    let mut made = Items::new(alloc);
    let turned = turned(alloc, leaves)?;
    judge_all(alloc, &mut first, &mut made, turned)?;
    match first.finish() {
        None => Ok(made),
        Some(fault) => Err(Stop::Refused(fault)),
    }
}
