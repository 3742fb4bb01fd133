//! What a run needs, all of its memory taken before the bank is opened.

ghost use Rattle.std.specs.Prelude.{◌≡◌, ◌∷◌, ◌++◌, [], map, None, IfOk, OnOk};
ghost use Rattle.sq_text.specs.declared.fault.Arg.TheVariants.{Word};
ghost use Rattle.sq_arrays.specs.Arrays.{wanted};
ghost use Rattle.sq_ir.specs.DraftLeaves.{leaves_of};
ghost use Rattle.sq_ir.specs.Plans.{IsWellFormed, tree_of};
ghost use Rattle.sq_launch.specs.Arrays.{AreSmall, want_of, wants_of};
ghost use Rattle.sq_launch.specs.Launching as spec;

use crate::places::read_places;
use sq_arrays::Want;
use sq_ir::Plan;
use sq_leaf::Trap;
use sq_planfile::EntryArray;
use sq_root::Place;
use sq_sched::Control;
use sq_text::{Arg, Args};
use std::alloc::{AllocError, Global};
use std::mem::replace;
use std::rc::Rc;

/// A plan with its control, the arrays that the data gives and where they stand in the root's memory, and the arguments
/// of the faults that the data may have.
#[derive(Drop)]
pub struct Launch<'a> {
    pub plan: Rc<Plan>,
    pub control: Control<Trap>,
    pub wants: Vec<Want<'a>>,
    pub read: Vec<Place>,
    pub faults: Vec<Args>,
}

// ---- what the data gives

fn add_want<'a>(wants: &mut Vec<Want<'a>>, array: &'a EntryArray) -> Result<(), AllocError>
    ensures { OnOk result (map wanted wants.new.items ≡ map wanted wants.old.items ++ want_of array.now ∷ []) }
{
    wants.push(Want {
        name: &array.name,
        elem: array.elem,
        extents: array.extents.copy(),
    })?;
    Ok(())
}

// The arrays that are read.
fn wants_in(alloc: Global, arrays: &[EntryArray]) -> Result<Vec<Want<'_>>, AllocError>
    ensures { IfOk result (λ wants. map wanted wants.items ≡ wants_of arrays.now) }
{
    let mut wants = Vec::new(alloc);
    for array in arrays {
        if array.mode.is_read() {
            add_want(&mut wants, array)?;
        }
    }
    Ok(wants)
}

// The arguments of a fault at this array: its name.
fn args_of(alloc: Global, want: &Want) -> Result<Args, AllocError>
    ensures { IfOk result (λ args. args ≡ Word want.now.name.now ∷ []) }
{
    let mut args = Args::new(alloc);
    args.push(Arg::Word(want.name.copy(alloc)?))?;
    Ok(args)
}

// The arguments of the faults that the data may have, one for each array that is wanted.
fn faults_of(alloc: Global, wants: &[Want]) -> Result<Vec<Args>, AllocError>
    ensures { IfOk result (λ faults. faults.items ≡ spec.fault_args (map wanted wants.now)) }
{
    let mut faults = Vec::new(alloc);
    for want in wants {
        faults.push(args_of(alloc, want)?)?;
    }
    Ok(faults)
}

/// The arguments of the fault at the array of that number, and none where no array is wanted.
pub fn args_at(alloc: Global, faults: Vec<Args>, array: Option<usize>) -> Args
    ensures { result ≡ spec.args_at faults.items array }
{
    let mut faults = faults;
    match array {
        Some(array) if array < faults.len() => replace(&mut faults[array], Args::new(alloc)),
        _ => Args::new(alloc),
    }
}

// ---- all of it

/// All that the run of a plan on these arrays needs.
pub fn prepared<'a>(
    alloc: Global,
    plan: Rc<Plan>,
    arrays: &'a [EntryArray],
) -> Result<Launch<'a>, AllocError>
    requires well_formed { IsWellFormed (leaves_of plan.value.draft) plan.value }
    requires small { AreSmall arrays.now }
    ensures { IfOk result (λ l. spec.IsLaunch plan.value arrays.now l) }
{
    let wants = wants_in(alloc, arrays)?;
    let faults = faults_of(alloc, wants.as_slice())?;
    let read = read_places(alloc, &plan, arrays)?;
    begun(alloc, plan, wants, read, faults)
}

// The same with the control of the plan, which has not begun.
fn begun<'a>(
    alloc: Global,
    plan: Rc<Plan>,
    wants: Vec<Want<'a>>,
    read: Vec<Place>,
    faults: Vec<Args>,
) -> Result<Launch<'a>, AllocError>
    requires { IsWellFormed (leaves_of plan.value.draft) plan.value }
    ensures plan { IfOk result (λ l. l.plan.value ≡ plan.value) }
    ensures control { IfOk result
        (λ l. l.control ≡ record { plan = plan.value; left = tree_of plan.value; ended = None }) }
    ensures wants { IfOk result (λ l. l.wants.items ≡ wants.entry.items) }
    ensures read { IfOk result (λ l. l.read.items ≡ read.items) }
    ensures faults { IfOk result (λ l. l.faults.items ≡ faults.items) }
{
    let control = Control::new(alloc, plan.clone()?)?;
    Ok(Launch {
        plan,
        control,
        wants,
        read,
        faults,
    })
}
