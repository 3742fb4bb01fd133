//! The file of a program's plan: the plan, and the arrays of the program's entry in its buffers.
ghost use Rattle.std.specs.Prelude.{◌≡◌, IfOk};
ghost use Rattle.sq_compile.specs.Compiled.{IsPlanOf};
ghost use Rattle.sq_driver.specs.Filing.{AreArraysOf, IsFileOf};

use crate::phases::entry::entry_dims;
use sq_compiled_laws::sq_meant::places_fit;
use sq_ir::Plan;
use sq_planfile::{EntryArrays, PlanFile, entry_arrays};
use sq_spec::Resolved;
use std::alloc::{AllocError, Global};
use std::rc::Rc;

// The arrays of the entry, in the buffers of the plan.
fn arrays_of(alloc: Global, resolved: &Resolved<'_>, plan: &Plan) -> Result<EntryArrays, AllocError>
    requires { IsPlanOf resolved.now plan.now }
    ensures { IfOk result (λ arrays. AreArraysOf resolved.now plan.now arrays) }
{
    // Each of the arrays has a buffer.
    places_fit();
    let params = resolved.entry_params();
    let dims = entry_dims(resolved);
    let buffers = plan.draft.entry.as_slice();
    entry_arrays(alloc, params, dims, buffers)
}

/// The file of a program's plan.
pub fn file_of(alloc: Global, resolved: &Resolved<'_>, plan: Plan) -> Result<PlanFile, AllocError>
    requires { IsPlanOf resolved.now plan }
    ensures { IfOk result (λ file. IsFileOf resolved.now plan file) }
{
    let arrays = arrays_of(alloc, resolved, &plan)?;
    filed(alloc, plan, arrays)
}

fn filed(alloc: Global, plan: Plan, arrays: EntryArrays) -> Result<PlanFile, AllocError>
    ensures plan { IfOk result (λ file. file.plan ≡ plan) }
    ensures arrays { IfOk result (λ file. file.arrays ≡ arrays) }
{
    let plan = Rc::new(alloc, plan)?;
    Ok(PlanFile::new(plan, arrays))
}
