//! What a plan file holds.

use crate::entry::{EntryArray, EntryArrays};
use sq_ir::Plan;
use std::marker::Model;
use std::rc::Rc;

/// A plan, and the arrays that it works on.
#[derive(Drop)]
pub struct PlanFile {
    plan: Rc<Plan>,
    arrays: EntryArrays,
}

impl Model for PlanFile {
    ghost use Rattle.sq_planfile.specs.File as file;
    ghost use Rattle.sq_ir.specs.contracts.plan.Plan as plan_row;
    ghost use Rattle.sq_planfile.specs.contracts.entry.EntryArray as array_row;
    ghost use Rattle.std.specs.Coded.{codes};

    ghost Value = { file.PlanFile };

    ghost coded = { Prim.hlevel (codes, plan_row.the_row.coded, array_row.the_row.coded) };

    ghost view = { λ f. record { plan = f.plan.value; arrays = f.arrays } };
}

ghost use Rattle.std.specs.Prelude.{◌≡◌};

impl PlanFile {
    pub fn new(plan: Rc<Plan>, arrays: EntryArrays) -> PlanFile
        ensures { result ≡ record { plan = plan.value; arrays = arrays } }
    {
        PlanFile { plan, arrays }
    }

    pub fn plan(&self) -> &Plan
        ensures { result.now ≡ self.now.plan }
    {
        &self.plan
    }

    /// The plan, to be held once more.
    pub fn shared_plan(&self) -> &Rc<Plan>
        ensures { result.now.value ≡ self.now.plan }
    {
        &self.plan
    }

    pub fn arrays(&self) -> &[EntryArray]
        ensures { result.now ≡ self.now.arrays }
    {
        self.arrays.as_slice()
    }
}
