//! The command `exec`: the plan of a plan file, performed on the memories of the bank.
ghost use Rattle.sq_words.specs.Words.{asked, exec_of};
ghost use Rattle.sq_driver.specs.RunLaws.{ExecLaws};

use crate::outside::end::End;
use crate::outside::world::{Perform, World};
use crate::phases::plans::read_file;
use crate::phases::running::{Asked, run_file};
use sq_ir::laws::good_plans_have_one_result;
use sq_launch::laws::{banks_have_room, starts_are_one};
use sq_leaf::Trap;
use sq_port::{Files, Sink};
use sq_tree::Bank;
use sq_words::Exec;
use std::alloc::Global;

impl<'a> Perform<'a> for Exec<'a> {
    ghost command = { λ words. exec_of words.plan.now words.input.now (asked words.order) words.traced };

    // Not inlined: each command has the stack to itself.
    #[inline(never)]
    fn perform<F: Files, S: Sink, E: Sink, B: Bank>(
        &self,
        alloc: Global,
        world: &mut World<'_, '_, '_, '_, F, S, E, B>,
    ) -> Result<(), End<'a>> {
        exec_laws();
        let file = match read_file(alloc, world.files, self.plan) {
            Ok(file) => file,
            Err(end) => return Err(end),
        };
        let asked = Asked {
            input: self.input,
            order: self.order,
            traced: self.traced,
        };
        run_file(alloc, asked, world, &file)
    }
}

// What is known of the runs of good plans, and of where they start.
fn exec_laws()
    ensures { ExecLaws }
{
    good_plans_have_one_result::<Trap>();
    banks_have_room();
    starts_are_one();
}
