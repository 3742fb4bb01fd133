//! What a call is handed, and what a command does with it.
ghost use Rattle.std.specs.Prelude.{◌≡◌};
ghost use Rattle.sq_words.specs.Words.{Command};
ghost use Rattle.sq_driver.specs.Ends.{ending, FileCauses};
ghost use Rattle.sq_driver.specs.Outcome.{Ended};

use crate::outside::end::End;
use sq_port::{Files, Sink};
use sq_tree::Bank;
use std::alloc::Global;

/// The files, standard output, standard error and the bank.
#[derive(Drop)]
pub struct World<'f, 's, 'e, 'b, F: Files, S: Sink, E: Sink, B: Bank> {
    pub files: &'f mut F,
    pub out: &'s mut S,
    pub err: &'e mut E,
    pub bank: &'b mut B,
}

/// A command with its words.
pub trait Perform<'a> {
    /// What it is.
    ghost command: { Self → Command };

    /// Does it, but for the line that names the answer. No call changes what the files hold.
    fn perform<F: Files, S: Sink, E: Sink, B: Bank>(
        &self,
        alloc: Global,
        world: &mut World<'_, '_, '_, '_, F, S, E, B>,
    ) -> Result<(), End<'a>>
        ensures lent { (world.new.files.ghost_name ≡ world.old.files.ghost_name)
            × (world.new.out.ghost_name ≡ world.old.out.ghost_name)
            × (world.new.err.ghost_name ≡ world.old.err.ghost_name)
            × (world.new.bank.ghost_name ≡ world.old.bank.ghost_name) }
        ensures content { F.content world.new.files.now ≡ F.content world.old.files.now }
        ensures ended { Ended (command self.now)
            (record {
              told = F.content world.old.files.now;
              out = S.written world.old.out.now;
              out_faults = S.faults world.old.out.now;
              err = E.written world.old.err.now;
              err_faults = E.faults world.old.err.now;
              bank = B.seen world.old.bank.now;
            })
            (record {
              told = F.content world.new.files.now;
              out = S.written world.new.out.now;
              out_faults = S.faults world.new.out.now;
              err = E.written world.new.err.now;
              err_faults = E.faults world.new.err.now;
              bank = B.seen world.new.bank.now;
            })
            result }
        ensures cause { FileCauses (F.faults world.old.files.now) (F.faults world.new.files.now)
            (F.misses world.old.files.now) (F.misses world.new.files.now) (ending result) };
}
