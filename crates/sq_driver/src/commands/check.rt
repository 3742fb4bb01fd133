//! The command `check`: whether a program keeps the rules of names, kinds and parameters.
ghost use Rattle.sq_words.specs.Words.{check_of};

use crate::outside::end::End;
use crate::outside::world::{Perform, World};
use crate::phases::tree::read_tree;
use sq_port::{Failed, Files, Sink, put_all};
use sq_text::Stop;
use sq_tree::Bank;
use sq_words::Check;
use std::alloc::Global;

impl<'a> Perform<'a> for Check<'a> {
    ghost command = { λ words. check_of words.program.now };

    // Not inlined: each command has the stack to itself.
    #[inline(never)]
    fn perform<F: Files, S: Sink, E: Sink, B: Bank>(
        &self,
        alloc: Global,
        world: &mut World<'_, '_, '_, '_, F, S, E, B>,
    ) -> Result<(), End<'a>> {
        let program = match read_tree(alloc, world.files, self.program) {
            Ok(program) => program,
            Err(end) => return Err(end),
        };
        match sq_types::check(alloc, program) {
            Ok(_) => {}
            Err(Stop::Refused(fault)) => return Err(End::Refused(fault)),
            Err(Stop::NoMemory) => return Err(End::NoMemory),
        }
        match put_all(world.out, b"ok\n") {
            Ok(()) => Ok(()),
            Err(Failed) => Err(End::SinkFault),
        }
    }
}
