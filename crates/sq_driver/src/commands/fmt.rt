//! The command `fmt`: the canonical text of a program.
ghost use Rattle.sq_words.specs.Words.{fmt_of};

use crate::outside::end::End;
use crate::outside::world::{Perform, World};
use crate::phases::tree::read_tree;
use sq_ast::print_program;
use sq_port::{Failed, Files, Sink, put_all};
use sq_tree::Bank;
use sq_words::Fmt;
use std::alloc::Global;

impl<'a> Perform<'a> for Fmt<'a> {
    ghost command = { λ words. fmt_of words.program.now };

    // Not inlined: each command has the stack to itself.
    #[inline(never)]
    fn perform<F: Files, S: Sink, E: Sink, B: Bank>(
        &self,
        alloc: Global,
        world: &mut World<'_, '_, '_, '_, F, S, E, B>,
    ) -> Result<(), End<'a>> {
        let program = match read_tree(alloc, world.files, self.program) {
            Ok(program) => program,
            Err(end) => return Err(end),
        };
        let text = match print_program(alloc, &program) {
            Ok(text) => text,
            Err(_) => return Err(End::NoMemory),
        };
        match put_all(world.out, text.as_slice()) {
            Ok(()) => Ok(()),
            Err(Failed) => Err(End::SinkFault),
        }
    }
}
