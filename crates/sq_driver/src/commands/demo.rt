//! The command `demo`: a run over texts of its own, of which it tells a sum.
ghost use Rattle.std.specs.Prelude.{◌≡◌, ℕ, [], Some};
ghost use Rattle.sq_adder.specs.Told.{sum_written};
ghost use Rattle.sq_report.specs.Demo.{demo_line};
ghost use Rattle.sq_words.specs.Words.{demo_of};
ghost use Rattle.sq_demo.specs.Files.{files_content};
ghost use Rattle.sq_driver.specs.DemoRuns.{demo_run};
ghost use Rattle.sq_driver.specs.Ends.{ending, FileCauses};
ghost use Rattle.sq_driver.specs.Outcome.{Ended};
ghost use Rattle.sq_driver.specs.Steps.{WroteOut};

use crate::outside::end::End;
use crate::outside::world::{Perform, World};
use sq_adder::SumSink;
use sq_demo::DemoFiles;
use sq_port::{Failed, Files, Sink};
use sq_report::put_demo;
use sq_tree::Bank;
use sq_words::{Demo, Run, Way};
use std::alloc::{AllocError, Global};

impl<'a> Perform<'a> for Demo {
    ghost command = { λ words. demo_of words.seed };

    // Not inlined: each command has the stack to itself.
    #[inline(never)]
    fn perform<F: Files, S: Sink, E: Sink, B: Bank>(
        &self,
        alloc: Global,
        world: &mut World<'_, '_, '_, '_, F, S, E, B>,
    ) -> Result<(), End<'a>> {
        let mut files = match DemoFiles::new(alloc, self.seed) {
            Ok(files) => files,
            Err(AllocError) => return Err(End::NoMemory),
        };
        let mut sink = SumSink::new();
        match run_texts(
            alloc, self.seed, &mut files, &mut sink, world.err, world.bank,
        ) {
            Ok(()) => write_line(world.out, self.seed, sink.sum()),
            Err(end) => Err(end),
        }
    }
}

// The run of these texts, whose output is added up.
fn run_texts<'a, E: Sink, B: Bank>(
    alloc: Global,
    seed: u64,
    files: &mut DemoFiles,
    sink: &mut SumSink,
    err: &mut E,
    bank: &mut B,
) -> Result<(), End<'a>>
    ensures ended { Ended (demo_run seed)
        (record {
          told = Some (files_content files.old);
          out = Some (sum_written sink.old);
          out_faults = 0;
          err = E.written err.old;
          err_faults = E.faults err.old;
          bank = B.seen bank.old;
        })
        (record {
          told = Some (files_content files.new);
          out = Some (sum_written sink.new);
          out_faults = 0;
          err = E.written err.new;
          err_faults = E.faults err.new;
          bank = B.seen bank.new;
        })
        result }
    ensures cause { FileCauses 0 0 0 0 (ending result) }
{
    let words = Run {
        program: "program",
        mapping: "mapping",
        machine: "machine",
        input: "data",
        order: Way::Seed(seed),
        traced: false,
    };
    let mut world = World {
        files,
        out: sink,
        err,
        bank,
    };
    words.perform(alloc, &mut world)
}

// The line of the sum.
fn write_line<'a, S: Sink>(out: &mut S, seed: u64, sum: i64) -> Result<(), End<'a>>
    ensures wrote { WroteOut (S.written out.old) (S.written out.new) (S.faults out.old) (S.faults out.new)
        (demo_line seed sum) result }
    ensures cause { (f : ℕ) (m : ℕ) → FileCauses f f m m (ending result) }
{
    match put_demo(out, seed, sum) {
        Ok(()) => Ok(()),
        Err(Failed) => Err(End::SinkFault),
    }
}
