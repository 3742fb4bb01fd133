//! The top call.
ghost use Rattle.std.specs.Prelude.{◌≡◌, ◌≢◌, ◌⊎◌, ◌≤◌, Some, None};
ghost use Rattle.sq_port.specs.Ports.{Rose};
ghost use Rattle.sq_words.specs.Words.{command_of, texts};
ghost use Rattle.sq_driver.specs.CompiledFiles.{CompiledAreRead};
ghost use Rattle.sq_driver.specs.CutTraces.{CutTracesBegin};
ghost use Rattle.sq_driver.specs.Ends.{ending, FileCauses};
ghost use Rattle.sq_driver.specs.Meaning.{Answer};
ghost use Rattle.sq_driver.specs.Banks.{Writing};
ghost use Rattle.sq_driver.specs.Outcome.{Outside, Puts, ResultFor, trace_for};
ghost use Rattle.sq_driver.specs.Planned.{PlanIsOne};
ghost use Rattle.sq_driver.specs.Top.{Answered, Executed, Finished, IsDemoDone, IsExplained, IsOnly, IsUndisturbed};

use crate::outside::end::{End, put_end};
use crate::outside::status::Status;
use crate::outside::world::{Perform, World};
use sq_compile::laws::plans_are_one;
use sq_compiled_laws::laws::compiled_files_are_read_again;
use sq_demo_laws::laws::the_demo_is_accepted;
use sq_port::{Failed, Files, Sink};
use sq_tree::Bank;
use sq_tree::laws::runs_under_orders_go_on;
use sq_words::{Command, parse};
use std::alloc::Global;

/// Does what the words say.
pub fn sq_top<F: Files, S: Sink, E: Sink, B: Bank>(
    alloc: Global,
    words: &[String],
    files: &mut F,
    out: &mut S,
    err: &mut E,
    bank: &mut B,
) -> Status
    // Usage comes just where the words are no command.
    ensures usage { result ≡ Status.Usage → command_of (texts words.now) ≡ None }
    ensures no_command { command_of (texts words.now) ≡ None → (result ≡ Status.Usage) ⊎ (result ≡ Status.SinkFault) }

    // Absent, FileFault and SinkFault come only where one count rose in this call and no other, and a sink's count
    // rises at SinkFault alone.
    ensures absent { result ≡ Status.Absent → Rose (F.misses files.old) (F.misses files.new)
        × (F.faults files.new ≡ F.faults files.old) }
    ensures file_fault { result ≡ Status.FileFault → Rose (F.faults files.old) (F.faults files.new)
        × (F.misses files.new ≡ F.misses files.old) }
    ensures sink_fault { result ≡ Status.SinkFault
        → (Rose (S.faults out.old) (S.faults out.new) × (E.faults err.new ≡ E.faults err.old))
        ⊎ (Rose (E.faults err.old) (E.faults err.new) × (S.faults out.new ≡ S.faults out.old)) }
    ensures no_sink_fault { result ≢ Status.SinkFault → (S.faults out.new ≡ S.faults out.old)
        × (E.faults err.new ≡ E.faults err.old) }

    // With every other answer no read failed and no file was missed.
    ensures undisturbed { IsUndisturbed result → (F.faults files.new ≡ F.faults files.old)
        × (F.misses files.new ≡ F.misses files.old) }

    // What the files hold stays, and no count falls.
    ensures content { F.content files.new ≡ F.content files.old }
    ensures faults_later { F.faults files.old ≤ F.faults files.new }
    ensures misses_later { F.misses files.old ≤ F.misses files.new }
    ensures out_later { S.faults out.old ≤ S.faults out.new }
    ensures err_later { E.faults err.old ≤ E.faults err.new }

    // The answer has its cause in what the words and the files say, its text on each sink, its counts, and its bank.
    ensures answered { Answered (command_of (texts words.now))
        (record {
          told = F.content files.old;
          out = S.written out.old;
          out_faults = S.faults out.old;
          err = E.written err.old;
          err_faults = E.faults err.old;
          bank = B.seen bank.old;
        })
        (record {
          told = F.content files.new;
          out = S.written out.new;
          out_faults = S.faults out.new;
          err = E.written err.new;
          err_faults = E.faults err.new;
          bank = B.seen bank.new;
        })
        (F.faults files.old) (F.faults files.new) (F.misses files.old) (F.misses files.new) result }

    // For want of memory nothing was opened, and `out` got nothing.
    ensures no_memory { result ≡ Status.NoMemory → B.seen bank.new ≡ B.seen bank.old }

    // What the files say is answered, or FileFault, SinkFault or want of memory in its place: so Refused comes exactly
    // where a fault is reached, Absent where a file that isn't there is, Trapped where all is accepted and the source
    // traps, and Done where it is accepted and doesn't.
    ensures only { IsOnly (command_of (texts words.now)) (F.content files.old) result }

    // Where the files tell their content or the command has none, and no read and no put failed, the answer is the one
    // that they say, or want of memory.
    ensures complete { ¬ Rose (F.faults files.old) (F.faults files.new) → ¬ Rose (S.faults out.old) (S.faults out.new)
        → ¬ Rose (E.faults err.old) (E.faults err.new) → IsExplained (command_of (texts words.now))
        (F.content files.old) result }

    // The demo is done, or memory was wanting, or a put failed: its texts are accepted, and nothing of it traps.
    ensures demo { IsDemoDone (command_of (texts words.now)) result }

    // A program has one plan: what `run` performs is what `plan` reports.
    ensures one_plan { PlanIsOne }

    // What `compile` writes `exec` accepts, and it runs as the program, but for the place of a trap.
    ensures compiled { CompiledAreRead }

    // A trace that was cut begins the trace of a whole run of that plan, under the same order from the same data on.
    ensures cut { CutTracesBegin }
{
    runs_under_orders_go_on();
    the_demo_is_accepted();
    plans_are_one();
    compiled_files_are_read_again();
    let ended = execute(alloc, words, files, out, err, bank);
    finish(ended, err)
}

// Does what the words say, but for the line that names the answer.
fn execute<'a, F: Files, S: Sink, E: Sink, B: Bank>(
    alloc: Global,
    words: &'a [String],
    files: &mut F,
    out: &mut S,
    err: &mut E,
    bank: &mut B,
) -> Result<(), End<'a>>
    ensures content { F.content files.new ≡ F.content files.old }
    ensures executed { Executed (command_of (texts words.now))
        (record {
          told = F.content files.old;
          out = S.written out.old;
          out_faults = S.faults out.old;
          err = E.written err.old;
          err_faults = E.faults err.old;
          bank = B.seen bank.old;
        })
        (record {
          told = F.content files.new;
          out = S.written out.new;
          out_faults = S.faults out.new;
          err = E.written err.new;
          err_faults = E.faults err.new;
          bank = B.seen bank.new;
        })
        result }
    ensures cause { FileCauses (F.faults files.old) (F.faults files.new) (F.misses files.old) (F.misses files.new)
        (ending result) }
{
    let mut world = World {
        files,
        out,
        err,
        bank,
    };
    dispatch(alloc, words, &mut world)
}

// Lets the command of the words do its work.
fn dispatch<'a, F: Files, S: Sink, E: Sink, B: Bank>(
    alloc: Global,
    words: &'a [String],
    world: &mut World<'_, '_, '_, '_, F, S, E, B>,
) -> Result<(), End<'a>>
    ensures lent { (world.new.files.ghost_name ≡ world.old.files.ghost_name)
        × (world.new.out.ghost_name ≡ world.old.out.ghost_name)
        × (world.new.err.ghost_name ≡ world.old.err.ghost_name)
        × (world.new.bank.ghost_name ≡ world.old.bank.ghost_name) }
    ensures content { F.content world.new.files.now ≡ F.content world.old.files.now }
    ensures executed { Executed (command_of (texts words.now))
        (record {
          told = F.content world.old.files.now;
          out = S.written world.old.out.now;
          out_faults = S.faults world.old.out.now;
          err = E.written world.old.err.now;
          err_faults = E.faults world.old.err.now;
          bank = B.seen world.old.bank.now;
        })
        (record {
          told = F.content world.new.files.now;
          out = S.written world.new.out.now;
          out_faults = S.faults world.new.out.now;
          err = E.written world.new.err.now;
          err_faults = E.faults world.new.err.now;
          bank = B.seen world.new.bank.now;
        })
        result }
    ensures cause { FileCauses (F.faults world.old.files.now) (F.faults world.new.files.now)
        (F.misses world.old.files.now) (F.misses world.new.files.now) (ending result) }
{
    match parse(words) {
        Some(Command::Check(check)) => check.perform(alloc, world),
        Some(Command::Fmt(fmt)) => fmt.perform(alloc, world),
        Some(Command::Plan(plan)) => plan.perform(alloc, world),
        Some(Command::Eval(eval)) => eval.perform(alloc, world),
        Some(Command::Run(run)) => run.perform(alloc, world),
        Some(Command::Demo(demo)) => demo.perform(alloc, world),
        Some(Command::Compile(compile)) => compile.perform(alloc, world),
        Some(Command::Tune(tune)) => tune.perform(alloc, world),
        Some(Command::Span(span)) => span.perform(alloc, world),
        Some(Command::Exec(exec)) => exec.perform(alloc, world),
        None => Err(End::Usage),
    }
}

// Puts the line that names the answer, and gives its status.
fn finish<E: Sink>(ended: Result<(), End<'_>>, err: &mut E) -> Status
    ensures { (answer : Answer) (writing : Writing) (old mid : Outside) → mid.err ≡ E.written err.old
        → mid.err_faults ≡ E.faults err.old
        → ResultFor answer writing ended.entry → Puts writing answer (trace_for answer) old mid
        → Finished answer writing old (record mid { err = E.written err.new; err_faults = E.faults err.new }) result }
{
    match ended {
        Ok(()) => Status::Done,
        Err(end) => finish_end(end, err),
    }
}

// Puts the line of an end, but where a sink has failed.
fn finish_end<E: Sink>(end: End<'_>, err: &mut E) -> Status
    ensures { (answer : Answer) (writing : Writing) (old mid : Outside) → mid.err ≡ E.written err.old
        → mid.err_faults ≡ E.faults err.old
        → ResultFor answer writing (Err end.entry) → Puts writing answer (trace_for answer) old mid
        → Finished answer writing old (record mid { err = E.written err.new; err_faults = E.faults err.new }) result }
{
    match end {
        End::SinkFault => Status::SinkFault,
        named => match put_end(err, &named) {
            Ok(()) => named.status(),
            Err(Failed) => Status::SinkFault,
        },
    }
}
