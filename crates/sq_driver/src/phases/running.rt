//! Running a plan on the memories of the bank, whichever command it is of.
ghost use Rattle.std.specs.Prelude.{◌≡◌, ◌<◌, ◌^◌, ℕ, map, OnOk, OnErr};
ghost use Rattle.std.specs.List.{All};
ghost use Rattle.sq_arrays.specs.Arrays.{wanted, size_of};
ghost use Rattle.sq_tree.specs.Bank.{IsOpened, bytes_at, size_in};
ghost use Rattle.sq_root.specs.Places.{IsWithin, Fits, KeepsOutside};
ghost use Rattle.sq_launch.specs.Arrays.{AreSmall, places_of, root_text};
ghost use Rattle.sq_launch.specs.Launching.{IsLaunch, fault_args};
ghost use Rattle.sq_orders.specs.Chosen.{chosen_held};
ghost use Rattle.sq_words.specs.Words.{asked};
ghost use Rattle.sq_driver.specs.Ends.{ending, FileCauses};
ghost use Rattle.sq_driver.specs.Outcome.{Ended};
ghost use Rattle.sq_driver.specs.Running.{FillsRoot, HoldsOrdered, HoldsWork, LaunchLaws, MayRun, Runner, command_by};
ghost use Rattle.sq_driver.specs.Steps.{WroteOut};

use crate::outside::end::End;
use crate::outside::world::World;
use crate::phases::entry::code_of;
use crate::phases::order::chosen;
use sq_arrays::{InputEnd, Want};
use sq_ir::Plan;
use sq_launch::laws::{banks_have_room, filled_banks_are_starts};
use sq_launch::{Launch, args_at, prepared, write_arrays};
use sq_orders::Chosen;
use sq_planfile::PlanFile;
use sq_port::{Failed, Files, Sink};
use sq_report::trap_at;
use sq_root::{Place, read_root};
use sq_text::{Args, Fault, Phase};
use sq_tree::{Bank, RunEnd, run};
use sq_words::Way;
use std::alloc::{AllocError, Global};
use std::rc::Rc;

/// What the words of a command say of a run.
#[derive(Clone, Copy)]
pub struct Asked<'a> {
    pub input: &'a str,
    pub order: Way<'a>,
    pub traced: bool,
}

/// Runs a plan on its arrays, from the order of the run to the arrays that it leaves.
pub fn run_file<'a, F: Files, S: Sink, E: Sink, B: Bank>(
    alloc: Global,
    words: Asked<'a>,
    world: &mut World<'_, '_, '_, '_, F, S, E, B>,
    file: &PlanFile,
) -> Result<(), End<'a>>
    requires { MayRun file.now }
    ensures lent { (world.new.files.ghost_name ≡ world.old.files.ghost_name)
        × (world.new.out.ghost_name ≡ world.old.out.ghost_name)
        × (world.new.err.ghost_name ≡ world.old.err.ghost_name)
        × (world.new.bank.ghost_name ≡ world.old.bank.ghost_name) }
    ensures content { F.content world.new.files.now ≡ F.content world.old.files.now }
    // Each command that works on this plan has ended so.
    ensures ended { (its : Runner) → HoldsWork its words.entry.input.now (asked words.entry.order) words.entry.traced
        (F.content world.old.files.now) file.now
        → Ended (command_by its words.entry.input.now (asked words.entry.order) words.entry.traced)
        (record {
          told = F.content world.old.files.now;
          out = S.written world.old.out.now;
          out_faults = S.faults world.old.out.now;
          err = E.written world.old.err.now;
          err_faults = E.faults world.old.err.now;
          bank = B.seen world.old.bank.now;
        })
        (record {
          told = F.content world.new.files.now;
          out = S.written world.new.out.now;
          out_faults = S.faults world.new.out.now;
          err = E.written world.new.err.now;
          err_faults = E.faults world.new.err.now;
          bank = B.seen world.new.bank.now;
        })
        result }
    ensures cause { FileCauses (F.faults world.old.files.now) (F.faults world.new.files.now)
        (F.misses world.old.files.now) (F.misses world.new.files.now) (ending result) }
{
    match chosen(alloc, world.files, words.order) {
        Ok(order) => run_ordered(alloc, words, world, file, order),
        Err(end) => Err(end),
    }
}

// Takes all memory that the run needs, and goes on with that.
fn run_ordered<'a, F: Files, S: Sink, E: Sink, B: Bank>(
    alloc: Global,
    words: Asked<'a>,
    world: &mut World<'_, '_, '_, '_, F, S, E, B>,
    file: &PlanFile,
    order: Chosen,
) -> Result<(), End<'a>>
    requires { MayRun file.now }
    ensures lent { (world.new.files.ghost_name ≡ world.old.files.ghost_name)
        × (world.new.out.ghost_name ≡ world.old.out.ghost_name)
        × (world.new.err.ghost_name ≡ world.old.err.ghost_name)
        × (world.new.bank.ghost_name ≡ world.old.bank.ghost_name) }
    ensures content { F.content world.new.files.now ≡ F.content world.old.files.now }
    ensures ended { (its : Runner) → HoldsOrdered its words.entry.input.now (asked words.entry.order)
        words.entry.traced (F.content world.old.files.now) file.now (chosen_held order)
        → Ended (command_by its words.entry.input.now (asked words.entry.order) words.entry.traced)
        (record {
          told = F.content world.old.files.now;
          out = S.written world.old.out.now;
          out_faults = S.faults world.old.out.now;
          err = E.written world.old.err.now;
          err_faults = E.faults world.old.err.now;
          bank = B.seen world.old.bank.now;
        })
        (record {
          told = F.content world.new.files.now;
          out = S.written world.new.out.now;
          out_faults = S.faults world.new.out.now;
          err = E.written world.new.err.now;
          err_faults = E.faults world.new.err.now;
          bank = B.seen world.new.bank.now;
        })
        result }
    ensures cause { FileCauses (F.faults world.old.files.now) (F.faults world.new.files.now)
        (F.misses world.old.files.now) (F.misses world.new.files.now) (ending result) }
{
    let plan = match file.shared_plan().clone() {
        Ok(plan) => plan,
        Err(AllocError) => return Err(End::NoMemory),
    };
    match prepared(alloc, plan, file.arrays()) {
        Ok(launch) => run_launched(alloc, words, world, file, launch, order),
        Err(AllocError) => Err(End::NoMemory),
    }
}

// What is known of the arrays of a plan, and of banks into which their data was read.
fn launch_laws()
    ensures { LaunchLaws }
{
    banks_have_room();
    filled_banks_are_starts();
}

// Opens the bank, reads the data into its root, runs the plan, and writes the arrays that it leaves there.
fn run_launched<'a, F: Files, S: Sink, E: Sink, B: Bank>(
    alloc: Global,
    words: Asked<'a>,
    world: &mut World<'_, '_, '_, '_, F, S, E, B>,
    file: &PlanFile,
    launch: Launch<'_>,
    order: Chosen,
) -> Result<(), End<'a>>
    requires may { MayRun file.now }
    requires launch { IsLaunch file.now.plan file.now.arrays launch }
    ensures lent { (world.new.files.ghost_name ≡ world.old.files.ghost_name)
        × (world.new.out.ghost_name ≡ world.old.out.ghost_name)
        × (world.new.err.ghost_name ≡ world.old.err.ghost_name)
        × (world.new.bank.ghost_name ≡ world.old.bank.ghost_name) }
    ensures content { F.content world.new.files.now ≡ F.content world.old.files.now }
    ensures ended { (its : Runner) → HoldsOrdered its words.entry.input.now (asked words.entry.order)
        words.entry.traced (F.content world.old.files.now) file.now (chosen_held order)
        → Ended (command_by its words.entry.input.now (asked words.entry.order) words.entry.traced)
        (record {
          told = F.content world.old.files.now;
          out = S.written world.old.out.now;
          out_faults = S.faults world.old.out.now;
          err = E.written world.old.err.now;
          err_faults = E.faults world.old.err.now;
          bank = B.seen world.old.bank.now;
        })
        (record {
          told = F.content world.new.files.now;
          out = S.written world.new.out.now;
          out_faults = S.faults world.new.out.now;
          err = E.written world.new.err.now;
          err_faults = E.faults world.new.err.now;
          bank = B.seen world.new.bank.now;
        })
        result }
    ensures cause { FileCauses (F.faults world.old.files.now) (F.faults world.new.files.now)
        (F.misses world.old.files.now) (F.misses world.new.files.now) (ending result) }
{
    launch_laws();
    let Launch {
        plan,
        mut control,
        wants,
        read,
        faults,
    } = launch;
    let mut order = order;
    match open_bank(alloc, world.bank, &plan) {
        Ok(()) => {}
        Err(AllocError) => return Err(End::NoMemory),
    }
    match fill_root(
        alloc,
        world.files,
        words.input,
        world.bank,
        wants.as_slice(),
        read.as_slice(),
        faults,
    ) {
        Ok(()) => {}
        Err(end) => return Err(end),
    }
    match run(
        world.bank,
        &mut control,
        &mut order,
        words.traced,
        world.err,
    ) {
        Ok(()) => write_root(world.out, file, world.bank),
        Err(RunEnd::Trapped { trap, path }) => Err(End::Trapped(trap_at(trap, path))),
        Err(RunEnd::SinkFault) => Err(End::SinkFault),
    }
}

// Opens the bank with the plan, where there is memory for it.
fn open_bank<B: Bank>(alloc: Global, bank: &mut B, plan: &Rc<Plan>) -> Result<(), AllocError>
    ensures opened { OnOk result (IsOpened plan.now.value (B.seen bank.old) (B.seen bank.new)) }
    ensures kept { OnErr result (B.seen bank.new ≡ B.seen bank.old) }
{
    let held = match plan.clone() {
        Ok(held) => held,
        Err(error) => return Err(error),
    };
    match bank.prepare(alloc, held) {
        Ok(()) => Ok(()),
        Err(_) => Err(AllocError),
    }
}

// Reads the values of the data into the places of their arrays. It takes no memory: `faults` are the arguments of the
// faults that the data may have.
fn fill_root<'a, F: Files, B: Bank>(
    alloc: Global,
    files: &mut F,
    name: &'a str,
    bank: &mut B,
    wants: &[Want],
    places: &[Place],
    faults: Vec<Args>,
) -> Result<(), End<'a>>
    requires fits { Fits places.now (size_in (B.seen bank.old).nodes 0) }
    requires sizes { map (λ p. p.size) places.now ≡ map size_of (map wanted wants.now) }
    requires small { All (λ w. size_of w < 2 ^ 64) (map wanted wants.now) }
    requires faults { faults.items ≡ fault_args (map wanted wants.now) }
    ensures content { F.content files.new ≡ F.content files.old }
    ensures keeps { KeepsOutside places.now (B.seen bank.old) (B.seen bank.new) }
    ensures filled { FillsRoot (map wanted wants.now) places.now (F.content files.old) name.now (B.seen bank.new)
        result }
    ensures cause { FileCauses (F.faults files.old) (F.faults files.new) (F.misses files.old) (F.misses files.new)
        (ending result) }
{
    match read_root(files, name, wants, bank, places) {
        Ok(()) => Ok(()),
        Err(ended) => match ended.end {
            InputEnd::Refused { code, place } => Err(End::Refused(Fault {
                phase: Phase::Input,
                code: code_of(code),
                place: Some(place),
                args: args_at(alloc, faults, ended.array),
            })),
            InputEnd::Failed => Err(End::FileFault(name)),
            InputEnd::Absent => Err(End::Absent(name)),
        },
    }
}

// Writes the arrays that are written, as they stand in the root.
fn write_root<'a, S: Sink, B: Bank>(out: &mut S, file: &PlanFile, bank: &B) -> Result<(), End<'a>>
    requires small { AreSmall file.now.arrays }
    requires within { All (IsWithin (size_in (B.seen bank.now).nodes 0)) (places_of file.now.plan file.now.arrays) }
    ensures wrote { WroteOut (S.written out.old) (S.written out.new) (S.faults out.old) (S.faults out.new)
        (root_text file.now.plan file.now.arrays (bytes_at (B.seen bank.now).nodes 0)) result }
    ensures cause { (f : ℕ) (m : ℕ) → FileCauses f f m m (ending result) }
{
    match write_arrays(out, file.plan(), file.arrays(), bank) {
        Ok(()) => Ok(()),
        Err(Failed) => Err(End::SinkFault),
    }
}
