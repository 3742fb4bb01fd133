//! The phase order: the order that the words of a run ask for.
ghost use Rattle.std.specs.Prelude.{◌≡◌};
ghost use Rattle.sq_picks.specs.OrderList.{too_long};
ghost use Rattle.sq_words.specs.Words.{asked};
ghost use Rattle.sq_driver.specs.Ends.{ending, FileCauses};
ghost use Rattle.sq_driver.specs.Ordering.{ReadsList, ReadsOrder};

use crate::outside::end::End;
use sq_orders::Chosen;
use sq_picks::read_picks;
use sq_port::{Files, Picks, ReadEnd, read_whole};
use sq_text::limits::DATA_BYTES;
use sq_text::{Args, Code, Fault, Phase, Stop};
use sq_words::Way;
use std::alloc::Global;

/// The order of these words, its list read where it has one.
pub fn chosen<'a, F: Files>(alloc: Global, files: &mut F, way: Way<'a>) -> Result<Chosen, End<'a>>
    ensures content { F.content files.new ≡ F.content files.old }
    ensures chosen { ReadsOrder (asked way.entry) (F.content files.old) result }
    ensures cause { FileCauses (F.faults files.old) (F.faults files.new) (F.misses files.old) (F.misses files.new)
        (ending result) }
{
    match way {
        Way::First => Ok(Chosen::first()),
        Way::Last => Ok(Chosen::last()),
        Way::Seed(seed) => Ok(Chosen::seeded(seed)),
        Way::List(name) => match read_list(alloc, files, name) {
            Ok(picks) => Ok(Chosen::listed(picks)),
            Err(end) => Err(end),
        },
    }
}

// The fault of an order list that is too long.
fn too_long(alloc: Global) -> Fault
    ensures { result ≡ too_long }
{
    Fault {
        phase: Phase::Order,
        code: Code::LimitFile,
        place: None,
        args: Args::new(alloc),
    }
}

// Reads the numbers of an order list.
fn read_list<'a, F: Files>(alloc: Global, files: &mut F, name: &'a str) -> Result<Picks, End<'a>>
    ensures content { F.content files.new ≡ F.content files.old }
    ensures told { ReadsList (F.content files.old) name.now result }
    ensures cause { FileCauses (F.faults files.old) (F.faults files.new) (F.misses files.old) (F.misses files.new)
        (ending result) }
{
    let text = match read_whole(alloc, files, name, DATA_BYTES as u64) {
        Ok(text) => text,
        Err(ReadEnd::Failed) => return Err(End::FileFault(name)),
        Err(ReadEnd::Absent) => return Err(End::Absent(name)),
        Err(ReadEnd::TooLong) => return Err(End::Refused(too_long(alloc))),
        Err(ReadEnd::NoMemory) => return Err(End::NoMemory),
    };
    match read_picks(alloc, text.as_slice()) {
        Ok(picks) => Ok(picks),
        Err(Stop::Refused(fault)) => Err(End::Refused(fault)),
        Err(Stop::NoMemory) => Err(End::NoMemory),
    }
}
