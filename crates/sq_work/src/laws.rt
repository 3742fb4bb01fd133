//! What is true of the meaning of works.

ghost use Rattle.sq_work.specs.InTurn.{ChangesWritten, DependsOnTouched, RaceFreeIsSerial};
ghost use Rattle.sq_work.specs.Examples.{MovesDiffer, SumsCombine, TrapsHavePaths, OutBeginsWithZeros};
ghost use Rattle.sq_work.specs.Examples.{LocalsBeginWithZeros, ArgumentsAreValues, SumsWrap};

/// A work changes only what it writes.
pub fn what_changes_is_written()
    ensures { ChangesWritten }
{}

/// What a work does depends only on what it touches.
pub fn only_what_is_touched_matters()
    ensures { DependsOnTouched }
{}

/// Without a race the iterations of all maps may run one after another.
pub fn race_free_maps_are_serial()
    ensures { RaceFreeIsSerial }
{}

/// Two iterations of which one reads what the other writes, in a `mapseq` and in a `mappar`.
pub fn a_mappar_reads_its_start()
    ensures { MovesDiffer }
{}

/// A sum by a `mapreduce`.
pub fn a_mapreduce_combines_all()
    ensures { SumsCombine }
{}

/// The least iteration that traps, with the numbers round it.
pub fn traps_have_their_paths()
    ensures { TrapsHavePaths }
{}

/// An `out` parameter and the locals of a callee begin with zeros, each time; a parameter is a copy of its argument.
pub fn a_callee_begins_with_zeros_and_copies()
    ensures out { OutBeginsWithZeros }
    ensures locals { LocalsBeginWithZeros }
    ensures copies { ArgumentsAreValues }
{}

/// A sum of bytes is cut to a byte.
#[tactic(auto, using(crate::proofs::Computed::sums_wrap))]
pub fn sums_of_bytes_wrap()
    ensures { SumsWrap }
{}
