//! A resolved program on one flat memory.

ghost use Rattle.std.specs.Prelude.{◌≡◌, ◌+◌, ◌≤◌, ◌++◌, length, reverse};
ghost use Rattle.sq_leaf.specs.Source.{Arrays as SpecArrays};
ghost use Rattle.sq_work.specs.InTurn.{IsRaceFree};
ghost use Rattle.sq_work.specs.Meaning.{Outcome};
ghost use Rattle.sq_spec.specs.Works.{flat, work_of};
ghost use Rattle.sq_flat.specs.Held.{Holds, entry_shapes};
ghost use Rattle.sq_flat.specs.Ends.{Evaluates, IsEnd, IsInside};

use crate::arrays::Arrays;
use crate::codes::codes_of;
use crate::entry::entry_call;
use crate::form::{End, Unwound};
use sq_leaf::Trap;
use sq_rect::Path;
use sq_spec::Resolved;
use sq_spec::meaning::tables_mean_the_program;
use std::alloc::Global;

/// A trap of leaf code, and the numbers of the iterations round it, from the entry down.
#[derive(Drop)]
pub struct Trapped {
    pub trap: Trap,
    pub path: Path,
}

/// Why an evaluation ended before its end.
#[derive(Drop)]
pub enum FlatEnd {
    Trap(Trapped),
    /// Also where more than 64 iterations stand round a trap, where a form has more than 32 arrays or one of them would
    /// begin 2^32 bytes or more behind the first, and where more than 1,024 maps and calls stand within one another.
    NoMemory,
}

fn push_reversed(turns: &[u32], path: &mut Path)
    requires { length path.old + length turns.now ≤ 64 }
    ensures { path.new ≡ path.old ++ reverse turns.now }
{
    let Some((first, rest)) = turns.split_first() else {
        return;
    };
    push_reversed(rest, path);
    path.push(*first);
}

fn path_of(turns: &[u32]) -> Path
    requires { length turns.now ≤ 64 }
    ensures { result ≡ reverse turns.now }
{
    let mut path = Path::new();
    push_reversed(turns, &mut path);
    path
}

fn flat_end(end: End) -> FlatEnd
    ensures { (o : Outcome) → IsInside end o → IsEnd result o }
{
    match end {
        End::NoMemory => FlatEnd::NoMemory,
        End::Trapped(Unwound { trap, turns }) => {
            if turns.len() > 64 {
                return FlatEnd::NoMemory;
            }
            let path = path_of(turns.as_slice());
            FlatEnd::Trap(Trapped { trap, path })
        }
    }
}

/// Evaluates a resolved program without a race on the arrays of its entry's parameters: what they hold then is what the
/// program means, or its first trap is answered.
pub fn eval_flat(alloc: Global, r: &Resolved<'_>, arrays: Arrays) -> Result<Arrays, FlatEnd>
    requires race_free { IsRaceFree (work_of r.now.typed.now.tasks r.now.mapping.now r.now.found.entries) }
    requires shapes { arrays.shapes ≡ entry_shapes r.now.typed.now.tasks r.now.mapping.now r.now.found.entries }
    ensures { (s : SpecArrays) → Holds arrays.shapes arrays.bytes s → Evaluates arrays.shapes result
        (flat r.now.typed.now r.now.mapping.now s) }
{
    tables_mean_the_program();
    let Ok(codes) = codes_of(alloc, r) else {
        return Err(FlatEnd::NoMemory);
    };
    let forms = codes.as_slice();
    if forms.is_empty() {
        return Err(FlatEnd::NoMemory);
    }
    let Ok(entry) = entry_call(alloc, r) else {
        return Err(FlatEnd::NoMemory);
    };
    let mut arrays = arrays;
    match arrays.run(alloc, forms, &entry) {
        Ok(()) => Ok(arrays),
        Err(end) => Err(flat_end(end)),
    }
}
