//! What holds of the plan files that programs are compiled to, and of the buffers of their drafts.

ghost use Rattle.sq_compiled_laws.specs.Buffers.{BuffersAreNamed, BuffersAreOpened};
ghost use Rattle.sq_compiled_laws.specs.Compiled.{CompiledLeavesAreSound, CompiledAreInOrder};
ghost use Rattle.sq_compiled_laws.specs.Compiled.{CompiledHaveSoundHeads, CompiledAreReadable};
ghost use Rattle.sq_compiled_laws.specs.Refiled.{CompiledAreRefiled};

use sq_filed_laws::laws::good_plans_are_filed;

/// The lines of its leaves are sound.
pub fn compiled_leaves_are_sound()
    ensures { CompiledLeavesAreSound }
{}

/// So are all others, and they can be read.
pub fn compiled_files_are_sound()
    ensures order { CompiledAreInOrder }
    ensures heads { CompiledHaveSoundHeads }
    ensures readable { CompiledAreReadable }
{}

/// Their texts are plan files without faults, which stand for them, but for places, and run as the program.
pub fn compiled_files_are_read_again()
    ensures { CompiledAreRefiled }
{
    compiled_files_are_sound();
    good_plans_are_filed();
}

/// Each buffer of a program's draft is the entry's or named by a scope of the term, and such a scope is opened at a node
/// of the machine.
pub fn buffers_are_named()
    ensures named { BuffersAreNamed }
    ensures opened { BuffersAreOpened }
{}
