//! What plans a program under a mapping.

ghost use Rattle.std.specs.Prelude.{◌≡◌, IfOk};
ghost use Rattle.sq_ast.specs.declared.program.Program.{Program};
ghost use Rattle.sq_machfile.specs.Machines.{Hierarchy};
ghost use Rattle.sq_mapping.specs.declared.mapping.Mapping.{Mapping};
ghost use Rattle.sq_mapping.specs.Sound.{Sound};
ghost use Rattle.sq_tune.specs.declared.row.RowEnd.{RowEnd};

use crate::row::RowEnd;
use sq_mapping::Mapping;
use std::alloc::{AllocError, Global};

/// Plans a program on a machine, under one mapping after another.
pub trait Planner {
    /// The program, which has no fault.
    ghost program: { Self → Program };

    ghost machine: { Self → Hierarchy };

    /// The row of a mapping of this program onto this machine.
    ghost IsRow: { Program → Hierarchy → Mapping → RowEnd → Type 0 };

    /// Plans the program under the mapping, which was read with the program and the machine. These stay.
    fn row(&mut self, alloc: Global, mapping: &Mapping) -> Result<RowEnd, AllocError>
        requires { Sound (program self.old) (machine self.old).levels mapping.now }
        ensures row { IfOk result (λ row. IsRow (program self.old) (machine self.old) mapping.now row) }
        ensures program { program self.new ≡ program self.old }
        ensures machine { machine self.new ≡ machine self.old };
}
