//! The memories that a plan runs on.
ghost use Rattle.std.specs.Prelude.{◌≡◌, ◌+◌, ◌<◌, ◌≤◌, ◌^◌, length, take, drop, IfErr, OnOk, OnErr};
ghost use Rattle.sq_ir.specs.Events as events;
ghost use Rattle.sq_ir.specs.LeafRuns.{trap_at};
ghost use Rattle.sq_sched.specs.Seen.{seen_spot};
ghost use Rattle.sq_tree.specs.Bank.{BankSeen, IsOpened, IsAsked, Performs, TrapsAs, PutsRoot, bytes_at, size_in};

use sq_ir::Plan;
use sq_leaf::Trap;
use sq_num::{Elem, RedOp};
use sq_rect::{Path, Views};
use sq_sched::Spot;
use std::alloc::Global;
use std::rc::Rc;

/// Memories, one for each node of a machine, and the events that are performed on them. Contracts see what it holds and
/// what it has performed since it was opened. Of its bytes nothing changes but what a call names for writing.
pub trait Bank {
    /// How often it was opened, its plan, the bytes of its nodes, the events performed, where they are told, their
    /// counts, and what each edge carried.
    ghost seen: { Self → BankSeen };

    /// Opens the bank, or opens it again: each node has its capacity in zero bytes, and nothing was performed.
    /// For want of memory it gives the plan back, and all is as before.
    fn prepare(&mut self, alloc: Global, plan: Rc<Plan>) -> Result<(), Rc<Plan>>
        ensures opened { OnOk result (IsOpened plan.value (seen self.old) (seen self.new)) }
        ensures kept { OnErr result (seen self.new ≡ seen self.old) }
        ensures back { IfErr result (λ back. back.value ≡ plan.value) };

    /// Performs a copy. The two rows share no byte.
    fn copy_row(&mut self, from: Spot, to: Spot, bytes: u32)
        requires { IsAsked (events.Copy (seen_spot from) (seen_spot to) bytes) (seen self.old) }
        ensures { Performs (events.Copy (seen_spot from) (seen_spot to) bytes) (seen self.old) (seen self.new) };

    /// Performs a fill: `count` elements from `to` on become `value`, cut to the type.
    fn fill_row(&mut self, to: Spot, elem: Elem, count: u32, value: i64)
        requires { IsAsked (events.Fill (seen_spot to) elem count value) (seen self.old) }
        ensures { Performs (events.Fill (seen_spot to) elem count value) (seen self.old) (seen self.new) };

    /// Performs an accumulation. The two rows share no byte.
    fn acc_row(&mut self, op: RedOp, elem: Elem, from: Spot, to: Spot, count: u32)
        requires { IsAsked (events.Accumulate op elem (seen_spot from) (seen_spot to) count) (seen self.old) }
        ensures { Performs (events.Accumulate op elem (seen_spot from) (seen_spot to) count) (seen self.old)
            (seen self.new) };

    /// Performs a leaf call of the plan. Where it traps, its written views hold any bytes.
    fn leaf(&mut self, node: u32, code: u32, views: &Views, path: &Path) -> Result<(), Trap>
        requires asked { IsAsked (events.Leaf node code views.now path.now) (seen self.old) }
        requires small { size_in (seen self.old).nodes node < 2 ^ 62 }
        ensures performs { Performs (events.Leaf node code views.now path.now) (seen self.old) (seen self.new) }
        ensures traps { TrapsAs (events.Leaf node code views.now path.now) (seen self.old) (trap_at path.now result) };

    /// Makes the root's bytes from that place on those of `from`. It is no event.
    fn put_root(&mut self, at: usize, from: &[u8])
        requires { at + length from.now ≤ size_in (seen self.old).nodes 0 }
        ensures { PutsRoot at from.now (seen self.old) (seen self.new) };

    /// So many bytes of the root from that place on.
    fn root_bytes(&self, at: usize, bytes: usize) -> &[u8]
        requires { at + bytes ≤ size_in (seen self.now).nodes 0 }
        ensures { result.now ≡ take bytes (drop at (bytes_at (seen self.now).nodes 0)) };
}
