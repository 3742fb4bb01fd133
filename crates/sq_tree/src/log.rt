//! A bank that keeps the list of its events.
ghost use Rattle.std.specs.Prelude.{◌≡◌, ◌+◌, ◌<◌, ◌≤◌, ◌^◌, ◌&&◌, [], Some, IfOk, OnOk, OnErr, IfErr};
ghost use Rattle.std.specs.Prelude.{length, nat_lt, vec_capacity};
ghost use Rattle.sq_ir.specs.Events as events;
ghost use Rattle.sq_ir.specs.LeafRuns.{trap_at};
ghost use Rattle.sq_sched.specs.Seen.{seen, seen_spot};
ghost use Rattle.sq_tree.specs.Bank.{IsAsked, IsOpened, Performs, TrapsAs, PutsRoot, size_in};
ghost use Rattle.sq_tree.specs.Log.{log_told, log_room, Adds, Keeps};

use crate::bank::Bank;
use crate::raw::RawBank;
use sq_ir::Plan;
use sq_leaf::Trap;
use sq_num::{Elem, RedOp};
use sq_rect::{Path, Views};
use sq_sched::{Event, Spot};
use std::alloc::{AllocError, Global};
use std::rc::Rc;

// Events, while there was room for all of them.
#[derive(Drop)]
pub(crate) struct Log {
    events: Vec<Event>,
    is_whole: bool,
}

impl Log {
    // All events so far are there, and there is room for one more.
    fn has_room(&self) -> bool
        ensures { result ≡ (self.now.is_whole && nat_lt (length self.now.events.items) (vec_capacity self.now.events)) }
    {
        self.is_whole && self.events.as_slice().len() < self.events.capacity()
    }

    // Adds an event, and takes no memory.
    fn add(&mut self, event: Event)
        ensures adds { Adds (log_told self.old) (log_told self.new) (seen event) }
        ensures keeps { Keeps (log_told self.old) (log_told self.new) (log_room self.old) (seen event) }
        ensures room { log_room self.new ≡ log_room self.old }
    {
        if self.has_room() {
            self.events.push_reserved(event);
            return;
        }
        self.is_whole = false;
    }

    fn restart(&mut self)
        ensures told { log_told self.new ≡ Some [] }
        ensures room { log_room self.new ≡ log_room self.old }
    {
        self.events.clear();
        self.is_whole = true;
    }
}

/// A bank over raw memories that tells the list of its events while there were at most as many as it has room for since
/// it was opened.
#[derive(Drop)]
pub struct LogBank {
    bank: RawBank,
    log: Log,
}

impl LogBank {
    ghost use Rattle.std.specs.Prelude.{None, map, option_map};
    ghost use Rattle.sq_tree.specs.Raw.{opened_seen};
    ghost use Rattle.sq_tree.specs.Log.{log_seen, telling, room_of};

    /// It isn't open, and its list, for which room is taken here, is empty.
    pub fn new(alloc: Global, room: usize) -> Result<LogBank, AllocError>
        ensures seen { IfOk result (λ b. log_seen b ≡ telling (Some []) (opened_seen 0 None)) }
        ensures room { IfOk result (λ b. room_of b ≡ room) }
    {
        let events = Vec::with_capacity(alloc, room)?;
        Ok(LogBank {
            bank: RawBank::new(),
            log: Log {
                events,
                is_whole: true,
            },
        })
    }

    /// The events performed since it was opened, in their order, while there was room for all of them.
    pub fn events(&self) -> Option<&[Event]>
        ensures { option_map (λ list. map seen list.now) result ≡ (log_seen self.now).events }
    {
        if self.log.is_whole {
            Some(self.log.events.as_slice())
        } else {
            None
        }
    }
}

impl Bank for LogBank {
    ghost use Rattle.sq_tree.specs.Log.{log_seen, room_of};

    ghost seen = { log_seen };

    fn prepare(&mut self, alloc: Global, plan: Rc<Plan>) -> Result<(), Rc<Plan>>
        ensures opened { OnOk result (IsOpened plan.value (log_seen self.old) (log_seen self.new)) }
        ensures kept { OnErr result (log_seen self.new ≡ log_seen self.old) }
        ensures back { IfErr result (λ back. back.value ≡ plan.value) }
        ensures list { OnOk result (log_told self.new.log ≡ Some []) }
        ensures room { room_of self.new ≡ room_of self.old }
    {
        match self.bank.prepare(alloc, plan) {
            Ok(()) => {
                self.log.restart();
                Ok(())
            }
            Err(plan) => Err(plan),
        }
    }

    fn copy_row(&mut self, from: Spot, to: Spot, bytes: u32)
        requires { IsAsked (events.Copy (seen_spot from) (seen_spot to) bytes) (log_seen self.old) }
        ensures performs { Performs (events.Copy (seen_spot from) (seen_spot to) bytes) (log_seen self.old)
            (log_seen self.new) }
        ensures list { Keeps (log_told self.old.log) (log_told self.new.log) (room_of self.old)
            (events.Copy (seen_spot from) (seen_spot to) bytes) }
        ensures room { room_of self.new ≡ room_of self.old }
    {
        self.bank.copy_row(from, to, bytes);
        self.log.add(Event::Copy { from, to, bytes });
    }

    fn fill_row(&mut self, to: Spot, elem: Elem, count: u32, value: i64)
        requires { IsAsked (events.Fill (seen_spot to) elem count value) (log_seen self.old) }
        ensures performs { Performs (events.Fill (seen_spot to) elem count value) (log_seen self.old)
            (log_seen self.new) }
        ensures list { Keeps (log_told self.old.log) (log_told self.new.log) (room_of self.old)
            (events.Fill (seen_spot to) elem count value) }
        ensures room { room_of self.new ≡ room_of self.old }
    {
        self.bank.fill_row(to, elem, count, value);
        self.log.add(Event::Fill {
            to,
            elem,
            count,
            value,
        });
    }

    fn acc_row(&mut self, op: RedOp, elem: Elem, from: Spot, to: Spot, count: u32)
        requires { IsAsked (events.Accumulate op elem (seen_spot from) (seen_spot to) count) (log_seen self.old) }
        ensures performs { Performs (events.Accumulate op elem (seen_spot from) (seen_spot to) count)
            (log_seen self.old) (log_seen self.new) }
        ensures list { Keeps (log_told self.old.log) (log_told self.new.log) (room_of self.old)
            (events.Accumulate op elem (seen_spot from) (seen_spot to) count) }
        ensures room { room_of self.new ≡ room_of self.old }
    {
        self.bank.acc_row(op, elem, from, to, count);
        self.log.add(Event::Acc {
            op,
            elem,
            from,
            to,
            count,
        });
    }

    fn leaf(&mut self, node: u32, code: u32, views: &Views, path: &Path) -> Result<(), Trap>
        requires asked { IsAsked (events.Leaf node code views.now path.now) (log_seen self.old) }
        requires small { size_in (log_seen self.old).nodes node < 2 ^ 62 }
        ensures performs { Performs (events.Leaf node code views.now path.now) (log_seen self.old) (log_seen self.new) }
        ensures traps { TrapsAs (events.Leaf node code views.now path.now) (log_seen self.old)
            (trap_at path.now result) }
        ensures list { Keeps (log_told self.old.log) (log_told self.new.log) (room_of self.old)
            (events.Leaf node code views.now path.now) }
        ensures room { room_of self.new ≡ room_of self.old }
    {
        let result = self.bank.leaf(node, code, views, path);
        self.log.add(Event::Leaf {
            node,
            code,
            views: views.copy(),
            path: path.copy(),
        });
        result
    }

    fn put_root(&mut self, at: usize, from: &[u8])
        requires { at + length from.now ≤ size_in (log_seen self.old).nodes 0 }
        ensures puts { PutsRoot at from.now (log_seen self.old) (log_seen self.new) }
        ensures room { room_of self.new ≡ room_of self.old }
    {
        self.bank.put_root(at, from);
    }

    fn root_bytes(&self, at: usize, bytes: usize) -> &[u8] {
        self.bank.root_bytes(at, bytes)
    }
}
