//! The first race of a map, where its runs stand in order.
ghost use Rattle.std.specs.Prelude.{◌≡◌, ◌+◌, ◌<◌, ◌≤◌, true, false, length, take, IfOk, OnOk, slice_get, Some};
ghost use Rattle.std.specs.Prelude.{if◌then◌else◌};
ghost use Rattle.sq_race.specs.Accesses.{counts, block_of as block};
ghost use Rattle.sq_race.specs.Blocks.{covers, whole};
ghost use Rattle.sq_race.specs.Marks as spec;
ghost use Rattle.sq_race.specs.Order.{AreInOrder};
ghost use Rattle.sq_race.specs.Pairs as pairs;

use crate::map::{Map, block_of, is_write};
use crate::marks::Marks;
use crate::recent::Recent;
use crate::taken::{Taken, nth};
use sq_forms::Use;
use std::alloc::{AllocError, Global};

/// Two accesses, by their numbers.
#[derive(Clone, Copy)]
pub struct Pair {
    pub later: usize,
    pub earlier: usize,
}

/// What is known where a map's accesses are gone through in order: the first access of the iteration that runs, and
/// what the iterations before it in this run of the map did to each array.
#[derive(Drop)]
struct Seen {
    since: usize,
    marks: Vec<Marks>,
}

impl Seen {
    fn new(alloc: Global, arrays: usize) -> Result<Seen, AllocError>
        ensures { IfOk result (λ s. (s.since ≡ 0) × (length s.marks.items ≡ arrays)) }
    {
        let marks = blanks(alloc, arrays)?;
        Ok(Seen { since: 0, marks })
    }

    // Goes on to access number `later`.
    fn go_on(
        &mut self,
        alloc: Global,
        map: &Map,
        uses: &[Taken<'_>],
        later: usize,
    ) -> Result<(), AllocError>
        requires within { later < length uses.now }
        requires arrays { pairs.AreWithin (length self.old.marks.items) uses.now }
        requires together { pairs.AreTogether map.now uses.now }
        requires counts { pairs.CountsAt map.now uses.now later }
        requires ready { pairs.IsReady map.now uses.now later self.old.since self.old.marks.items }
        ensures ready { OnOk result (pairs.IsReady map.now uses.now (later + 1) self.new.since self.new.marks.items) }
        ensures arrays { OnOk result (length self.new.marks.items ≡ length self.old.marks.items) }
    {
        let first = nth(uses, self.since);
        let this = nth(uses, later);
        if map.same_iteration(first, this) {
            return Ok(());
        }
        if map.same_run(first, this) {
            mark_all(alloc, map, uses, self.since, later, &mut self.marks)?;
        } else {
            self.marks = blanks(alloc, self.marks.len())?;
        }
        self.since = later;
        Ok(())
    }

    // Whether an access may race with one of an earlier iteration.
    fn may_race(&self, access: &Use) -> bool
        requires { access.now.array < length self.now.marks.items }
        ensures is { result ≡ pairs.may_race self.now.marks.items access.now }
        ensures bounded { covers whole (block access.now.rect) ≡ true }
    {
        let marks = &self.marks[access.array as usize];
        marks.meets(&block_of(&access.rect), is_write(access))
    }

    // Whether access number `later` is known to race with none before it, if none of those races with another.
    fn is_apart(&self, recent: &mut Recent, map: &Map, uses: &[Taken<'_>], later: usize) -> bool
        requires within { later < length uses.now }
        requires arrays { pairs.AreWithin (length self.now.marks.items) uses.now }
        requires none { pairs.NoneYet map.now uses.now later }
        requires ready { pairs.IsReady map.now uses.now (later + 1) self.now.since self.now.marks.items }
        ensures { result ≡ true → pairs.NoneAt map.now uses.now later }
    {
        if recent.shows(map, uses, later) {
            return true;
        }
        !self.may_race(nth(uses, later))
    }
}

fn blanks(alloc: Global, arrays: usize) -> Result<Vec<Marks>, AllocError>
    ensures { IfOk result (λ v. length v.items ≡ arrays) }
{
    let mut marks = Vec::new(alloc);
    for _made in 0..arrays {
        marks.push(Marks::new(alloc))?;
    }
    Ok(marks)
}

// Marks the accesses from number `from` up to `to`.
fn mark_all(
    alloc: Global,
    map: &Map,
    uses: &[Taken<'_>],
    from: usize,
    to: usize,
    marks: &mut Vec<Marks>,
) -> Result<(), AllocError>
    requires from { from ≤ to }
    requires to { to ≤ length uses.now }
    requires arrays { pairs.AreWithin (length marks.old.items) uses.now }
    ensures { OnOk result (pairs.AreMarked map.now uses.now from to marks.old.items marks.new.items) }
{
    for number in from..to {
        let access = nth(uses, number);
        if map.counts(access) {
            mark(alloc, access, marks)?;
        }
    }
    Ok(())
}

fn mark(alloc: Global, access: &Use, marks: &mut Vec<Marks>) -> Result<(), AllocError>
    requires { access.now.array < length marks.old.items }
    ensures { OnOk result (pairs.IsMarked access.now marks.old.items marks.new.items) }
{
    marks[access.array as usize].add(alloc, &block_of(&access.rect), is_write(access))
}

/// The first access that races with a later one.
pub fn earliest(map: &Map, before: &[Taken<'_>], later: &Use) -> Option<usize>
    ensures { pairs.IsEarliest map.now before.now later.now result }
{
    for (number, access) in before.iter().enumerate() {
        let known = access.access();
        if map.races(known, later) {
            return Some(number);
        }
    }
    None
}

/// The race of the least later access, and for that of the least earlier one.
pub fn first_pair(
    alloc: Global,
    map: &Map,
    uses: &[Taken<'_>],
    arrays: usize,
) -> Result<Option<Pair>, AllocError>
    requires arrays { pairs.AreWithin arrays uses.now }
    requires order { AreInOrder map.now uses.now }
    ensures { IfOk result (λ pair. pairs.IsFirstPair map.now uses.now pair) }
{
    let mut seen = Seen::new(alloc, arrays)?;
    let mut recent = Recent::new(alloc, uses.len())?;
    for later in 0..uses.len() {
        let access = nth(uses, later);
        if map.counts(access) {
            seen.go_on(alloc, map, uses, later)?;
            if !seen.is_apart(&mut recent, map, uses, later) {
                match earliest(map, &uses[..later], access) {
                    Some(earlier) => return Ok(Some(Pair { later, earlier })),
                    None => {}
                }
            }
        }
    }
    Ok(None)
}
