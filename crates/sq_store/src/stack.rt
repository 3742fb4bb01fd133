//! Offsets: one walk down the scopes for each level.

ghost use Rattle.std.specs.Prelude.{◌≡◌, ◌+◌, ◌∷◌, length, set, if◌then◌else◌, replicate, IfOk};
ghost use Rattle.sq_nests.specs.Nests.{named_in};
ghost use Rattle.sq_nests.specs.Stacks.{capped, of_level};
ghost use Rattle.sq_nests.specs.Drafts.{whole, size_in};
ghost use Rattle.sq_store.specs.Walk.{top_after, set_all, lay, lay_all, offsets_of};

use sq_ir::{Buffer, Draft, Offsets, Term};
use sqlite_items::Items;
use std::alloc::{AllocError, Global};

/// A sum that stops at the greatest number.
pub(crate) fn capped_sum(a: u64, b: u64) -> u64
    ensures { result ≡ capped (a + b) }
{
    a.saturating_add(b)
}

// A buffer of the level lies at `top`; the answer is where the next one does.
fn set_one(buffers: &[Buffer], level: u32, top: u64, offsets: &mut Offsets, b: u32) -> u64
    requires { length offsets.old ≡ length buffers.now }
    ensures top { result ≡ (if of_level buffers.now level b then capped (top + size_in buffers.now b) else top) }
    ensures offsets { offsets.new ≡ (if of_level buffers.now level b then set offsets.old b top else offsets.old) }
{
    match sqlite_items::at(buffers, b as usize) {
        None => top,
        Some(buffer) => {
            if buffer.level == level {
                offsets.set(b as usize, top);
                capped_sum(top, buffer.size)
            } else {
                top
            }
        }
    }
}

// A scope's buffers of the level lie one behind the other from `top` on; the answer is where they end.
fn set_all(buffers: &[Buffer], level: u32, top: u64, offsets: &mut Offsets, named: &[u32]) -> u64
    requires { length offsets.old ≡ length buffers.now }
    ensures top { result ≡ top_after (of_level buffers.now level) (size_in buffers.now) named.now top }
    ensures offsets { offsets.new ≡ set_all (of_level buffers.now level) (size_in buffers.now) named.now top
        offsets.old }
    ensures long { length offsets.new ≡ length buffers.now }
{
    let mut next = top;
    for b in named {
        next = set_one(buffers, level, next, offsets, *b);
    }
    next
}

#[cycle(laying)]
#[tactic(auto, using(crate::proofs::Forms::named_forms))]
fn lay(buffers: &[Buffer], level: u32, top: u64, offsets: &mut Offsets, t: &Term)
    requires { length offsets.old ≡ length buffers.now }
    ensures offsets { offsets.new ≡ lay (of_level buffers.now level) (size_in buffers.now) (named_in t.now) top
        offsets.old }
    ensures long { length offsets.new ≡ length buffers.now }
{
    match t {
        Term::Skip => {}
        Term::Act(_) => {}
        Term::Seq(ts) => lay_all(buffers, level, top, offsets, ts.as_slice()),
        Term::Par(ts) => lay_all(buffers, level, top, offsets, ts.as_slice()),
        Term::Case { pick: _, arms } => lay_all(buffers, level, top, offsets, arms.as_slice()),
        Term::Loop { count: _, body } => lay(buffers, level, top, offsets, body.get()),
        Term::Spread {
            count: _,
            rule: _,
            body,
        } => lay(buffers, level, top, offsets, body.get()),
        Term::Within {
            child: _,
            buffers: named,
            body,
        } => {
            let next = set_all(buffers, level, top, offsets, named.as_slice());
            lay(buffers, level, next, offsets, body.get())
        }
    }
}

#[cycle(laying)]
fn lay_all(buffers: &[Buffer], level: u32, top: u64, offsets: &mut Offsets, ts: &[Term])
    requires { length offsets.old ≡ length buffers.now }
    ensures offsets { offsets.new ≡ lay_all (of_level buffers.now level) (size_in buffers.now) ts.now top offsets.old }
    ensures long { length offsets.new ≡ length buffers.now }
{
    for t in ts {
        lay(buffers, level, top, offsets, t);
    }
}

// Sets the offsets of a level's buffers.
#[tactic(auto, using(crate::proofs::Forms::named_whole))]
fn lay_level(d: &Draft, level: u32, offsets: &mut Offsets)
    requires { length offsets.old ≡ length d.now.buffers }
    ensures offsets { offsets.new ≡ lay (of_level d.now.buffers level) (size_in d.now.buffers) (named_in (whole d.now))
        0 offsets.old }
    ensures long { length offsets.new ≡ length d.now.buffers }
{
    let buffers = d.buffers.as_slice();
    let next = set_all(buffers, level, 0, offsets, d.entry.as_slice());
    lay(buffers, level, next, offsets, &d.term)
}

// So many zeros.
fn zeros(alloc: Global, count: usize) -> Result<Offsets, AllocError>
    ensures { IfOk result (λ o. o ≡ replicate count 0) }
{
    let mut offsets = Items::new(alloc);
    for _made in 0..count {
        offsets.push(0)?;
    }
    Ok(offsets)
}

/// The offsets of a draft's buffers: those of each level lie one behind the other, those of inner scopes behind those
/// of the scopes round them.
pub fn offsets_of(alloc: Global, d: &Draft) -> Result<Offsets, AllocError>
    ensures { IfOk result (λ o. o ≡ offsets_of d.now) }
{
    let mut offsets = zeros(alloc, d.buffers.len())?;
    for level in 0..8 {
        lay_level(d, level, &mut offsets);
    }
    Ok(offsets)
}
