//! What a part of a term names outside itself.

ghost use Rattle.std.specs.Prelude.{◌≡◌, max, map};
ghost use Rattle.sq_sums.specs.Regions as regions;
ghost use Rattle.sq_sums.specs.Regions.{loops_in, names_children, join, join_all, case_region, loop_region};
ghost use Rattle.sq_sums.specs.Regions.{scope_region, region_of, names_no_loop_outside};

use sq_ir::{Num, Term};

/// How many of the loops round a part, from the innermost on, its counts, picks and children may name. The bodies of
/// scopes that name no loop outside are left aside in the rest: whether the part goes to no child and does not ask how
/// many there are, and whether each scope at a child has a body that stays there so.
#[derive(Clone, Copy, Drop)]
pub(crate) struct Region {
    pub(crate) loops: u64,
    pub(crate) stays: bool,
    pub(crate) routed: bool,
}

pub(crate) fn greater(a: u64, b: u64) -> u64
    ensures { result ≡ max a b }
{
    if a < b { b } else { a }
}

// How many of the loops round it a number may name.
pub(crate) fn loops_in(number: &Num) -> u64
    ensures { result ≡ loops_in number.now }
{
    match number {
        Num::Const(_) => 0,
        Num::Index(depth) => u64::from(*depth) + 1,
        Num::Add(a, b) => greater(loops_in(a.get()), loops_in(b.get())),
        Num::Sub(a, b) => greater(loops_in(a.get()), loops_in(b.get())),
        Num::Mul(a, b) => greater(loops_in(a.get()), loops_in(b.get())),
        Num::Div(a, b) => greater(loops_in(a.get()), loops_in(b.get())),
        Num::Rem(a, b) => greater(loops_in(a.get()), loops_in(b.get())),
        Num::Min(a, b) => greater(loops_in(a.get()), loops_in(b.get())),
        Num::Pick(_, at) => loops_in(at.get()),
        Num::Children => 0,
    }
}

// Whether a number names how many children there are.
pub(crate) fn names_children(number: &Num) -> bool
    ensures { result ≡ names_children number.now }
{
    match number {
        Num::Const(_) => false,
        Num::Index(_) => false,
        Num::Add(a, b) => names_children(a.get()) || names_children(b.get()),
        Num::Sub(a, b) => names_children(a.get()) || names_children(b.get()),
        Num::Mul(a, b) => names_children(a.get()) || names_children(b.get()),
        Num::Div(a, b) => names_children(a.get()) || names_children(b.get()),
        Num::Rem(a, b) => names_children(a.get()) || names_children(b.get()),
        Num::Min(a, b) => names_children(a.get()) || names_children(b.get()),
        Num::Pick(_, at) => names_children(at.get()),
        Num::Children => true,
    }
}

fn join(a: Region, b: Region) -> Region
    ensures { result ≡ join a b }
{
    Region {
        loops: greater(a.loops, b.loops),
        stays: a.stays && b.stays,
        routed: a.routed && b.routed,
    }
}

fn case_region(pick: &Num, arms: Region) -> Region
    ensures { result ≡ case_region pick.now arms }
{
    Region {
        loops: greater(loops_in(pick), arms.loops),
        stays: !names_children(pick) && arms.stays,
        routed: arms.routed,
    }
}

fn loop_region(count: &Num, body: Region) -> Region
    ensures { result ≡ loop_region count.now body }
{
    Region {
        loops: greater(loops_in(count), body.loops.saturating_sub(1)),
        stays: !names_children(count) && body.stays,
        routed: body.routed,
    }
}

fn scope_region(child: &Option<Num>, body: Region) -> Region
    ensures { result ≡ scope_region child.now body }
{
    let closed = body.loops == 0;
    match child {
        None => Region {
            loops: body.loops,
            stays: closed || body.stays,
            routed: closed || body.routed,
        },
        Some(c) => Region {
            loops: greater(loops_in(c), body.loops),
            stays: false,
            routed: closed || body.stays,
        },
    }
}

/// What a term names outside itself.
#[cycle(surveying)]
#[tactic(auto, using(crate::proofs::RegionForms::region_forms))]
pub(crate) fn region_of(t: &Term) -> Region
    ensures { result ≡ region_of t.now }
{
    match t {
        Term::Skip => no_region(),
        Term::Act(_) => no_region(),
        Term::Seq(ts) => region_all(ts.as_slice()),
        Term::Par(ts) => region_all(ts.as_slice()),
        Term::Loop { count, body } => loop_region(count, region_of(body.get())),
        Term::Spread {
            count,
            rule: _,
            body,
        } => loop_region(count, region_of(body.get())),
        Term::Case { pick, arms } => case_region(pick, region_all(arms.as_slice())),
        Term::Within {
            child,
            buffers: _,
            body,
        } => scope_region(child, region_of(body.get())),
    }
}

fn no_region() -> Region
    ensures { result ≡ regions.no_region }
{
    Region {
        loops: 0,
        stays: true,
        routed: true,
    }
}

#[cycle(surveying)]
fn region_all(ts: &[Term]) -> Region
    ensures { result ≡ join_all (map region_of ts.now) }
{
    let mut sum = no_region();
    for t in ts {
        sum = join(sum, region_of(t));
    }
    sum
}

/// Whether the counts, picks and children of a term name no loop outside it.
pub fn names_no_loop_outside(t: &Term) -> bool
    ensures { result ≡ names_no_loop_outside t.now }
{
    region_of(t).loops == 0
}
