//! The ways from a part of a term to the scopes in it.

ghost use Rattle.std.specs.Prelude.{◌≡◌, ◌++◌, length, map, IfOk};
ghost use Rattle.sq_nests.specs.Stacks.{capped};
ghost use Rattle.sq_sums.specs.Routes as routes;
ghost use Rattle.sq_sums.specs.Routes.{layout, scope_layout, loop_layout, top_of, into, AddsOne, AddsAll};
ghost use Rattle.sq_sums.specs.Grounds.{weight_by};

use crate::region::names_no_loop_outside;
use crate::scale::{Scale, capped_sum, weight_of};
use crate::walk::has_scope;
use sq_ir::{Num, Term};
use sqlite_items::{Boxed as Box, Items};
use std::alloc::{AllocError, Global};
use std::marker::Model;

/// A number, lent. Contracts see the number.
#[derive(Drop)]
pub(crate) struct Number<'a> {
    number: &'a Num,
}

impl<'a> Model for Number<'a> {
    ghost use Rattle.sq_ir.specs.declared.num.Num.{Num};
    ghost use Rattle.sq_ir.specs.contracts.num.Num as row;

    ghost Value = { Num };

    ghost coded = { row.the_row.coded };

    ghost view = { λ n. n.number.now };
}

impl<'a> Number<'a> {
    pub(crate) fn new(number: &'a Num) -> Number<'a>
        ensures { result ≡ number.now }
    {
        Number { number }
    }

    pub(crate) fn number(&self) -> &'a Num
        ensures { result.now ≡ self.now }
    {
        self.number
    }
}

/// What is left of a part where everything but its scopes, and the loops and cases round them, is left out. Scopes are
/// numbered; what is inside a scope whose body names no loop outside is left out as well.
#[derive(Drop)]
pub(crate) enum Route<'a> {
    Nothing,
    Parts(Items<Route<'a>>),
    Each(Number<'a>, Box<Route<'a>>),
    Arm(Number<'a>, Items<Route<'a>>),
    /// The scope of this number, at a child or not.
    Scope(Option<Number<'a>>, usize),
    /// What is inside a scope at a child.
    Inside(Number<'a>, Box<Route<'a>>),
}

/// A scope: its body, how many bytes are open at its node in it, and whether the body is gone through on its own.
#[derive(Drop)]
pub(crate) struct Site<'a> {
    body: &'a Term,
    top: u64,
    is_own: bool,
}

impl<'a> Model for Site<'a> {
    ghost use Rattle.sq_ir.specs.contracts.term.Term as row;
    ghost use Rattle.sq_sums.specs.Sites.{Site};
    ghost use Rattle.std.specs.Coded.{codes};

    ghost Value = { Site };

    ghost coded = { Prim.hlevel (codes, row.the_row.coded) };

    ghost view = { λ s. record { body = s.body.now; top = s.top; own = s.is_own } };
}

impl<'a> Site<'a> {
    pub(crate) fn new(body: &'a Term, top: u64, is_own: bool) -> Site<'a>
        ensures { result ≡ record { body = body.now; top = top; own = is_own } }
    {
        Site { body, top, is_own }
    }

    pub(crate) fn body(&self) -> &'a Term
        ensures { result.now ≡ self.now.body }
    {
        self.body
    }

    pub(crate) fn top(&self) -> u64
        ensures { result ≡ self.now.top }
    {
        self.top
    }

    pub(crate) fn is_own(&self) -> bool
        ensures { result ≡ self.now.own }
    {
        self.is_own
    }
}

// How much is open in a scope.
fn top_of(child: &Option<Num>, held: u64, weight: u64) -> u64
    ensures { result ≡ top_of child.now held weight }
{
    match child {
        None => capped_sum(held, weight),
        Some(_) => weight,
    }
}

/// The way to the scopes of a part at whose node so much is open; the scopes are added.
#[cycle(building)]
#[tactic(auto, using(crate::proofs::LayoutForms::layout_forms))]
pub(crate) fn route_of<'a>(
    alloc: Global,
    scale: &Scale<'_>,
    t: &'a Term,
    held: u64,
    sites: &mut Items<Site<'a>>,
) -> Result<Route<'a>, AllocError>
    ensures { IfOk result (AddsOne (layout (weight_by scale.now) t.now) held sites.old sites.new) }
{
    match t {
        Term::Skip => Ok(Route::Nothing),
        Term::Act(_) => Ok(Route::Nothing),
        Term::Seq(ts) => {
            let parts = routes_of(alloc, scale, ts.as_slice(), held, sites)?;
            Ok(Route::Parts(parts))
        }
        Term::Par(ts) => {
            let parts = routes_of(alloc, scale, ts.as_slice(), held, sites)?;
            Ok(Route::Parts(parts))
        }
        Term::Loop { count, body } => turns_of(alloc, scale, count, body.get(), held, sites),
        Term::Spread {
            count,
            rule: _,
            body,
        } => turns_of(alloc, scale, count, body.get(), held, sites),
        Term::Case { pick, arms } => {
            let arms = routes_of(alloc, scale, arms.as_slice(), held, sites)?;
            Ok(Route::Arm(Number { number: pick }, arms))
        }
        Term::Within {
            child,
            buffers,
            body,
        } => {
            let top = top_of(child, held, weight_of(scale, buffers.as_slice()));
            scope_of(alloc, scale, child, top, body.get(), sites)
        }
    }
}

#[cycle(building)]
fn routes_of<'a>(
    alloc: Global,
    scale: &Scale<'_>,
    ts: &'a [Term],
    held: u64,
    sites: &mut Items<Site<'a>>,
) -> Result<Items<Route<'a>>, AllocError>
    ensures { IfOk result (AddsAll (map (layout (weight_by scale.now)) ts.now) held sites.old sites.new) }
{
    let mut routes = Items::new(alloc);
    for t in ts {
        let route = route_of(alloc, scale, t, held, sites)?;
        routes.push(route)?;
    }
    Ok(routes)
}

// A loop; one without scopes has no way.
#[cycle(building)]
fn turns_of<'a>(
    alloc: Global,
    scale: &Scale<'_>,
    count: &'a Num,
    body: &'a Term,
    held: u64,
    sites: &mut Items<Site<'a>>,
) -> Result<Route<'a>, AllocError>
    ensures { IfOk result (AddsOne (loop_layout count.now body.now (layout (weight_by scale.now) body.now)) held
        sites.old sites.new) }
{
    if !has_scope(body) {
        return Ok(Route::Nothing);
    }
    let inside = route_of(alloc, scale, body, held, sites)?;
    let inside = Box::new(alloc, inside)?;
    Ok(Route::Each(Number { number: count }, inside))
}

// A scope in which so much is open.
#[cycle(building)]
fn scope_of<'a>(
    alloc: Global,
    scale: &Scale<'_>,
    child: &'a Option<Num>,
    top: u64,
    body: &'a Term,
    sites: &mut Items<Site<'a>>,
) -> Result<Route<'a>, AllocError>
    ensures { IfOk result (AddsOne (scope_layout child.now body.now (layout (weight_by scale.now) body.now)) top
        sites.old sites.new) }
{
    let number = sites.len();
    if names_no_loop_outside(body) {
        sites.push(Site::new(body, top, true))?;
        return Ok(Route::Scope(child_number(child), number));
    }
    sites.push(Site::new(body, top, false))?;
    let inside = route_of(alloc, scale, body, top, sites)?;
    scope_and(alloc, child, number, inside)
}

fn child_number<'a>(child: &'a Option<Num>) -> Option<Number<'a>>
    ensures { result ≡ child.now }
{
    match child {
        None => None,
        Some(c) => Some(Number { number: c }),
    }
}

// A scope, and what is inside it.
fn scope_and<'a>(
    alloc: Global,
    child: &'a Option<Num>,
    number: usize,
    inside: Route<'a>,
) -> Result<Route<'a>, AllocError>
    ensures { IfOk result (λ r. r ≡ routes.scope_and child.now number inside.entry) }
{
    let inside = into(alloc, child, inside)?;
    let mut parts = Items::new(alloc);
    parts.push(Route::Scope(child_number(child), number))?;
    parts.push(inside)?;
    Ok(Route::Parts(parts))
}

fn into<'a>(
    alloc: Global,
    child: &'a Option<Num>,
    inside: Route<'a>,
) -> Result<Route<'a>, AllocError>
    ensures { IfOk result (λ r. r ≡ into child.now inside.entry) }
{
    match child {
        None => Ok(inside),
        Some(c) => {
            let inside = Box::new(alloc, inside)?;
            Ok(Route::Inside(Number { number: c }, inside))
        }
    }
}
