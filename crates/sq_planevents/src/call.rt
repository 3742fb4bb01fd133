//! Leaf calls.

ghost use Rattle.std.specs.Prelude.{◌≡◌, true, length, map, IfOk, OnOk};
ghost use Rattle.sq_ir.specs.Plans.{AreApart};
ghost use Rattle.sq_plantext.specs.declared.text.EventText.TheVariants as event;
ghost use Rattle.sq_planfile.specs.Sound.{IsEventText};
ghost use Rattle.sq_planevents.specs.First.{Decides};
ghost use Rattle.sq_planevents.specs.Heads.{AreSound};
ghost use Rattle.sq_planevents.specs.Standing.{env_of};
ghost use Rattle.sq_planevents.specs.Views.{seen, IsOnce, IsSmall};
ghost use Rattle.sq_planevents.specs.Calls as spec;

use crate::lines::Lines;
use crate::shapes::{LeafShapes, Shape};
use crate::standing::Standing;
use crate::views::{are_words, is_once};
use sq_areas::Area;
use sq_plantext::ViewText;
use sqlite_items::{Items, at as item_at};
use std::alloc::{AllocError, Global};

// Whether two lists of numbers are one.
fn is_same(some: &[u64], others: &[u64]) -> bool
    ensures { result ≡ spec.is_same some.now others.now }
{
    match some.split_first() {
        None => others.is_empty(),
        Some((first, rest)) => match others.split_first() {
            None => false,
            Some((number, more)) => *first == *number && is_same(rest, more),
        },
    }
}

// Whether the views are of these shapes, one of each.
fn are_shaped(shapes: &[Shape], views: &[ViewText]) -> bool
    ensures { result ≡ spec.are_shaped shapes.now views.now }
{
    match shapes.split_first() {
        None => views.is_empty(),
        Some((shape, shapes)) => match views.split_first() {
            None => false,
            Some((view, views)) => {
                shape.elem == view.elem
                    && is_same(shape.extents.as_slice(), view.extents.as_slice())
                    && are_shaped(shapes, views)
            }
        },
    }
}

// Whether a path has at most 64 numbers, of 32 bits each.
fn is_path(path: &[u64]) -> bool
    ensures { result ≡ spec.is_path path.now }
{
    path.len() <= 64 && are_words(path)
}

/// The bytes of a view, and whether the leaf may write them.
#[derive(Drop)]
struct Touched {
    area: Area,
    is_written: bool,
}

// Whether a byte is in both views, and one of them is written.
fn clashes(one: &Touched, other: &Touched) -> bool
    requires { spec.IsReached one.now × spec.IsReached other.now }
    ensures { Decides result (spec.Clash one.now other.now) }
{
    if !one.is_written && !other.is_written {
        return false;
    }
    one.area.meets(&other.area)
}

// Whether this view clashes with one of the others.
#[tactic(auto, using(crate::proofs::Touching::reached_first, crate::proofs::Touching::reached_rest, crate::proofs::Touching::any_first, crate::proofs::Touching::any_rest, crate::proofs::Touching::any_none))]
fn clashes_any(one: &Touched, others: &[Touched]) -> bool
    requires { spec.IsReached one.now × spec.AreReached others.now }
    ensures { Decides result (spec.ClashAny one.now others.now) }
{
    let Some((other, others)) = others.split_first() else {
        return false;
    };
    if clashes(one, other) {
        return true;
    }
    clashes_any(one, others)
}

// Whether two of the views clash.
#[tactic(auto, using(crate::proofs::Touching::reached_first, crate::proofs::Touching::reached_rest, crate::proofs::Touching::all_first, crate::proofs::Touching::all_rest, crate::proofs::Touching::all_none))]
fn two_clash(touched: &[Touched]) -> bool
    requires { spec.AreReached touched.now }
    ensures { Decides result (spec.TwoClash touched.now) }
{
    let Some((first, rest)) = touched.split_first() else {
        return false;
    };
    if clashes_any(first, rest) {
        return true;
    }
    two_clash(rest)
}

// Whether a view gives each byte to one of its elements alone, where it is written.
#[tactic(auto, using(crate::proofs::Calls::unwritten))]
fn is_fit(alloc: Global, is_written: bool, view: &ViewText) -> Result<bool, AllocError>
    requires { IsSmall view.now }
    ensures { IfOk result (λ b. Decides b (is_written ≡ true → IsOnce view.now)) }
{
    if !is_written {
        return Ok(true);
    }
    is_once(alloc, view)
}

// Whether all views that are written do so. There are few of them.
fn are_fit(alloc: Global, flags: &[bool], views: &[ViewText]) -> Result<bool, AllocError>
    requires { spec.AreSmall views.now }
    ensures { IfOk result (λ b. Decides b (spec.AreOnce flags.now views.now)) }
{
    let Some((flag, flags)) = flags.split_first() else {
        return Ok(true);
    };
    let Some((view, views)) = views.split_first() else {
        return Ok(true);
    };
    if !is_fit(alloc, *flag, view)? {
        return Ok(false);
    }
    are_fit(alloc, flags, views)
}

impl Lines<'_> {
    // Puts the bytes of views behind others. There are few of them.
    fn put_touched(
        &self,
        flags: &[bool],
        views: &[ViewText],
        touched: &mut Items<Touched>,
    ) -> Result<(), AllocError>
        requires { spec.AreClose self.now.text.now views.now }
        ensures { OnOk result (spec.ArePut self.now.text.now flags.now views.now touched.old touched.new) }
    {
        let Some((flag, flags)) = flags.split_first() else {
            return Ok(());
        };
        let Some((view, views)) = views.split_first() else {
            return Ok(());
        };
        let area = self.area(view)?;
        touched.push(Touched {
            area,
            is_written: *flag,
        })?;
        self.put_touched(flags, views, touched)
    }

    // Whether no two of the views clash.
    fn none_clash(&self, flags: &[bool], views: &[ViewText]) -> Result<bool, AllocError>
        requires close { spec.AreClose self.now.text.now views.now }
        requires flags { length flags.now ≡ length views.now }
        ensures { IfOk result (λ b. Decides b (spec.LieApart flags.now (map (seen self.now.text.now) views.now))) }
    {
        let mut touched = Items::new(self.alloc);
        self.put_touched(flags, views, &mut touched)?;
        let clash = two_clash(touched.as_slice());
        Ok(!clash)
    }

    // Whether no byte of a view that is written is given to two elements.
    fn stand_apart(&self, flags: &[bool], views: &[ViewText]) -> Result<bool, AllocError>
        requires close { spec.AreClose self.now.text.now views.now }
        requires flags { length flags.now ≡ length views.now }
        ensures { IfOk result (λ b. Decides b (AreApart flags.now (map (seen self.now.text.now) views.now))) }
    {
        if !are_fit(self.alloc, flags, views)? {
            return Ok(false);
        }
        self.none_clash(flags, views)
    }

    // Whether a leaf with such arrays takes views that lie in their buffers, and the path is one.
    fn is_taken(&self, at: &Standing, leaf: &LeafShapes, views: &[ViewText], path: &[u64]) -> bool
        ensures { result ≡ spec.is_taken self.now.text.now at.now.nodes at.now.scopes leaf.now views.now path.now }
    {
        views.len() <= 32
            && is_path(path)
            && are_shaped(leaf.shapes.as_slice(), views)
            && self.are_views(at, views)
    }

    /// Whether a leaf call is as a well formed plan asks.
    pub fn is_call(
        &self,
        at: &Standing,
        leaf: u64,
        views: &[ViewText],
        path: &[u64],
    ) -> Result<bool, AllocError>
        requires { AreSound self.now }
        ensures { IfOk result (λ b. Decides b (IsEventText self.now.text.now (env_of at.now.nodes) at.now.scopes (event.Run
            leaf views.now path.now))) }
    {
        let Some(leaf) = item_at(self.leaves, leaf as usize) else {
            return Ok(false);
        };
        if !self.is_taken(at, leaf, views, path) {
            return Ok(false);
        }
        self.stand_apart(leaf.written.as_slice(), views)
    }
}
