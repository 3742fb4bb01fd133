//! The first bad event or scope of a plan file.

ghost use Rattle.std.specs.Prelude.{◌≡◌, IfOk, OnOk};
ghost use Rattle.std.specs.List.{All};
ghost use Rattle.sq_ir.specs.Machines.{AreNodes};
ghost use Rattle.sq_planfile.specs.Files.{nodes_of};
ghost use Rattle.sq_planfile.specs.Sound.{IsLeafText, IsBufferLine};
ghost use Rattle.sq_planevents.specs.First.{IsFirstBad, comes_first};
ghost use Rattle.sq_planevents.specs.Heads.{AreSound};
ghost use Rattle.sq_planevents.specs.Walked as spec;

use crate::lines::Lines;
use crate::shapes::all_shapes;
use crate::standing::Standing;
use sq_plantext::{EventText, PlanText, TermText};
use sq_text::Place;
use std::alloc::{AllocError, Global};

// Whether something bad at this place would be the first.
fn comes_first(found: &Option<Place>, place: Place) -> bool
    ensures { result ≡ comes_first found.now place }
{
    match found {
        None => true,
        Some(first) => place.is_before(*first),
    }
}

impl Lines<'_> {
    // Looks at an event, unless what was found comes before it.
    #[tactic(auto, using(crate::proofs::Judging::passed_over))]
    fn judge_event(
        &self,
        place: Place,
        event: &EventText,
        at: &Standing,
        found: &mut Option<Place>,
    ) -> Result<(), AllocError>
        requires { AreSound self.now }
        ensures { OnOk result (spec.JudgesEvent self.now.text.now at.now.nodes at.now.scopes event.now place found.old
            found.new) }
    {
        if !comes_first(found, place) {
            return Ok(());
        }
        if !self.is_event(at, event)? {
            *found = Some(place);
        }
        Ok(())
    }

    // Looks at a scope, unless what was found comes before it.
    #[tactic(auto, using(crate::proofs::Judging::passed_over))]
    fn judge_scope(
        &self,
        place: Place,
        node: u64,
        buffers: &[u64],
        at: &Standing,
        found: &mut Option<Place>,
    )
        ensures { spec.JudgesScope self.now.text.now at.now.nodes node buffers.now place found.old found.new }
    {
        if !comes_first(found, place) {
            return;
        }
        if !self.is_scope(at, node, buffers) {
            *found = Some(place);
        }
    }

    // Looks at the events and scopes of a term.
    #[cycle(judge)]
    fn judge(
        &self,
        term: &TermText,
        at: &mut Standing,
        found: &mut Option<Place>,
    ) -> Result<(), AllocError>
        requires { AreSound self.now }
        ensures same { OnOk result (at.new ≡ at.old) }
        ensures judged { OnOk result (spec.JudgesTerm self.now.text.now term.now at.old found.old found.new) }
    {
        match term {
            TermText::Seq(parts) => self.judge_all(parts.as_slice(), at, found),
            TermText::Par(parts) => self.judge_all(parts.as_slice(), at, found),
            TermText::At {
                place,
                node,
                buffers,
                body,
            } => {
                self.judge_scope(*place, *node, buffers.as_slice(), at, found);
                let (depth, count) = (at.nodes.len(), at.scopes.len());
                self.enter(*node, buffers.as_slice(), at)?;
                self.judge(body.get(), at, found)?;
                at.leave(depth, count);
                Ok(())
            }
            TermText::Act { place, event } => self.judge_event(*place, event, at, found),
        }
    }

    // Looks at those of several terms.
    #[cycle(judge)]
    fn judge_all(
        &self,
        terms: &[TermText],
        at: &mut Standing,
        found: &mut Option<Place>,
    ) -> Result<(), AllocError>
        requires { AreSound self.now }
        ensures same { OnOk result (at.new ≡ at.old) }
        ensures judged { OnOk result (spec.JudgesTerms self.now.text.now terms.now at.old found.old found.new) }
    {
        for term in terms {
            self.judge(term, at, found)?;
        }
        Ok(())
    }
}

/// The place of the first event or scope that is not as a well formed plan asks, if there is one. The nodes, leaves and
/// buffers of the lines are sound.
pub fn first_bad_event(alloc: Global, x: &PlanText) -> Result<Option<Place>, AllocError>
    requires nodes { AreNodes (nodes_of x.now) }
    requires leaves { All IsLeafText x.now.leaves }
    requires buffers { All (IsBufferLine (nodes_of x.now)) x.now.buffers }
    ensures { IfOk result (λ found. IsFirstBad x.now found) }
{
    let leaves = all_shapes(alloc, x.leaves.as_slice())?;
    let mut at = Standing::at_root(alloc, x.buffers.len(), x.arrays.as_slice())?;
    let lines = Lines {
        alloc,
        text: x,
        leaves: leaves.as_slice(),
    };
    let mut found = None;
    lines.judge(&x.term, &mut at, &mut found)?;
    Ok(found)
}
