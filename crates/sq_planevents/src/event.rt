//! Whether an event is as a well formed plan asks.

ghost use Rattle.std.specs.Prelude.{IfOk};
ghost use Rattle.sq_planfile.specs.Sound.{IsEventText};
ghost use Rattle.sq_planevents.specs.First.{Decides};
ghost use Rattle.sq_planevents.specs.Heads.{AreSound};
ghost use Rattle.sq_planevents.specs.Standing.{env_of};

use crate::lines::Lines;
use crate::rows::bytes_of;
use crate::standing::Standing;
use sq_plantext::EventText;
use std::alloc::AllocError;

impl Lines<'_> {
    /// Whether an event is as a well formed plan asks.
    #[tactic(auto, using(crate::proofs::RowEvents::copy_decides, crate::proofs::RowEvents::fill_decides, crate::proofs::RowEvents::acc_decides))]
    pub fn is_event(&self, at: &Standing, event: &EventText) -> Result<bool, AllocError>
        requires { AreSound self.now }
        ensures { IfOk result (λ b. Decides b (IsEventText self.now.text.now (env_of at.now.nodes) at.now.scopes event.now)) }
    {
        match event {
            EventText::Copy { from, to, bytes } => {
                Ok(self.is_move(at, *from, *to, u128::from(*bytes)))
            }
            EventText::Fill {
                to,
                elem,
                count,
                value: _,
            } => Ok(self.is_row(at, *to, bytes_of(*elem, *count))),
            EventText::Acc {
                op: _,
                elem,
                from,
                to,
                count,
            } => Ok(self.is_move(at, *from, *to, bytes_of(*elem, *count))),
            EventText::Run { leaf, views, path } => {
                self.is_call(at, *leaf, views.as_slice(), path.as_slice())
            }
        }
    }
}
