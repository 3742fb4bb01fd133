//! Whether a part of a plan can have an event at all.

ghost use Rattle.std.specs.Prelude.{◌≡◌, map};
ghost use Rattle.sq_sched.specs.Acts.{acts, any};

use sq_ir::Term;

/// Whether an action stands in a term. Of a term without one no iteration has to be looked at.
#[cycle(acting)]
#[tactic(auto, using(sq_sched::proofs::Acting::acts_forms))]
pub fn acts(term: &Term) -> bool
    ensures { result ≡ acts term.now }
{
    match term {
        Term::Skip => false,
        Term::Act(_) => true,
        Term::Seq(parts) => any_acts(parts.as_slice()),
        Term::Par(parts) => any_acts(parts.as_slice()),
        Term::Loop { count: _, body } => acts(body.get()),
        Term::Spread {
            count: _,
            rule: _,
            body,
        } => acts(body.get()),
        Term::Case { pick: _, arms } => any_acts(arms.as_slice()),
        Term::Within {
            child: _,
            buffers: _,
            body,
        } => acts(body.get()),
    }
}

#[cycle(acting)]
fn any_acts(terms: &[Term]) -> bool
    ensures { result ≡ any (map acts terms.now) }
{
    for term in terms {
        if acts(term) {
            return true;
        }
    }
    false
}
