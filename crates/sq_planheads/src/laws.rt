//! What is true of every plan file's heads.

ghost use Rattle.std.specs.Prelude.{ℕ, List, Option, Some, None};
ghost use Rattle.sq_text.specs.declared.fault.Fault.{Fault};
ghost use Rattle.sq_text.specs.Faults.{IsFirst};
ghost use Rattle.sq_lexer.specs.declared.token.Token.{Token};
ghost use Rattle.sq_lexer.specs.Tokens.{AreTokens};
ghost use Rattle.sq_plantext.specs.Grammar.{StandsFor, most_levels};
ghost use Rattle.sq_plantext.specs.declared.text.PlanText.{PlanText};
ghost use Rattle.sq_planfile.specs.Faults.{EventFault, LineFault};
ghost use Rattle.sq_planheads.specs.Heads.{AreHeads, HeadFault, AreGiven};

/// The tasks of the leaves of a plan file that was read are such as a text gives: so its leaves can be compiled.
pub fn tasks_of_leaves_are_given()
    ensures { (text : List ℕ) (ts : List Token) (x : PlanText) → AreTokens text ts → StandsFor most_levels ts x
        → AreGiven x.leaves }
{}

/// Heads come before events: their first fault is the first of all lines, and where they are sound, which are those
/// without a fault, the first fault of the events is.
pub fn heads_come_before_events()
    ensures heads { (x : PlanText) (f : Fault) → IsFirst (HeadFault x) (Some f) → IsFirst (LineFault x) (Some f) }
    ensures events { (x : PlanText) (fault : Option Fault) → AreHeads x → IsFirst (EventFault x) fault
        → IsFirst (LineFault x) fault }
    ensures sound { (x : PlanText) → AreHeads x → IsFirst (HeadFault x) None }
{}
