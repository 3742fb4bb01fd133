//! What is true of every list of tokens.

ghost use Rattle.std.specs.Prelude.{◌≡◌, ◌⊎◌, List};
ghost use Rattle.sq_text.specs.declared.fault.Fault.{Fault};
ghost use Rattle.sq_lexer.specs.declared.token.Token.{Token};
ghost use Rattle.sq_lexer.specs.Tokens.{HasEnd};
ghost use Rattle.sq_plantext.specs.declared.text.PlanText.{PlanText};
ghost use Rattle.sq_plantext.specs.Faults.{SyntaxFault};
ghost use Rattle.sq_plantext.specs.Grammar.{StandsFor, most_levels};

/// Tokens with their end stand for the lines of one plan file, or else have one fault.
pub fn tokens_are_lines_or_have_a_fault()
    ensures either { (ts : List Token) → HasEnd ts → ((x : PlanText) × StandsFor most_levels ts x) ⊎ ((f : Fault) × SyntaxFault ts f) }
    ensures never_both { (ts : List Token) (x : PlanText) (f : Fault) → StandsFor most_levels ts x → SyntaxFault ts f → ⊥ }
    ensures one_text { (ts : List Token) (x y : PlanText) → StandsFor most_levels ts x → StandsFor most_levels ts y → x ≡ y }
    ensures one_fault { (ts : List Token) (f g : Fault) → SyntaxFault ts f → SyntaxFault ts g → f ≡ g }
{}
