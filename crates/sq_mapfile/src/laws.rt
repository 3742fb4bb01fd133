//! What is true of the calls of every sound mapping, and of choices.

ghost use Rattle.std.specs.Prelude.{◌≡◌, ◌<◌, ◌≤◌, ℕ, List, Some, length, slice_get};
ghost use Rattle.sq_lexer.specs.declared.token.Token.{Token};
ghost use Rattle.sq_ast.specs.declared.program.Program.{Program};
ghost use Rattle.sq_machfile.specs.declared.level.Level.{Level};
ghost use Rattle.sq_mapping.specs.declared.mapping.Mapping.{Mapping};
ghost use Rattle.sq_mapfile.specs.declared.choices.Choices.{Choices};
ghost use Rattle.sq_mapfile.specs.declared.text.MappingText.{MappingText};
ghost use Rattle.sq_mapfile.specs.declared.text.Tunables.TheVariants.{Varied};
ghost use Rattle.sq_mapfile.specs.Choices.{choices_of};
ghost use Rattle.sq_mapfile.specs.Grammar.{IsTextOf};
ghost use Rattle.sq_mapfile.specs.Made.{AreSameChoices, HasTokens, StandFor};
ghost use Rattle.sq_mapfile.specs.Ranks.{rank};
ghost use Rattle.sq_mapping.specs.Sound.{Calls, Sound};

use sq_lexer::laws::each_text_has_tokens_or_breaks;

/// Each call leads to an instance of a lower rank, and no rank is greater than the number of instances. So what goes
/// from an instance to those that it calls ends.
pub fn calls_lead_to_lower_ranks()
    ensures falls { (p : Program) (levels : List Level) (m : Mapping) → Sound p levels m → (caller callee : ℕ)
        → Calls m.instances caller callee → rank m.instances callee < rank m.instances caller }
    ensures bound { (p : Program) (levels : List Level) (m : Mapping) → Sound p levels m → (k : ℕ)
        → rank m.instances k ≤ length m.instances }
{}

/// A text with alternatives stands for one list of choices.
pub fn choices_are_one()
    ensures { (levels : List Level) (text : List ℕ) (a b : Choices) → StandFor levels text a → StandFor levels text b
        → AreSameChoices a b }
{
    each_text_has_tokens_or_breaks();
}

/// Each choice has a text: tokens that the plain grammar derives for it, those that are left of the whole.
pub fn each_choice_has_tokens()
    ensures { (ts : List Token) (m : MappingText) → IsTextOf Varied ts m → (n : ℕ) (text : MappingText)
        → slice_get (choices_of m) n ≡ Some text → HasTokens text }
{}
