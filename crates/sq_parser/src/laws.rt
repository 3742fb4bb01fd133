//! What is true of every list of tokens.

ghost use Rattle.std.specs.Prelude.{◌≡◌, ◌⊎◌, List};
ghost use Rattle.sq_text.specs.declared.fault.Fault.{Fault};
ghost use Rattle.sq_lexer.specs.declared.token.Token.{Token};
ghost use Rattle.sq_lexer.specs.Tokens.{HasEnd};
ghost use Rattle.sq_ast.specs.declared.program.Program.{Program};
ghost use Rattle.sq_parser.specs.Programs.{IsProgram, HasFault};

/// Tokens with their end stand for one program, or else have one fault.
pub fn tokens_are_a_program_or_have_a_fault()
    ensures either { (ts : List Token) → HasEnd ts → ((p : Program) × IsProgram ts p) ⊎ ((f : Fault) × HasFault ts f) }
    ensures never_both { (ts : List Token) (p : Program) (f : Fault) → IsProgram ts p → HasFault ts f → ⊥ }
    ensures one_program { (ts : List Token) (p q : Program) → IsProgram ts p → IsProgram ts q → p ≡ q }
    ensures one_fault { (ts : List Token) (f g : Fault) → HasFault ts f → HasFault ts g → f ≡ g }
{}
