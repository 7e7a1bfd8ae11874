//! One source is one program, however its types are numbered: laws, each the contract of a function that does nothing.
#![tactic(auto)]

ghost use Rattle.std.specs.Prelude.{◌≡◌, ◌≤◌, ℕ, Bool, List};
ghost use Rattle.cc_model.specs.declared.tokens.Token.{Token};
ghost use Rattle.cc_model.specs.declared.checked.Checked.{Checked};
ghost use Rattle.cc_model.specs.declared.trees.Program as source;
ghost use Rattle.cc_model.specs.Core.{Program};
ghost use Rattle.cc_model.specs.Scopes.{Text};
ghost use Rattle.cc_model.specs.Faults.{notes_in};
ghost use Rattle.cc_model.specs.Reads.{Reads};
ghost use Rattle.cc_model.specs.CheckedProgram.{IsChecked, core_of, expression_tokens};
ghost use Rattle.cc_model.specs.Source.{IsProgram};
ghost use Rattle.source_laws.specs.Renumbering.{Renumbers};
ghost use Rattle.source_laws.specs.SameProgram.{SameProgram};
ghost use Rattle.source_laws.specs.Settled.{IsSettled};
ghost use Rattle.source_laws.specs.Tokens.{times, typed_in};
ghost use Rattle.source_laws.specs.OneSource.{SettlesAll};

use c_parse::one_program;

/// A program whose types have other numbers is the same program.
pub fn numbers_of_types_say_nothing()
    ensures { (r : ℕ → ℕ) (p q : Program) → Renumbers r p q → SameProgram p q }
{}

/// Two checked programs of the same trees, each with its own table of types, differ by the numbers of types alone.
pub fn one_tree_has_one_numbering()
    ensures { (text : ℕ → Text) (tokens : List Token) (entry : Text) (c d : Checked) → IsSettled c
        → IsChecked text tokens entry c → IsChecked text tokens entry d → c.program ≡ d.program
        → (r : ℕ → ℕ) × Renumbers r (core_of c) (core_of d) }
{}

/// Each expression of a program that tokens read as has a token of its own.
pub fn each_expression_has_its_own_token()
    ensures { (fits : ℕ → ℕ → Bool) (tokens : List Token) (p : source.Program) → Reads fits tokens p
        → (k : ℕ) → times k (expression_tokens p.items) ≤ 1 }
{}

/// What is said of a program tells the type of each token at most once.
pub fn a_type_is_said_once()
    ensures { (fits : ℕ → ℕ → Bool) (tokens : List Token) (p : source.Program) (text : ℕ → Text)
        → Reads fits tokens p → (k : ℕ) → times k (typed_in (notes_in text p.items)) ≤ 1 }
{}

/// Two programs of the same source and tested function are the same program, where each is settled.
pub fn one_source_is_one_program()
    ensures { (bytes entry : List ℕ) (p q : Program) → SettlesAll bytes entry
        → IsProgram bytes entry p → IsProgram bytes entry q → SameProgram p q }
{
    one_program();
}
