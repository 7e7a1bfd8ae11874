//! The parser: which tokens are a program, and of which tree.
#![tactic(auto)]

ghost use Rattle.std.specs.Prelude.{◌≡◌, ◌≤◌, ◌⊎◌, ℕ, Bool, List, IfOk, IfErr, Err, length};
ghost use Rattle.cc_model.specs.declared.tokens.Token.{Token};
ghost use Rattle.cc_model.specs.declared.trees.Program.{Program};
ghost use Rattle.cc_model.specs.Reads.{Accepts, Reads};
ghost use Rattle.c_parse.specs.Gives.{GivesOnly};
ghost use Rattle.c_parse.specs.Places.{Placed, IsFault, GivesFault};
ghost use Rattle.c_expressions.specs.declared.fault.ParseFault.{ParseFault as Fault};

mod functions;
mod globals;
mod items;
mod openings;
mod structs;

use crate::items::items;
pub use c_expressions::ParseFault;
use c_expressions::{Parser, Spot};
use cc_model::{Program, Token};
use std::alloc::Global;

/// The program that the tokens are. `Syntax` where they are accepted as none, at the first token with which they begin
/// no program, or at their number where all of them begin one; `TooDeep` before that, at the first token whose level is
/// above 200; `NoMemory` where memory runs out.
pub fn parse(alloc: Global, tokens: &[Token]) -> Result<Program, ParseFault>
    requires { length tokens.now ≤ 1048576 }
    // The tokens are accepted as the program that is given.
    ensures found { IfOk result (λ p. Accepts tokens.now p) }
    // The program that they are accepted as is given, unless memory runs out.
    ensures only { (p : Program) → Accepts tokens.now p → GivesOnly result p }
    // A fault of the tokens comes only where they are accepted as no program.
    ensures refused { (k : ℕ) → (result ≡ Err (ParseFault.Syntax k)) ⊎ (result ≡ Err (ParseFault.TooDeep k))
        → (p : Program) → Accepts tokens.now p → ⊥ }
    // A fault is one that the tokens have, at its place.
    ensures place { IfErr result (λ e. Placed tokens.now e) }
    // The fault that the tokens have is given, unless memory runs out.
    ensures exact { (f : Fault) → IsFault tokens.now f → GivesFault result f }
{
    let parser = Parser { alloc, tokens };
    let (items, _end) = items(&parser, Spot { at: 0, level: 0 })?;
    Ok(Program { items })
}

/// A law: tokens read as at most one program, whichever levels fit.
pub fn one_program()
    ensures { (fits : ℕ → ℕ → Bool) (tokens : List Token) (p q : Program) → Reads fits tokens p → Reads fits tokens q
        → p ≡ q }
{}
