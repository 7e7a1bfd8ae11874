//! The one call of the checker.

ghost use Rattle.std.specs.Prelude.{◌≡◌, ◌<◌, ◌^◌, ℕ, true, false, List, Some, length, IfOk, IfErr, IfSome, IfNone};
ghost use Rattle.cc_model.specs.declared.trees.Item.{Item as SourceItem};
ghost use Rattle.cc_model.specs.Source.{text_at};
ghost use Rattle.cc_model.specs.Scopes as scopes;
ghost use Rattle.cc_model.specs.Faults as faults;
ghost use Rattle.cc_model.specs.CheckedProgram.{IsChecked};
ghost use Rattle.c_types.specs.FirstFault.{fault};
ghost use Rattle.c_types.specs.Resolving.{AreRead};
ghost use Rattle.c_types.specs.Refused.{IsTypeFault};

use crate::least::Found;
use crate::reading::{Reading, fault_in, read};
use crate::resolved::resolved;
use c_scopes::names::{function_in, has_name};
use cc_model::base::NoMemory;
use cc_model::trees::Program;
use cc_model::typing::{File, Wrong};
use cc_model::{Checked, Token};
use std::alloc::Global;
use thiserror::Error;

/// Why a program is not checked. A number is a token's index, from 0.
#[derive(Clone, Copy, Debug, Error)]
pub enum TypeFault {
    /// A name that isn't declared as it is used here.
    #[error("unknown name at token {0}")]
    Unknown(u32),
    /// A name that is declared once more.
    #[error("declared twice at token {0}")]
    Twice(u32),
    /// A rule of types that doesn't hold.
    #[error("wrong type at token {0}")]
    Mismatch(u32),
    /// An array's length outside 1 to 256, a type of more than 256 cells, or the first site past 4,096.
    #[error("too large at token {0}")]
    TooLarge(u32),
    /// Nothing is wrong, and no function with a body has the entry's name.
    #[error("no function of that name")]
    NoEntry,
    /// Memory ran out.
    #[error("out of memory")]
    NoMemory,
}

/// The fault as it is answered.
fn fault_of(found: Found) -> TypeFault
    ensures { (text : ℕ → scopes.Text) (l : List SourceItem) (entry : scopes.Text)
        → faults.IsFirst text l (fault found) → IsTypeFault text l entry result }
{
    match found.what {
        Wrong::Unknown => TypeFault::Unknown(found.token),
        Wrong::Twice => TypeFault::Twice(found.token),
        Wrong::Mismatch => TypeFault::Mismatch(found.token),
        Wrong::TooLarge => TypeFault::TooLarge(found.token),
    }
}

/// The number of the function with a body that has the name.
fn tested(file: &File, entry: &str) -> Option<u32>
    requires few_functions { length (file.now).functions < 2 ^ 32 }
    requires numbered { scopes.has_name entry.now (file.now).bodies ≡ true
        → (n : ℕ) × (scopes.function_in entry.now (file.now).functions ≡ Some n) }
    ensures some { IfSome result (λ n. (scopes.has_name entry.now (file.now).bodies ≡ true)
        × (scopes.function_in entry.now (file.now).functions ≡ Some n)) }
    ensures none { IfNone result (scopes.has_name entry.now (file.now).bodies ≡ false) }
{
    if !has_name(entry.as_bytes(), file.bodies.as_slice()) {
        return None;
    }
    function_in(entry.as_bytes(), file.functions.as_slice())
}

/// The checked program of a well typed one that was read, to test the function of this name.
fn accepted(
    alloc: Global,
    source: &[u8],
    tokens: &[Token],
    program: Program,
    reading: Reading,
    entry: &str,
) -> Result<Checked, TypeFault>
    requires read { AreRead (text_at source.now tokens.now) tokens.now (program).items (reading).file (reading).notes
        (reading).sites }
    requires well_typed { faults.WellTyped (text_at source.now tokens.now) (program).items }
    requires few_tags { length ((reading).file).tags < 2 ^ 32 }
    requires few_functions { length ((reading).file).functions < 2 ^ 32 }
    ensures checked { IfOk result (λ c. (c.program ≡ program)
        × IsChecked (text_at source.now tokens.now) tokens.now entry.now c) }
    ensures refused { IfErr result (λ e. IsTypeFault (text_at source.now tokens.now) (program).items entry.now e) }
{
    let Some(number) = tested(&reading.file, entry) else {
        return Err(TypeFault::NoEntry);
    };
    match resolved(alloc, source, tokens, program, reading, number) {
        Ok(checked) => Ok(checked),
        Err(NoMemory) => Err(TypeFault::NoMemory),
    }
}

/// The checked program of a program that the tokens of a source are, to test the function of this name. The program is
/// consumed, also where it is refused: by its first fault, that of the least token and at one token by kind; or because
/// it has none and no function with a body has the name.
pub fn check(
    alloc: Global,
    source: &[u8],
    tokens: &[Token],
    program: Program,
    entry: &str,
) -> Result<Checked, TypeFault>
    ensures checked { IfOk result (λ c. (c.program ≡ program)
        × IsChecked (text_at source.now tokens.now) tokens.now entry.now c) }
    ensures refused { IfErr result (λ e. IsTypeFault (text_at source.now tokens.now) (program).items entry.now e) }
{
    let reading = match read(alloc, source, tokens, program.items.as_slice()) {
        Ok(reading) => reading,
        Err(NoMemory) => return Err(TypeFault::NoMemory),
    };
    if let Some(found) = fault_in(&reading) {
        return Err(fault_of(found));
    }
    accepted(alloc, source, tokens, program, reading, entry)
}
