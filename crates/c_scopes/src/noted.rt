//! What notes say of each token, gathered in one pass.

ghost use Rattle.std.specs.Prelude.{◌≡◌, ◌<◌, ℕ, suc, List, ◌∷◌, length, slice_get, Some, if◌then◌else◌, nat_eq, IfOk};
ghost use Rattle.std.specs.Prelude.{OnOk};
ghost use Rattle.cc_model.specs.declared.typing.Note.{Note};
ghost use Rattle.cc_model.specs.CheckedProgram as program;
ghost use Rattle.c_scopes.specs.Noted.{nothing, entry, Tells, type_of};

use crate::types::{copy, void_type};
use cc_model::Target;
use cc_model::base::NoMemory;
use cc_model::typing::{CType, Note};
use sqlite_items::{Items, at};
use std::alloc::Global;

/// What notes say of a token, where more than one says it the first: what a name there means, the index of the note
/// with its type, and whether the number there stands for NULL.
#[derive(Clone, Copy)]
pub struct Said {
    pub name: Option<Target>,
    pub ty: Option<usize>,
    pub null: bool,
}

/// Of a token that no note speaks of.
fn nothing() -> Said
    ensures { result ≡ nothing }
{
    Said {
        name: None,
        ty: None,
        null: false,
    }
}

/// What the table says of a token.
fn said_of(table: &[Said], t: u32) -> Said
    ensures { result ≡ entry table.now t }
{
    match at(table, t as usize) {
        Some(said) => *said,
        None => nothing(),
    }
}

/// Makes room for a token.
fn widen(table: &mut Items<Said>, t: usize) -> Result<(), NoMemory>
    ensures room { OnOk result (t < length table.new) }
    ensures same { OnOk result ((i : ℕ) → entry table.new i ≡ entry table.old i) }
{
    while table.len() <= t {
        table.push(nothing())?;
    }
    Ok(())
}

/// Sets what the table says of a token.
fn put(table: &mut Items<Said>, t: u32, said: Said) -> Result<(), NoMemory>
    ensures { OnOk result ((i : ℕ) → entry table.new i ≡ (if nat_eq t i then said else entry table.old i)) }
{
    widen(table, t as usize)?;
    table.set(t as usize, said);
    Ok(())
}

/// Adds what a note says, at this index in front of the others.
fn add(table: &mut Items<Said>, k: usize, note: &Note) -> Result<(), NoMemory>
    ensures { OnOk result ((l : List Note) → Tells (suc k) l table.old → Tells k (note.now ∷ l) table.new) }
{
    match note {
        Note::Means(t, what) => {
            let mut said = said_of(table.as_slice(), *t);
            said.name = Some(*what);
            put(table, *t, said)
        }
        Note::Typed(t, _) => {
            let mut said = said_of(table.as_slice(), *t);
            said.ty = Some(k);
            put(table, *t, said)
        }
        Note::Null(t) => {
            let mut said = said_of(table.as_slice(), *t);
            said.null = true;
            put(table, *t, said)
        }
        Note::Fault(_, _) => Ok(()),
        Note::Declares(_, _) => Ok(()),
    }
}

/// What the notes say of each token.
pub fn gather(alloc: Global, notes: &[Note]) -> Result<Items<Said>, NoMemory>
    ensures { IfOk result (λ table. Tells 0 notes.now table) }
{
    let mut table = Items::new(alloc);
    let mut left = notes.len();
    while left > 0 {
        left -= 1;
        add(&mut table, left, &notes[left])?;
    }
    Ok(table)
}

/// What the name at each of `count` tokens means.
pub fn names(alloc: Global, count: usize, table: &[Said]) -> Result<Items<Option<Target>>, NoMemory>
    ensures count { IfOk result (λ l. length l ≡ count) }
    ensures names { IfOk result (λ l. (notes : List Note) → Tells 0 notes table.now → (t : ℕ) → t < count
        → slice_get l t ≡ Some (program.meant notes t)) }
{
    let mut names = Items::new(alloc);
    for t in 0..count {
        names.push(name_at(table, t))?;
    }
    Ok(names)
}

/// What the name at a token means.
fn name_at(table: &[Said], t: usize) -> Option<Target>
    ensures { (notes : List Note) → Tells 0 notes table.now → result ≡ program.meant notes t }
{
    match at(table, t) {
        Some(said) => said.name,
        None => None,
    }
}

/// The type of the expression at a token; `void` for NULL.
pub fn type_at(alloc: Global, notes: &[Note], table: &[Said], t: u32) -> Result<CType, NoMemory>
    ensures { IfOk result (λ type. Tells 0 notes.now table.now → type ≡ program.type_at notes.now t) }
{
    let said = said_of(table, t);
    if said.null {
        return Ok(void_type(alloc));
    }
    match said.ty {
        Some(k) => type_in(alloc, notes, k),
        None => Ok(void_type(alloc)),
    }
}

/// The type that the note at an index tells.
fn type_in(alloc: Global, notes: &[Note], k: usize) -> Result<CType, NoMemory>
    ensures { IfOk result (λ type. type ≡ type_of notes.now k) }
{
    match at(notes, k) {
        Some(Note::Typed(_, ty)) => copy(alloc, ty),
        _ => Ok(void_type(alloc)),
    }
}
