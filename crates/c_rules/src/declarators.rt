//! What is said of declared names.

ghost use Rattle.std.specs.Prelude.{◌≡◌, ◌++◌, ◌||◌, ◌∷◌, [], None, OnOk};
ghost use Rattle.cc_model.specs.Source.{text_at};
ghost use Rattle.cc_model.specs.Scopes as scopes;
ghost use Rattle.cc_model.specs.Typing as typing;
ghost use Rattle.cc_model.specs.Faults as faults;
ghost use Rattle.c_rules.specs.Views.{here_at};

use crate::made::{note_size, note_unknown};
use crate::view::View;
use c_names::Named;
use c_scopes::names::variable_in;
use c_scopes::types::copy;
use cc_model::Target;
use cc_model::base::NoMemory;
use cc_model::trees::{Base, Declarator, Length};
use cc_model::typing::{CType, Note, Variable, Wrong};
use sqlite_items::Items;
use std::alloc::Global;

/// Whether an array may have that length.
fn is_length(value: i32) -> bool
    ensures { result ≡ faults.is_length value }
{
    value >= 1 && value <= 256
}

/// Notes a length that no array has.
fn note_length(length: &Length, notes: &mut Items<Note>) -> Result<(), NoMemory>
    ensures { OnOk result (notes.new ≡ notes.old ++ faults.length_notes (length.now ∷ [])) }
{
    if !is_length(length.value) {
        notes.push(Note::Fault(Wrong::TooLarge, length.token))?;
    }
    Ok(())
}

/// Notes the lengths that no array has.
pub fn note_lengths(lengths: &[Length], notes: &mut Items<Note>) -> Result<(), NoMemory>
    ensures { OnOk result (notes.new ≡ notes.old ++ faults.length_notes lengths.now) }
{
    for length in lengths {
        note_length(length, notes)?;
    }
    Ok(())
}

/// Notes a name that is declared once more.
pub fn note_twice(again: bool, t: u32, notes: &mut Items<Note>) -> Result<(), NoMemory>
    ensures { OnOk result (notes.new ≡ notes.old ++ faults.twice_if again t) }
{
    if again {
        notes.push(Note::Fault(Wrong::Twice, t))?;
    }
    Ok(())
}

/// Notes the type of a declared name, where it is known, and its size, where that is too large.
pub fn note_declared(
    alloc: Global,
    sizes: &[u32],
    t: u32,
    ty: &Option<CType>,
    notes: &mut Items<Note>,
) -> Result<(), NoMemory>
    ensures { OnOk result (notes.new ≡ notes.old ++ faults.declares_if sizes.now t ty.now) }
{
    let ty = match ty {
        Some(ty) => ty,
        None => return Ok(()),
    };
    notes.push(Note::Declares(t, copy(alloc, ty)?))?;
    note_size(sizes, t, ty, notes)
}

/// Whether the innermost scope has a variable of that name.
fn in_scope(name: &[u8], around: &[Named<Variable>]) -> bool
    ensures { result ≡ faults.in_scope name.now around.now }
{
    match around {
        [] => false,
        [scope] => match variable_in(name, scope) {
            Some(_) => true,
            None => false,
        },
        [_, rest @ ..] => in_scope(name, rest),
    }
}

impl View<'_> {
    /// Whether the name is that of a typedef.
    pub fn is_alias(&self, t: u32) -> bool
        ensures { result ≡ scopes.is_alias self.now.before.now ((text_at self.now.source.now self.now.tokens.now) t) }
    {
        self.before.is_alias(self.text(t))
    }

    /// Whether the innermost scope has the name already, or it is that of a typedef.
    pub fn is_declared(&self, t: u32) -> bool
        ensures { result ≡ (faults.in_scope
            ((text_at self.now.source.now self.now.tokens.now) t) self.now.scopes.now || scopes.is_alias
            self.now.before.now ((text_at self.now.source.now self.now.tokens.now) t)) }
    {
        in_scope(self.text(t), self.scopes) || self.is_alias(t)
    }

    /// The declarator of a variable, which is local `next`.
    pub fn local(
        &self,
        next: u32,
        base: Base,
        declarator: &Declarator,
        ty: &Option<CType>,
        notes: &mut Items<Note>,
    ) -> Result<(), NoMemory>
        ensures { OnOk result (notes.new ≡ notes.old
            ++ faults.local_notes (typing.judged (text_at self.now.source.now self.now.tokens.now))
            (text_at self.now.source.now self.now.tokens.now) self.now.file.now self.now.before.now None base
            declarator.now ty.now (here_at self.now.scopes.now next)) }
    {
        note_unknown(ty, base, notes)?;
        note_lengths(declarator.lengths.as_slice(), notes)?;
        notes.push(Note::Means(declarator.name, Target::Local(next)))?;
        note_declared(
            self.alloc,
            self.file.sizes.as_slice(),
            declarator.name,
            ty,
            notes,
        )?;
        note_twice(self.is_declared(declarator.name), declarator.name, notes)
    }
}
