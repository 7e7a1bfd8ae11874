//! The rule of `malloc`.

ghost use Rattle.std.specs.Prelude.{◌≡◌, ◌++◌, [], OnOk, IfOk};
ghost use Rattle.cc_model.specs.Source.{text_at};
ghost use Rattle.cc_model.specs.Scopes as scopes;
ghost use Rattle.cc_model.specs.Typing as typing;
ghost use Rattle.c_rules.specs.Telling as telling;
ghost use Rattle.c_rules.specs.Telling.{answer, told};
ghost use Rattle.c_rules.specs.Views.{seen};

use crate::rules::ending;
use crate::view::View;
use c_scopes::types::{copy, int_type, pointer_to, same_type, size_of};
use cc_model::base::NoMemory;
use cc_model::trees::{Base, TypeName};
use cc_model::typing::{CType, Note, Shape, Wrong};
use sqlite_items::Items;
use std::alloc::Global;

/// Notes a type that has more than 256 cells.
pub fn note_size(sizes: &[u32], t: u32, ty: &CType, notes: &mut Items<Note>) -> Result<(), NoMemory>
    ensures { OnOk result (notes.new ≡ notes.old ++ typing.size_notes sizes.now t ty.now) }
{
    if size_of(sizes, ty) > 256 {
        notes.push(Note::Fault(Wrong::TooLarge, t))?;
    }
    Ok(())
}

/// Notes the name of a type that names none.
fn note_unknown_base(base: Base, notes: &mut Items<Note>) -> Result<(), NoMemory>
    ensures { OnOk result (notes.new ≡ notes.old ++ typing.unknown_base base) }
{
    match base {
        Base::Int => {}
        Base::Struct(name) | Base::Alias(name) => {
            notes.push(Note::Fault(Wrong::Unknown, name))?;
        }
    }
    Ok(())
}

/// Notes the name of a type, where it names none.
pub fn note_unknown(ty: &Option<CType>, base: Base, notes: &mut Items<Note>) -> Result<(), NoMemory>
    ensures { OnOk result (notes.new ≡ notes.old ++ typing.unknown_if_none ty.now base) }
{
    match ty {
        Some(_) => Ok(()),
        None => note_unknown_base(base, notes),
    }
}

/// An expression that is well typed by itself.
pub fn alone(
    alloc: Global,
    t: u32,
    shape: Shape,
    notes: &mut Items<Note>,
) -> Result<Shape, NoMemory>
    ensures { IfOk result (λ s. told (typing.right 0 t shape notes.old) ≡ answer s notes.new) }
{
    ending(alloc, t, true, true, shape, notes)
}

impl View<'_> {
    /// The type in front of `malloc` is a pointer to the one that is made.
    fn cast_judged(
        &self,
        t: u32,
        cast: Option<TypeName>,
        found: &Option<CType>,
        ty: &CType,
        notes: &mut Items<Note>,
    ) -> Result<Shape, NoMemory>
        ensures { IfOk result (λ s. told (typing.cast_judged (text_at self.now.source.now self.now.tokens.now)
            (seen self.now.file.now self.now.before.now self.now.scopes.now) 0 t cast found.now ty.now notes.old)
            ≡ answer s notes.new) }
    {
        let alloc = self.alloc;
        let pointer = pointer_to(alloc, ty)?;
        if cast.is_none() {
            return alone(alloc, t, Shape::Value(pointer), notes);
        }
        let found = match found {
            Some(found) => found,
            None => return Ok(Shape::Unclear),
        };
        let holds = same_type(found, &pointer);
        let value = Shape::Value(copy(alloc, found)?);
        ending(alloc, t, true, holds, value, notes)
    }

    /// The type in front of `malloc`.
    fn cast_type(&self, cast: Option<TypeName>) -> Option<CType>
        ensures { result ≡ typing.cast_type (text_at self.now.source.now self.now.tokens.now)
            (seen self.now.file.now self.now.before.now self.now.scopes.now) cast }
    {
        match cast {
            Some(name) => self.type_named(name),
            None => None,
        }
    }

    /// Notes the type in front of `malloc`, where its name names none.
    fn note_cast(&self, cast: Option<TypeName>, notes: &mut Items<Note>) -> Result<(), NoMemory>
        ensures { OnOk result (notes.new ≡ notes.old
            ++ typing.cast_notes (text_at self.now.source.now self.now.tokens.now)
            (seen self.now.file.now self.now.before.now self.now.scopes.now) cast) }
    {
        match cast {
            Some(name) => note_unknown(&self.type_named(name), name.base, notes),
            None => Ok(()),
        }
    }

    /// `malloc`, by what its type's name means.
    fn made(
        &self,
        t: u32,
        cast: Option<TypeName>,
        ty: &Option<CType>,
        notes: &mut Items<Note>,
    ) -> Result<Shape, NoMemory>
        ensures { IfOk result (λ s. told (typing.made (text_at self.now.source.now self.now.tokens.now)
            (seen self.now.file.now self.now.before.now self.now.scopes.now) 0 t cast ty.now notes.old)
            ≡ answer s notes.new) }
    {
        let ty = match ty {
            Some(ty) => ty,
            None => return Ok(Shape::Unclear),
        };
        note_size(self.file.sizes.as_slice(), t, ty, notes)?;
        self.cast_judged(t, cast, &self.cast_type(cast), ty, notes)
    }

    /// `malloc`
    pub fn malloc(
        &self,
        t: u32,
        cast: Option<TypeName>,
        made: TypeName,
        notes: &mut Items<Note>,
    ) -> Result<Shape, NoMemory>
        ensures { IfOk result (λ s. telling.malloc_told (text_at self.now.source.now self.now.tokens.now)
            (seen self.now.file.now self.now.before.now self.now.scopes.now) t cast made notes.old
            ≡ answer s notes.new) }
    {
        let ty = self.object_type(made.base, made.stars, Items::new(self.alloc));
        self.note_cast(cast, notes)?;
        note_unknown(&ty, made.base, notes)?;
        self.made(t, cast, &ty, notes)
    }
}

/// What a number is.
pub fn number_shape(alloc: Global, t: u32, value: i32) -> Shape
    ensures { result ≡ typing.number_shape t value }
{
    if value == 0 {
        Shape::Zero(t)
    } else {
        Shape::Value(int_type(alloc))
    }
}
