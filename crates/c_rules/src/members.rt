//! The rule of `.` and `->`.

ghost use Rattle.std.specs.Prelude.{◌≡◌, ◌+◌, ◌<◌, take, slice_get, unwrap_or, [], length, IfOk, IfSome};
ghost use Rattle.cc_model.specs.Source.{text_at};
ghost use Rattle.cc_model.specs.Scopes as scopes;
ghost use Rattle.cc_model.specs.Typing as typing;
ghost use Rattle.c_rules.specs.Telling.{answer, told};
ghost use Rattle.c_rules.specs.Views.{seen};

use crate::rules::ending;
use crate::view::View;
use c_scopes::types::copy;
use cc_model::Target;
use cc_model::base::NoMemory;
use cc_model::typing::{CType, Member, Note, Shape, Wrong};
use sqlite_items::{Items, at};
use std::alloc::Global;

/// A field of a known type, at its offset in cells.
fn member_typed(
    alloc: Global,
    t: u32,
    name: u32,
    offset: u32,
    ty: &Option<CType>,
    notes: &mut Items<Note>,
) -> Result<Shape, NoMemory>
    ensures { IfOk result (λ s. told (typing.member_typed 0 t name offset ty.now notes.old) ≡ answer s notes.new) }
{
    notes.push(Note::Means(name, Target::Field(offset)))?;
    let ty = match ty {
        Some(ty) => ty,
        None => return Ok(Shape::Unclear),
    };
    notes.push(Note::Typed(t, copy(alloc, ty)?))?;
    Ok(Shape::Place(copy(alloc, ty)?))
}

/// The offsets at a number; none where there are none.
fn offsets_at(offsets: &[Items<u32>], number: u32) -> &[u32]
    ensures { result.now ≡ unwrap_or (slice_get offsets.now number) [] }
{
    match at(offsets, number as usize) {
        Some(offsets) => offsets.as_slice(),
        None => &[],
    }
}

/// The offset at a place of those at a number; 0 where there is none.
fn offset_in(offsets: &[Items<u32>], number: u32, place: usize) -> u32
    ensures { result ≡ unwrap_or (slice_get (unwrap_or (slice_get offsets.now number) []) place) 0 }
{
    match at(offsets_at(offsets, number), place) {
        Some(offset) => *offset,
        None => 0,
    }
}

impl View<'_> {
    /// The fields of a struct; none where there is no such struct.
    fn fields_at(&self, number: u32) -> &[Member]
        ensures { result.now ≡ unwrap_or (slice_get self.now.file.now.structs number) [] }
    {
        match at(self.file.structs.as_slice(), number as usize) {
            Some(members) => members.as_slice(),
            None => &[],
        }
    }

    /// Where the field of that name is found among those of a struct.
    fn field_found(&self, number: u32, name: &[u8]) -> Option<usize>
        ensures { result ≡ scopes.field_in name.now (unwrap_or (slice_get self.now.file.now.structs number) []) }
    {
        match at(self.names.fields.as_slice(), number as usize) {
            Some(names) => names.position(name),
            None => None,
        }
    }

    /// Where the field of that name stands among those of a struct.
    fn field_place(&self, number: u32, name: &[u8]) -> Option<usize>
        ensures value { result ≡ scopes.field_in name.now (unwrap_or (slice_get self.now.file.now.structs number) []) }
        ensures within { IfSome result (λ k. k < length (unwrap_or (slice_get self.now.file.now.structs number) [])) }
    {
        self.field_found(number, name)
    }

    /// The offset in cells of the field that stands there in a struct.
    fn offset_at(&self, number: u32, place: usize) -> u32
        requires { place < length (unwrap_or (slice_get self.now.file.now.structs number) []) }
        ensures { result ≡ scopes.fields_size self.now.file.now.sizes
            (take place (unwrap_or (slice_get self.now.file.now.structs number) [])) }
    {
        offset_in(self.names.offsets.as_slice(), number, place)
    }

    /// The field of that name among those of a struct.
    fn member_of(
        &self,
        t: u32,
        name: u32,
        number: u32,
        notes: &mut Items<Note>,
    ) -> Result<Shape, NoMemory>
        ensures { IfOk result (λ s. told (typing.member_at (text_at self.now.source.now self.now.tokens.now)
            (seen self.now.file.now self.now.before.now self.now.scopes.now) 0 t name
            (unwrap_or (slice_get self.now.file.now.structs number) [])
            (scopes.field_in (text_at self.now.source.now self.now.tokens.now name)
            (unwrap_or (slice_get self.now.file.now.structs number) [])) notes.old) ≡ answer s notes.new) }
    {
        let place = match self.field_place(number, self.text(name)) {
            Some(place) => place,
            None => {
                notes.push(Note::Fault(Wrong::Unknown, name))?;
                return Ok(Shape::Unclear);
            }
        };
        let offset = self.offset_at(number, place);
        let members = self.fields_at(number);
        member_typed(self.alloc, t, name, offset, &members[place].ty, notes)
    }

    /// `.` and `->`: the field of that name of a struct; where there is no struct, the rule of the operator fails.
    pub fn member(
        &self,
        t: u32,
        name: u32,
        well: bool,
        number: Option<u32>,
        notes: &mut Items<Note>,
    ) -> Result<Shape, NoMemory>
        ensures { IfOk result (λ s. told (typing.member (text_at self.now.source.now self.now.tokens.now)
            (seen self.now.file.now self.now.before.now self.now.scopes.now) 0 t name well number notes.old)
            ≡ answer s notes.new) }
    {
        match number {
            Some(number) => self.member_of(t, name, number, notes),
            None => ending(self.alloc, t, well, false, Shape::Unclear, notes),
        }
    }
}
