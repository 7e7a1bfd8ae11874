//! What is said of structs.

ghost use Rattle.std.specs.Prelude.{◌≡◌, ◌++◌, ◌∷◌, [], List, map, is_some, nat_lt, if◌then◌else◌, OnOk, IfOk, ℕ};
ghost use Rattle.cc_model.specs.declared.typing.File.{File as DeclaredFile};
ghost use Rattle.cc_model.specs.declared.typing.Member.{Member as DeclaredMember};
ghost use Rattle.cc_model.specs.declared.typing.Note.{Note as DeclaredNote};
ghost use Rattle.cc_model.specs.declared.typing.Note.TheVariants.{Fault as FaultNote};
ghost use Rattle.cc_model.specs.declared.typing.Wrong.TheVariants.{TooLarge as TooLargeHere};
ghost use Rattle.cc_model.specs.declared.trees.Item.TheVariants as item;
ghost use Rattle.cc_model.specs.Source.{text_at};
ghost use Rattle.cc_model.specs.Scopes as scopes;
ghost use Rattle.cc_model.specs.Faults as faults;

use crate::declarators::{note_declared, note_lengths, note_twice};
use crate::made::note_unknown;
use crate::view::View;
use c_names::Named;
use c_scopes::sizes::with_field;
use cc_model::Target;
use cc_model::base::NoMemory;
use cc_model::trees::{Base, Declarator, Field, StructDef};
use cc_model::typing::{CType, Member, Note, Wrong};
use sqlite_items::Items;

/// Whether a note is a fault.
fn is_fault(note: &Note) -> bool
    ensures { (text : ℕ → scopes.Text) (file : DeclaredFile) → result ≡ faults.is_fault text file note.now }
{
    matches!(note, Note::Fault(..))
}

/// Whether there is a fault among the notes.
fn has_fault(notes: &[Note]) -> bool
    ensures { (text : ℕ → scopes.Text) (file : DeclaredFile) → result ≡ faults.has_fault text file notes.now }
{
    for note in notes {
        if is_fault(note) {
            return true;
        }
    }
    false
}

/// Notes at token `t` a struct of more than 256 cells, where it has no faulty field.
fn note_struct_size(
    t: u32,
    faulty: bool,
    size: u32,
    notes: &mut Items<Note>,
) -> Result<(), NoMemory>
    ensures { OnOk result (notes.new ≡ notes.old
        ++ (if faulty then [] else (if nat_lt 256 size then FaultNote TooLargeHere t ∷ [] else []))) }
{
    if !faulty && size > 256 {
        notes.push(Note::Fault(Wrong::TooLarge, t))?;
    }
    Ok(())
}

/// The token where a struct is judged for its size: its tag, else the name of its typedef.
fn name_of_struct(tag: Option<u32>, name: u32) -> u32
    ensures { (text : ℕ → scopes.Text) (file : DeclaredFile) → result ≡ faults.name_of_struct text file tag name }
{
    match tag {
        Some(tag) => tag,
        None => name,
    }
}

impl View<'_> {
    /// Whether an earlier field has the name.
    fn is_field(&self, name: u32, earlier: &Named<Member>) -> bool
        ensures { result ≡ is_some (scopes.field_in
            ((text_at self.now.source.now self.now.tokens.now) name) earlier.now) }
    {
        match earlier.find(self.text(name)) {
            Some(_) => true,
            None => false,
        }
    }

    /// The declarator of a field of the type, behind earlier ones of that size.
    fn note_field(
        &self,
        base: Base,
        declarator: &Declarator,
        ty: &Option<CType>,
        earlier: &Named<Member>,
        size: u32,
        notes: &mut Items<Note>,
    ) -> Result<(), NoMemory>
        requires sized { size ≡ scopes.fields_size self.now.file.now.sizes earlier.now }
        ensures { OnOk result (notes.new ≡ notes.old
            ++ faults.field_notes (text_at self.now.source.now self.now.tokens.now) self.now.file.now
            self.now.before.now earlier.now base declarator.now ty.now) }
    {
        let sizes = self.file.sizes.as_slice();
        note_unknown(ty, base, notes)?;
        note_lengths(declarator.lengths.as_slice(), notes)?;
        notes.push(Note::Means(declarator.name, Target::Field(size)))?;
        note_declared(self.alloc, sizes, declarator.name, ty, notes)?;
        note_twice(
            self.is_field(declarator.name, earlier),
            declarator.name,
            notes,
        )
    }

    /// The declarator of a field, which stands with the earlier ones afterwards; `size` is theirs.
    fn field(
        &self,
        base: Base,
        declarator: &Declarator,
        earlier: &mut Named<Member>,
        size: &mut u32,
        notes: &mut Items<Note>,
    ) -> Result<(), NoMemory>
        requires sized { size.old ≡ scopes.fields_size self.now.file.now.sizes earlier.old }
        ensures sized { OnOk result (size.new ≡ scopes.fields_size self.now.file.now.sizes earlier.new) }
        ensures notes { OnOk result (notes.new
            ≡ notes.old ++ faults.field_notes (text_at self.now.source.now self.now.tokens.now) self.now.file.now
            self.now.before.now earlier.old base declarator.now
            (scopes.declared_type (text_at self.now.source.now self.now.tokens.now) self.now.file.now.tags
            self.now.before.now base declarator.now)) }
        ensures member { OnOk result (earlier.new
            ≡ earlier.old ++ scopes.field_of (text_at self.now.source.now self.now.tokens.now) self.now.file.now.tags
            self.now.before.now base declarator.now ∷ []) }
    {
        let name = Items::from_slice(self.alloc, self.text(declarator.name))?;
        let ty = self.declared_type(base, declarator)?;
        self.note_field(base, declarator, &ty, &*earlier, *size, notes)?;
        let member = Member { name, ty };
        *size = with_field(self.file.sizes.as_slice(), *size, &member);
        earlier.push(self.alloc, member)
    }

    /// The fields of a line, behind earlier ones, whose size `size` is. `rest` is what is said behind the line.
    fn line(
        &self,
        base: Base,
        parts: &[Declarator],
        earlier: &mut Named<Member>,
        size: &mut u32,
        notes: &mut Items<Note>,
    ) -> Result<(), NoMemory>
        requires sized { size.old ≡ scopes.fields_size self.now.file.now.sizes earlier.old }
        ensures sized { OnOk result (size.new ≡ scopes.fields_size self.now.file.now.sizes earlier.new) }
        ensures notes { OnOk result ((rest : List DeclaredMember → List DeclaredNote)
            → notes.new ++ rest earlier.new ≡ notes.old
            ++ faults.line_notes (text_at self.now.source.now self.now.tokens.now) self.now.file.now
            self.now.before.now earlier.old base parts.now rest) }
        ensures members { OnOk result (earlier.new
            ≡ earlier.old ++ map (scopes.field_of
            (text_at self.now.source.now self.now.tokens.now) self.now.file.now.tags self.now.before.now base)
            parts.now) }
    {
        for declarator in parts {
            self.field(base, declarator, earlier, size, notes)?;
        }
        Ok(())
    }

    /// The fields of a struct, line by line, and the size of all of them.
    fn lines(&self, lines: &[Field], notes: &mut Items<Note>) -> Result<u32, NoMemory>
        ensures notes { OnOk result (notes.new
            ≡ notes.old ++ faults.lines_notes (text_at self.now.source.now self.now.tokens.now) self.now.file.now
            self.now.before.now lines.now []) }
        ensures size { IfOk result (λ n. n ≡ scopes.fields_size self.now.file.now.sizes
            (scopes.fields_of (text_at self.now.source.now self.now.tokens.now) self.now.file.now.tags
            self.now.before.now lines.now)) }
    {
        let mut members = Named::new(self.alloc);
        let mut size = 0;
        for line in lines {
            self.line(
                line.base,
                line.parts.as_slice(),
                &mut members,
                &mut size,
                notes,
            )?;
        }
        Ok(size)
    }

    /// The fields of a struct and its size, which is judged at token `t`.
    pub fn fields(&self, t: u32, lines: &[Field], notes: &mut Items<Note>) -> Result<(), NoMemory>
        ensures { OnOk result (notes.new ≡ notes.old
            ++ faults.fields_notes (text_at self.now.source.now self.now.tokens.now) self.now.file.now t
            self.now.before.now lines.now) }
    {
        let mut said = Items::new(self.alloc);
        let size = self.lines(lines, &mut said)?;
        note_struct_size(t, has_fault(said.as_slice()), size, notes)?;
        notes.append(said)?;
        Ok(())
    }

    /// The number of the struct of a tag.
    pub fn tag_of(&self, tag: u32) -> Option<u32>
        ensures { result ≡ scopes.tag_in ((text_at self.now.source.now self.now.tokens.now) tag)
            self.now.file.now.tags }
    {
        self.type_names().tag(tag)
    }

    /// Whether the struct of that number is defined before.
    fn is_earlier(&self, number: Option<u32>) -> bool
        ensures { result ≡ faults.is_earlier
            (text_at self.now.source.now self.now.tokens.now) self.now.file.now self.now.before.now number }
    {
        match number {
            Some(number) => number < self.before.structs(),
            None => false,
        }
    }

    /// Notes a tag that is defined once more.
    fn note_tag(&self, tag: Option<u32>, notes: &mut Items<Note>) -> Result<(), NoMemory>
        ensures { OnOk result (notes.new ≡ notes.old
            ++ faults.tag_notes (text_at self.now.source.now self.now.tokens.now) self.now.file.now self.now.before.now
            tag) }
    {
        match tag {
            Some(tag) => note_twice(self.is_earlier(self.tag_of(tag)), tag, notes),
            None => Ok(()),
        }
    }

    /// The definition of a struct.
    pub fn struct_def(&self, def: &StructDef, notes: &mut Items<Note>) -> Result<(), NoMemory>
        ensures { OnOk result (notes.new ≡ notes.old
            ++ faults.item_notes (text_at self.now.source.now self.now.tokens.now) self.now.file.now
            (faults.part_of (text_at self.now.source.now self.now.tokens.now) self.now.file.now) self.now.before.now
            (item.Struct def.now)) }
    {
        match def {
            StructDef::Tagged(tag, lines) => {
                self.note_tag(Some(*tag), notes)?;
                self.fields(*tag, lines.as_slice(), notes)
            }
            StructDef::Named(tag, lines, name) => {
                self.note_tag(*tag, notes)?;
                self.fields(name_of_struct(*tag, *name), lines.as_slice(), notes)?;
                note_twice(self.is_taken(*name), *name, notes)
            }
        }
    }
}
