//! What is said of globals.

ghost use Rattle.std.specs.Prelude.{◌≡◌, ◌++◌, length, OnOk, IfOk};
ghost use Rattle.cc_model.specs.declared.checked.Target.TheVariants.{Global as GlobalTarget};
ghost use Rattle.cc_model.specs.Source.{text_at};
ghost use Rattle.cc_model.specs.Scopes as scopes;
ghost use Rattle.cc_model.specs.Faults as faults;

use crate::calls::note_rule;
use crate::declarators::{note_declared, note_lengths, note_twice};
use crate::made::{note_unknown, number_shape};
use crate::shapes::takes;
use crate::sources::Sources;
use crate::statements::is_scalar;
use crate::view::View;
use c_names::Preceding;
use c_scopes::before::pass_global;
use c_scopes::types::int_type;
use cc_model::Target;
use cc_model::base::NoMemory;
use cc_model::trees::{Base, GlobalPart, GlobalStart, StartValue};
use cc_model::typing::{CType, Note, Shape, Variable};
use sqlite_items::Items;

/// How many globals there are. No memory, too, where there are 2^32 of them, which no source declares.
fn count(globals: &[Variable]) -> Result<u32, NoMemory>
    ensures { IfOk result (λ n. n ≡ length globals.now) }
{
    let count = globals.len();
    if count <= u32::MAX as usize {
        Ok(count as u32)
    } else {
        Err(NoMemory)
    }
}

impl View<'_> {
    /// Whether the file's scope has the name already.
    pub fn is_taken(&self, t: u32) -> bool
        ensures { result ≡ scopes.is_taken self.now.before.now ((text_at self.now.source.now self.now.tokens.now) t) }
    {
        let name = self.text(t);
        self.is_alias(t) || (self.before.has_global(name) || self.before.has_function(name))
    }

    /// What a start value is.
    fn start_shape(&self, value: StartValue) -> Shape
        ensures { result ≡ faults.start_shape
            (text_at self.now.source.now self.now.tokens.now) self.now.file.now value }
    {
        match value {
            StartValue::Number(t, value) => number_shape(self.alloc, t, value),
            StartValue::Negative(..) => Shape::Value(int_type(self.alloc)),
            StartValue::Null(_) => Shape::Null,
        }
    }

    /// Notes a start value that doesn't go into a global of the type.
    fn note_start(
        &self,
        start: Option<GlobalStart>,
        ty: &Option<CType>,
        notes: &mut Items<Note>,
    ) -> Result<(), NoMemory>
        ensures { OnOk result (notes.new ≡ notes.old
            ++ faults.global_start (text_at self.now.source.now self.now.tokens.now) self.now.file.now start ty.now) }
    {
        let start = match start {
            Some(start) => start,
            None => return Ok(()),
        };
        let ty = match ty {
            Some(ty) => ty,
            None => return Ok(()),
        };
        let shape = self.start_shape(start.value);
        note_rule(start.equals, is_scalar(ty) && takes(ty, &shape), notes)
    }

    /// A declarator of a global of the type, which has that number.
    fn note_global(
        &self,
        number: u32,
        base: Base,
        part: &GlobalPart,
        ty: &Option<CType>,
        notes: &mut Items<Note>,
    ) -> Result<(), NoMemory>
        ensures { OnOk result (notes.new ≡ notes.old
            ++ faults.global_notes (text_at self.now.source.now self.now.tokens.now) self.now.file.now
            self.now.before.now base part.now (record {
              name = (text_at self.now.source.now self.now.tokens.now)
                  (part.now).declarator.name;
              ty = ty.now;
              target = GlobalTarget number;
            })) }
    {
        let declarator = &part.declarator;
        note_unknown(ty, base, notes)?;
        note_lengths(declarator.lengths.as_slice(), notes)?;
        notes.push(Note::Means(declarator.name, Target::Global(number)))?;
        note_declared(
            self.alloc,
            self.file.sizes.as_slice(),
            declarator.name,
            ty,
            notes,
        )?;
        note_twice(self.is_taken(declarator.name), declarator.name, notes)?;
        self.note_start(part.start, ty, notes)
    }

    /// A declarator of a global.
    pub fn global(
        &self,
        base: Base,
        part: &GlobalPart,
        notes: &mut Items<Note>,
    ) -> Result<(), NoMemory>
        ensures { OnOk result (notes.new ≡ notes.old
            ++ faults.global_notes (text_at self.now.source.now self.now.tokens.now) self.now.file.now
            self.now.before.now base part.now (scopes.global_of
            (text_at self.now.source.now self.now.tokens.now) self.now.file.now.tags self.now.before.now base
            part.now)) }
    {
        let number = count(self.before.globals())?;
        let ty = self.declared_type(base, &part.declarator)?;
        self.note_global(number, base, part, &ty, notes)
    }
}

impl Sources<'_> {
    /// The declarators of a line of globals, each behind the one before.
    pub fn globals(
        &self,
        base: Base,
        parts: &[GlobalPart],
        before: &mut Preceding,
        notes: &mut Items<Note>,
    ) -> Result<(), NoMemory>
        ensures notes { OnOk result (notes.new
            ≡ notes.old ++ faults.globals_notes
            (text_at self.now.source.now self.now.tokens.now) self.now.file.now before.old base parts.now) }
        ensures before { OnOk result (before.new
            ≡ scopes.after_globals (text_at self.now.source.now self.now.tokens.now) self.now.file.now.tags before.old
            base parts.now) }
    {
        for part in parts {
            let view = View {
                alloc: self.alloc,
                source: self.source,
                tokens: self.tokens,
                file: self.file,
                names: self.names,
                before: &*before,
                scopes: &[],
            };
            view.global(base, part, notes)?;
            pass_global(
                self.alloc,
                self.source,
                self.tokens,
                self.tags(),
                before,
                base,
                part,
            )?;
        }
        Ok(())
    }
}
