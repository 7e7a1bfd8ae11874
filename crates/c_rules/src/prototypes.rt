//! What is said of the parameters of a prototype.

ghost use Rattle.std.specs.Prelude.{◌≡◌, ◌++◌, ◌||◌, [], OnOk};
ghost use Rattle.cc_model.specs.Source.{text_at};
ghost use Rattle.cc_model.specs.Scopes as scopes;
ghost use Rattle.cc_model.specs.Typing as typing;
ghost use Rattle.cc_model.specs.Faults as faults;

use crate::declarators::note_twice;
use crate::functions::note_no_struct;
use crate::made::note_unknown;
use crate::view::View;
use c_names::NameIndex;
use cc_model::base::NoMemory;
use cc_model::trees::ProtoParam;
use cc_model::typing::Note;
use sqlite_items::Items;

impl View<'_> {
    /// Whether an earlier parameter has the name, or it is that of a typedef.
    fn is_earlier_name(&self, name: u32, earlier: &NameIndex) -> bool
        ensures { result ≡ (scopes.has_name
            ((text_at self.now.source.now self.now.tokens.now) name) earlier.now || scopes.is_alias self.now.before.now
            ((text_at self.now.source.now self.now.tokens.now) name)) }
    {
        earlier.has(self.text(name)) || self.is_alias(name)
    }

    /// A parameter of the prototype at token `t`, behind earlier ones.
    fn proto(
        &self,
        t: u32,
        param: ProtoParam,
        earlier: &NameIndex,
        notes: &mut Items<Note>,
    ) -> Result<(), NoMemory>
        ensures { OnOk result (notes.new ≡ notes.old
            ++ (typing.unknown_if_none (scopes.param_type
            (text_at self.now.source.now self.now.tokens.now) self.now.file.now.tags self.now.before.now param.ty)
            (param.ty).base
            ++ (faults.no_struct (faults.proto_name
            (text_at self.now.source.now self.now.tokens.now) self.now.file.now t param.name)
            (scopes.param_type (text_at self.now.source.now self.now.tokens.now) self.now.file.now.tags
            self.now.before.now param.ty) ++ faults.proto_twice
            (text_at self.now.source.now self.now.tokens.now) self.now.file.now self.now.before.now earlier.now
            param.name))) }
    {
        let ty = self.param_type(param.ty);
        note_unknown(&ty, param.ty.base, notes)?;
        match param.name {
            Some(name) => {
                note_no_struct(name, &ty, notes)?;
                note_twice(self.is_earlier_name(name, earlier), name, notes)
            }
            None => note_no_struct(t, &ty, notes),
        }
    }

    /// The names of the parameters with one more.
    fn name_proto(&self, earlier: &mut NameIndex, name: Option<u32>) -> Result<(), NoMemory>
        ensures { OnOk result (earlier.new ≡ faults.with_proto
            (text_at self.now.source.now self.now.tokens.now) self.now.file.now earlier.old name) }
    {
        let name = match name {
            Some(name) => name,
            None => return Ok(()),
        };
        earlier.add(self.text(name))
    }

    /// The parameters of the prototype at token `t`, which stand in a scope of their own.
    pub fn protos(
        &self,
        t: u32,
        params: &[ProtoParam],
        notes: &mut Items<Note>,
    ) -> Result<(), NoMemory>
        ensures { OnOk result (notes.new ≡ notes.old
            ++ faults.protos_notes (text_at self.now.source.now self.now.tokens.now) self.now.file.now
            self.now.before.now t [] params.now) }
    {
        let mut earlier = NameIndex::new(self.alloc);
        for param in params {
            self.proto(t, *param, &earlier, notes)?;
            self.name_proto(&mut earlier, param.name)?;
        }
        Ok(())
    }
}
