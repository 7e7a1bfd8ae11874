//! What is said of the name, the parameters and the result of a function.

ghost use Rattle.std.specs.Prelude.{◌≡◌, ◌++◌, [], OnOk};
ghost use Rattle.cc_model.specs.Source.{text_at};
ghost use Rattle.cc_model.specs.Scopes as scopes;
ghost use Rattle.cc_model.specs.Faults as faults;
ghost use Rattle.c_rules.specs.Views.{here_at};

use crate::calls::note_rule;
use crate::declarators::{note_declared, note_twice};
use crate::made::note_unknown;
use crate::view::View;
use c_scopes::types::{same_type, struct_in};
use cc_model::Target;
use cc_model::base::NoMemory;
use cc_model::trees::{Param, ResultType};
use cc_model::typing::{CType, Note};
use sqlite_items::Items;

/// Notes a parameter or a result that is a struct.
pub fn note_no_struct(t: u32, ty: &Option<CType>, notes: &mut Items<Note>) -> Result<(), NoMemory>
    ensures { OnOk result (notes.new ≡ notes.old ++ faults.no_struct t ty.now) }
{
    match ty {
        Some(ty) => note_rule(t, struct_in(ty).is_none(), notes),
        None => Ok(()),
    }
}

/// Notes the name of a result's type, where it names none.
pub fn note_result(
    gives: ResultType,
    ty: &Option<CType>,
    notes: &mut Items<Note>,
) -> Result<(), NoMemory>
    ensures { OnOk result (notes.new ≡ notes.old ++ faults.base_of_result gives ty.now) }
{
    match gives {
        ResultType::Void => Ok(()),
        ResultType::Value(name) => note_unknown(ty, name.base, notes),
    }
}

/// Whether two known types are the same.
pub fn same_if(one: &Option<CType>, other: &Option<CType>) -> bool
    ensures { result ≡ faults.same_if one.now other.now }
{
    match (one, other) {
        (Some(one), Some(other)) => same_type(one, other),
        _ => false,
    }
}

impl View<'_> {
    /// A parameter of a function with a body, which is local `next`.
    pub fn param(
        &self,
        next: u32,
        param: Param,
        ty: &Option<CType>,
        notes: &mut Items<Note>,
    ) -> Result<(), NoMemory>
        ensures { OnOk result (notes.new ≡ notes.old
            ++ faults.param_notes (text_at self.now.source.now self.now.tokens.now) self.now.file.now
            self.now.before.now param ty.now (here_at self.now.scopes.now next)) }
    {
        note_unknown(ty, param.ty.base, notes)?;
        note_no_struct(param.name, ty, notes)?;
        notes.push(Note::Means(param.name, Target::Local(next)))?;
        note_declared(
            self.alloc,
            self.file.sizes.as_slice(),
            param.name,
            ty,
            notes,
        )?;
        note_twice(self.is_declared(param.name), param.name, notes)
    }
}
