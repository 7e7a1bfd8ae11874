//! The types of what is declared.

ghost use Rattle.std.specs.Prelude.{◌≡◌, ◌++◌, ◌∷◌, [], OnOk, IfOk};
ghost use Rattle.cc_model.specs.CheckedProgram as checked;

use crate::types::copy;
use cc_model::base::NoMemory;
use cc_model::typing::{CType, Note};
use sqlite_items::Items;
use std::alloc::Global;

/// Adds the type of what a note declares.
fn add_declared(alloc: Global, note: &Note, types: &mut Items<CType>) -> Result<(), NoMemory>
    ensures { OnOk result (types.new ≡ types.old ++ checked.declared_types (note.now ∷ [])) }
{
    match note {
        Note::Declares(_, ty) => types.push(copy(alloc, ty)?)?,
        Note::Fault(_, _) | Note::Means(_, _) | Note::Typed(_, _) | Note::Null(_) => {}
    }
    Ok(())
}

/// The types of what notes declare, in order.
pub fn declared_types(alloc: Global, notes: &[Note]) -> Result<Items<CType>, NoMemory>
    ensures { IfOk result (λ l. l ≡ checked.declared_types notes.now) }
{
    let mut types = Items::new(alloc);
    for note in notes {
        add_declared(alloc, note, &mut types)?;
    }
    Ok(types)
}
