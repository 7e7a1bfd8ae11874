//! The checked program, from what is said of a well typed one.

ghost use Rattle.std.specs.Prelude.{◌≡◌, ◌<◌, ◌^◌, length, map, IfOk};
ghost use Rattle.cc_model.specs.declared.typing.Function.{Function};
ghost use Rattle.cc_model.specs.Source.{text_at};
ghost use Rattle.cc_model.specs.Scopes as scopes;
ghost use Rattle.cc_model.specs.Faults as faults;
ghost use Rattle.cc_model.specs.CheckedProgram as checked;
ghost use Rattle.c_scopes.specs.Noted.{Tells};
ghost use Rattle.c_numbering.specs.Numbers.{IsNumbering};
ghost use Rattle.c_types.specs.Resolving.{AreRead, IsTested};
ghost use Rattle.c_numbering.specs.CheckedTypes.{AreCheckedTypes};

use crate::reading::Reading;
use crate::sites::lines_of;
use c_names::{Preceding, TagIndex};
use c_numbering::numbering::{Numbering, number_types};
use c_rules::locals::locals_of;
use c_scopes::before::pass;
use c_scopes::declared::declared_types;
use c_scopes::file_names::tag_index;
use c_scopes::noted::{Said, gather, names, type_at};
use c_trees::expression_tokens;
use cc_model::base::NoMemory;
use cc_model::trees::{Item, Program};
use cc_model::typing::{CType, File, Note, Text};
use cc_model::{Checked, Token};
use sqlite_items::Items;
use std::alloc::Global;

/// The types of the expressions at tokens.
fn types_at(
    alloc: Global,
    notes: &[Note],
    said: &[Said],
    tokens: &[u32],
) -> Result<Items<CType>, NoMemory>
    requires { Tells 0 notes.now said.now }
    ensures { IfOk result (λ l. l ≡ map (checked.type_at notes.now) tokens.now) }
{
    let mut types = Items::new(alloc);
    for token in tokens {
        types.push(type_at(alloc, notes, said, *token)?)?;
    }
    Ok(types)
}

/// The types of the expressions of items, in order of their numbers.
fn expression_types(
    alloc: Global,
    items: &[Item],
    notes: &[Note],
    said: &[Said],
) -> Result<Items<CType>, NoMemory>
    requires { Tells 0 notes.now said.now }
    ensures { IfOk result (λ l. l ≡ map (checked.type_at notes.now) (checked.expression_tokens items.now)) }
{
    let tokens = expression_tokens(alloc, items)?;
    types_at(alloc, notes, said, tokens.as_slice())
}

/// What stands behind all items.
fn behind(
    alloc: Global,
    source: &[u8],
    tokens: &[Token],
    tags: &TagIndex,
    items: &[Item],
) -> Result<Preceding, NoMemory>
    ensures { IfOk result (λ b. b ≡ scopes.after_items
        (text_at source.now tokens.now) tags.now scopes.nothing_before items.now) }
{
    let mut before = Preceding::nothing(alloc);
    for item in items {
        pass(alloc, source, tokens, tags, &mut before, item)?;
    }
    Ok(before)
}

/// What stands behind all items of a file, whose structs have these tags.
fn behind_all(
    alloc: Global,
    source: &[u8],
    tokens: &[Token],
    tags: &Items<Option<Text>>,
    items: &[Item],
) -> Result<Preceding, NoMemory>
    ensures { IfOk result (λ b. b ≡ scopes.after_items
        (text_at source.now tokens.now) tags.now scopes.nothing_before items.now) }
{
    let index = tag_index(alloc, tags.as_slice())?;
    behind(alloc, source, tokens, &index, items)
}

/// The types of a file by their numbers, with those of expressions and declarations.
fn numbered(
    alloc: Global,
    source: &[u8],
    tokens: &[Token],
    items: &[Item],
    file: &File,
    expressions: &[CType],
    declarations: &[CType],
) -> Result<Numbering, NoMemory>
    requires few_tags { length (file.now).tags < 2 ^ 32 }
    requires few_functions { length (file.now).functions < 2 ^ 32 }
    ensures { IfOk result (λ n. IsNumbering expressions.now declarations.now file.now
        (scopes.after_items (text_at source.now tokens.now) (file.now).tags scopes.nothing_before items.now).globals
        (map (λ (f : Function). checked.slots_in
        (text_at source.now tokens.now) file.now scopes.nothing_before f.name items.now) (file.now).functions) n) }
{
    let locals = locals_of(alloc, source, tokens, file, items)?;
    let before = behind_all(alloc, source, tokens, &file.tags, items)?;
    number_types(
        alloc,
        expressions,
        declarations,
        file,
        before.globals(),
        locals.as_slice(),
    )
}

/// The types of a well typed program by their numbers.
fn types_by_number(
    alloc: Global,
    source: &[u8],
    tokens: &[Token],
    items: &[Item],
    file: &File,
    notes: &[Note],
    said: &[Said],
) -> Result<Numbering, NoMemory>
    requires told { Tells 0 notes.now said.now }
    requires files { file.now ≡ scopes.file_of (text_at source.now tokens.now) items.now }
    requires said { notes.now ≡ faults.notes_in (text_at source.now tokens.now) items.now }
    requires well_typed { faults.WellTyped (text_at source.now tokens.now) items.now }
    requires few_tags { length (file.now).tags < 2 ^ 32 }
    requires few_functions { length (file.now).functions < 2 ^ 32 }
    ensures { IfOk result (λ n. AreCheckedTypes (text_at source.now tokens.now) items.now
        (checked.expression_types (text_at source.now tokens.now) items.now) n) }
{
    let expressions = expression_types(alloc, items, notes, said)?;
    let declarations = declared_types(alloc, notes)?;
    numbered(
        alloc,
        source,
        tokens,
        items,
        file,
        expressions.as_slice(),
        declarations.as_slice(),
    )
}

/// The checked program of a well typed one, to test the function with this number.
pub fn resolved(
    alloc: Global,
    source: &[u8],
    tokens: &[Token],
    program: Program,
    reading: Reading,
    entry: u32,
) -> Result<Checked, NoMemory>
    requires read { AreRead (text_at source.now tokens.now) tokens.now (program).items (reading).file (reading).notes
        (reading).sites }
    requires well_typed { faults.WellTyped (text_at source.now tokens.now) (program).items }
    requires few_tags { length ((reading).file).tags < 2 ^ 32 }
    requires few_functions { length ((reading).file).functions < 2 ^ 32 }
    ensures program { IfOk result (λ c. c.program ≡ program) }
    ensures checked { IfOk result (λ c. (name : scopes.Text)
        → IsTested (text_at source.now tokens.now) (program).items name entry
        → checked.IsChecked (text_at source.now tokens.now) tokens.now name c) }
{
    let Reading { file, notes, sites } = reading;
    let said = gather(alloc, notes.as_slice())?;
    let types = types_by_number(
        alloc,
        source,
        tokens,
        program.items.as_slice(),
        &file,
        notes.as_slice(),
        said.as_slice(),
    )?;
    let names = names(alloc, tokens.len(), said.as_slice())?;
    let lines = lines_of(alloc, tokens)?;
    Ok(Checked {
        program,
        tys: types.tys,
        layouts: types.layouts,
        expr_tys: types.expr_tys,
        names,
        lines,
        sites,
        funcs: types.funcs,
        globals: types.globals,
        entry,
    })
}
