//! What is said of a program's items.

ghost use Rattle.std.specs.Prelude.{◌≡◌, ◌++◌, ◌<◌, ◌^◌, [], false, length, OnOk};
ghost use Rattle.cc_model.specs.Source.{text_at};
ghost use Rattle.cc_model.specs.Scopes as scopes;
ghost use Rattle.cc_model.specs.Faults as faults;
ghost use Rattle.c_rules.specs.Apart.{apart};

use crate::declarators::note_twice;
use crate::sources::Sources;
use crate::view::View;
use c_names::Preceding;
use c_scopes::before::pass;
use c_scopes::file_names::file_names;
use cc_model::Token;
use cc_model::base::NoMemory;
use cc_model::trees::{Func, Item, ProtoParam, ResultType};
use cc_model::typing::{File, Note, Wrong};
use sqlite_items::Items;
use std::alloc::Global;

impl View<'_> {
    /// Notes a tag that no struct of the file has.
    fn note_unknown_tag(&self, tag: u32, notes: &mut Items<Note>) -> Result<(), NoMemory>
        ensures { OnOk result (notes.new ≡ notes.old
            ++ faults.unknown_tag (text_at self.now.source.now self.now.tokens.now) self.now.file.now
            (scopes.tag_in ((text_at self.now.source.now self.now.tokens.now) tag) self.now.file.now.tags) tag) }
    {
        match self.tag_of(tag) {
            Some(_) => {}
            None => notes.push(Note::Fault(Wrong::Unknown, tag))?,
        }
        Ok(())
    }

    /// A typedef of a struct's tag.
    fn alias(&self, tag: u32, name: u32, notes: &mut Items<Note>) -> Result<(), NoMemory>
        ensures { OnOk result (notes.new ≡ notes.old
            ++ (faults.unknown_tag (text_at self.now.source.now self.now.tokens.now) self.now.file.now
            (scopes.tag_in ((text_at self.now.source.now self.now.tokens.now) tag) self.now.file.now.tags) tag
            ++ faults.twice_if (scopes.is_taken self.now.before.now
            ((text_at self.now.source.now self.now.tokens.now) name)) name)) }
    {
        self.note_unknown_tag(tag, notes)?;
        note_twice(self.is_taken(name), name, notes)
    }

    /// Whether a function of that name has a body before.
    fn has_body(&self, name: u32) -> bool
        ensures { result ≡ scopes.has_name ((text_at self.now.source.now self.now.tokens.now) name)
            self.now.before.now.bodies }
    {
        self.before.has_body(self.text(name))
    }

    /// A function with a body.
    fn func(&self, function: &Func, notes: &mut Items<Note>) -> Result<(), NoMemory>
        ensures { OnOk result (notes.new ≡ notes.old
            ++ faults.func_notes (text_at self.now.source.now self.now.tokens.now) self.now.file.now
            (faults.part_of (text_at self.now.source.now self.now.tokens.now) self.now.file.now) self.now.before.now
            function.now) }
    {
        let declared = self.function_of(function)?;
        let again = self.has_body(function.name);
        self.note_function(function.name, function.result, &declared, again, notes)?;
        self.body(function, &declared.result, notes)
    }

    /// A prototype.
    fn prototype(
        &self,
        gives: ResultType,
        name: u32,
        params: &[ProtoParam],
        notes: &mut Items<Note>,
    ) -> Result<(), NoMemory>
        ensures { OnOk result (notes.new ≡ notes.old
            ++ (faults.function_notes (text_at self.now.source.now self.now.tokens.now) self.now.file.now
            self.now.before.now name gives (faults.prototype_of
            (text_at self.now.source.now self.now.tokens.now) self.now.file.now self.now.before.now gives name
            params.now) false ++ faults.protos_notes
            (text_at self.now.source.now self.now.tokens.now) self.now.file.now self.now.before.now name
            [] params.now)) }
    {
        let declared = self.prototype_of(gives, name, params)?;
        self.note_function(name, gives, &declared, false, notes)?;
        self.protos(name, params, notes)
    }

    /// An item that is no line of globals.
    fn item(&self, item: &Item, notes: &mut Items<Note>) -> Result<(), NoMemory>
        ensures { OnOk result (notes.new ≡ notes.old
            ++ apart (text_at self.now.source.now self.now.tokens.now) self.now.file.now self.now.before.now item.now) }
    {
        match item {
            Item::Alias(tag, name) => self.alias(*tag, *name, notes),
            Item::Struct(def) => self.struct_def(def, notes),
            Item::Globals(..) => Ok(()),
            Item::Func(function) => self.func(function, notes),
            Item::Prototype(gives, name, params) => {
                self.prototype(*gives, *name, params.as_slice(), notes)
            }
        }
    }
}

impl Sources<'_> {
    /// An item, and what stands behind it.
    fn item(
        &self,
        item: &Item,
        before: &mut Preceding,
        notes: &mut Items<Note>,
    ) -> Result<(), NoMemory>
        ensures notes { OnOk result (notes.new
            ≡ notes.old ++ faults.item_notes (text_at self.now.source.now self.now.tokens.now) self.now.file.now
            (faults.part_of (text_at self.now.source.now self.now.tokens.now) self.now.file.now) before.old item.now) }
        ensures before { OnOk result (before.new
            ≡ scopes.after_item (text_at self.now.source.now self.now.tokens.now) self.now.file.now.tags before.old
            item.now) }
    {
        if let Item::Globals(base, parts) = item {
            return self.globals(*base, parts.as_slice(), before, notes);
        }
        let view = View {
            alloc: self.alloc,
            source: self.source,
            tokens: self.tokens,
            file: self.file,
            names: self.names,
            before: &*before,
            scopes: &[],
        };
        view.item(item, notes)?;
        pass(
            self.alloc,
            self.source,
            self.tokens,
            self.tags(),
            before,
            item,
        )
    }

    /// The items of a file.
    fn items(&self, items: &[Item], notes: &mut Items<Note>) -> Result<(), NoMemory>
        ensures { OnOk result (notes.new ≡ notes.old
            ++ faults.items_notes (text_at self.now.source.now self.now.tokens.now) self.now.file.now
            (faults.part_of (text_at self.now.source.now self.now.tokens.now) self.now.file.now) scopes.nothing_before
            items.now) }
    {
        let mut before = Preceding::nothing(self.alloc);
        for item in items {
            self.item(item, &mut before, notes)?;
        }
        Ok(())
    }
}

/// What is said of a program's items.
pub fn items(
    alloc: Global,
    source: &[u8],
    tokens: &[Token],
    file: &File,
    items: &[Item],
    notes: &mut Items<Note>,
) -> Result<(), NoMemory>
    requires few_tags { length (file.now).tags < 2 ^ 32 }
    requires few_functions { length (file.now).functions < 2 ^ 32 }
    ensures { OnOk result (notes.new ≡ notes.old
        ++ faults.items_notes (text_at source.now tokens.now) file.now
        (faults.part_of (text_at source.now tokens.now) file.now) scopes.nothing_before items.now) }
{
    let names = file_names(alloc, file)?;
    let sources = Sources {
        alloc,
        source,
        tokens,
        file,
        names: &names,
    };
    sources.items(items, notes)
}
