//! The types of the locals of a file's functions.

ghost use Rattle.std.specs.Prelude.{◌≡◌, ◌++◌, ◌∷◌, ◌<◌, ◌^◌, [], length, map, find, bytes_eq, OnOk, IfOk};
ghost use Rattle.std.specs.Option.{option_copied};
ghost use Rattle.cc_model.specs.declared.typing.Function.{Function};
ghost use Rattle.cc_model.specs.Source.{text_at};
ghost use Rattle.cc_model.specs.Scopes as scopes;
ghost use Rattle.cc_model.specs.CheckedProgram as checked;
ghost use Rattle.c_rules.specs.declared.locals.Locals.{Locals as BodyLocals};
ghost use Rattle.c_rules.specs.BodyLocals as among;

use crate::sources::Sources;
use crate::view::View;
use c_names::{NameIndex, Preceding};
use c_scopes::before::pass;
use c_scopes::declared::declared_types;
use c_scopes::file_names::file_names;
use c_scopes::type_names::token_text;
use c_scopes::types::copy;
use cc_model::Token;
use cc_model::base::NoMemory;
use cc_model::trees::{Func, Item};
use cc_model::typing::{CType, File};
use sqlite_items::{Items, at};
use std::alloc::Global;

/// A function with a body: the token of its name, and the types of its parameters and then of its declarators.
#[derive(Drop)]
struct Locals {
    name: u32,
    types: Items<CType>,
}

/// The types, once more.
fn copy_all(alloc: Global, types: &[CType]) -> Result<Items<CType>, NoMemory>
    ensures { IfOk result (λ l. l ≡ types.now) }
{
    let mut copies = Items::new(alloc);
    for ty in types {
        copies.push(copy(alloc, ty)?)?;
    }
    Ok(copies)
}

impl Sources<'_> {
    /// The names of functions with a body.
    fn names_of(&self, bodies: &[Locals]) -> Result<NameIndex, NoMemory>
        ensures { IfOk result (λ l. l ≡ map
            (λ (b : BodyLocals). text_at self.now.source.now self.now.tokens.now b.name) bodies.now) }
    {
        let mut names = NameIndex::new(self.alloc);
        for body in bodies {
            names.add(token_text(self.source, self.tokens, body.name))?;
        }
        Ok(names)
    }

    /// The first function of that name with a body; `names` are those of the bodies.
    fn first_named<'a>(
        &self,
        name: &[u8],
        names: &NameIndex,
        bodies: &'a [Locals],
    ) -> Option<&'a Locals>
        requires named { names.now ≡ map (λ
            (b : BodyLocals). text_at self.now.source.now self.now.tokens.now b.name) bodies.now }
        ensures { option_copied result ≡ find
            (λ (b : BodyLocals). bytes_eq (text_at self.now.source.now self.now.tokens.now b.name) name.now)
            bodies.now }
    {
        match names.position(name) {
            Some(place) => at(bodies, place),
            None => None,
        }
    }

    /// The types of the locals of the function of that name; `names` are those of the bodies.
    fn locals_named(
        &self,
        name: &[u8],
        names: &NameIndex,
        bodies: &[Locals],
    ) -> Result<Items<CType>, NoMemory>
        requires named { names.now ≡ map (λ
            (b : BodyLocals). text_at self.now.source.now self.now.tokens.now b.name) bodies.now }
        ensures { IfOk result (λ l. l ≡ among.locals_named
            (text_at self.now.source.now self.now.tokens.now) name.now bodies.now) }
    {
        match self.first_named(name, names, bodies) {
            Some(body) => copy_all(self.alloc, body.types.as_slice()),
            None => Ok(Items::new(self.alloc)),
        }
    }

    /// The types of the locals of each function of the file.
    fn locals_by(&self, bodies: &[Locals]) -> Result<Items<Items<CType>>, NoMemory>
        ensures { IfOk result (λ l. l ≡ map
            (λ (f : Function). among.locals_named
            (text_at self.now.source.now self.now.tokens.now) f.name bodies.now) self.now.file.now.functions) }
    {
        let names = self.names_of(bodies)?;
        let mut locals = Items::new(self.alloc);
        for function in self.file.functions.as_slice() {
            let types = self.locals_named(function.name.as_slice(), &names, bodies)?;
            locals.push(types)?;
        }
        Ok(locals)
    }

    /// The types of the locals of a function with a body.
    fn locals_in(&self, before: &Preceding, function: &Func) -> Result<Items<CType>, NoMemory>
        ensures { IfOk result (λ l. l ≡ checked.declared_types
            (checked.body_notes (text_at self.now.source.now self.now.tokens.now) self.now.file.now before.now
            function.now)) }
    {
        let view = View {
            alloc: self.alloc,
            source: self.source,
            tokens: self.tokens,
            file: self.file,
            names: self.names,
            before,
            scopes: &[],
        };
        let gives = view.result_type(function.result);
        let mut notes = Items::new(self.alloc);
        view.body(function, &gives, &mut notes)?;
        declared_types(self.alloc, notes.as_slice())
    }

    /// Adds the locals of an item that is a function with a body.
    fn add_body(
        &self,
        before: &Preceding,
        item: &Item,
        bodies: &mut Items<Locals>,
    ) -> Result<(), NoMemory>
        ensures { OnOk result (bodies.new ≡ bodies.old
            ++ among.bodies_in (text_at self.now.source.now self.now.tokens.now) self.now.file.now before.now
            (item.now ∷ [])) }
    {
        match item {
            Item::Func(function) => {
                let types = self.locals_in(before, function)?;
                let name = function.name;
                bodies.push(Locals { name, types })?;
                Ok(())
            }
            Item::Alias(..) | Item::Struct(_) | Item::Globals(..) | Item::Prototype(..) => Ok(()),
        }
    }

    /// Adds the locals of an item, and stands behind it afterwards.
    fn pass_body(
        &self,
        before: &mut Preceding,
        item: &Item,
        bodies: &mut Items<Locals>,
    ) -> Result<(), NoMemory>
        ensures bodies { OnOk result (bodies.new
            ≡ bodies.old ++ among.bodies_in (text_at self.now.source.now self.now.tokens.now) self.now.file.now
            before.old (item.now ∷ [])) }
        ensures before { OnOk result (before.new
            ≡ scopes.after_item (text_at self.now.source.now self.now.tokens.now) self.now.file.now.tags before.old
            item.now) }
    {
        self.add_body(&*before, item, bodies)?;
        pass(
            self.alloc,
            self.source,
            self.tokens,
            self.tags(),
            before,
            item,
        )
    }

    /// Adds the functions with a body, in order, and stands behind all items afterwards.
    fn add_bodies(
        &self,
        before: &mut Preceding,
        items: &[Item],
        bodies: &mut Items<Locals>,
    ) -> Result<(), NoMemory>
        ensures { OnOk result (bodies.new
            ≡ bodies.old ++ among.bodies_in (text_at self.now.source.now self.now.tokens.now) self.now.file.now
            before.old items.now) }
    {
        for item in items {
            self.pass_body(before, item, bodies)?;
        }
        Ok(())
    }

    /// The functions with a body, in order.
    fn bodies(&self, items: &[Item]) -> Result<Items<Locals>, NoMemory>
        ensures { IfOk result (λ l. l ≡ among.bodies_in
            (text_at self.now.source.now self.now.tokens.now) self.now.file.now scopes.nothing_before items.now) }
    {
        let mut before = Preceding::nothing(self.alloc);
        let mut bodies = Items::new(self.alloc);
        self.add_bodies(&mut before, items, &mut bodies)?;
        Ok(bodies)
    }

    /// The types of the locals of each function of the file: those of the first body of its name.
    fn locals(&self, items: &[Item]) -> Result<Items<Items<CType>>, NoMemory>
        ensures { IfOk result (λ l. l ≡ map
            (λ (f : Function). checked.slots_in (text_at self.now.source.now self.now.tokens.now) self.now.file.now
            scopes.nothing_before f.name items.now) self.now.file.now.functions) }
    {
        let bodies = self.bodies(items)?;
        self.locals_by(bodies.as_slice())
    }
}

/// The types of the locals of each function of the file, in order of the functions: those of the first body of its
/// name, and none where no body has it.
pub fn locals_of(
    alloc: Global,
    source: &[u8],
    tokens: &[Token],
    file: &File,
    items: &[Item],
) -> Result<Items<Items<CType>>, NoMemory>
    requires few_tags { length (file.now).tags < 2 ^ 32 }
    requires few_functions { length (file.now).functions < 2 ^ 32 }
    ensures { IfOk result (λ l. l ≡ map
        (λ (f : Function). checked.slots_in
        (text_at source.now tokens.now) file.now scopes.nothing_before f.name items.now) (file.now).functions) }
{
    let names = file_names(alloc, file)?;
    let sources = Sources {
        alloc,
        source,
        tokens,
        file,
        names: &names,
    };
    sources.locals(items)
}
