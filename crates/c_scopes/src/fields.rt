//! The structs that a file declares.

ghost use Rattle.std.specs.Prelude.{◌≡◌, ◌++◌, ◌∷◌, [], map, OnOk, IfOk};
ghost use Rattle.cc_model.specs.declared.trees.Item.TheVariants as some_item;
ghost use Rattle.cc_model.specs.Source.{text_at};
ghost use Rattle.cc_model.specs.Scopes as scopes;

use crate::type_names::TypeNames;
use c_names::Preceding;
use cc_model::base::NoMemory;
use cc_model::trees::{Base, Declarator, Field, Item, StructDef};
use cc_model::typing::Member;
use sqlite_items::Items;

impl TypeNames<'_> {
    /// A field.
    fn field(
        &self,
        before: &Preceding,
        base: Base,
        declarator: &Declarator,
    ) -> Result<Member, NoMemory>
        ensures { IfOk result (λ m. m ≡ scopes.field_of
            (text_at self.now.source.now self.now.tokens.now) self.now.tags.now before.now base declarator.now) }
    {
        let name = self.name(declarator.name)?;
        let ty = self.declared_type(before, base, declarator)?;
        Ok(Member { name, ty })
    }

    /// Adds the fields of a line.
    fn add_line(
        &self,
        before: &Preceding,
        base: Base,
        parts: &[Declarator],
        fields: &mut Items<Member>,
    ) -> Result<(), NoMemory>
        ensures { OnOk result (fields.new ≡ fields.old
            ++ map (scopes.field_of (text_at self.now.source.now self.now.tokens.now) self.now.tags.now before.now
            base) parts.now) }
    {
        for declarator in parts {
            let field = self.field(before, base, declarator)?;
            fields.push(field)?;
        }
        Ok(())
    }

    /// The fields of a struct.
    fn fields(&self, before: &Preceding, lines: &[Field]) -> Result<Items<Member>, NoMemory>
        ensures { IfOk result (λ l. l ≡ scopes.fields_of
            (text_at self.now.source.now self.now.tokens.now) self.now.tags.now before.now lines.now) }
    {
        let mut fields = Items::new(self.alloc);
        for line in lines {
            self.add_line(before, line.base, line.parts.as_slice(), &mut fields)?;
        }
        Ok(fields)
    }

    /// Adds the fields of a struct.
    fn add_fields(
        &self,
        before: &Preceding,
        definition: &StructDef,
        structs: &mut Items<Items<Member>>,
    ) -> Result<(), NoMemory>
        ensures { OnOk result (structs.new ≡ structs.old
            ++ scopes.structs_in (text_at self.now.source.now self.now.tokens.now) self.now.tags.now before.now
            (some_item.Struct definition.now ∷ [])) }
    {
        match definition {
            StructDef::Tagged(_, lines) => {
                let fields = self.fields(before, lines.as_slice())?;
                structs.push(fields)?;
            }
            StructDef::Named(_, lines, _) => {
                let fields = self.fields(before, lines.as_slice())?;
                structs.push(fields)?;
            }
        }
        Ok(())
    }

    /// Adds the struct that an item defines.
    pub fn add_struct(
        &self,
        before: &Preceding,
        item: &Item,
        structs: &mut Items<Items<Member>>,
    ) -> Result<(), NoMemory>
        ensures { OnOk result (structs.new ≡ structs.old
            ++ scopes.structs_in (text_at self.now.source.now self.now.tokens.now) self.now.tags.now before.now
            (item.now ∷ [])) }
    {
        match item {
            Item::Struct(definition) => self.add_fields(before, definition, structs),
            Item::Alias(_, _) | Item::Globals(_, _) | Item::Func(_) | Item::Prototype(_, _, _) => {
                Ok(())
            }
        }
    }
}
