//! What stands before a place of a file.

ghost use Rattle.std.specs.Prelude.{◌≡◌, ◌++◌, ◌∷◌, [], OnOk, IfOk};
ghost use Rattle.cc_model.specs.declared.trees.Item.TheVariants as some_item;
ghost use Rattle.cc_model.specs.Source.{text_at};
ghost use Rattle.cc_model.specs.Scopes as scopes;

use crate::type_names::{TypeNames, narrow, token_text};
use c_names::{Preceding, TagIndex};
use cc_model::base::NoMemory;
use cc_model::trees::{Base, Func, GlobalPart, Item, StructDef};
use cc_model::typing::{Alias, Variable};
use cc_model::{Target, Token};
use std::alloc::Global;

/// What stands behind an item.
pub fn pass(
    alloc: Global,
    source: &[u8],
    tokens: &[Token],
    tags: &TagIndex,
    before: &mut Preceding,
    item: &Item,
) -> Result<(), NoMemory>
    ensures { OnOk result (before.new ≡ scopes.after_item
        (text_at source.now tokens.now) tags.now before.old item.now) }
{
    narrow(tags.as_slice().len())?;
    let names = TypeNames {
        alloc,
        source,
        tokens,
        tags,
    };
    names.pass(before, item)
}

/// What stands behind a declarator of a global.
pub fn pass_global(
    alloc: Global,
    source: &[u8],
    tokens: &[Token],
    tags: &TagIndex,
    before: &mut Preceding,
    base: Base,
    part: &GlobalPart,
) -> Result<(), NoMemory>
    ensures { OnOk result (before.new ≡ scopes.after_global
        (text_at source.now tokens.now) tags.now before.old base part.now) }
{
    narrow(tags.as_slice().len())?;
    let names = TypeNames {
        alloc,
        source,
        tokens,
        tags,
    };
    names.pass_global(before, base, part)
}

impl TypeNames<'_> {
    /// Adds a typedef's name.
    fn pass_alias(
        &self,
        before: &mut Preceding,
        name: u32,
        number: Option<u32>,
    ) -> Result<(), NoMemory>
        ensures { OnOk result (before.new ≡ scopes.with_alias
            (text_at self.now.source.now self.now.tokens.now) self.now.tags.now before.old
            (text_at self.now.source.now self.now.tokens.now name) number) }
    {
        let name = self.name(name)?;
        before.add_alias(Alias { name, number })
    }

    /// What stands behind the definition of a struct.
    fn pass_struct(&self, before: &mut Preceding, definition: &StructDef) -> Result<(), NoMemory>
        ensures { OnOk result (before.new ≡ scopes.after_item
            (text_at self.now.source.now self.now.tokens.now) self.now.tags.now before.old
            (some_item.Struct definition.now)) }
    {
        let number = before.structs();
        before.add_struct()?;
        match definition {
            StructDef::Tagged(_, _) => Ok(()),
            StructDef::Named(_, _, name) => self.pass_alias(before, *name, Some(number)),
        }
    }

    /// A global. The globals are numbered in order of declarator.
    fn global(
        &self,
        before: &Preceding,
        base: Base,
        part: &GlobalPart,
    ) -> Result<Variable, NoMemory>
        ensures { IfOk result (λ v. v ≡ scopes.global_of
            (text_at self.now.source.now self.now.tokens.now) self.now.tags.now before.now base part.now) }
    {
        let name = self.name(part.declarator.name)?;
        let ty = self.declared_type(before, base, &part.declarator)?;
        let number = narrow(before.globals().len())?;
        Ok(Variable {
            name,
            ty,
            target: Target::Global(number),
        })
    }

    /// What stands behind a declarator of a global.
    fn pass_global(
        &self,
        before: &mut Preceding,
        base: Base,
        part: &GlobalPart,
    ) -> Result<(), NoMemory>
        ensures { OnOk result (before.new ≡ scopes.after_global
            (text_at self.now.source.now self.now.tokens.now) self.now.tags.now before.old base part.now) }
    {
        let global = self.global(before, base, part)?;
        before.add_global(global)
    }

    /// What stands behind the declarators of globals.
    fn pass_globals(
        &self,
        before: &mut Preceding,
        base: Base,
        parts: &[GlobalPart],
    ) -> Result<(), NoMemory>
        ensures { OnOk result (before.new ≡ scopes.after_globals
            (text_at self.now.source.now self.now.tokens.now) self.now.tags.now before.old base parts.now) }
    {
        for part in parts {
            self.pass_global(before, base, part)?;
        }
        Ok(())
    }

    /// Adds the name of a declared function.
    fn pass_name(&self, before: &mut Preceding, name: u32) -> Result<(), NoMemory>
        ensures { OnOk result (before.new ≡ record before.old {
          functions = before.old.functions
              ++ text_at self.now.source.now self.now.tokens.now name ∷ [];
        }) }
    {
        before.add_function(token_text(self.source, self.tokens, name))
    }

    /// What stands behind a function with a body.
    fn pass_function(&self, before: &mut Preceding, function: &Func) -> Result<(), NoMemory>
        ensures { OnOk result (before.new ≡ scopes.after_item
            (text_at self.now.source.now self.now.tokens.now) self.now.tags.now before.old
            (some_item.Func function.now)) }
    {
        self.pass_name(before, function.name)?;
        before.add_body(token_text(self.source, self.tokens, function.name))
    }

    /// What stands behind an item.
    pub fn pass(&self, before: &mut Preceding, item: &Item) -> Result<(), NoMemory>
        ensures { OnOk result (before.new ≡ scopes.after_item
            (text_at self.now.source.now self.now.tokens.now) self.now.tags.now before.old item.now) }
    {
        match item {
            Item::Alias(tag, name) => {
                let number = self.tag(*tag);
                self.pass_alias(before, *name, number)
            }
            Item::Struct(definition) => self.pass_struct(before, definition),
            Item::Globals(base, parts) => self.pass_globals(before, *base, parts.as_slice()),
            Item::Func(function) => self.pass_function(before, function),
            Item::Prototype(_, name, _) => self.pass_name(before, *name),
        }
    }
}
