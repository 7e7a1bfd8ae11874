//! What a file declares.

ghost use Rattle.std.specs.Prelude.{◌≡◌, ◌++◌, ◌∷◌, ◌<◌, ◌^◌, [], length, map, OnOk, IfOk};
ghost use Rattle.std.specs.Option.{option_map};
ghost use Rattle.cc_model.specs.declared.trees.Item.TheVariants as some_item;
ghost use Rattle.cc_model.specs.Source.{text_at};
ghost use Rattle.cc_model.specs.Scopes as scopes;

use crate::file_names::tag_index;
use crate::sizes::fields_size;
use crate::type_names::{TypeNames, copy_text, narrow};
use c_names::{Preceding, TagIndex};
use cc_model::Token;
use cc_model::base::NoMemory;
use cc_model::trees::{Item, StructDef};
use cc_model::typing::{File, Function, Member, Text};
use sqlite_items::Items;
use std::alloc::Global;

/// A struct's tag, where it has one.
fn tag_if(
    alloc: Global,
    source: &[u8],
    tokens: &[Token],
    tag: Option<u32>,
) -> Result<Option<Text>, NoMemory>
    ensures { IfOk result (λ t. t ≡ option_map (text_at source.now tokens.now) tag) }
{
    match tag {
        Some(tag) => Ok(Some(copy_text(alloc, source, tokens, tag)?)),
        None => Ok(None),
    }
}

/// Adds a struct's tag.
fn add_struct_tag(
    alloc: Global,
    source: &[u8],
    tokens: &[Token],
    definition: &StructDef,
    tags: &mut Items<Option<Text>>,
) -> Result<(), NoMemory>
    ensures { OnOk result (tags.new ≡ tags.old
        ++ scopes.tags_of (text_at source.now tokens.now) (some_item.Struct definition.now ∷ [])) }
{
    match definition {
        StructDef::Tagged(tag, _) => {
            let tag = copy_text(alloc, source, tokens, *tag)?;
            tags.push(Some(tag))?;
        }
        StructDef::Named(tag, _, _) => {
            let tag = tag_if(alloc, source, tokens, *tag)?;
            tags.push(tag)?;
        }
    }
    Ok(())
}

/// Adds the tag of the struct that an item defines.
fn add_tag(
    alloc: Global,
    source: &[u8],
    tokens: &[Token],
    item: &Item,
    tags: &mut Items<Option<Text>>,
) -> Result<(), NoMemory>
    ensures { OnOk result (tags.new ≡ tags.old ++ scopes.tags_of (text_at source.now tokens.now) (item.now ∷ [])) }
{
    match item {
        Item::Struct(definition) => add_struct_tag(alloc, source, tokens, definition, tags),
        Item::Alias(_, _) | Item::Globals(_, _) | Item::Func(_) | Item::Prototype(_, _, _) => {
            Ok(())
        }
    }
}

/// The tags of the structs that items define.
fn tags_of(
    alloc: Global,
    source: &[u8],
    tokens: &[Token],
    items: &[Item],
) -> Result<Items<Option<Text>>, NoMemory>
    ensures { IfOk result (λ l. l ≡ scopes.tags_of (text_at source.now tokens.now) items.now) }
{
    let mut tags = Items::new(alloc);
    for item in items {
        add_tag(alloc, source, tokens, item, &mut tags)?;
    }
    Ok(tags)
}

/// The sizes of structs, each of which is made of earlier ones.
fn sizes_of(alloc: Global, structs: &[Items<Member>]) -> Result<Items<u32>, NoMemory>
    ensures { IfOk result (λ l. l ≡ scopes.sizes_after [] structs.now) }
{
    let mut sizes = Items::new(alloc);
    for members in structs {
        let size = fields_size(sizes.as_slice(), members.as_slice());
        sizes.push(size)?;
    }
    Ok(sizes)
}

/// What a walk over items gathers.
#[derive(Drop)]
struct Gathered {
    structs: Items<Items<Member>>,
    functions: Items<Function>,
    bodies: Items<Text>,
}

impl TypeNames<'_> {
    /// Adds what an item declares, and stands behind it afterwards.
    fn gather_item(
        &self,
        before: &mut Preceding,
        item: &Item,
        structs: &mut Items<Items<Member>>,
        functions: &mut Items<Function>,
    ) -> Result<(), NoMemory>
        ensures structs { OnOk result (structs.new
            ≡ structs.old ++ scopes.structs_in (text_at self.now.source.now self.now.tokens.now) self.now.tags.now
            before.old (item.now ∷ [])) }
        ensures functions { OnOk result (functions.new
            ≡ functions.old ++ scopes.functions_in
            (text_at self.now.source.now self.now.tokens.now) self.now.tags.now before.old (item.now ∷ [])) }
        ensures before { OnOk result (before.new
            ≡ scopes.after_item (text_at self.now.source.now self.now.tokens.now) self.now.tags.now before.old
            item.now) }
    {
        self.add_struct(&*before, item, structs)?;
        self.add_function(&*before, item, functions)?;
        self.pass(before, item)
    }

    /// What items declare.
    fn gather_all(&self, items: &[Item]) -> Result<Gathered, NoMemory>
        ensures bodies { IfOk result (λ g. g.bodies ≡ (scopes.after_items
            (text_at self.now.source.now self.now.tokens.now) self.now.tags.now scopes.nothing_before
            items.now).bodies) }
        ensures structs { IfOk result (λ g. g.structs ≡ scopes.structs_in
            (text_at self.now.source.now self.now.tokens.now) self.now.tags.now scopes.nothing_before items.now) }
        ensures functions { IfOk result (λ g. g.functions ≡ scopes.functions_in
            (text_at self.now.source.now self.now.tokens.now) self.now.tags.now scopes.nothing_before items.now) }
    {
        let mut before = Preceding::nothing(self.alloc);
        let mut structs = Items::new(self.alloc);
        let mut functions = Items::new(self.alloc);
        for item in items {
            self.gather_item(&mut before, item, &mut structs, &mut functions)?;
        }
        Ok(Gathered {
            structs,
            functions,
            bodies: before.into_bodies(),
        })
    }
}

/// What items declare, where their structs have these tags.
fn walk(
    alloc: Global,
    source: &[u8],
    tokens: &[Token],
    tags: &TagIndex,
    items: &[Item],
) -> Result<Gathered, NoMemory>
    ensures bodies { IfOk result (λ g. g.bodies
        ≡ (scopes.after_items (text_at source.now tokens.now) tags.now scopes.nothing_before items.now).bodies) }
    ensures structs { IfOk result (λ g. g.structs
        ≡ scopes.structs_in (text_at source.now tokens.now) tags.now scopes.nothing_before items.now) }
    ensures functions { IfOk result (λ g. g.functions
        ≡ scopes.functions_in (text_at source.now tokens.now) tags.now scopes.nothing_before items.now) }
    ensures few_tags { OnOk result (length tags.now < 2 ^ 32) }
{
    narrow(tags.as_slice().len())?;
    let names = TypeNames {
        alloc,
        source,
        tokens,
        tags,
    };
    names.gather_all(items)
}

/// What items declare, where their structs have these tags.
fn gather(
    alloc: Global,
    source: &[u8],
    tokens: &[Token],
    tags: &[Option<Text>],
    items: &[Item],
) -> Result<Gathered, NoMemory>
    ensures bodies { IfOk result (λ g. g.bodies
        ≡ (scopes.after_items (text_at source.now tokens.now) tags.now scopes.nothing_before items.now).bodies) }
    ensures structs { IfOk result (λ g. g.structs
        ≡ scopes.structs_in (text_at source.now tokens.now) tags.now scopes.nothing_before items.now) }
    ensures functions { IfOk result (λ g. g.functions
        ≡ scopes.functions_in (text_at source.now tokens.now) tags.now scopes.nothing_before items.now) }
    ensures few_tags { OnOk result (length tags.now < 2 ^ 32) }
{
    let index = tag_index(alloc, tags)?;
    walk(alloc, source, tokens, &index, items)
}

/// What a file declares. No memory, too, where it declares 2^32 tags or functions, which no source does.
pub fn file_of(
    alloc: Global,
    source: &[u8],
    tokens: &[Token],
    items: &[Item],
) -> Result<File, NoMemory>
    ensures file { IfOk result (λ f. f ≡ scopes.file_of (text_at source.now tokens.now) items.now) }
    ensures few_tags { IfOk result (λ f. length f.tags < 2 ^ 32) }
    ensures few_functions { IfOk result (λ f. length f.functions < 2 ^ 32) }
{
    let tags = tags_of(alloc, source, tokens, items)?;
    let Gathered {
        structs,
        functions,
        bodies,
    } = gather(alloc, source, tokens, tags.as_slice(), items)?;
    narrow(functions.len())?;
    let sizes = sizes_of(alloc, structs.as_slice())?;
    Ok(File {
        tags,
        structs,
        sizes,
        functions,
        bodies,
    })
}
