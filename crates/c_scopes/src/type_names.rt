//! What the names of types mean in a file.

ghost use Rattle.std.specs.Prelude.{◌≡◌, ◌<◌, ◌^◌, [], length, map, nat_abs, IfOk, OnOk};
ghost use Rattle.cc_model.specs.declared.trees.Length.{Length as ArrayLength};
ghost use Rattle.std.specs.Option.{option_map, option_and_then};
ghost use Rattle.cc_model.specs.declared.typing.BaseType.TheVariants.{Struct};
ghost use Rattle.cc_model.specs.declared.typing.Alias.{Alias as TypeAlias};
ghost use Rattle.cc_model.specs.Source.{text_at};
ghost use Rattle.cc_model.specs.Scopes as scopes;

use crate::names::{cut, tag_in};
use crate::types::void_type;
use c_names::{Preceding, TagIndex};
use cc_model::Token;
use cc_model::base::NoMemory;
use cc_model::trees::{Base, Declarator, Length, ResultType, TypeName};
use cc_model::typing::{BaseType, CType, Text};
use sqlite_items::{Items, at};
use std::alloc::Global;

/// What the names of types hang on: a file's source and tokens, and the tags of the structs that it defines.
#[derive(Clone, Copy)]
pub struct TypeNames<'a> {
    pub alloc: Global,
    pub source: &'a [u8],
    pub tokens: &'a [Token],
    pub tags: &'a TagIndex,
    ghost few_tags: { length tags.now < 2 ^ 32 },
}

/// The number in 32 bits. No memory holds a source that has a larger one.
pub fn narrow(number: usize) -> Result<u32, NoMemory>
    ensures value { IfOk result (λ n. n ≡ number) }
    ensures few { OnOk result (number < 2 ^ 32) }
{
    if number < 4294967296 {
        Ok(number as u32)
    } else {
        Err(NoMemory)
    }
}

/// The text of a token.
#[tactic(auto, unfolding(cc_model::specs::Lexical::text_of))]
pub fn token_text<'a>(source: &'a [u8], tokens: &[Token], t: u32) -> &'a [u8]
    ensures { result.now ≡ text_at source.now tokens.now t }
{
    match at(tokens, t as usize) {
        Some(token) => cut(source, token.start as usize, token.end as usize),
        None => &[],
    }
}

/// The text of a token, once more.
pub fn copy_text(alloc: Global, source: &[u8], tokens: &[Token], t: u32) -> Result<Text, NoMemory>
    ensures { IfOk result (λ l. l ≡ text_at source.now tokens.now t) }
{
    Ok(Items::from_slice(alloc, token_text(source, tokens, t))?)
}

/// The base of a struct's number.
fn struct_base(number: Option<u32>) -> Option<BaseType>
    ensures { result ≡ option_map Struct number }
{
    match number {
        Some(number) => Some(BaseType::Struct(number)),
        None => None,
    }
}

/// The lengths of an array, as numbers.
fn lengths_of(alloc: Global, lengths: &[Length]) -> Result<Items<u32>, NoMemory>
    ensures { IfOk result (λ l. l ≡ map (λ (n : ArrayLength). nat_abs n.value) lengths.now) }
{
    let mut numbers = Items::new(alloc);
    for length in lengths {
        numbers.push(length.value.unsigned_abs())?;
    }
    Ok(numbers)
}

impl TypeNames<'_> {
    /// The text of a name, to keep.
    pub fn name(&self, t: u32) -> Result<Text, NoMemory>
        ensures { IfOk result (λ l. l ≡ text_at self.now.source.now self.now.tokens.now t) }
    {
        copy_text(self.alloc, self.source, self.tokens, t)
    }

    /// The number of the struct of a tag.
    pub fn tag(&self, t: u32) -> Option<u32>
        ensures { result ≡ scopes.tag_in (text_at self.now.source.now self.now.tokens.now t) self.now.tags.now }
    {
        let name = token_text(self.source, self.tokens, t);
        tag_in(name, self.tags)
    }

    /// What the name of a typedef means.
    fn alias(&self, before: &Preceding, t: u32) -> Option<BaseType>
        ensures { result ≡ option_and_then (λ (a : TypeAlias). option_map Struct a.number)
            (scopes.alias_in (text_at self.now.source.now self.now.tokens.now t) before.now.aliases) }
    {
        let name = token_text(self.source, self.tokens, t);
        match before.alias(name) {
            Some(alias) => struct_base(alias.number),
            None => None,
        }
    }

    /// What the name of a type means.
    fn base_named(&self, before: &Preceding, base: Base) -> Option<BaseType>
        ensures { result ≡ scopes.base_named
            (text_at self.now.source.now self.now.tokens.now) self.now.tags.now before.now base }
    {
        match base {
            Base::Int => Some(BaseType::Int),
            Base::Struct(tag) => struct_base(self.tag(tag)),
            Base::Alias(name) => self.alias(before, name),
        }
    }

    /// The type that a name and stars say.
    pub fn type_named(&self, before: &Preceding, name: TypeName) -> Option<CType>
        ensures { result ≡ scopes.type_named
            (text_at self.now.source.now self.now.tokens.now) self.now.tags.now before.now name }
    {
        match self.base_named(before, name.base) {
            Some(base) => Some(CType {
                base,
                stars: name.stars,
                lengths: Items::new(self.alloc),
            }),
            None => None,
        }
    }

    /// Whether a type's struct is defined before.
    fn is_complete(&self, before: &Preceding, stars: u32, base: BaseType) -> bool
        ensures { result ≡ scopes.is_complete
            (text_at self.now.source.now self.now.tokens.now) self.now.tags.now before.now stars base }
    {
        if stars > 0 {
            return true;
        }
        match base {
            BaseType::Struct(number) => number < before.structs(),
            BaseType::Int | BaseType::Void => true,
        }
    }

    /// The type of an object: a struct has to be defined before.
    pub fn object_type(
        &self,
        before: &Preceding,
        base: Base,
        stars: u32,
        lengths: Items<u32>,
    ) -> Option<CType>
        ensures { result ≡ scopes.object_type
            (text_at self.now.source.now self.now.tokens.now) self.now.tags.now before.now base stars lengths }
    {
        let base = match self.base_named(before, base) {
            Some(base) => base,
            None => return None,
        };
        if !self.is_complete(before, stars, base) {
            return None;
        }
        Some(CType {
            base,
            stars,
            lengths,
        })
    }

    /// The type of a declarator.
    pub fn declared_type(
        &self,
        before: &Preceding,
        base: Base,
        declarator: &Declarator,
    ) -> Result<Option<CType>, NoMemory>
        ensures { IfOk result (λ t. t ≡ scopes.declared_type
            (text_at self.now.source.now self.now.tokens.now) self.now.tags.now before.now base declarator.now) }
    {
        let lengths = lengths_of(self.alloc, declarator.lengths.as_slice())?;
        Ok(self.object_type(before, base, declarator.stars, lengths))
    }

    /// The type of a result.
    pub fn result_type(&self, before: &Preceding, gives: ResultType) -> Option<CType>
        ensures { result ≡ scopes.result_type
            (text_at self.now.source.now self.now.tokens.now) self.now.tags.now before.now gives }
    {
        match gives {
            ResultType::Void => Some(void_type(self.alloc)),
            ResultType::Value(name) => self.type_named(before, name),
        }
    }

    /// The type of a parameter.
    pub fn param_type(&self, before: &Preceding, name: TypeName) -> Option<CType>
        ensures { result ≡ scopes.param_type
            (text_at self.now.source.now self.now.tokens.now) self.now.tags.now before.now name }
    {
        self.object_type(before, name.base, name.stars, Items::new(self.alloc))
    }
}
