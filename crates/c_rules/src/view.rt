//! What a checker sees at a place, and what names and types mean there.

ghost use Rattle.std.specs.Prelude.{◌≡◌, ◌<◌, ◌^◌, ◌++◌, [], length, map, OnOk, IfOk, IfSome};
ghost use Rattle.std.specs.Option.{option_copied};
ghost use Rattle.cc_model.specs.declared.typing.Function.{Function as DeclaredFunction};
ghost use Rattle.cc_model.specs.Source.{text_at};
ghost use Rattle.cc_model.specs.Scopes as scopes;
ghost use Rattle.cc_model.specs.Typing as typing;
ghost use Rattle.cc_model.specs.Faults as faults;
ghost use Rattle.c_scopes.specs.FileNames.{is_whole, member_names, offsets_in};
ghost use Rattle.c_rules.specs.Views.{seen};

use c_names::{Named, Preceding};
use c_scopes::file_names::FileNames;
use c_scopes::names::variable_in_scopes;
use c_scopes::type_names::{TypeNames, token_text};
use cc_model::Token;
use cc_model::base::NoMemory;
use cc_model::trees::{Base, Declarator, Func, ProtoParam, ResultType, TypeName};
use cc_model::typing::{CType, File, Function, Variable};
use sqlite_items::Items;
use std::alloc::Global;

/// A place of a file: its source and tokens, what the file declares, what stands before the place, and the variables of
/// each scope around, the innermost scope last.
#[derive(Clone, Copy)]
pub struct View<'a> {
    pub alloc: Global,
    pub source: &'a [u8],
    pub tokens: &'a [Token],
    pub file: &'a File,
    pub names: &'a FileNames,
    pub before: &'a Preceding,
    pub scopes: &'a [Named<Variable>],
    ghost few_tags: { length file.now.tags < 2 ^ 32 },
    ghost few_functions: { length file.now.functions < 2 ^ 32 },
    ghost function_names: { names.now.functions ≡ map (λ (f : DeclaredFunction). f.name) file.now.functions },
    ghost body_names: { names.now.bodies ≡ file.now.bodies },
    ghost tag_names: { names.now.tags ≡ file.now.tags },
    ghost whole_functions: { names.now.whole ≡ map is_whole file.now.functions },
    ghost field_names: { names.now.fields ≡ map member_names file.now.structs },
    ghost field_offsets: { names.now.offsets ≡ map (offsets_in file.now.sizes 0) file.now.structs },
}

impl View<'_> {
    /// The text of a name.
    pub fn text(&self, t: u32) -> &[u8]
        ensures { result.now ≡ text_at self.now.source.now self.now.tokens.now t }
    {
        token_text(self.source, self.tokens, t)
    }

    /// The variable that a name means.
    pub fn variable(&self, t: u32) -> Option<&Variable>
        ensures { option_copied result ≡ scopes.variable_named
            (seen self.now.file.now self.now.before.now self.now.scopes.now)
            (text_at self.now.source.now self.now.tokens.now t) }
    {
        let name = self.text(t);
        match variable_in_scopes(name, self.scopes) {
            Some(variable) => Some(variable),
            None => self.before.global(name),
        }
    }

    /// Where the function of that name stands among those of the file.
    fn function_place(&self, name: &[u8]) -> Option<usize>
        ensures value { result ≡ scopes.function_in name.now self.now.file.now.functions }
        ensures within { IfSome result (λ n. n < length self.now.file.now.functions) }
    {
        self.names.functions.position(name)
    }

    /// The number of the function of that name.
    pub fn function_named(&self, name: &[u8]) -> Option<u32>
        ensures { result ≡ scopes.function_in name.now self.now.file.now.functions }
    {
        match self.function_place(name) {
            Some(number) => Some(number as u32),
            None => None,
        }
    }

    /// The function with a body that a name means.
    pub fn callee(&self, t: u32) -> Option<u32>
        ensures { result ≡ typing.callee (text_at self.now.source.now self.now.tokens.now)
            (seen self.now.file.now self.now.before.now self.now.scopes.now) t }
    {
        let name = self.text(t);
        if !self.names.bodies.has(name) {
            return None;
        }
        match variable_in_scopes(name, self.scopes) {
            Some(_) => None,
            None => self.function_named(name),
        }
    }

    /// What the names of types hang on.
    pub fn type_names(&self) -> TypeNames<'_>
        ensures source { result.source.now ≡ self.now.source.now }
        ensures tokens { result.tokens.now ≡ self.now.tokens.now }
        ensures tags { result.tags.now ≡ self.now.file.now.tags }
    {
        TypeNames {
            alloc: self.alloc,
            source: self.source,
            tokens: self.tokens,
            tags: &self.names.tags,
        }
    }

    /// The type that a name and stars say.
    pub fn type_named(&self, name: TypeName) -> Option<CType>
        ensures { result ≡ scopes.type_named
            (text_at self.now.source.now self.now.tokens.now) self.now.file.now.tags self.now.before.now name }
    {
        self.type_names().type_named(self.before, name)
    }

    /// The type of an object: a struct has to be defined before.
    pub fn object_type(&self, base: Base, stars: u32, lengths: Items<u32>) -> Option<CType>
        ensures { result ≡ scopes.object_type
            (text_at self.now.source.now self.now.tokens.now) self.now.file.now.tags self.now.before.now base stars
            lengths }
    {
        self.type_names()
            .object_type(self.before, base, stars, lengths)
    }

    /// The type of a declarator.
    pub fn declared_type(
        &self,
        base: Base,
        declarator: &Declarator,
    ) -> Result<Option<CType>, NoMemory>
        ensures { IfOk result (λ t. t ≡ scopes.declared_type
            (text_at self.now.source.now self.now.tokens.now) self.now.file.now.tags self.now.before.now base
            declarator.now) }
    {
        self.type_names()
            .declared_type(self.before, base, declarator)
    }

    /// The type of a result.
    pub fn result_type(&self, gives: ResultType) -> Option<CType>
        ensures { result ≡ scopes.result_type
            (text_at self.now.source.now self.now.tokens.now) self.now.file.now.tags self.now.before.now gives }
    {
        self.type_names().result_type(self.before, gives)
    }

    /// The type of a parameter.
    pub fn param_type(&self, name: TypeName) -> Option<CType>
        ensures { result ≡ scopes.param_type
            (text_at self.now.source.now self.now.tokens.now) self.now.file.now.tags self.now.before.now name }
    {
        self.type_names().param_type(self.before, name)
    }
    /// A function with a body, as it is declared there.
    pub fn function_of(&self, function: &Func) -> Result<Function, NoMemory>
        ensures { IfOk result (λ f. f ≡ faults.function_of
            (text_at self.now.source.now self.now.tokens.now) self.now.file.now self.now.before.now function.now) }
    {
        self.type_names().function_of(self.before, function)
    }

    /// The function that a prototype declares.
    pub fn prototype_of(
        &self,
        gives: ResultType,
        name: u32,
        params: &[ProtoParam],
    ) -> Result<Function, NoMemory>
        ensures { IfOk result (λ f. f ≡ faults.prototype_of
            (text_at self.now.source.now self.now.tokens.now) self.now.file.now self.now.before.now gives name
            params.now) }
    {
        self.type_names()
            .prototype_of(self.before, gives, name, params)
    }
}
