//! The functions that a file declares.

ghost use Rattle.std.specs.Prelude.{◌≡◌, ◌++◌, ◌∷◌, [], OnOk, IfOk};
ghost use Rattle.cc_model.specs.Source.{text_at};
ghost use Rattle.cc_model.specs.Scopes as scopes;

use crate::type_names::TypeNames;
use c_names::Preceding;
use cc_model::base::NoMemory;
use cc_model::trees::{Func, Item, Param, ProtoParam, ResultType};
use cc_model::typing::{CType, Function};
use sqlite_items::Items;

impl TypeNames<'_> {
    /// The types of the parameters of a function with a body.
    fn func_params(
        &self,
        before: &Preceding,
        params: &[Param],
    ) -> Result<Items<Option<CType>>, NoMemory>
        ensures { IfOk result (λ l. l ≡ scopes.func_params
            (text_at self.now.source.now self.now.tokens.now) self.now.tags.now before.now params.now) }
    {
        let mut types = Items::new(self.alloc);
        for param in params {
            types.push(self.param_type(before, param.ty))?;
        }
        Ok(types)
    }

    /// The types of the parameters of a prototype.
    fn proto_params(
        &self,
        before: &Preceding,
        params: &[ProtoParam],
    ) -> Result<Items<Option<CType>>, NoMemory>
        ensures { IfOk result (λ l. l ≡ scopes.proto_params
            (text_at self.now.source.now self.now.tokens.now) self.now.tags.now before.now params.now) }
    {
        let mut types = Items::new(self.alloc);
        for param in params {
            types.push(self.param_type(before, param.ty))?;
        }
        Ok(types)
    }

    /// A function as its definition says.
    pub fn function_of(&self, before: &Preceding, function: &Func) -> Result<Function, NoMemory>
        ensures { IfOk result (λ f. f ≡ record {
          name = text_at self.now.source.now self.now.tokens.now (function.now).name;
          result = scopes.result_type (text_at self.now.source.now self.now.tokens.now) self.now.tags.now before.now
              (function.now).result;
          params = scopes.func_params (text_at self.now.source.now self.now.tokens.now) self.now.tags.now before.now
              (function.now).params;
        }) }
    {
        let name = self.name(function.name)?;
        let params = self.func_params(before, function.params.as_slice())?;
        Ok(Function {
            name,
            result: self.result_type(before, function.result),
            params,
        })
    }

    /// A function as its prototype says.
    pub fn prototype_of(
        &self,
        before: &Preceding,
        gives: ResultType,
        name: u32,
        params: &[ProtoParam],
    ) -> Result<Function, NoMemory>
        ensures { IfOk result (λ f. f ≡ record {
          name = text_at self.now.source.now self.now.tokens.now name;
          result = scopes.result_type (text_at self.now.source.now self.now.tokens.now) self.now.tags.now before.now
              gives;
          params = scopes.proto_params (text_at self.now.source.now self.now.tokens.now) self.now.tags.now before.now
              params.now;
        }) }
    {
        let name = self.name(name)?;
        let params = self.proto_params(before, params)?;
        Ok(Function {
            name,
            result: self.result_type(before, gives),
            params,
        })
    }

    /// Adds a function, where it is declared first.
    fn add_first(
        &self,
        before: &Preceding,
        function: Function,
        functions: &mut Items<Function>,
    ) -> Result<(), NoMemory>
        ensures { OnOk result (functions.new
            ≡ functions.old ++ scopes.if_first (text_at self.now.source.now self.now.tokens.now) self.now.tags.now
            before.now function []) }
    {
        if !before.has_function(function.name.as_slice()) {
            functions.push(function)?;
        }
        Ok(())
    }

    /// Adds the function that an item declares first.
    pub fn add_function(
        &self,
        before: &Preceding,
        item: &Item,
        functions: &mut Items<Function>,
    ) -> Result<(), NoMemory>
        ensures { OnOk result (functions.new
            ≡ functions.old ++ scopes.functions_in
            (text_at self.now.source.now self.now.tokens.now) self.now.tags.now before.now (item.now ∷ [])) }
    {
        match item {
            Item::Func(function) => {
                let function = self.function_of(before, function)?;
                self.add_first(before, function, functions)
            }
            Item::Prototype(gives, name, params) => {
                let function = self.prototype_of(before, *gives, *name, params.as_slice())?;
                self.add_first(before, function, functions)
            }
            Item::Alias(_, _) | Item::Struct(_) | Item::Globals(_, _) => Ok(()),
        }
    }
}
