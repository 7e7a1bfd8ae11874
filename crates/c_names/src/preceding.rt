//! What stands before a place of a file, each name found without a walk over it.

ghost use Rattle.std.specs.Prelude.{◌≡◌, ◌++◌, ◌∷◌, [], suc, is_some, OnOk};
ghost use Rattle.std.specs.Option.{option_copied};
ghost use Rattle.cc_model.specs.Scopes as scopes;

use crate::name_index::NameIndex;
use crate::named::Named;
use cc_model::base::NoMemory;
use cc_model::typing::{Alias, Text, Variable};
use sqlite_items::Items;
use std::alloc::Global;
use std::marker::Model;

/// The typedefs, structs, globals and functions that stand before a place. Contracts see them as `Before`.
#[derive(Drop)]
pub struct Preceding {
    alloc: Global,
    aliases: Named<Alias>,
    structs: u32,
    globals: Named<Variable>,
    functions: NameIndex,
    bodies: NameIndex,
}

impl Model for Preceding {
    ghost use Rattle.cc_model.specs.declared.typing.Before.{Before};

    ghost Value = { Before };

    ghost view = { λ p. record {
      aliases = p.aliases;
      structs = p.structs;
      globals = p.globals;
      functions = p.functions;
      bodies = p.bodies;
    } };
}

impl Preceding {
    /// Nothing.
    pub fn nothing(alloc: Global) -> Preceding
        ensures { result ≡ scopes.nothing_before }
    {
        Preceding {
            alloc,
            aliases: Named::new(alloc),
            structs: 0,
            globals: Named::new(alloc),
            functions: NameIndex::new(alloc),
            bodies: NameIndex::new(alloc),
        }
    }

    /// How many structs there are.
    pub fn structs(&self) -> u32
        ensures { result ≡ self.now.structs }
    {
        self.structs
    }

    /// The globals.
    pub fn globals(&self) -> &[Variable]
        ensures { result.now ≡ self.now.globals }
    {
        self.globals.as_slice()
    }

    /// The names of the functions with a body.
    pub fn into_bodies(self) -> Items<Text>
        ensures { result ≡ self.bodies }
    {
        self.bodies.into_names()
    }

    /// The typedef of that name.
    pub fn alias(&self, name: &[u8]) -> Option<&Alias>
        ensures { option_copied result ≡ scopes.alias_in name.now self.now.aliases }
    {
        self.aliases.find(name)
    }

    /// Whether a typedef has the name.
    pub fn is_alias(&self, name: &[u8]) -> bool
        ensures { result ≡ scopes.is_alias self.now name.now }
    {
        match self.alias(name) {
            Some(_) => true,
            None => false,
        }
    }

    /// The global of that name.
    pub fn global(&self, name: &[u8]) -> Option<&Variable>
        ensures { option_copied result ≡ scopes.variable_in name.now self.now.globals }
    {
        self.globals.find(name)
    }

    /// Whether a global has the name.
    pub fn has_global(&self, name: &[u8]) -> bool
        ensures { result ≡ is_some (scopes.variable_in name.now self.now.globals) }
    {
        match self.global(name) {
            Some(_) => true,
            None => false,
        }
    }

    /// Whether a function of that name is declared.
    pub fn has_function(&self, name: &[u8]) -> bool
        ensures { result ≡ scopes.has_name name.now self.now.functions }
    {
        self.functions.has(name)
    }

    /// Whether a function of that name has a body.
    pub fn has_body(&self, name: &[u8]) -> bool
        ensures { result ≡ scopes.has_name name.now self.now.bodies }
    {
        self.bodies.has(name)
    }

    /// Adds a typedef.
    pub fn add_alias(&mut self, alias: Alias) -> Result<(), NoMemory>
        ensures { OnOk result (self.new ≡ record self.old { aliases = self.old.aliases ++ alias ∷ [] }) }
    {
        self.aliases.push(self.alloc, alias)
    }

    /// Adds a struct.
    pub fn add_struct(&mut self) -> Result<(), NoMemory>
        ensures { OnOk result (self.new ≡ record self.old { structs = suc self.old.structs }) }
    {
        // No memory holds a source of 2^32 structs.
        match self.structs.checked_add(1) {
            Some(structs) => self.structs = structs,
            None => return Err(NoMemory),
        }
        Ok(())
    }

    /// Adds a global.
    pub fn add_global(&mut self, global: Variable) -> Result<(), NoMemory>
        ensures { OnOk result (self.new ≡ record self.old { globals = self.old.globals ++ global ∷ [] }) }
    {
        self.globals.push(self.alloc, global)
    }

    /// Adds the name of a declared function.
    pub fn add_function(&mut self, name: &[u8]) -> Result<(), NoMemory>
        ensures { OnOk result (self.new ≡ record self.old { functions = self.old.functions ++ name.now ∷ [] }) }
    {
        self.functions.add(name)
    }

    /// Adds the name of a function with a body.
    pub fn add_body(&mut self, name: &[u8]) -> Result<(), NoMemory>
        ensures { OnOk result (self.new ≡ record self.old { bodies = self.old.bodies ++ name.now ∷ [] }) }
    {
        self.bodies.add(name)
    }
}
