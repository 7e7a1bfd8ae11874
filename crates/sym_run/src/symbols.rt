//! What stands beside the values of a run that hang on its input.

ghost use Rattle.std.specs.Prelude.{◌≡◌, ◌++◌, ◌∷◌, [], length, slice_get, option_copied, IfOk, OnOk, IfSome};
ghost use Rattle.sym_run.specs.Beside.{IsSymbol};

use cc_model::base::{Items, NoMemory, TyId};
use std::alloc::Global;
use std::marker::Model;
use sym_expr::{Form, PlaceId};

/// What stands beside a value: the form of a number, or the place of a pointer with the type to which it points.
#[derive(Drop)]
pub enum Symbol {
    Form(Form),
    Place(PlaceId, TyId),
}

/// The symbols of a run, by number from 0. A cell's `shadow` is 0 where nothing stands beside its value but the value
/// itself, and else one more than a symbol's number.
#[derive(Drop)]
pub struct Symbols {
    list: Items<Symbol>,
}

impl Model for Symbols {
    ghost use Rattle.std.specs.Prelude.{List};
    ghost use Rattle.std.specs.List.{All};
    ghost use Rattle.sym_run.specs.declared.symbols.Symbol.{Symbol};
    ghost use Rattle.sym_run.specs.Beside.{IsSymbol};

    ghost Value = { List Symbol };

    ghost view = { λ s. s.list };

    ghost invariant = { λ s. All IsSymbol s.list };
}

impl Symbols {
    /// No symbols.
    pub fn new(alloc: Global) -> Symbols
        ensures { result ≡ [] }
    {
        Symbols {
            list: Items::new(alloc),
        }
    }

    /// How many symbols there are.
    pub fn len(&self) -> usize
        ensures { result ≡ length self.now }
    {
        self.list.len()
    }

    /// The symbol with a number; None where there is none.
    pub fn get(&self, number: u32) -> Option<&Symbol>
        ensures value { option_copied result ≡ slice_get self.now number }
        ensures right { IfSome result (λ s. IsSymbol s.now) }
    {
        self.list.get(number as usize)
    }

    /// Adds a symbol, and answers the shadow that means it. No memory, too, where there are 2^32 - 1 symbols.
    pub fn add(&mut self, symbol: Symbol) -> Result<u32, NoMemory>
        requires { IsSymbol symbol }
        ensures shadow { IfOk result (λ n. n ≡ length self.new) }
        ensures ok { OnOk result (self.new ≡ self.old ++ symbol ∷ []) }
    {
        if self.list.len() >= u32::MAX as usize {
            return Err(NoMemory);
        }
        self.list.push(symbol)?;
        Ok(self.list.len() as u32)
    }
}
