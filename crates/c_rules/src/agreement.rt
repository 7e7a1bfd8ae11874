//! What is said of a function's name, by its declarations.

ghost use Rattle.std.specs.Prelude.{◌≡◌, ◌++◌, ◌&&◌, ◌||◌, false, map, slice_get, unwrap_or, OnOk};
ghost use Rattle.cc_model.specs.Source.{text_at};
ghost use Rattle.cc_model.specs.Scopes as scopes;
ghost use Rattle.cc_model.specs.Faults as faults;
ghost use Rattle.c_scopes.specs.FileNames as names;

use crate::declarators::note_twice;
use crate::functions::{note_no_struct, note_result, same_if};
use crate::statements::note_held;
use crate::view::View;
use c_scopes::whole::is_whole;
use cc_model::Target;
use cc_model::base::NoMemory;
use cc_model::trees::ResultType;
use cc_model::typing::{CType, Function, Note};
use sqlite_items::{Items, at};

/// Whether the two lists are the same types in order, all of them known.
fn same_all(one: &[Option<CType>], other: &[Option<CType>]) -> bool
    ensures { result ≡ faults.same_all one.now other.now }
{
    let mut other = other;
    for param in one {
        match other {
            [] => return false,
            [first, rest @ ..] => {
                if !same_if(param, first) {
                    return false;
                }
                other = rest;
            }
        }
    }
    match other {
        [] => true,
        [_, ..] => false,
    }
}

/// Whether two declarations say the same types.
fn same_types(one: &Function, other: &Function) -> bool
    ensures { result ≡ (faults.same_if (one.now).result (other.now).result && faults.same_all (one.now).params
        (other.now).params) }
{
    same_if(&one.result, &other.result) && same_all(one.params.as_slice(), other.params.as_slice())
}

/// Notes a declaration that doesn't agree with the first one of the function, where all their types are known; `whole`
/// says that those of the first one are.
fn note_agreed(
    t: u32,
    function: &Function,
    first: &Function,
    whole: bool,
    notes: &mut Items<Note>,
) -> Result<(), NoMemory>
    requires { whole ≡ names.is_whole first.now }
    ensures { OnOk result (notes.new ≡ notes.old ++ faults.agreed t function.now (Some first.now)) }
{
    let well = is_whole(function) && whole;
    note_held(t, well, same_types(function, first), notes)
}

/// Whether all types of the first declaration of the function of that number are known, as the list says.
fn is_known(whole: &[bool], number: u32) -> bool
    ensures { result ≡ unwrap_or (slice_get whole.now number) false }
{
    match at(whole, number as usize) {
        Some(known) => *known,
        None => false,
    }
}

/// Notes a declaration that doesn't agree with the first one of the function of that number. `whole` tells of each
/// function whether all types of its first declaration are known.
fn note_first(
    t: u32,
    function: &Function,
    functions: &[Function],
    whole: &[bool],
    number: u32,
    notes: &mut Items<Note>,
) -> Result<(), NoMemory>
    requires whole { whole.now ≡ map names.is_whole functions.now }
    ensures { OnOk result (notes.new ≡ notes.old ++ faults.agreed t function.now (slice_get functions.now number)) }
{
    match at(functions, number as usize) {
        Some(first) => note_agreed(t, function, first, is_known(whole, number), notes),
        None => Ok(()),
    }
}

/// Notes the number of the function, and whether its declaration agrees with the first one.
fn note_number(
    t: u32,
    function: &Function,
    functions: &[Function],
    whole: &[bool],
    number: Option<u32>,
    notes: &mut Items<Note>,
) -> Result<(), NoMemory>
    requires whole { whole.now ≡ map names.is_whole functions.now }
    ensures { OnOk result (notes.new ≡ notes.old ++ faults.numbered t function.now functions.now number) }
{
    let number = match number {
        Some(number) => number,
        None => return Ok(()),
    };
    notes.push(Note::Means(t, Target::Func(number)))?;
    note_first(t, function, functions, whole, number, notes)
}

impl View<'_> {
    /// What is said of the name of a function; `again` where another body of that name stands before.
    pub fn note_function(
        &self,
        t: u32,
        gives: ResultType,
        function: &Function,
        again: bool,
        notes: &mut Items<Note>,
    ) -> Result<(), NoMemory>
        ensures { OnOk result (notes.new ≡ notes.old
            ++ faults.function_notes (text_at self.now.source.now self.now.tokens.now) self.now.file.now
            self.now.before.now t gives function.now again) }
    {
        let name = function.name.as_slice();
        let other = self.before.is_alias(name) || self.before.has_global(name);
        note_result(gives, &function.result, notes)?;
        note_no_struct(t, &function.result, notes)?;
        note_number(
            t,
            function,
            self.file.functions.as_slice(),
            self.names.whole.as_slice(),
            self.function_named(name),
            notes,
        )?;
        note_twice(again || other, t, notes)
    }
}
