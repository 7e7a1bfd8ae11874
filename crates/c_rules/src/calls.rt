//! The rule of a call.

ghost use Rattle.std.specs.Prelude.{◌≡◌, ◌++◌, true, OnOk, IfOk};
ghost use Rattle.cc_model.specs.Source.{text_at};
ghost use Rattle.c_rules.specs.Telling.{answer, told};
ghost use Rattle.c_rules.specs.Views.{seen};
ghost use Rattle.cc_model.specs.Typing as typing;

use crate::made::alone;
use crate::rules::{ending, note_null};
use crate::shapes::{is_well, takes};
use crate::view::View;
use c_scopes::types::{copy, is_pointer, is_void};
use cc_model::Target;
use cc_model::base::NoMemory;
use cc_model::typing::{CType, Note, Operand, Shape, Wrong};
use sqlite_items::{Items, at};
use std::alloc::Global;

/// Whether all arguments are well typed.
pub fn all_well(args: &[Operand]) -> bool
    ensures { result ≡ typing.all_well args.now }
{
    for arg in args {
        if !is_well(&arg.shape) {
            return false;
        }
    }
    true
}

/// Whether the parameter takes the argument; one whose type isn't known takes any.
fn param_takes(param: &Option<CType>, arg: &Operand) -> bool
    ensures { result ≡ typing.param_takes param.now arg.now }
{
    match param {
        Some(ty) => takes(ty, &arg.shape),
        None => true,
    }
}

/// Notes a fault at token `t` where a rule doesn't hold.
pub fn note_rule(t: u32, holds: bool, notes: &mut Items<Note>) -> Result<(), NoMemory>
    ensures { OnOk result (notes.new ≡ notes.old ++ typing.rule t true holds) }
{
    if !holds {
        notes.push(Note::Fault(Wrong::Mismatch, t))?;
    }
    Ok(())
}

/// Notes a number 0 that stands for NULL.
fn note_due(param: &Option<CType>, arg: &Operand, notes: &mut Items<Note>) -> Result<(), NoMemory>
    ensures { OnOk result (notes.new ≡ notes.old ++ typing.null_due param.now arg.now) }
{
    match param {
        Some(ty) => note_null(is_pointer(ty), &arg.shape, notes),
        None => Ok(()),
    }
}

/// What is said of an argument.
fn note_arg(param: &Option<CType>, arg: &Operand, notes: &mut Items<Note>) -> Result<(), NoMemory>
    ensures { OnOk result (notes.new ≡ notes.old
        ++ (typing.rule arg.now.first true (typing.param_takes param.now arg.now)
        ++ typing.null_due param.now arg.now)) }
{
    note_rule(arg.first, param_takes(param, arg), notes)?;
    note_due(param, arg, notes)
}

/// Whether there are as many arguments as parameters.
#[tactic(auto, using(crate::proofs::ArgumentLemmas::same_count_is))]
pub fn same_count(params: &[Option<CType>], args: &[Operand]) -> bool
    ensures { result ≡ typing.same_count params.now args.now }
{
    params.len() == args.len()
}

/// Whether each parameter takes its argument.
pub fn all_taken(params: &[Option<CType>], args: &[Operand]) -> bool
    ensures { result ≡ typing.all_taken params.now args.now }
{
    let mut params = params;
    for arg in args {
        if let [param, rest @ ..] = params {
            if !param_takes(param, arg) {
                return false;
            }
            params = rest;
        }
    }
    true
}

/// What is said of the arguments.
fn note_args(
    params: &[Option<CType>],
    args: &[Operand],
    notes: &mut Items<Note>,
) -> Result<(), NoMemory>
    ensures { OnOk result (notes.new ≡ notes.old ++ typing.arg_notes params.now args.now) }
{
    let mut params = params;
    for arg in args {
        if let [param, rest @ ..] = params {
            note_arg(param, arg, notes)?;
            params = rest;
        }
    }
    Ok(())
}

/// The rule of a call, which is judged where all arguments are well typed.
pub fn note_call(
    t: u32,
    params: &[Option<CType>],
    args: &[Operand],
    notes: &mut Items<Note>,
) -> Result<(), NoMemory>
    ensures { OnOk result (notes.new ≡ notes.old ++ typing.call_notes t params.now args.now) }
{
    if !all_well(args) {
        return Ok(());
    }
    if same_count(params, args) {
        note_args(params, args, notes)
    } else {
        note_rule(t, false, notes)
    }
}

/// Whether the rule of a call holds.
pub fn call_holds(params: &[Option<CType>], args: &[Operand]) -> bool
    ensures { result ≡ typing.call_holds params.now args.now }
{
    all_well(args) && same_count(params, args) && all_taken(params, args)
}

/// A call's value: that of a `void` function is none.
fn called(
    alloc: Global,
    t: u32,
    gives: &Option<CType>,
    well: bool,
    holds: bool,
    notes: &mut Items<Note>,
) -> Result<Shape, NoMemory>
    ensures { IfOk result (λ s. told (typing.called 0 t gives.now well holds notes.old) ≡ answer s notes.new) }
{
    let ty = match gives {
        Some(ty) => ty,
        None => return Ok(Shape::Unclear),
    };
    if is_void(ty) {
        return ending(alloc, t, well, false, Shape::Unclear, notes);
    }
    if !holds {
        return Ok(Shape::Unclear);
    }
    let value = Shape::Value(copy(alloc, ty)?);
    alone(alloc, t, value, notes)
}

impl View<'_> {
    /// A call as a value, with its arguments.
    pub fn call(&self, t: u32, args: &[Operand], notes: &mut Items<Note>) -> Result<Shape, NoMemory>
        ensures { IfOk result (λ s. told (typing.call_value (text_at self.now.source.now self.now.tokens.now)
            (seen self.now.file.now self.now.before.now self.now.scopes.now) 0 t args.now
            (typing.callee (text_at self.now.source.now self.now.tokens.now)
            (seen self.now.file.now self.now.before.now self.now.scopes.now) t) notes.old) ≡ answer s notes.new) }
    {
        let number = match self.callee(t) {
            Some(number) => number,
            None => {
                notes.push(Note::Fault(Wrong::Unknown, t))?;
                return Ok(Shape::Unclear);
            }
        };
        let function = match at(self.file.functions.as_slice(), number as usize) {
            Some(function) => function,
            None => return Ok(Shape::Unclear),
        };
        notes.push(Note::Means(t, Target::Func(number)))?;
        let params = function.params.as_slice();
        note_call(t, params, args, notes)?;
        let holds = call_holds(params, args);
        called(
            self.alloc,
            t,
            &function.result,
            all_well(args),
            holds,
            notes,
        )
    }
}
