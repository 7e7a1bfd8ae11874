//! What is said of a statement without its `;`.

ghost use Rattle.std.specs.Prelude.{◌≡◌, ◌++◌, ◌&&◌, false, None, map, IfOk, OnOk};
ghost use Rattle.cc_model.specs.Source.{text_at};
ghost use Rattle.cc_model.specs.Typing as typing;
ghost use Rattle.cc_model.specs.Faults as faults;
ghost use Rattle.c_rules.specs.Views.{seen, here};

use crate::calls::{note_call, note_rule};
use crate::rules::note_null;
use crate::shapes::{
    has_truth, is_int_place, is_int_shape, is_place, is_pointer_shape, is_well, takes, type_of,
};
use crate::view::View;
use c_scopes::types::{is_int, is_pointer, is_void};
use cc_model::base::NoMemory;
use cc_model::trees::{Initializer, Simple};
use cc_model::typing::{CType, Note, Operand, Shape, Wrong};
use cc_model::{Expr, Target};
use sqlite_items::{Items, at};
use std::alloc::Global;

/// Whether the type is int or a pointer.
pub fn is_scalar(ty: &CType) -> bool
    ensures { result ≡ faults.is_scalar ty.now }
{
    is_int(ty) || is_pointer(ty)
}

/// Notes a fault at token `t` where the parts are well typed and the rule doesn't hold.
pub fn note_held(t: u32, well: bool, holds: bool, notes: &mut Items<Note>) -> Result<(), NoMemory>
    ensures { OnOk result (notes.new ≡ notes.old ++ typing.rule t well holds) }
{
    if well {
        note_rule(t, holds, notes)
    } else {
        Ok(())
    }
}

/// Whether the place takes the value by `=`.
fn can_assign(alloc: Global, place: &Shape, value: &Shape) -> Result<bool, NoMemory>
    ensures { IfOk result (λ b. b ≡ (typing.is_place place.now &&
        (faults.is_scalar (typing.type_of place.now) && typing.takes (typing.type_of place.now) value.now))) }
{
    let ty = type_of(alloc, place)?;
    Ok(is_place(place) && (is_scalar(&ty) && takes(&ty, value)))
}

/// Notes the rule of `=`.
fn note_assigned(
    alloc: Global,
    t: u32,
    place: &Shape,
    value: &Shape,
    notes: &mut Items<Note>,
) -> Result<(), NoMemory>
    ensures { OnOk result (notes.new ≡ notes.old
        ++ (typing.rule t (typing.is_well place.now && typing.is_well value.now)
        (typing.is_place place.now && (faults.is_scalar (typing.type_of place.now) && typing.takes
        (typing.type_of place.now) value.now))
        ++ typing.null_beside (typing.is_pointer_shape place.now) value.now)) }
{
    let holds = can_assign(alloc, place, value)?;
    note_held(t, is_well(place) && is_well(value), holds, notes)?;
    note_null(is_pointer_shape(place), value, notes)
}

impl View<'_> {
    /// `=` between a place and a value.
    pub fn assign(
        &self,
        t: u32,
        place: &Expr,
        value: &Expr,
        notes: &mut Items<Note>,
    ) -> Result<(), NoMemory>
        ensures { OnOk result (notes.new ≡ notes.old ++ faults.assigned t
            (typing.judged (text_at self.now.source.now self.now.tokens.now)
            (seen self.now.file.now self.now.before.now self.now.scopes.now) place.now)
            (typing.judged (text_at self.now.source.now self.now.tokens.now)
            (seen self.now.file.now self.now.before.now self.now.scopes.now) value.now)) }
    {
        let place = self.judge(place, notes)?;
        let value = self.judge(value, notes)?;
        note_assigned(self.alloc, t, &place, &value, notes)
    }

    /// A compound operator between an int's place and an int.
    pub fn update(
        &self,
        t: u32,
        place: &Expr,
        value: &Expr,
        notes: &mut Items<Note>,
    ) -> Result<(), NoMemory>
        ensures { OnOk result (notes.new ≡ notes.old ++ faults.updated t
            (typing.judged (text_at self.now.source.now self.now.tokens.now)
            (seen self.now.file.now self.now.before.now self.now.scopes.now) place.now)
            (typing.judged (text_at self.now.source.now self.now.tokens.now)
            (seen self.now.file.now self.now.before.now self.now.scopes.now) value.now)) }
    {
        let place = self.judge(place, notes)?;
        let value = self.judge(value, notes)?;
        let well = is_well(&place) && is_well(&value);
        let holds = is_int_place(&place) && is_int_shape(&value);
        note_held(t, well, holds, notes)
    }

    /// `++`, `--` and `CREST_int` on an int's place.
    pub fn bump(&self, t: u32, place: &Expr, notes: &mut Items<Note>) -> Result<(), NoMemory>
        ensures { OnOk result (notes.new ≡ notes.old
            ++ faults.bumped t (typing.judged (text_at self.now.source.now self.now.tokens.now)
            (seen self.now.file.now self.now.before.now self.now.scopes.now) place.now)) }
    {
        let place = self.judge(place, notes)?;
        note_held(t, is_well(&place), is_int_place(&place), notes)
    }

    /// A truth value, at the word of its statement.
    pub fn test(&self, t: u32, value: &Expr, notes: &mut Items<Note>) -> Result<(), NoMemory>
        ensures { OnOk result (notes.new ≡ notes.old
            ++ faults.tested t (typing.judged (text_at self.now.source.now self.now.tokens.now)
            (seen self.now.file.now self.now.before.now self.now.scopes.now) value.now)) }
    {
        let value = self.judge(value, notes)?;
        note_held(t, is_well(&value), has_truth(&value), notes)
    }

    /// A call whose value nobody wants, behind its arguments.
    fn call_done(&self, t: u32, args: &[Operand], notes: &mut Items<Note>) -> Result<(), NoMemory>
        ensures { OnOk result (notes.new ≡ typing.call_done (text_at self.now.source.now self.now.tokens.now)
            (seen self.now.file.now self.now.before.now self.now.scopes.now) t args.now
            (typing.callee (text_at self.now.source.now self.now.tokens.now)
            (seen self.now.file.now self.now.before.now self.now.scopes.now) t) notes.old) }
    {
        let number = match self.callee(t) {
            Some(number) => number,
            None => {
                notes.push(Note::Fault(Wrong::Unknown, t))?;
                return Ok(());
            }
        };
        let function = match at(self.file.functions.as_slice(), number as usize) {
            Some(function) => function,
            None => return Ok(()),
        };
        notes.push(Note::Means(t, Target::Func(number)))?;
        note_call(t, function.params.as_slice(), args, notes)
    }

    /// A call whose value nobody wants.
    fn call_statement(&self, t: u32, args: &[Expr], notes: &mut Items<Note>) -> Result<(), NoMemory>
        ensures { OnOk result (notes.new ≡ notes.old
            ++ typing.call_done (text_at self.now.source.now self.now.tokens.now)
            (seen self.now.file.now self.now.before.now self.now.scopes.now) t
            (map typing.operand_of (map (typing.judged (text_at self.now.source.now self.now.tokens.now)
            (seen self.now.file.now self.now.before.now self.now.scopes.now)) args.now))
            (typing.callee (text_at self.now.source.now self.now.tokens.now)
            (seen self.now.file.now self.now.before.now self.now.scopes.now) t)
            (typing.notes_of (map (typing.judged (text_at self.now.source.now self.now.tokens.now)
            (seen self.now.file.now self.now.before.now self.now.scopes.now)) args.now))) }
    {
        let args = self.judge_args(args, notes)?;
        self.call_done(t, args.as_slice(), notes)
    }

    /// A statement without its `;`.
    pub fn simple(&self, s: &Simple, notes: &mut Items<Note>) -> Result<(), NoMemory>
        ensures { OnOk result (notes.new ≡ notes.old
            ++ faults.simple_notes (typing.judged (text_at self.now.source.now self.now.tokens.now))
            (text_at self.now.source.now self.now.tokens.now) self.now.file.now self.now.before.now None s.now
            (here self.now.scopes.now)) }
    {
        match s {
            Simple::Assign(t, place, value) => self.assign(*t, place, value, notes),
            Simple::AddTo(t, place, value)
            | Simple::SubFrom(t, place, value)
            | Simple::MulBy(t, place, value)
            | Simple::DivBy(t, place, value)
            | Simple::RemBy(t, place, value) => self.update(*t, place, value, notes),
            Simple::Increase(t, place)
            | Simple::Decrease(t, place)
            | Simple::IncreaseFirst(t, place)
            | Simple::DecreaseFirst(t, place)
            | Simple::CrestInt(t, place) => self.bump(*t, place, notes),
            Simple::Call(t, args) => self.call_statement(*t, args.as_slice(), notes),
            Simple::Assert(t, value) | Simple::Assume(t, value) => self.test(*t, value, notes),
            Simple::Abort(_) => Ok(()),
        }
    }

    /// A value that goes into an object of the type.
    fn take(
        &self,
        t: u32,
        ty: &CType,
        value: &Expr,
        notes: &mut Items<Note>,
    ) -> Result<(), NoMemory>
        ensures { OnOk result (notes.new ≡ notes.old
            ++ faults.taken t ty.now (typing.judged (text_at self.now.source.now self.now.tokens.now)
            (seen self.now.file.now self.now.before.now self.now.scopes.now) value.now)) }
    {
        let value = self.judge(value, notes)?;
        note_held(t, is_well(&value), takes(ty, &value), notes)?;
        note_null(is_pointer(ty), &value, notes)
    }

    /// A value behind the `return` of a function that gives none.
    fn refuse(&self, t: u32, value: &Expr, notes: &mut Items<Note>) -> Result<(), NoMemory>
        ensures { OnOk result (notes.new ≡ notes.old
            ++ ((typing.judged (text_at self.now.source.now self.now.tokens.now)
            (seen self.now.file.now self.now.before.now self.now.scopes.now) value.now).notes
            ++ typing.rule t (typing.is_well (typing.judged (text_at self.now.source.now self.now.tokens.now)
            (seen self.now.file.now self.now.before.now self.now.scopes.now) value.now).shape) false)) }
    {
        let value = self.judge(value, notes)?;
        note_held(t, is_well(&value), false, notes)
    }

    /// A value of which nothing is asked.
    fn accept(&self, value: &Expr, notes: &mut Items<Note>) -> Result<(), NoMemory>
        ensures { OnOk result (notes.new ≡ notes.old
            ++ (typing.judged (text_at self.now.source.now self.now.tokens.now)
            (seen self.now.file.now self.now.before.now self.now.scopes.now) value.now).notes) }
    {
        self.judge(value, notes)?;
        Ok(())
    }

    /// A value behind `return`.
    fn return_value(
        &self,
        t: u32,
        gives: &Option<CType>,
        value: &Expr,
        notes: &mut Items<Note>,
    ) -> Result<(), NoMemory>
        ensures { OnOk result (notes.new ≡ notes.old
            ++ faults.returned_value t gives.now
            (typing.judged (text_at self.now.source.now self.now.tokens.now)
            (seen self.now.file.now self.now.before.now self.now.scopes.now) value.now)) }
    {
        match gives {
            Some(ty) => {
                if is_void(ty) {
                    self.refuse(t, value, notes)
                } else {
                    self.take(t, ty, value, notes)
                }
            }
            None => self.accept(value, notes),
        }
    }

    /// `return`, in a function that gives a value of the type.
    pub fn returns(
        &self,
        t: u32,
        gives: &Option<CType>,
        value: &Option<Expr>,
        notes: &mut Items<Note>,
    ) -> Result<(), NoMemory>
        ensures { OnOk result (notes.new ≡ notes.old
            ++ faults.return_notes (typing.judged (text_at self.now.source.now self.now.tokens.now))
            (text_at self.now.source.now self.now.tokens.now) self.now.file.now self.now.before.now gives.now t
            value.now (here self.now.scopes.now)) }
    {
        match value {
            Some(value) => self.return_value(t, gives, value, notes),
            None => note_returned(t, gives, notes),
        }
    }

    /// A value that is stored in an object of the type.
    fn store(
        &self,
        t: u32,
        ty: &CType,
        value: &Expr,
        notes: &mut Items<Note>,
    ) -> Result<(), NoMemory>
        ensures { OnOk result (notes.new ≡ notes.old
            ++ faults.stored t ty.now (typing.judged (text_at self.now.source.now self.now.tokens.now)
            (seen self.now.file.now self.now.before.now self.now.scopes.now) value.now)) }
    {
        let value = self.judge(value, notes)?;
        note_held(
            t,
            is_well(&value),
            is_scalar(ty) && takes(ty, &value),
            notes,
        )?;
        note_null(is_pointer(ty), &value, notes)
    }

    /// The initialiser of a variable.
    pub fn start(
        &self,
        start: &Option<Initializer>,
        ty: &Option<CType>,
        notes: &mut Items<Note>,
    ) -> Result<(), NoMemory>
        ensures { OnOk result (notes.new ≡ notes.old
            ++ faults.start_notes (typing.judged (text_at self.now.source.now self.now.tokens.now))
            (text_at self.now.source.now self.now.tokens.now) self.now.file.now self.now.before.now None start.now
            ty.now (here self.now.scopes.now)) }
    {
        let start = match start {
            Some(start) => start,
            None => return Ok(()),
        };
        match ty {
            Some(ty) => self.store(start.equals, ty, &start.value, notes),
            None => self.accept(&start.value, notes),
        }
    }
}

/// Notes a `return` without a value in a function that gives one.
fn note_returned(t: u32, gives: &Option<CType>, notes: &mut Items<Note>) -> Result<(), NoMemory>
    ensures { OnOk result (notes.new ≡ notes.old ++ faults.returned_none t gives.now) }
{
    match gives {
        Some(ty) => note_rule(t, is_void(ty), notes),
        None => Ok(()),
    }
}
