//! Events on numbers, whole.

ghost use Rattle.std.specs.Prelude.{◌≡◌, ◌*◌, ◌≤◌, pos, neg_ℤ, length, if◌then◌else◌, IfOk, OnOk};
ghost use Rattle.cc_model.specs.Domain.{act_arith, act_divisor, act_negate, act_index};
ghost use Rattle.cc_model.specs.Plain as plain;
ghost use Rattle.cc_model.specs.Plain.{apply, fitting, fit_of, int_eq, num, number_of, index_of, nat_of, compare_int};
ghost use Rattle.cc_model.specs.Plain.{decision_of, is_truth};
ghost use Rattle.cc_model.specs.Traced as traced;
ghost use Rattle.cc_model.specs.Traced.{form};
ghost use Rattle.cc_laws.specs.LinearForms.{linear};
ghost use Rattle.sym_run.specs.Asks.{asked_of};
ghost use Rattle.sym_run.specs.Beside.{IsCell, IsValue, traced_of, value_of};
ghost use Rattle.sym_run.specs.Numbers.{op_of, cmp_of, formed_seen, IsKept, IsWord, IsPointer, form_at, number_at};
ghost use Rattle.sym_run.specs.Numbers.{numbered, Grows};

use crate::acted::Acted;
use crate::asked::Asked;
use crate::number_events::{divisor_cells, fit_asked, index_cell, numbers_cells, test_cell};
use crate::numbers::{
    Comparison, Operation, applied, compared, decision_of, fit_of, fitted, index_of, is_truth,
};
use crate::operations::{Formed, formed_cells, negated_cell};
use crate::symbols::{Symbol, Symbols};
use cc_model::base::{NoMemory, Outcome};
use checked_memory::{Cell, Value};
use std::alloc::Global;

/// What a decision or the check of a divisor gives.
#[derive(Drop)]
pub struct Decided {
    pub outcome: Outcome,
    pub asked: Asked,
}

/// The number of a value; 0 for a pointer.
#[tactic(auto, unfolding(cc_model::specs::Plain::number_of))]
pub fn number_of(value: Value) -> i64
    requires { IsValue value }
    ensures number { result ≡ number_of (value_of value) }
    ensures word { IsWord result }
{
    match value {
        Value::Int(number) => number,
        Value::Null => 0,
        Value::Made(_, _) => 0,
        Value::Block(_, _) => 0,
    }
}

/// The cell of a result: beside a number that has a form stands the form.
fn formed_cell(symbols: &mut Symbols, formed: Formed, number: i64) -> Result<Cell, NoMemory>
    requires { IsKept (formed_seen formed) }
    ensures value { IfOk result (λ c. traced_of symbols.new c ≡ numbered (formed_seen formed) number) }
    ensures known { IfOk result (λ c. (c.value ≡ Value.Int number) × (c.shadow ≤ length symbols.new)) }
    ensures kept { OnOk result (Grows symbols.old symbols.new) }
{
    let value = Value::Int(number);
    match formed {
        Formed::Linear(form) => {
            let shadow = symbols.add(Symbol::Form(form))?;
            Ok(Cell { value, shadow })
        }
        Formed::PlainNumber => Ok(Cell { value, shadow: 0 }),
        Formed::Termed(_) => Ok(Cell { value, shadow: 0 }),
    }
}

/// A sum or its kin, at the event at which its result has to fit.
pub fn arithmetic(
    alloc: Global,
    symbols: &mut Symbols,
    operation: Operation,
    a: Cell,
    b: Cell,
) -> Result<Acted, NoMemory>
    requires left { IsCell symbols.old a }
    requires right { IsCell symbols.old b }
    ensures outcome { IfOk result (λ r. r.outcome ≡ fit_of (fitting (op_of operation) (number_at a) (number_at b))) }
    ensures asked { IfOk result (λ r. (d : traced.Data)
        → asked_of r.asked ≡ traced.asked_of linear
        (act_arith (op_of operation) (traced_of symbols.old a) (traced_of symbols.old b)) d) }
    ensures value { IfOk result (λ r. traced_of symbols.new r.cell
        ≡ numbered (traced.formed_of linear (op_of operation) (form_at symbols.old a) (form_at symbols.old b))
        (apply (op_of operation) (number_at a) (number_at b))) }
    ensures known { IfOk result (λ r. r.outcome ≡ Outcome.Plain → IsCell symbols.new r.cell) }
    ensures kept { OnOk result (Grows symbols.old symbols.new) }
{
    let x = number_of(a.value);
    let y = number_of(b.value);
    let formed = formed_cells(symbols, operation, a, b);
    let asked = fit_asked(alloc, &formed)?;
    let outcome = fitted(operation, x, y);
    let cell = formed_cell(symbols, formed, applied(operation, x, y))?;
    Ok(Acted {
        outcome,
        asked,
        cell,
    })
}

/// The opposite of a number of 32 bits.
fn opposite(x: i64) -> i64
    requires { IsWord x }
    ensures { result ≡ neg_ℤ x }
{
    -x
}

/// The opposite of a number, at the event at which it has to fit.
pub fn negate(alloc: Global, symbols: &mut Symbols, a: Cell) -> Result<Acted, NoMemory>
    requires { IsCell symbols.old a }
    ensures outcome { IfOk result (λ r. r.outcome ≡ fit_of (neg_ℤ (number_at a))) }
    ensures asked { IfOk result (λ r. (d : traced.Data)
        → asked_of r.asked ≡ traced.asked_of linear (act_negate (traced_of symbols.old a)) d) }
    ensures value { IfOk result (λ r. traced_of symbols.new r.cell
        ≡ numbered (traced.negated_of linear (form_at symbols.old a)) (neg_ℤ (number_at a))) }
    ensures known { IfOk result (λ r. r.outcome ≡ Outcome.Plain → IsCell symbols.new r.cell) }
    ensures kept { OnOk result (Grows symbols.old symbols.new) }
{
    let z = opposite(number_of(a.value));
    let formed = negated_cell(symbols, a);
    let asked = fit_asked(alloc, &formed)?;
    let cell = formed_cell(symbols, formed, z)?;
    Ok(Acted {
        outcome: fit_of(z),
        asked,
        cell,
    })
}

/// Whether a divisor is 0.
#[tactic(auto, unfolding(cc_model::specs::Plain::int_eq))]
fn divisor(y: i64) -> Outcome
    ensures { result ≡ (if int_eq y (pos 0) then Outcome.Zero else Outcome.Plain) }
{
    if y == 0 {
        return Outcome::Zero;
    }
    Outcome::Plain
}

/// The event at which a divisor mustn't be 0.
#[tactic(auto, unfolding(cc_model::specs::Traced::asked_of))]
pub fn divide_check(symbols: &Symbols, a: Cell, b: Cell) -> Decided
    requires left { IsCell symbols.now a }
    requires right { IsCell symbols.now b }
    ensures outcome { result.outcome ≡ (if int_eq (number_at b) (pos 0) then Outcome.Zero else Outcome.Plain) }
    ensures asked { (d : traced.Data) → asked_of result.asked
        ≡ traced.asked_of linear (act_divisor (traced_of symbols.now a) (traced_of symbols.now b)) d }
{
    Decided {
        outcome: divisor(number_of(b.value)),
        asked: divisor_cells(symbols, a, b),
    }
}

/// A comparison of the numbers in two cells.
pub fn compare_numbers(
    alloc: Global,
    symbols: &Symbols,
    comparison: Comparison,
    a: Cell,
    b: Cell,
) -> Result<Decided, NoMemory>
    requires left { IsCell symbols.now a }
    requires right { IsCell symbols.now b }
    ensures outcome { IfOk result (λ r. r.outcome
        ≡ decision_of (compare_int (cmp_of comparison) (number_at a) (number_at b))) }
    ensures asked { IfOk result (λ r. asked_of r.asked
        ≡ traced.numbers_asked linear (cmp_of comparison) (form_at symbols.now a) (form_at symbols.now b)) }
{
    let x = number_of(a.value);
    let y = number_of(b.value);
    let asked = numbers_cells(alloc, symbols, comparison, a, b)?;
    let outcome = decision_of(compared(comparison, x, y));
    Ok(Decided { outcome, asked })
}

/// The test whether a cell's number isn't 0.
pub fn test_number(alloc: Global, symbols: &Symbols, a: Cell) -> Result<Decided, NoMemory>
    requires { IsCell symbols.now a }
    ensures outcome { IfOk result (λ r. r.outcome ≡ decision_of (is_truth (num (number_at a)))) }
    ensures asked { IfOk result (λ r. asked_of r.asked ≡ traced.test_asked linear (form (form_at symbols.now a))) }
{
    let x = number_of(a.value);
    let asked = test_cell(alloc, symbols, a)?;
    let outcome = decision_of(is_truth(x));
    Ok(Decided { outcome, asked })
}

/// A pointer that is moved on by a number of cells. No memory, too, where its offset reaches 2^32.
#[tactic(auto, unfolding(cc_model::specs::Plain::offset))]
pub fn moved(value: Value, by: u32) -> Result<Value, NoMemory>
    ensures value { IfOk result (λ v. value_of v ≡ plain.offset (value_of value) by) }
    ensures known { IfOk result (λ v. IsValue value → IsValue v) }
{
    match value {
        Value::Int(number) => Ok(Value::Int(number)),
        Value::Null => Ok(Value::Null),
        Value::Made(object, at) => {
            let Some(to) = at.checked_add(by) else {
                return Err(NoMemory);
            };
            Ok(Value::Made(object, to))
        }
        Value::Block(address, at) => {
            let Some(to) = at.checked_add(by) else {
                return Err(NoMemory);
            };
            Ok(Value::Block(address, to))
        }
    }
}

/// The element at an index that is inside; else the pointer itself. No memory, too, where the offset reaches 2^32.
#[tactic(auto, unfolding(cc_model::specs::Plain::index_of, cc_model::specs::Plain::nat_of))]
fn element(value: Value, i: i64, length: u32, width: u32) -> Result<Value, NoMemory>
    ensures value { IfOk result (λ v. index_of i length ≡ Outcome.Plain
        → value_of v ≡ plain.offset (value_of value) (nat_of i * width)) }
    ensures known { IfOk result (λ v. IsValue value → IsValue v) }
{
    if i < 0 {
        return Ok(value);
    }
    if i >= i64::from(length) {
        return Ok(value);
    }
    let Some(by) = (i as u32).checked_mul(width) else {
        return Err(NoMemory);
    };
    moved(value, by)
}

/// An element of an array, at the event at which the index has to be inside. No memory, too, where an offset reaches
/// 2^32.
pub fn index(
    symbols: &Symbols,
    pointer: Cell,
    i: Cell,
    length: u32,
    width: u32,
) -> Result<Acted, NoMemory>
    requires pointer { IsCell symbols.now pointer }
    requires index { IsCell symbols.now i }
    ensures outcome { IfOk result (λ r. r.outcome ≡ index_of (number_at i) length) }
    ensures asked { IfOk result (λ r. (d : traced.Data)
        → asked_of r.asked ≡ traced.asked_of linear
        (act_index (traced_of symbols.now pointer) (traced_of symbols.now i) length width) d) }
    ensures value { IfOk result (λ r. r.outcome ≡ Outcome.Plain → IsPointer pointer.value
        → traced_of symbols.now r.cell ≡ traced.offset (traced_of symbols.now pointer) (nat_of (number_at i) * width)) }
    ensures known { IfOk result (λ r. IsCell symbols.now r.cell) }
{
    let number = number_of(i.value);
    let value = element(pointer.value, number, length, width)?;
    Ok(Acted {
        outcome: index_of(number, length),
        asked: index_cell(symbols, i),
        cell: Cell { value, shadow: 0 },
    })
}
