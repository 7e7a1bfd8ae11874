//! Forms of operations on numbers.

ghost use Rattle.std.specs.Prelude.{◌≡◌, ◌||◌, true, OkIff};
ghost use Rattle.cc_base.specs.Forms.{Form as PlainForm};
ghost use Rattle.cc_model.specs.Traced as traced;
ghost use Rattle.cc_laws.specs.LinearForms.{linear, if_narrow};
ghost use Rattle.sym_expr.specs.Sums.{IsForm, IsNarrow, multiple_of_form};
ghost use Rattle.sym_run.specs.Beside.{IsCell, IsSymbol, IsValue, value_of, unsymbolic, shadow_of_symbol};
ghost use Rattle.sym_run.specs.Numbers.{op_of, formed_seen, form_at};

use crate::numbers::Operation;
use crate::symbols::{Symbol, Symbols};
use cc_model::TermKind;
use checked_memory::{Cell, Value};
use sym_expr::{Form, Wide};

/// From here on a multiple of a form that has a term is too wide.
const FACTOR_LIMIT: u128 = 1 << 63;

/// What comes of an operation on numbers: a plain number where no operand hangs on the input; else a form, or a term.
#[derive(Drop)]
pub enum Formed {
    PlainNumber,
    Linear(Form),
    Termed(TermKind),
}

/// The form of a value beside which nothing stands.
#[tactic(auto, unfolding(cc_model::specs::Traced::form_of))]
fn plain_form(value: Value) -> Form
    requires { IsValue value }
    ensures form { result ≡ traced.form_of linear (unsymbolic (value_of value)) }
    ensures narrow { IsNarrow result }
{
    match value {
        Value::Int(number) => Form::number(number as i32),
        Value::Null => Form::number(0),
        Value::Made(_, _) => Form::number(0),
        Value::Block(_, _) => Form::number(0),
    }
}

/// The form that a symbol means: that of a pointer is 0.
#[tactic(auto, unfolding(cc_model::specs::Traced::form_of))]
fn symbol_form(symbol: &Symbol) -> Form
    requires { IsSymbol symbol.now }
    ensures form { result ≡ traced.form_of linear (shadow_of_symbol symbol.now) }
    ensures narrow { IsNarrow result }
{
    match symbol {
        Symbol::Form(form) => form.copy(),
        Symbol::Place(_, _) => Form::number(0),
    }
}

/// The form of the number in a cell.
pub fn form_of(symbols: &Symbols, cell: Cell) -> Form
    requires { IsCell symbols.now cell }
    ensures form { result ≡ form_at symbols.now cell }
    ensures narrow { IsNarrow result }
{
    if cell.shadow == 0 {
        return plain_form(cell.value);
    }
    match symbols.get(cell.shadow - 1) {
        Some(symbol) => symbol_form(symbol),
        None => plain_form(cell.value),
    }
}

/// Whether a number hangs on the input.
#[tactic(auto, unfolding(cc_model::specs::Traced::depends, cc_model::specs::Traced::has_terms))]
pub fn depends(form: &Form) -> bool
    ensures value { result ≡ traced.depends form.now }
    ensures form { IsForm form.now }
{
    !form.terms().is_empty()
}

/// Whether one of two numbers hangs on the input.
pub(crate) fn either_depends(a: &Form, b: &Form) -> bool
    ensures value { result ≡ (traced.depends a.now || traced.depends b.now) }
    ensures left { IsForm a.now }
    ensures right { IsForm b.now }
{
    let left = depends(a);
    let right = depends(b);
    left || right
}

/// A sum or a multiple, unless it is too wide to be kept.
fn or_wide(made: Result<Form, Wide>) -> Formed
    ensures { (g : PlainForm) → OkIff made (IsNarrow g) g → formed_seen result ≡ traced.or_wide (if_narrow g) }
{
    match made {
        Ok(form) => Formed::Linear(form),
        Err(_) => Formed::Termed(TermKind::Wide),
    }
}

/// A number of times a form that has a term. It is too wide where the number reaches 2^63 in absolute value.
fn multiple_of(factor: i128, form: &Form) -> Formed
    requires form { IsForm form.now }
    requires depends { traced.depends form.now ≡ true }
    ensures { formed_seen result ≡ traced.or_wide (if_narrow (multiple_of_form factor form.now)) }
{
    if factor.unsigned_abs() >= FACTOR_LIMIT {
        return Formed::Termed(TermKind::Wide);
    }
    or_wide(form.scale(factor as i64))
}

/// The product of two numbers of which one hangs on the input.
fn product_of(a: &Form, b: &Form) -> Formed
    requires left { IsForm a.now }
    requires right { IsForm b.now }
    requires depends { (traced.depends a.now || traced.depends b.now) ≡ true }
    ensures { formed_seen result ≡ traced.product_of linear (traced.depends a.now) (traced.depends b.now) a.now b.now }
{
    if !depends(a) {
        return multiple_of(a.constant(), b);
    }
    if depends(b) {
        return Formed::Termed(TermKind::Product);
    }
    multiple_of(b.constant(), a)
}

/// What comes of an operation on two numbers.
pub fn formed_of(operation: Operation, a: &Form, b: &Form) -> Formed
    ensures { formed_seen result ≡ traced.formed_of linear (op_of operation) a.now b.now }
{
    if either_depends(a, b) {
        return result_of(operation, a, b);
    }
    Formed::PlainNumber
}

/// What comes of an operation on two numbers of which one hangs on the input.
#[tactic(auto, unfolding(cc_model::specs::Traced::result_of))]
fn result_of(operation: Operation, a: &Form, b: &Form) -> Formed
    requires left { IsForm a.now }
    requires right { IsForm b.now }
    requires depends { (traced.depends a.now || traced.depends b.now) ≡ true }
    ensures { formed_seen result ≡ traced.result_of linear (op_of operation) a.now b.now }
{
    match operation {
        Operation::Add => or_wide(a.add(b)),
        Operation::Sub => or_wide(a.sub(b)),
        Operation::Mul => product_of(a, b),
        Operation::Quotient => Formed::Termed(TermKind::Quotient),
        Operation::Remainder => Formed::Termed(TermKind::Quotient),
    }
}

/// What comes of a number's opposite.
pub fn negated_of(a: &Form) -> Formed
    ensures { formed_seen result ≡ traced.negated_of linear a.now }
{
    if depends(a) {
        return or_wide(a.scale(-1));
    }
    Formed::PlainNumber
}

/// What comes of an operation on the numbers of two cells.
pub fn formed_cells(symbols: &Symbols, operation: Operation, a: Cell, b: Cell) -> Formed
    requires left { IsCell symbols.now a }
    requires right { IsCell symbols.now b }
    ensures { formed_seen result ≡ traced.formed_of linear (op_of operation) (form_at symbols.now a)
        (form_at symbols.now b) }
{
    if a.shadow == 0 && b.shadow == 0 {
        return Formed::PlainNumber;
    }
    formed_of(operation, &form_of(symbols, a), &form_of(symbols, b))
}

/// What comes of the opposite of a cell's number.
pub fn negated_cell(symbols: &Symbols, a: Cell) -> Formed
    requires { IsCell symbols.now a }
    ensures { formed_seen result ≡ traced.negated_of linear (form_at symbols.now a) }
{
    if a.shadow == 0 {
        return Formed::PlainNumber;
    }
    negated_of(&form_of(symbols, a))
}
