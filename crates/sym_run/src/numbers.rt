//! Operations on numbers of 32 bits, and what comes of them.

ghost use Rattle.std.specs.Prelude.{◌≡◌, ℤ, ◌*ℤ◌, int_div, int_rem};
ghost use Rattle.cc_model.specs.Plain.{apply, fitting, fit_of, compare_int, is_truth, index_of, decision_of, num};
ghost use Rattle.sym_run.specs.Numbers.{op_of, cmp_of, IsWord};

use cc_model::base::Outcome;

/// An operation on two numbers.
#[derive(Clone, Copy)]
pub enum Operation {
    Add,
    Sub,
    Mul,
    Quotient,
    Remainder,
}

/// A comparison of two values.
#[derive(Clone, Copy)]
pub enum Comparison {
    Equal,
    Unequal,
    Less,
    Greater,
    AtMost,
    AtLeast,
}

/// The quotient, rounded toward 0; by 0 it is 0.
fn quotient(x: i64, y: i64) -> i64
    requires left { IsWord x }
    requires right { IsWord y }
    ensures { result ≡ int_div x y }
{
    if y == 0 {
        return 0;
    }
    x / y
}

/// The remainder, with the sign of the dividend; by 0 it is the dividend.
fn remainder(x: i64, y: i64) -> i64
    requires left { IsWord x }
    requires right { IsWord y }
    ensures { result ≡ int_rem x y }
{
    if y == 0 {
        return x;
    }
    x % y
}

/// The product.
fn product(x: i64, y: i64) -> i64
    requires left { IsWord x }
    requires right { IsWord y }
    ensures { result ≡ x *ℤ y }
{
    x * y
}

/// The result of an operation. It may have more than 32 bits.
#[tactic(auto, unfolding(cc_model::specs::Plain::apply))]
pub fn applied(operation: Operation, x: i64, y: i64) -> i64
    requires left { IsWord x }
    requires right { IsWord y }
    ensures { result ≡ apply (op_of operation) x y }
{
    match operation {
        Operation::Add => x + y,
        Operation::Sub => x - y,
        Operation::Mul => product(x, y),
        Operation::Quotient => quotient(x, y),
        Operation::Remainder => remainder(x, y),
    }
}

/// The operation whose result has to fit: of a remainder it is the quotient.
#[tactic(auto, unfolding(cc_model::specs::Plain::apply, cc_model::specs::Plain::fitting))]
fn measured(operation: Operation) -> Operation
    ensures { (x y : ℤ) → apply (op_of result) x y ≡ fitting (op_of operation) x y }
{
    match operation {
        Operation::Add => Operation::Add,
        Operation::Sub => Operation::Sub,
        Operation::Mul => Operation::Mul,
        Operation::Quotient => Operation::Quotient,
        Operation::Remainder => Operation::Quotient,
    }
}

/// Whether a number fits 32 bits.
#[tactic(auto, unfolding(cc_model::specs::Plain::fit_of))]
pub fn fit_of(z: i64) -> Outcome
    ensures { result ≡ fit_of z }
{
    if z > 2_147_483_647 {
        return Outcome::High;
    }
    if z < -2_147_483_648 {
        return Outcome::Low;
    }
    Outcome::Plain
}

/// Whether the result of an operation fits.
pub fn fitted(operation: Operation, x: i64, y: i64) -> Outcome
    requires left { IsWord x }
    requires right { IsWord y }
    ensures { result ≡ fit_of (fitting (op_of operation) x y) }
{
    fit_of(applied(measured(operation), x, y))
}

/// A comparison of two numbers.
#[tactic(auto, unfolding(cc_model::specs::Plain::compare_int, cc_model::specs::Plain::int_eq))]
pub fn compared(comparison: Comparison, x: i64, y: i64) -> bool
    ensures { result ≡ compare_int (cmp_of comparison) x y }
{
    match comparison {
        Comparison::Equal => x == y,
        Comparison::Unequal => x != y,
        Comparison::Less => x < y,
        Comparison::Greater => y < x,
        Comparison::AtMost => x <= y,
        Comparison::AtLeast => y <= x,
    }
}

/// Whether a number isn't 0.
#[tactic(auto, unfolding(cc_model::specs::Plain::is_truth, cc_model::specs::Plain::int_eq))]
pub fn is_truth(z: i64) -> bool
    ensures { result ≡ is_truth (num z) }
{
    z != 0
}

/// What a decision came to.
#[tactic(auto, unfolding(cc_model::specs::Plain::decision_of))]
pub fn decision_of(truth: bool) -> Outcome
    ensures { result ≡ decision_of truth }
{
    if truth { Outcome::True } else { Outcome::False }
}

/// Whether an index is inside an array of a length.
#[tactic(auto, unfolding(cc_model::specs::Plain::index_of))]
pub fn index_of(i: i64, length: u32) -> Outcome
    ensures { result ≡ index_of i length }
{
    if i < 0 {
        return Outcome::Low;
    }
    if i < i64::from(length) {
        return Outcome::Plain;
    }
    Outcome::High
}
