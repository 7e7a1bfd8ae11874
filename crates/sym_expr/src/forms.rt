//! Linear forms over places.

ghost use Rattle.std.specs.Prelude.{◌≡◌, ◌≢◌, ◌≤◌, ◌<◌, ◌^◌, ℕ, ℤ, pos, ◌+ℤ◌, ◌-ℤ◌, ◌*ℤ◌, neg_ℤ, ◌↔◌, unsigned_abs};
ghost use Rattle.std.specs.Prelude.{length, map, [], IfOk, OnErr, IfSome, IfNone, IsTrue, OkIff};
ghost use Rattle.std.specs.List.{All};
ghost use Rattle.sym_expr.specs.TermsSeen.{multiple_of, multiples_of};
ghost use Rattle.cc_base.specs.Places.{at_place};
ghost use Rattle.cc_base.specs.Holds.{total, value_of_form, or_zero};
ghost use Rattle.sym_expr.specs.Sums.{AllSmall, form_with, sum_of, difference_of, opposite_of, multiple_of_form};
ghost use Rattle.sym_expr.specs.Sums.{shifted, number_form, place_form, scaled, IsNarrow, IsForm, negated, Ascending};

use crate::merging::{Terms, merged, push_all, push_unless_zero};
use crate::places::{PlaceId, Places};
use arrayvec::ArrayVec;
use cc_base::Input;
use std::marker::Model;
use thiserror::Error;

/// The greatest absolute value of a coefficient.
const COEFFICIENT_LIMIT: u128 = 1 << 40;

/// The greatest absolute value of a constant that isn't shifted.
const CONSTANT_LIMIT: u128 = 1 << 72;

/// A form would have more than 16 terms, a coefficient above 2^40 or a constant above 2^72 in absolute value.
#[derive(Clone, Copy, Debug, Error)]
#[error("the form is too wide")]
pub struct Wide;

/// A multiple of a place's value.
#[derive(Clone, Copy, Default)]
pub struct FormTerm {
    pub coefficient: i64,
    pub place: PlaceId,
}

/// A constant and at most 16 multiples of places, ascending by place, none of them zero.
#[derive(Drop)]
pub struct Form {
    constant: i128,
    terms: ArrayVec<FormTerm, 16>,
}

impl Model for Form {
    ghost use Rattle.cc_base.specs.Forms.{Form as PlainForm};
    ghost use Rattle.sym_expr.specs.Sums.{IsForm};

    ghost Value = { PlainForm };

    ghost use Rattle.sym_expr.specs.TermsSeen.{multiples_of};

    ghost view = { λ g. record { constant = g.constant; terms = multiples_of g.terms.items } };

    ghost invariant = { λ g. IsForm (record { constant = g.constant; terms = multiples_of g.terms.items }) };
}

impl Form {
    /// The number `c`, without terms.
    pub fn number(c: i32) -> Form
        ensures form { result ≡ number_form c }
        ensures values { (h : ℕ → ℤ) → value_of_form h result ≡ c }
    {
        Form {
            constant: i128::from(c),
            terms: ArrayVec::new(),
        }
    }

    /// The value of the place `p`.
    pub fn of(p: PlaceId) -> Form
        ensures form { result ≡ place_form p.0 }
        ensures values { (h : ℕ → ℤ) → value_of_form h result ≡ h p.0 }
    {
        let mut terms = ArrayVec::new();
        terms.push(FormTerm {
            coefficient: 1,
            place: p,
        });
        Form { constant: 0, terms }
    }

    /// The constant, which is at most 2^72 + 2^33 in absolute value.
    pub fn constant(&self) -> i128
        ensures value { result ≡ self.now.constant }
        ensures alone { self.now.terms ≡ [] → (h : ℕ → ℤ) → value_of_form h self.now ≡ result }
        ensures form { IsForm self.now }
    {
        self.constant
    }

    /// The terms, ascending by place.
    pub fn terms(&self) -> &[FormTerm]
        ensures value { multiples_of result.now ≡ self.now.terms }
        ensures form { IsForm self.now }
    {
        self.terms.as_slice()
    }

    /// The same form.
    pub fn copy(&self) -> Form
        ensures { result ≡ self.now }
    {
        Form {
            constant: self.constant,
            terms: copied(self.terms.as_slice()),
        }
    }

    /// The sum. It is Wide exactly where it has more than 16 terms, a coefficient above 2^40 or a constant above 2^72
    /// in absolute value.
    pub fn add(&self, b: &Form) -> Result<Form, Wide>
        ensures form { OkIff result (IsNarrow (sum_of self.now b.now)) (sum_of self.now b.now) }
        ensures values { IfOk result (λ g. (h : ℕ → ℤ)
            → value_of_form h g ≡ value_of_form h self.now +ℤ value_of_form h b.now) }
    {
        let terms = merged(self.terms.as_slice(), b.terms.as_slice());
        narrowed(self.constant + b.constant, terms.as_slice())
    }

    /// The difference, which is Wide as a sum is.
    pub fn sub(&self, b: &Form) -> Result<Form, Wide>
        ensures form { OkIff result (IsNarrow (difference_of self.now b.now)) (difference_of self.now b.now) }
        ensures values { IfOk result (λ g. (h : ℕ → ℤ)
            → value_of_form h g ≡ value_of_form h self.now -ℤ value_of_form h b.now) }
    {
        self.add(&b.opposite())
    }

    /// `k` times the form, which is Wide as a sum is.
    pub fn scale(&self, k: i64) -> Result<Form, Wide>
        ensures form { OkIff result (IsNarrow (multiple_of_form k self.now)) (multiple_of_form k self.now) }
        ensures values { IfOk result (λ g. (h : ℕ → ℤ) → value_of_form h g ≡ k *ℤ value_of_form h self.now) }
    {
        let Some(constant) = scaled_constant(k, self.constant) else {
            return Err(Wide);
        };
        let terms = scaled_terms(self.terms.as_slice(), k)?;
        narrowed(constant, terms.as_slice())
    }

    /// The form with `c` added to its constant.
    pub fn shift(&self, c: i64) -> Form
        requires constant { unsigned_abs self.now.constant ≤ 2 ^ 72 }
        requires small { unsigned_abs c ≤ 2 ^ 33 }
        ensures form { result ≡ shifted c self.now }
        ensures values { (h : ℕ → ℤ) → value_of_form h result ≡ value_of_form h self.now +ℤ c }
    {
        Form {
            constant: self.constant + i128::from(c),
            terms: copied(self.terms.as_slice()),
        }
    }

    /// The form with the opposite sign.
    pub fn opposite(&self) -> Form
        ensures form { result ≡ opposite_of self.now }
        ensures values { (h : ℕ → ℤ) → value_of_form h result ≡ neg_ℤ (value_of_form h self.now) }
    {
        Form {
            constant: -self.constant,
            terms: negated_terms(self.terms.as_slice()),
        }
    }

    /// The value at an input; a place without a value counts as 0.
    pub(crate) fn value_at(&self, places: &Places, input: &Input, base: i32) -> i128
        ensures { result ≡ value_of_form (or_zero (at_place places.now input.now base)) self.now }
    {
        self.constant + total_at(self.terms.as_slice(), places, input, base)
    }
}

/// A term's value at an input.
fn term_at(term: FormTerm, places: &Places, input: &Input, base: i32) -> i128
    requires { unsigned_abs term.coefficient ≤ 2 ^ 40 }
    ensures value { result ≡ term.coefficient *ℤ or_zero (at_place places.now input.now base) term.place.0 }
    ensures bound { unsigned_abs result ≤ 2 ^ 103 }
{
    product(
        term.coefficient,
        places.at(term.place, input, base).unwrap_or(0),
    )
}

/// The sum of the terms' values at an input.
fn total_at(terms: &[FormTerm], places: &Places, input: &Input, base: i32) -> i128
    requires few { length terms.now ≤ 16 }
    requires small { All (λ t. unsigned_abs t.coefficient ≤ 2 ^ 40) terms.now }
    ensures value { result ≡ total (or_zero (at_place places.now input.now base)) (multiples_of terms.now) }
    ensures bound { unsigned_abs result ≤ 2 ^ 107 }
{
    let mut sum = 0;
    for term in terms {
        sum += term_at(*term, places, input, base);
    }
    sum
}

/// The terms, of which there are at most 16.
fn copied(terms: &[FormTerm]) -> ArrayVec<FormTerm, 16>
    requires { length terms.now ≤ 16 }
    ensures { result.items ≡ terms.now }
{
    let mut out = ArrayVec::new();
    push_all(&mut out, terms);
    out
}

/// Each term with the opposite sign.
fn negated_terms(terms: &[FormTerm]) -> ArrayVec<FormTerm, 16>
    requires few { length terms.now ≤ 16 }
    requires small { All (λ t. unsigned_abs t.coefficient ≤ 2 ^ 40) terms.now }
    ensures { multiples_of result.items ≡ map negated (multiples_of terms.now) }
{
    let mut out = ArrayVec::new();
    for term in terms {
        out.push(opposite_term(*term));
    }
    out
}

fn opposite_term(term: FormTerm) -> FormTerm
    requires { unsigned_abs term.coefficient ≤ 2 ^ 40 }
    ensures { multiple_of result ≡ negated (multiple_of term) }
{
    FormTerm {
        coefficient: -term.coefficient,
        place: term.place,
    }
}

/// The product, which 128 bits hold.
pub(crate) fn product(a: i64, b: i64) -> i128
    ensures value { result ≡ a *ℤ b }
    ensures bound { unsigned_abs result ≤ 2 ^ 126 }
    ensures narrow { unsigned_abs a ≤ 2 ^ 40 → unsigned_abs result ≤ 2 ^ 103 }
{
    i128::from(a) * i128::from(b)
}

/// `k` times a constant, unless 128 bits don't hold it.
fn scaled_constant(k: i64, constant: i128) -> Option<i128>
    ensures some { IfSome result (λ z. z ≡ k *ℤ constant) }
    ensures none { IfNone result (2 ^ 72 < unsigned_abs (k *ℤ constant)) }
{
    i128::from(k).checked_mul(constant)
}

/// `k` times each term; Wide where a coefficient is too large.
fn scaled_terms(terms: &[FormTerm], k: i64) -> Result<Terms, Wide>
    requires { length terms.now ≤ 16 }
    ensures ok { IfOk result (λ r. multiples_of r.items ≡ scaled k (multiples_of terms.now)) }
    ensures wide { OnErr result (AllSmall (scaled k (multiples_of terms.now)) → ⊥) }
{
    let mut out = Terms::new();
    for term in terms {
        let coefficient = product(k, term.coefficient);
        if coefficient.unsigned_abs() > COEFFICIENT_LIMIT {
            return Err(Wide);
        }
        push_unless_zero(&mut out, term.place, coefficient as i64);
    }
    Ok(out)
}

/// Each coefficient is within its limit.
fn all_small(terms: &[FormTerm]) -> bool
    ensures { IsTrue result ↔ All (λ t. unsigned_abs t.coefficient ≤ 2 ^ 40) terms.now }
{
    terms.iter().all(|t| u128::from(t.coefficient.unsigned_abs()) <= COEFFICIENT_LIMIT)
}

/// The form of a constant and terms, unless it is too wide.
fn narrowed(constant: i128, terms: &[FormTerm]) -> Result<Form, Wide>
    requires ascending { Ascending (multiples_of terms.now) }
    requires not_zero { All (λ t. t.coefficient ≢ pos 0) (multiples_of terms.now) }
    ensures { OkIff result (IsNarrow (form_with constant (multiples_of terms.now)))
        (form_with constant (multiples_of terms.now)) }
{
    if constant.unsigned_abs() > CONSTANT_LIMIT {
        return Err(Wide);
    }
    if terms.len() > 16 {
        return Err(Wide);
    }
    if !all_small(terms) {
        return Err(Wide);
    }
    Ok(Form {
        constant,
        terms: copied(terms),
    })
}
