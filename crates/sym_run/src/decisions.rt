//! Comparisons and tests of values of any kind.

ghost use Rattle.std.specs.Prelude.{List, ℕ, ◌≡◌, IfOk};
ghost use Rattle.cc_model.specs.Core as core;
ghost use Rattle.cc_model.specs.Plain as plain;
ghost use Rattle.cc_model.specs.Traced as traced;
ghost use Rattle.cc_model.specs.Canonical.{Named};
ghost use Rattle.sym_run.specs.Asks.{asked_of};
ghost use Rattle.sym_run.specs.Beside.{IsCell, value_of, traced_of};
ghost use Rattle.sym_run.specs.Follows.{is_number, compared, tested, IsDecided};
ghost use Rattle.sym_run.specs.Numbers.{cmp_of};
ghost use Rattle.sym_run.specs.Pointers.{is_ne};
ghost use Rattle.sym_run.specs.Remembers.{IsKnown, names_in, Remembers};

use crate::number_acts::{Decided, compare_numbers, test_number};
use crate::numbers::{Comparison, decision_of, is_truth};
use crate::objects::Objects;
use crate::pointer_events::{same_pointer, test_asked};
use crate::symbols::Symbols;
use cc_model::base::NoMemory;
use checked_memory::{Cell, Value};
use std::alloc::Global;

/// Whether a value is a number.
fn is_number(value: Value) -> bool
    ensures { result ≡ is_number value }
{
    match value {
        Value::Int(_) => true,
        Value::Null => false,
        Value::Made(_, _) => false,
        Value::Block(_, _) => false,
    }
}

/// Whether a comparison asks that values differ.
fn is_unequal(comparison: Comparison) -> bool
    ensures { is_ne (cmp_of comparison) ≡ result }
{
    match comparison {
        Comparison::Unequal => true,
        Comparison::Equal => false,
        Comparison::Less => false,
        Comparison::Greater => false,
        Comparison::AtMost => false,
        Comparison::AtLeast => false,
    }
}

/// Whether a number isn't 0, or a pointer isn't NULL.
#[tactic(auto, unfolding(cc_model::specs::Plain::is_truth))]
fn truth_of(value: Value) -> bool
    ensures { result ≡ plain.is_truth (value_of value) }
{
    match value {
        Value::Int(number) => is_truth(number),
        Value::Null => false,
        Value::Made(_, _) => true,
        Value::Block(_, _) => true,
    }
}

impl Objects {
    /// A comparison of two pointers.
    fn compare_pointers(
        &self,
        alloc: Global,
        symbols: &Symbols,
        comparison: Comparison,
        a: Cell,
        b: Cell,
    ) -> Result<Decided, NoMemory>
        requires left { IsCell symbols.now a }
        requires right { IsCell symbols.now b }
        ensures outcome { IfOk result (λ r. r.outcome
            ≡ plain.decision_of (plain.compare_ptr (cmp_of comparison) (value_of a.value) (value_of b.value))) }
        ensures asked { IfOk result (λ r. (start : plain.Data) (named : List Named) (d : traced.Data)
            → Remembers start named symbols.now self.now d
            → asked_of r.asked ≡ traced.pointers_asked (cmp_of comparison) (traced_of symbols.now a)
            (traced_of symbols.now b) (d.plain).touched (d.shadows).touched) }
    {
        let differ = is_unequal(comparison);
        let asked = self.pointers_asked(alloc, symbols, differ, a, b)?;
        let same = same_pointer(a.value, b.value);
        let outcome = if differ {
            decision_of(!same)
        } else {
            decision_of(same)
        };
        Ok(Decided { outcome, asked })
    }

    /// A comparison of two numbers or of two pointers. No memory, too, for a number and a pointer.
    pub fn compare(
        &self,
        alloc: Global,
        symbols: &Symbols,
        comparison: Comparison,
        a: Cell,
        b: Cell,
    ) -> Result<Decided, NoMemory>
        requires left { IsCell symbols.now a }
        requires right { IsCell symbols.now b }
        ensures { IfOk result (λ r. (start : plain.Data) (named : List Named) (d : traced.Data)
            (layout_of : ℕ → List core.Cell)
            → Remembers start named symbols.now self.now d → IsKnown named (names_in self.now) symbols.now a
            → IsKnown named (names_in self.now) symbols.now b
            → IsDecided r (compared layout_of (cmp_of comparison) symbols.now a b d)) }
    {
        if is_number(a.value) {
            if is_number(b.value) {
                return compare_numbers(alloc, symbols, comparison, a, b);
            }
            return Err(NoMemory);
        }
        if is_number(b.value) {
            return Err(NoMemory);
        }
        self.compare_pointers(alloc, symbols, comparison, a, b)
    }
}

/// The test whether a number isn't 0, or a pointer isn't NULL.
pub fn test(alloc: Global, symbols: &Symbols, a: Cell) -> Result<Decided, NoMemory>
    requires { IsCell symbols.now a }
    ensures { IfOk result (λ r. (named : List Named) (touched : List ℕ) (d : traced.Data)
        (layout_of : ℕ → List core.Cell)
        → IsKnown named touched symbols.now a → IsDecided r (tested layout_of symbols.now a d)) }
{
    if is_number(a.value) {
        return test_number(alloc, symbols, a);
    }
    let asked = test_asked(alloc, symbols, a)?;
    let outcome = decision_of(truth_of(a.value));
    Ok(Decided { outcome, asked })
}
