//! What events on numbers ask of the input.

ghost use Rattle.std.specs.Prelude.{◌≡◌, pos, negsuc, [], ◌∷◌, true, false, IfOk};
ghost use Rattle.cc_base.specs.Forms.{Form as PlainForm, at_most_zero, is_zero, not_zero};
ghost use Rattle.cc_model.specs.Traced as traced;
ghost use Rattle.cc_model.specs.Traced.{one_of, form};
ghost use Rattle.cc_laws.specs.LinearForms.{linear};
ghost use Rattle.sym_expr.specs.AtomsSeen.{atom_of};
ghost use Rattle.sym_expr.specs.Sums.{IsNarrow, opposite_of};
ghost use Rattle.sym_run.specs.Asks.{choice_of, choices_of, asked_of};
ghost use Rattle.sym_run.specs.Beside.{IsCell};
ghost use Rattle.sym_run.specs.Numbers.{cmp_of, formed_seen, IsKept, form_at, choice_with};

use crate::asked::Asked;
use crate::numbers::Comparison;
use crate::operations::{Formed, depends, either_depends, form_of};
use crate::symbols::Symbols;
use crate::trace::Choice;
use cc_model::TermKind;
use cc_model::base::{Items, NoMemory, Outcome};
use checked_memory::Cell;
use std::alloc::Global;
use sym_expr::{Atom, Form};

/// The opposite of a form, which is as narrow.
fn opposite(form: &Form) -> Form
    requires { IsNarrow form.now }
    ensures form { result ≡ opposite_of form.now }
    ensures narrow { IsNarrow result }
{
    form.opposite()
}

/// An outcome with one atom.
fn choice(alloc: Global, outcome: Outcome, atom: Atom) -> Result<Choice, NoMemory>
    ensures { IfOk result (λ r. choice_of r ≡ choice_with outcome (atom_of atom ∷ [])) }
{
    let mut atoms = Items::from_vec(Vec::with_capacity(alloc, 1)?);
    atoms.push(atom)?;
    Ok(Choice { outcome, atoms })
}

/// That a result fits: it is at most 2147483647, and at least -2147483648.
fn plain_choice(alloc: Global, form: &Form, opposite: &Form) -> Result<Choice, NoMemory>
    requires form { IsNarrow form.now }
    requires opposite { IsNarrow opposite.now }
    ensures { IfOk result (λ r. choice_of r
        ≡ choice_with Outcome.Plain (at_most_zero (linear.shift form.now (negsuc 2147483646))
        ∷ at_most_zero (linear.shift opposite.now (negsuc 2147483647)) ∷ [])) }
{
    let mut atoms = Items::from_vec(Vec::with_capacity(alloc, 2)?);
    atoms.push(Atom::Le(form.shift(-2_147_483_647)))?;
    atoms.push(Atom::Le(opposite.shift(-2_147_483_648)))?;
    Ok(Choice {
        outcome: Outcome::Plain,
        atoms,
    })
}

/// Three choices.
fn three(alloc: Global, a: Choice, b: Choice, c: Choice) -> Result<Items<Choice>, NoMemory>
    ensures { IfOk result (λ r. choices_of r ≡ choice_of a ∷ choice_of b ∷ choice_of c ∷ []) }
{
    let mut choices = Items::new(alloc);
    choices.push(a)?;
    choices.push(b)?;
    choices.push(c)?;
    Ok(choices)
}

/// The result is above 2147483647, below -2147483648, or between.
#[tactic(auto, unfolding(cc_model::specs::Traced::fit_choices))]
fn fit_choices(alloc: Global, form: &Form) -> Result<Items<Choice>, NoMemory>
    requires { IsNarrow form.now }
    ensures { IfOk result (λ r. choices_of r ≡ traced.fit_choices linear form.now) }
{
    let opposite = opposite(form);
    let high = choice(
        alloc,
        Outcome::High,
        Atom::Le(opposite.shift(2_147_483_648)),
    )?;
    let low = choice(alloc, Outcome::Low, Atom::Le(form.shift(2_147_483_649)))?;
    let plain = plain_choice(alloc, form, &opposite)?;
    three(alloc, high, low, plain)
}

/// What the event asks at which a result has to fit.
#[tactic(auto, unfolding(cc_model::specs::Traced::fit_asked))]
pub fn fit_asked(alloc: Global, formed: &Formed) -> Result<Asked, NoMemory>
    requires { IsKept (formed_seen formed.now) }
    ensures { IfOk result (λ r. asked_of r ≡ traced.fit_asked linear (formed_seen formed.now)) }
{
    match formed {
        Formed::PlainNumber => Ok(Asked::Nothing),
        Formed::Linear(form) => Ok(Asked::OneOf(fit_choices(alloc, form)?)),
        Formed::Termed(kind) => Ok(Asked::Term(*kind)),
    }
}

/// A decision: that `no` holds, or that `yes` does.
#[tactic(auto, unfolding(cc_model::specs::Traced::two_choices))]
pub fn two_choices(alloc: Global, yes: Atom, no: Atom) -> Result<Asked, NoMemory>
    ensures { IfOk result (λ r. asked_of r ≡ one_of (traced.two_choices (atom_of yes) (atom_of no))) }
{
    let mut choices = Items::new(alloc);
    choices.push(choice(alloc, Outcome::False, no)?)?;
    choices.push(choice(alloc, Outcome::True, yes)?)?;
    Ok(Asked::OneOf(choices))
}

/// The comparison that holds exactly where this one doesn't.
#[tactic(auto, unfolding(cc_model::specs::Traced::compare_atom))]
fn converse(comparison: Comparison) -> Comparison
    ensures { (g : PlainForm) → traced.compare_atom linear (cmp_of result) true g
        ≡ traced.compare_atom linear (cmp_of comparison) false g }
{
    match comparison {
        Comparison::Equal => Comparison::Unequal,
        Comparison::Unequal => Comparison::Equal,
        Comparison::Less => Comparison::AtLeast,
        Comparison::Greater => Comparison::AtMost,
        Comparison::AtMost => Comparison::Greater,
        Comparison::AtLeast => Comparison::Less,
    }
}

/// A form's opposite and 1, at most 0: the form is at least 1.
fn positive(form: &Form) -> Atom
    requires { IsNarrow form.now }
    ensures { atom_of result ≡ at_most_zero (linear.shift (linear.opposite form.now) (pos 1)) }
{
    Atom::Le(opposite(form).shift(1))
}

/// A form against 0.
#[tactic(auto, unfolding(cc_model::specs::Traced::compare_atom))]
fn compare_atom(comparison: Comparison, form: &Form) -> Atom
    requires { IsNarrow form.now }
    ensures { atom_of result ≡ traced.compare_atom linear (cmp_of comparison) true form.now }
{
    match comparison {
        Comparison::Equal => Atom::Eq(form.copy()),
        Comparison::Unequal => Atom::Ne(form.copy()),
        Comparison::Less => Atom::Le(form.shift(1)),
        Comparison::Greater => positive(form),
        Comparison::AtMost => Atom::Le(form.copy()),
        Comparison::AtLeast => Atom::Le(form.opposite()),
    }
}

/// What a comparison of a form with 0 asks.
fn zero_asked(alloc: Global, comparison: Comparison, form: &Form) -> Result<Asked, NoMemory>
    requires { IsNarrow form.now }
    ensures { IfOk result (λ r. asked_of r
        ≡ one_of (traced.two_choices (traced.compare_atom linear (cmp_of comparison) true form.now)
        (traced.compare_atom linear (cmp_of comparison) false form.now))) }
{
    let yes = compare_atom(comparison, form);
    let no = compare_atom(converse(comparison), form);
    two_choices(alloc, yes, no)
}

/// What a comparison of two numbers of which one hangs on the input asks.
fn difference_asked(
    alloc: Global,
    comparison: Comparison,
    a: &Form,
    b: &Form,
) -> Result<Asked, NoMemory>
    ensures { IfOk result (λ r. asked_of r
        ≡ traced.difference_asked linear (cmp_of comparison) (linear.difference a.now b.now)) }
{
    match a.sub(b) {
        Ok(difference) => zero_asked(alloc, comparison, &difference),
        Err(_) => Ok(Asked::Term(TermKind::Wide)),
    }
}

/// What a comparison of two numbers asks.
pub fn numbers_asked(
    alloc: Global,
    comparison: Comparison,
    a: &Form,
    b: &Form,
) -> Result<Asked, NoMemory>
    ensures { IfOk result (λ r. asked_of r ≡ traced.numbers_asked linear (cmp_of comparison) a.now b.now) }
{
    if either_depends(a, b) {
        return difference_asked(alloc, comparison, a, b);
    }
    Ok(Asked::Nothing)
}

/// What the test asks whether a number isn't 0.
pub fn test_asked(alloc: Global, number: &Form) -> Result<Asked, NoMemory>
    ensures { IfOk result (λ r. asked_of r ≡ traced.test_asked linear (form number.now)) }
{
    if depends(number) {
        return two_choices(alloc, Atom::Ne(number.copy()), Atom::Eq(number.copy()));
    }
    Ok(Asked::Nothing)
}

/// What the event asks at which a divisor mustn't be 0: a quotient of which an operand hangs on the input is a term.
pub fn divisor_asked(a: &Form, b: &Form) -> Asked
    ensures { asked_of result ≡ traced.divisor_asked linear a.now b.now }
{
    if either_depends(a, b) {
        return Asked::Term(TermKind::Quotient);
    }
    Asked::Nothing
}

/// What the event asks at which an index has to be inside.
pub fn index_asked(i: &Form) -> Asked
    ensures { asked_of result ≡ traced.index_asked linear i.now }
{
    if depends(i) {
        return Asked::Term(TermKind::Index);
    }
    Asked::Nothing
}

/// What the divisor event of two cells asks.
pub fn divisor_cells(symbols: &Symbols, a: Cell, b: Cell) -> Asked
    requires left { IsCell symbols.now a }
    requires right { IsCell symbols.now b }
    ensures { asked_of result ≡ traced.divisor_asked linear (form_at symbols.now a) (form_at symbols.now b) }
{
    if a.shadow == 0 && b.shadow == 0 {
        return Asked::Nothing;
    }
    divisor_asked(&form_of(symbols, a), &form_of(symbols, b))
}

/// What the index event of a cell asks.
pub fn index_cell(symbols: &Symbols, i: Cell) -> Asked
    requires { IsCell symbols.now i }
    ensures { asked_of result ≡ traced.index_asked linear (form_at symbols.now i) }
{
    if i.shadow == 0 {
        return Asked::Nothing;
    }
    index_asked(&form_of(symbols, i))
}

/// What a comparison of the numbers in two cells asks.
pub fn numbers_cells(
    alloc: Global,
    symbols: &Symbols,
    comparison: Comparison,
    a: Cell,
    b: Cell,
) -> Result<Asked, NoMemory>
    requires left { IsCell symbols.now a }
    requires right { IsCell symbols.now b }
    ensures { IfOk result (λ r. asked_of r
        ≡ traced.numbers_asked linear (cmp_of comparison) (form_at symbols.now a) (form_at symbols.now b)) }
{
    if a.shadow == 0 && b.shadow == 0 {
        return Ok(Asked::Nothing);
    }
    numbers_asked(
        alloc,
        comparison,
        &form_of(symbols, a),
        &form_of(symbols, b),
    )
}

/// What the test of a cell's number asks.
pub fn test_cell(alloc: Global, symbols: &Symbols, a: Cell) -> Result<Asked, NoMemory>
    requires { IsCell symbols.now a }
    ensures { IfOk result (λ r. asked_of r ≡ traced.test_asked linear (form (form_at symbols.now a))) }
{
    if a.shadow == 0 {
        return Ok(Asked::Nothing);
    }
    test_asked(alloc, &form_of(symbols, a))
}
