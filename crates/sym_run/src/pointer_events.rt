//! Events on pointers: what they ask, and their outcomes.

ghost use Rattle.std.specs.Prelude.{List, ◌≡◌, ◌≤◌, ◌++◌, ◌∷◌, [], length, map, slice_get, None, Some, IfOk, OnOk};
ghost use Rattle.std.specs.Option.{option_map};
ghost use Rattle.cc_laws.specs.LinearForms.{linear};
ghost use Rattle.cc_model.specs.Core as core;
ghost use Rattle.cc_model.specs.Plain as plain;
ghost use Rattle.cc_model.specs.Traced as traced;
ghost use Rattle.cc_model.specs.Traced.{one_of};
ghost use Rattle.sym_expr.specs.AtomsSeen.{atom_of, side_of};
ghost use Rattle.sym_run.specs.Asks.{asked_of, choice_of, choices_of};
ghost use Rattle.cc_model.specs.Canonical.{Named};
ghost use Rattle.sym_run.specs.declared.symbols.Symbol.{Symbol as PlainSymbol};
ghost use Rattle.sym_run.specs.Beside.{IsCell, IsValue, value_of, traced_of, shadow_of_symbol};
ghost use Rattle.sym_run.specs.Pointers.{place_in, HasNoForm, is_ne, blank};
ghost use Rattle.sym_run.specs.Remembers.{cell_shadow, Remembers};

use crate::asked::Asked;
use crate::objects::{First, Objects};
use crate::symbols::{Symbol, Symbols};
use crate::trace::Choice;
use cc_model::TermKind;
use cc_model::base::{Items, NoMemory, Outcome, TyId};
use checked_memory::{Cell, Value};
use std::alloc::Global;
use sym_expr::{Atom, PlaceId, PtrTerm};

/// The place that a symbol means, with the type to which it points.
fn place_of_symbol(symbol: &Symbol) -> Option<First>
    ensures { result ≡ place_in (shadow_of_symbol symbol.now) }
{
    match symbol {
        Symbol::Place(place, ty) => Some(First {
            place: *place,
            ty: *ty,
        }),
        Symbol::Form(_) => None,
    }
}

/// The place beside a cell's value, with the type to which it points; None where no place stands there.
pub(crate) fn place_beside(symbols: &Symbols, cell: Cell) -> Option<First>
    ensures { result ≡ place_in (cell_shadow symbols.now cell) }
{
    if cell.shadow == 0 {
        return None;
    }
    match symbols.get(cell.shadow - 1) {
        Some(symbol) => place_of_symbol(symbol),
        None => None,
    }
}

/// An outcome that one atom tells.
pub(crate) fn choice(alloc: Global, outcome: Outcome, atom: Atom) -> Result<Choice, NoMemory>
    ensures { IfOk result (λ c. choice_of c ≡ record { outcome = outcome; atoms = atom_of atom ∷ [] }) }
{
    let mut atoms = Items::from_vec(Vec::with_capacity(alloc, 1)?);
    atoms.push(atom)?;
    Ok(Choice { outcome, atoms })
}

/// A decision, by the atoms of true and false.
#[tactic(auto, unfolding(cc_model::specs::Traced::two_choices))]
pub(crate) fn two_choices(alloc: Global, holds: Atom, fails: Atom) -> Result<Asked, NoMemory>
    ensures { IfOk result (λ a. asked_of a ≡ one_of (traced.two_choices (atom_of holds) (atom_of fails))) }
{
    let fails = choice(alloc, Outcome::False, fails)?;
    let holds = choice(alloc, Outcome::True, holds)?;
    let mut choices = Items::new(alloc);
    choices.push(fails)?;
    choices.push(holds)?;
    Ok(Asked::OneOf(choices))
}

/// Whether sides are one.
#[tactic(auto, unfolding(cc_model::specs::Traced::same_side))]
fn same_side(a: PtrTerm, b: PtrTerm) -> bool
    ensures { result ≡ traced.same_side (side_of a) (side_of b) }
{
    match a {
        PtrTerm::Null => match b {
            PtrTerm::Null => true,
            PtrTerm::At(_) => false,
        },
        PtrTerm::At(p) => match b {
            PtrTerm::Null => false,
            PtrTerm::At(q) => p.0 == q.0,
        },
    }
}

/// What a comparison of two sides asks; `differ` says that it is `!=`.
fn both_asked(alloc: Global, differ: bool, a: PtrTerm, b: PtrTerm) -> Result<Asked, NoMemory>
    ensures { IfOk result (λ asked. (o : core.Cmp) → is_ne o ≡ differ
        → asked_of asked ≡ traced.sides_asked o (Some (side_of a)) (Some (side_of b))) }
{
    if same_side(a, b) {
        return Ok(Asked::Nothing);
    }
    if differ {
        return two_choices(alloc, Atom::Differ(a, b), Atom::Same(a, b));
    }
    two_choices(alloc, Atom::Same(a, b), Atom::Differ(a, b))
}

/// What a comparison asks of two sides, if both are there.
#[tactic(auto, unfolding(cc_model::specs::Traced::sides_asked))]
pub(crate) fn sides_asked(
    alloc: Global,
    differ: bool,
    a: Option<PtrTerm>,
    b: Option<PtrTerm>,
) -> Result<Asked, NoMemory>
    ensures { IfOk result (λ asked. (o : core.Cmp) → is_ne o ≡ differ
        → asked_of asked ≡ traced.sides_asked o (option_map side_of a) (option_map side_of b)) }
{
    match a {
        None => Ok(Asked::Nothing),
        Some(a) => match b {
            None => Ok(Asked::Nothing),
            Some(b) => both_asked(alloc, differ, a, b),
        },
    }
}

/// What a comparison of two places asks; a checked program compares no pointers to different types.
#[tactic(auto, unfolding(cc_model::specs::Traced::places_asked))]
fn places_asked(alloc: Global, differ: bool, a: First, b: First) -> Result<Asked, NoMemory>
    ensures { IfOk result (λ asked. (o : core.Cmp) → is_ne o ≡ differ
        → asked_of asked ≡ traced.places_asked o a.place.0 a.ty.0 b.place.0 b.ty.0) }
{
    if a.ty.0 == b.ty.0 {
        return sides_asked(
            alloc,
            differ,
            Some(PtrTerm::At(a.place)),
            Some(PtrTerm::At(b.place)),
        );
    }
    Ok(Asked::Term(TermKind::Wide))
}

/// The first place of the touched block with a rank, if it is of this type.
#[tactic(auto, unfolding(cc_model::specs::Traced::first_if))]
fn first_of_type(firsts: &[First], rank: u8, target: TyId) -> Option<PtrTerm>
    ensures { option_map side_of result ≡ traced.first_if target.0 (option_map blank (slice_get firsts.now rank)) }
{
    match firsts.get(rank as usize) {
        Some(first) => {
            if first.ty.0 == target.0 {
                Some(PtrTerm::At(first.place))
            } else {
                None
            }
        }
        None => None,
    }
}

impl Objects {
    /// The side of a pointer without place, against one to a type.
    #[tactic(auto, unfolding(cc_model::specs::Traced::side_without, cc_model::specs::Traced::side_at, cc_model::specs::Traced::spot_of))]
    fn side_without(&self, target: TyId, value: Value) -> Option<PtrTerm>
        requires { IsValue value }
        ensures { (start : plain.Data) (named : List Named) (symbols : List PlainSymbol) (d : traced.Data)
            → Remembers start named symbols self.now d
            → option_map side_of result ≡ traced.side_without target.0 (value_of value) (d.plain).touched
            (d.shadows).touched }
    {
        match value {
            Value::Null => Some(PtrTerm::Null),
            Value::Int(_) => None,
            Value::Made(_, _) => None,
            Value::Block(address, offset) => {
                if offset != 0 {
                    return None;
                }
                first_of_type(self.firsts.as_slice(), self.rank(address), target)
            }
        }
    }

    /// What a comparison of two pointers asks; `differ` says that it is `!=`.
    pub fn pointers_asked(
        &self,
        alloc: Global,
        symbols: &Symbols,
        differ: bool,
        a: Cell,
        b: Cell,
    ) -> Result<Asked, NoMemory>
        requires left { IsCell symbols.now a }
        requires right { IsCell symbols.now b }
        ensures { IfOk result (λ asked. (start : plain.Data) (named : List Named) (d : traced.Data) (o : core.Cmp)
            → Remembers start named symbols.now self.now d → is_ne o ≡ differ
            → asked_of asked ≡ traced.pointers_asked o (traced_of symbols.now a) (traced_of symbols.now b)
            (d.plain).touched (d.shadows).touched) }
    {
        match place_beside(symbols, a) {
            Some(f) => match place_beside(symbols, b) {
                Some(g) => places_asked(alloc, differ, f, g),
                None => {
                    let other = self.side_without(f.ty, b.value);
                    sides_asked(alloc, differ, Some(PtrTerm::At(f.place)), other)
                }
            },
            None => match place_beside(symbols, b) {
                Some(g) => {
                    let one = self.side_without(g.ty, a.value);
                    sides_asked(alloc, differ, one, Some(PtrTerm::At(g.place)))
                }
                None => Ok(Asked::Nothing),
            },
        }
    }
}

/// What a test of a pointer asks.
#[tactic(auto, unfolding(cc_model::specs::Traced::test_asked))]
pub fn test_asked(alloc: Global, symbols: &Symbols, pointer: Cell) -> Result<Asked, NoMemory>
    ensures { IfOk result (λ asked. HasNoForm (cell_shadow symbols.now pointer)
        → asked_of asked ≡ traced.test_asked linear (cell_shadow symbols.now pointer)) }
{
    match place_beside(symbols, pointer) {
        Some(beside) => two_choices(
            alloc,
            Atom::Differ(PtrTerm::At(beside.place), PtrTerm::Null),
            Atom::Same(PtrTerm::At(beside.place), PtrTerm::Null),
        ),
        None => Ok(Asked::Nothing),
    }
}

/// Whether two pointers are the same.
#[tactic(auto, unfolding(cc_model::specs::Plain::same_ptr, cc_model::specs::Plain::same_obj))]
pub fn same_pointer(a: Value, b: Value) -> bool
    requires left { IsValue a }
    requires right { IsValue b }
    ensures { result ≡ plain.same_ptr (value_of a) (value_of b) }
{
    match a {
        Value::Int(_) => false,
        Value::Null => match b {
            Value::Null => true,
            Value::Int(_) => false,
            Value::Made(_, _) => false,
            Value::Block(_, _) => false,
        },
        Value::Made(n, i) => match b {
            Value::Made(m, j) => n == m && i == j,
            Value::Int(_) => false,
            Value::Null => false,
            Value::Block(_, _) => false,
        },
        Value::Block(x, i) => match b {
            Value::Block(y, j) => x == y && i == j,
            Value::Int(_) => false,
            Value::Null => false,
            Value::Made(_, _) => false,
        },
    }
}

/// The letter of a touched block.
fn letter(alloc: Global, rank: u8, place: PlaceId, first: PlaceId) -> Result<Choice, NoMemory>
    ensures { IfOk result (λ c. choice_of c
        ≡ record {
          outcome = Outcome.Object rank;
          atoms = atom_of (Atom.Same (PtrTerm.At place) (PtrTerm.At first))
              ∷ [];
        }) }
{
    choice(
        alloc,
        Outcome::Object(rank),
        Atom::Same(PtrTerm::At(place), PtrTerm::At(first)),
    )
}

/// Whether a place is the first one of a touched block.
fn is_first(place: PlaceId, firsts: &[First]) -> bool
    ensures { result ≡ traced.is_first place.0 (map blank firsts.now) }
{
    for first in firsts {
        if first.place.0 == place.0 {
            return true;
        }
    }
    false
}

/// Adds the letters of the touched blocks of a type to the choices.
fn add_letters(
    alloc: Global,
    choices: &mut Items<Choice>,
    pointer: First,
    firsts: &[First],
) -> Result<(), NoMemory>
    requires { length firsts.now ≤ 26 }
    ensures { OnOk result (choices_of choices.new
        ≡ choices_of choices.old ++ traced.letters pointer.place.0 pointer.ty.0 0 (map blank firsts.now)) }
{
    for (rank, first) in firsts.iter().enumerate() {
        if pointer.ty.0 == first.ty.0 {
            choices.push(letter(alloc, rank as u8, pointer.place, first.place)?)?;
        }
    }
    Ok(())
}

/// The atoms by which a pointer differs from NULL and from each touched block of its type.
fn differs(alloc: Global, pointer: First, firsts: &[First]) -> Result<Items<Atom>, NoMemory>
    ensures { IfOk result (λ atoms. map atom_of atoms
        ≡ atom_of (Atom.Differ (PtrTerm.At pointer.place) PtrTerm.Null)
        ∷ traced.differs pointer.place.0 pointer.ty.0 (map blank firsts.now)) }
{
    let mut atoms = Items::new(alloc);
    atoms.push(Atom::Differ(PtrTerm::At(pointer.place), PtrTerm::Null))?;
    for first in firsts {
        if pointer.ty.0 == first.ty.0 {
            atoms.push(Atom::Differ(PtrTerm::At(pointer.place), PtrTerm::At(first.place)))?;
        }
    }
    Ok(atoms)
}

/// NULL, a touched block of the pointer's type, or the next one.
#[tactic(auto, unfolding(cc_model::specs::Traced::access_choices))]
fn access_choices(
    alloc: Global,
    pointer: First,
    firsts: &[First],
) -> Result<Items<Choice>, NoMemory>
    requires { length firsts.now ≤ 26 }
    ensures { IfOk result (λ l. choices_of l
        ≡ traced.access_choices pointer.place.0 pointer.ty.0 (map blank firsts.now)) }
{
    let null = choice(
        alloc,
        Outcome::Zero,
        Atom::Same(PtrTerm::At(pointer.place), PtrTerm::Null),
    )?;
    let atoms = differs(alloc, pointer, firsts)?;
    let mut choices = Items::new(alloc);
    choices.push(null)?;
    add_letters(alloc, &mut choices, pointer, firsts)?;
    choices.push(Choice {
        outcome: Outcome::Object(firsts.len() as u8),
        atoms,
    })?;
    Ok(choices)
}

/// What an access through a pointer asks, where these blocks are touched.
#[tactic(auto, unfolding(cc_model::specs::Traced::access_asked))]
pub(crate) fn access_asked(
    alloc: Global,
    symbols: &Symbols,
    firsts: &[First],
    pointer: Cell,
) -> Result<Asked, NoMemory>
    requires { length firsts.now ≤ 26 }
    ensures { IfOk result (λ asked. asked_of asked
        ≡ traced.access_asked (cell_shadow symbols.now pointer) (map blank firsts.now)) }
{
    let Some(beside) = place_beside(symbols, pointer) else {
        return Ok(Asked::Nothing);
    };
    if is_first(beside.place, firsts) {
        return Ok(Asked::Nothing);
    }
    Ok(Asked::OneOf(access_choices(alloc, beside, firsts)?))
}
