//! The atoms that are asked: those taken before an event, those of an outcome, and the pointers' among them.

ghost use Rattle.std.specs.Prelude.{◌≡◌, ◌++◌, ◌∷◌, [], IfOk, OnOk, if◌then◌else◌};
ghost use Rattle.cc_model.specs.Conditions.{atoms_of as atoms_among};
ghost use Rattle.sym_expr.specs.AtomsSeen.{atom_of, atoms_of};
ghost use Rattle.sym_run.specs.Asks.{choices_of};
ghost use Rattle.flip_solve.specs.Choosing.{pointer_part, pointers_of, taken_of};

use cc_model::base::{Items, NoMemory, Outcome};
use std::alloc::Global;
use sym_expr::Atom;
use sym_run::{Choice, Event, same_outcome};

/// Appends atoms.
fn push_all(atoms: &mut Items<Atom>, more: &[Atom]) -> Result<(), NoMemory>
    ensures { OnOk result (atoms.new ≡ atoms.old ++ more.now) }
{
    for atom in more {
        atoms.push(atom.copy())?;
    }
    Ok(())
}

/// The atoms taken at events, in order.
pub(crate) fn taken_at(alloc: Global, events: &[Event]) -> Result<Items<Atom>, NoMemory>
    ensures { IfOk result (λ l. atoms_of l ≡ taken_of events.now) }
{
    let mut atoms = Items::new(alloc);
    for event in events {
        push_all(&mut atoms, event.taken.atoms.as_slice())?;
    }
    Ok(atoms)
}

/// The atoms of an outcome among choices; none where it is not one of them.
pub(crate) fn atoms_for(choices: &[Choice], outcome: Outcome) -> &[Atom]
    ensures { atoms_of result.now ≡ atoms_among outcome (choices_of choices.now) }
{
    for choice in choices {
        if same_outcome(choice.outcome, outcome) {
            return choice.atoms.as_slice();
        }
    }
    &[]
}

/// Whether the atom is one of pointers.
fn is_pointer(atom: &Atom) -> bool
    ensures { pointer_part (atom_of atom.now) ≡ (if result then atom_of atom.now ∷ [] else []) }
{
    match atom {
        Atom::Same(_, _) => true,
        Atom::Differ(_, _) => true,
        Atom::Le(_) => false,
        Atom::Eq(_) => false,
        Atom::Ne(_) => false,
    }
}

/// Appends the pointer atoms of a list.
pub(crate) fn push_pointers(pointers: &mut Items<Atom>, atoms: &[Atom]) -> Result<(), NoMemory>
    ensures { OnOk result (atoms_of pointers.new ≡ atoms_of pointers.old ++ pointers_of (atoms_of atoms.now)) }
{
    for atom in atoms {
        if is_pointer(atom) {
            pointers.push(atom.copy())?;
        }
    }
    Ok(())
}
