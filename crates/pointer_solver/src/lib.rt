//! The equality classes of pointer atoms.
#![tactic(auto)]

mod forest;
mod marks;

ghost use Rattle.std.specs.Prelude.{◌<◌, ◌^◌, length, IfOk, IfErr};
ghost use Rattle.std.specs.List.{All};
ghost use Rattle.cc_base.specs.Classes.{PointersBelow, AreClasses};
ghost use Rattle.sym_expr.specs.AtomsSeen.{atom_of, atoms_of};
ghost use Rattle.pointer_solver.specs.Faults.{IsFault};

use crate::forest::Forest;
use cc_base::Items;
use std::alloc::{AllocError, Global};
use sym_expr::Atom;
use thiserror::Error;

/// The class of each place: 0 for NULL's class, and for a place that no atom mentions.
pub type Classes = Items<u32>;

/// Why there are no classes.
#[derive(Clone, Copy, Debug, PartialEq, Eq, Error)]
pub enum PointerFault {
    /// The index, among the atoms, of the first disequality whose sides the equalities force to be the same.
    #[error("the atom {0} contradicts the equalities")]
    Unsat(u32),
    #[error("out of memory")]
    NoMemory,
}

impl From<AllocError> for PointerFault {
    ghost use Rattle.std.specs.Prelude.{◌≡◌};
    ghost use Rattle.pointer_solver.specs.declared.PointerFault.TheVariants.{NoMemory};

    ghost from_gives = { λ _ fault. fault ≡ NoMemory };

    fn from(_error: AllocError) -> Self {
        PointerFault::NoMemory
    }
}

/// The classes of `places` places that the pointer atoms force, or the first atom that contradicts them.
pub fn solve_pointers(alloc: Global, places: u32, atoms: &[Atom]) -> Result<Classes, PointerFault>
    requires few { length atoms.now < 2 ^ 32 }
    requires pointers { All (λ a. PointersBelow places (atom_of a)) atoms.now }
    ensures classes { IfOk result (λ classes. AreClasses (atoms_of atoms.now) places classes) }
    ensures fault { IfErr result (λ f. IsFault (atoms_of atoms.now) f) }
{
    let mut forest = Forest::new(alloc, places)?;
    forest.state_all(atoms);
    if let Some(index) = forest.first_contradiction(atoms) {
        return Err(PointerFault::Unsat(index));
    }
    let mut classes = vec![in alloc; 0; places as usize]?;
    forest.mark_all(&mut classes, atoms);
    Ok(Items::from_vec(classes))
}
