//! The classes of places.

ghost use Rattle.std.specs.Prelude.{◌≡◌, ◌<◌, ◌+◌, ◌-◌, ◌^◌, ℕ, length};
ghost use Rattle.std.specs.List.{All};
ghost use Rattle.cc_base.specs.Classes.{SideBelow, PointersBelow};
ghost use Rattle.sym_expr.specs.AtomsSeen.{side_of, atom_of, atoms_of};
ghost use Rattle.pointer_solver.specs.Forest.{IsForest, IsRooted};
ghost use Rattle.pointer_solver.specs.Marks.{class, marked, marked_by, marked_all};

use crate::forest::Forest;
use sym_expr::{Atom, PtrTerm};

impl Forest {
    /// The class of a place.
    fn class_of(&mut self, place: u32) -> u32
        requires inside { place + 1 < length self.old.parents.items }
        requires forest { IsForest self.old.parents.items self.old.ranks.items }
        ensures forest { IsForest self.new.parents.items self.new.ranks.items }
        ensures len { length self.new.parents.items ≡ length self.old.parents.items }
        ensures class { (root : ℕ → ℕ) → IsRooted self.old.parents.items root
            → IsRooted self.new.parents.items root × (result ≡ class root place) }
    {
        let null = self.find(0);
        let own = self.find(place + 1);
        if own == null { 0 } else { own }
    }

    /// Writes the class of a side's place.
    fn mark(&mut self, classes: &mut [u32], side: PtrTerm)
        requires inside { SideBelow (length classes.old) (side_of side) }
        requires size { length classes.old ≡ length self.old.parents.items - 1 }
        requires forest { IsForest self.old.parents.items self.old.ranks.items }
        ensures forest { IsForest self.new.parents.items self.new.ranks.items }
        ensures len { length self.new.parents.items ≡ length self.old.parents.items }
        ensures marked { (root : ℕ → ℕ) → IsRooted self.old.parents.items root
            → IsRooted self.new.parents.items root × (classes.new ≡ marked root (side_of side) classes.old) }
    {
        if let PtrTerm::At(place) = side {
            let class = self.class_of(place.0);
            classes[place.0 as usize] = class;
        }
    }

    /// Writes the classes of an atom's places.
    fn mark_sides(&mut self, classes: &mut [u32], atom: &Atom)
        requires inside { PointersBelow (length classes.old) (atom_of atom.now) }
        requires size { length classes.old ≡ length self.old.parents.items - 1 }
        requires forest { IsForest self.old.parents.items self.old.ranks.items }
        ensures forest { IsForest self.new.parents.items self.new.ranks.items }
        ensures len { length self.new.parents.items ≡ length self.old.parents.items }
        ensures marked { (root : ℕ → ℕ) → IsRooted self.old.parents.items root
            → IsRooted self.new.parents.items root × (classes.new ≡ marked_by root (atom_of atom.now) classes.old) }
    {
        match atom {
            Atom::Same(a, b) => {
                self.mark(classes, *a);
                self.mark(classes, *b);
            }
            Atom::Differ(a, b) => {
                self.mark(classes, *a);
                self.mark(classes, *b);
            }
            _ => {}
        }
    }

    /// Writes the classes of the atoms' places.
    pub(crate) fn mark_all(&mut self, classes: &mut [u32], atoms: &[Atom])
        requires inside { All (λ a. PointersBelow (length classes.old) (atom_of a)) atoms.now }
        requires size { length classes.old ≡ length self.old.parents.items - 1 }
        requires forest { IsForest self.old.parents.items self.old.ranks.items }
        ensures marked { (root : ℕ → ℕ) → IsRooted self.old.parents.items root
            → classes.new ≡ marked_all root (atoms_of atoms.now) classes.old }
    {
        for atom in atoms {
            self.mark_sides(classes, atom);
        }
    }
}
