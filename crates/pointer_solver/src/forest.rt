//! Trees of the nodes of sides: union by rank, and find with path halving.

ghost use Rattle.std.specs.Prelude.{◌≡◌, ◌≢◌, ◌<◌, ◌≤◌, ◌+◌, ◌-◌, ◌^◌, ◌↔◌, ℕ, List, [], ◌∷◌, ◌++◌, length};
ghost use Rattle.std.specs.Prelude.{slice_index, slice_get, IfOk, OnOk, IsTrue, MatchOption, Some};
ghost use Rattle.std.specs.List.{All};
ghost use Rattle.cc_base.specs.Forms.{Atom as PlainAtom};
ghost use Rattle.cc_base.specs.Classes.{SideBelow, PointersBelow};
ghost use Rattle.sym_expr.specs.AtomsSeen.{side_of, atom_of, atoms_of};
ghost use Rattle.pointer_solver.specs.Forest.{node, up, IsFirst, IsForest, IsRooted, Joins, Solves, ContradictedAt};

use std::alloc::{AllocError, Global};
use sym_expr::{Atom, PtrTerm};

/// The parents and ranks of the nodes. Node 0 is NULL's, and node p + 1 is that of place p.
#[derive(Drop)]
pub(crate) struct Forest {
    pub(crate) parents: Vec<u32>,
    pub(crate) ranks: Vec<u32>,
}

/// The node of a side.
pub(crate) fn node_of(side: PtrTerm) -> u32
    requires { SideBelow (2 ^ 32 - 1) (side_of side) }
    ensures { result ≡ node (side_of side) }
{
    match side {
        PtrTerm::Null => 0,
        PtrTerm::At(place) => place.0 + 1,
    }
}

impl Forest {
    fn parent(&self, node: u32) -> u32
        requires { node < length self.now.parents.items }
        ensures { result ≡ up self.now.parents.items node }
    {
        self.parents[node as usize]
    }

    fn rank(&self, node: u32) -> u32
        requires { node < length self.now.ranks.items }
        ensures { result ≡ slice_index self.now.ranks.items node }
    {
        self.ranks[node as usize]
    }

    /// The root of a node.
    pub(crate) fn find(&mut self, node: u32) -> u32
        requires within { node < length self.old.parents.items }
        requires forest { IsForest self.old.parents.items self.old.ranks.items }
        ensures forest { IsForest self.new.parents.items self.new.ranks.items }
        ensures ranks { self.new.ranks.items ≡ self.old.ranks.items }
        ensures len { length self.new.parents.items ≡ length self.old.parents.items }
        ensures rooted { (root : ℕ → ℕ) → IsRooted self.old.parents.items root
            → IsRooted self.new.parents.items root × (result ≡ root node) }
        ensures fixed { (x : ℕ) → up self.old.parents.items x ≡ x → up self.new.parents.items x ≡ x }
        ensures top { up self.new.parents.items result ≡ result }
        ensures inside { result < length self.new.parents.items }
    {
        let mut at = node;
        'climb: loop {
            let parent = self.parent(at);
            if parent == at {
                return at;
            }
            let above = self.parent(parent);
            self.parents[at as usize] = above;
            at = above;
        }
    }

    /// Hangs the root `below` on the root `above`.
    fn hang(&mut self, below: u32, above: u32)
        requires below_in { below < length self.old.parents.items }
        requires above_in { above < length self.old.parents.items }
        requires forest { IsForest self.old.parents.items self.old.ranks.items }
        requires below_root { up self.old.parents.items below ≡ below }
        requires above_root { up self.old.parents.items above ≡ above }
        requires apart { below ≢ above }
        requires order { slice_index self.old.ranks.items below ≤ slice_index self.old.ranks.items above }
        requires room { All (λ r. r < 2 ^ 32 - 1) self.old.ranks.items }
        ensures forest { IsForest self.new.parents.items self.new.ranks.items }
        ensures len { length self.new.parents.items ≡ length self.old.parents.items }
        ensures bound { (m : ℕ) → All (λ r. r ≤ m) self.old.ranks.items → All (λ r. r ≤ m + 1) self.new.ranks.items }
        ensures joined { (root : ℕ → ℕ) → IsRooted self.old.parents.items root
            → (joint : ℕ → ℕ) × IsRooted self.new.parents.items joint × Joins root joint below above }
    {
        let rank = self.rank(above).max(self.rank(below) + 1);
        self.ranks[above as usize] = rank;
        self.parents[below as usize] = above;
    }

    /// Makes one tree of the trees of two nodes.
    fn join(&mut self, a: u32, b: u32)
        requires a_in { a < length self.old.parents.items }
        requires b_in { b < length self.old.parents.items }
        requires forest { IsForest self.old.parents.items self.old.ranks.items }
        requires room { All (λ r. r < 2 ^ 32 - 1) self.old.ranks.items }
        ensures forest { IsForest self.new.parents.items self.new.ranks.items }
        ensures len { length self.new.parents.items ≡ length self.old.parents.items }
        ensures bound { (m : ℕ) → All (λ r. r ≤ m) self.old.ranks.items → All (λ r. r ≤ m + 1) self.new.ranks.items }
        ensures joined { (root : ℕ → ℕ) → IsRooted self.old.parents.items root
            → (joint : ℕ → ℕ) × IsRooted self.new.parents.items joint × Joins root joint a b }
    {
        let a = self.find(a);
        let b = self.find(b);
        if a == b {
            return;
        }
        if self.rank(a) <= self.rank(b) {
            self.hang(a, b);
        } else {
            self.hang(b, a);
        }
    }

    /// Each node by itself.
    pub(crate) fn new(alloc: Global, places: u32) -> Result<Forest, AllocError>
        ensures forest { IfOk result (λ f. IsForest f.parents.items f.ranks.items) }
        ensures len { IfOk result (λ f. length f.parents.items ≡ places + 1) }
        ensures bound { IfOk result (λ f. All (λ r. r ≤ 0) f.ranks.items) }
        ensures solved { IfOk result (λ f. Solves f.parents.items []) }
    {
        let mut parents = Vec::new(alloc);
        push_node(&mut parents, 0)?;
        for place in 0..places {
            push_node(&mut parents, place + 1)?;
        }
        let ranks = vec![in alloc; 0; parents.len()]?;
        Ok(Forest { parents, ranks })
    }

    /// Adds what an atom states.
    fn state(&mut self, atom: &Atom)
        requires pointers { PointersBelow (length self.old.parents.items - 1) (atom_of atom.now) }
        requires forest { IsForest self.old.parents.items self.old.ranks.items }
        requires room { All (λ r. r < 2 ^ 32 - 1) self.old.ranks.items }
        ensures forest { IsForest self.new.parents.items self.new.ranks.items }
        ensures len { length self.new.parents.items ≡ length self.old.parents.items }
        ensures bound { (m : ℕ) → All (λ r. r ≤ m) self.old.ranks.items → All (λ r. r ≤ m + 1) self.new.ranks.items }
        ensures solved { (l : List PlainAtom) → Solves self.old.parents.items l
            → Solves self.new.parents.items (l ++ atom_of atom.now ∷ []) }
    {
        if let Atom::Same(a, b) = atom {
            self.join(node_of(*a), node_of(*b));
        }
    }

    /// Adds what the atoms state.
    pub(crate) fn state_all(&mut self, atoms: &[Atom])
        requires pointers { All (λ a. PointersBelow (length self.old.parents.items - 1) (atom_of a)) atoms.now }
        requires few { length atoms.now < 2 ^ 32 }
        requires forest { IsForest self.old.parents.items self.old.ranks.items }
        requires bound { All (λ r. r ≤ 0) self.old.ranks.items }
        requires solved { Solves self.old.parents.items [] }
        ensures forest { IsForest self.new.parents.items self.new.ranks.items }
        ensures len { length self.new.parents.items ≡ length self.old.parents.items }
        ensures solved { Solves self.new.parents.items (atoms_of atoms.now) }
    {
        for atom in atoms {
            self.state(atom);
        }
    }

    /// Whether the atom is a disequality of sides in one tree.
    fn is_contradicted(&mut self, atom: &Atom) -> bool
        requires pointers { PointersBelow (length self.old.parents.items - 1) (atom_of atom.now) }
        requires forest { IsForest self.old.parents.items self.old.ranks.items }
        ensures forest { IsForest self.new.parents.items self.new.ranks.items }
        ensures len { length self.new.parents.items ≡ length self.old.parents.items }
        ensures found { (root : ℕ → ℕ) → IsRooted self.old.parents.items root
            → IsRooted self.new.parents.items root × (IsTrue result ↔ ContradictedAt root (atom_of atom.now)) }
    {
        match atom {
            Atom::Differ(a, b) => {
                let left = self.find(node_of(*a));
                left == self.find(node_of(*b))
            }
            _ => false,
        }
    }

    /// The index of the first disequality of sides in one tree.
    pub(crate) fn first_contradiction(&mut self, atoms: &[Atom]) -> Option<u32>
        requires pointers { All (λ a. PointersBelow (length self.old.parents.items - 1) (atom_of a)) atoms.now }
        requires few { length atoms.now < 2 ^ 32 }
        requires forest { IsForest self.old.parents.items self.old.ranks.items }
        ensures forest { IsForest self.new.parents.items self.new.ranks.items }
        ensures len { length self.new.parents.items ≡ length self.old.parents.items }
        ensures found { (root : ℕ → ℕ) → IsRooted self.old.parents.items root
            → IsRooted self.new.parents.items root × IsFirst root (atoms_of atoms.now) result }
    {
        for (i, atom) in atoms.iter().enumerate() {
            if self.is_contradicted(atom) {
                return Some(i as u32);
            }
        }
        None
    }
}

/// Adds a node by itself.
fn push_node(parents: &mut Vec<u32>, node: u32) -> Result<(), AllocError>
    requires { length parents.old.items ≡ node }
    ensures len { OnOk result (length parents.new.items ≡ node + 1) }
    ensures roots { OnOk result (((x : ℕ) → up parents.old.items x ≡ x) → (x : ℕ) → up parents.new.items x ≡ x) }
{
    if parents.push(node).is_err() {
        return Err(AllocError);
    }
    Ok(())
}
