//! The open branches of a depth-first search: levels of unsettled outcomes, in room that is taken once.
#![tactic(auto)]

ghost use Rattle.std.specs.Prelude.{List, ◌≡◌, ◌*◌, ◌+◌, ◌<◌, ◌≤◌, [], ◌∷◌, length, IfOk, IfSome, IfNone, None};
ghost use Rattle.cc_base.specs.declared.outcomes.Outcome.{Outcome};
ghost use Rattle.cc_base.specs.Paths.{Ascend};
ghost use Rattle.path_tree.specs.Branches.{unsettled, NoneOpen, IsLeast, IsOpen, IsOver, EachAscends, settled, HasRoom};
ghost use Rattle.path_tree.specs.Branches.{with_least, IsSomeOpen, Takes};

use cc_base::{NoMemory, Outcome};
use std::alloc::Global;
use std::marker::Model;

/// The index of a node, where there is one.
type Link = Option<usize>;

/// A level, an unsettled outcome of a level, or a free node.
#[derive(Clone, Copy)]
struct Node {
    /// Of an outcome.
    outcome: Outcome,
    /// Of a level, the level above; of an outcome, its level.
    parent: Link,
    /// Of a level, its least unsettled outcome.
    first_child: Link,
    /// Of an outcome, the next greater one of its level; of a free node, the next free node.
    next_sibling: Link,
}

/// The open branches of a depth-first search: a stack of levels, each of unsettled outcomes.
#[derive(Drop)]
pub struct Tree {
    nodes: Vec<Node>,
    deepest: Link,
    free: Link,
    most: u32,
    depth: u32,
    live: u32,
}

impl Model for Tree {
    ghost use Rattle.path_tree.specs.Branches.{Branches};

    ghost Value = { Branches };

    ghost use Rattle.path_tree.specs.Inside.{branches_of, IsTree};

    ghost view = { branches_of };

    ghost invariant = { IsTree };
}

impl Tree {
    /// A tree with no level, with room for `depth + 1` levels. The depth is at most 1,024.
    pub fn new(alloc: Global, depth: u32) -> Result<Tree, NoMemory>
        requires { depth ≤ 1024 }
        ensures { IfOk result (λ t. t ≡ record { most = depth + 1; levels = [] }) }
    {
        let most = depth + 1;
        let room = 30 * most as usize;
        let mut nodes = Vec::with_capacity(alloc, room)?;
        let mut free = None;
        for index in 0..room {
            nodes.push(Node {
                outcome: Outcome::Plain,
                parent: None,
                first_child: None,
                next_sibling: free,
            })?;
            free = Some(index);
        }
        Ok(Tree {
            nodes,
            deepest: None,
            free,
            most,
            depth: 0,
            live: 0,
        })
    }

    /// Adds a new deepest level of unsettled outcomes: 1 to 29, strictly ascending by their bytes. There has to be
    /// room for a level.
    pub fn push(&mut self, outcomes: &[Outcome])
        requires some { 1 ≤ length outcomes.now }
        requires few { length outcomes.now ≤ 29 }
        requires ascending { Ascend outcomes.now }
        requires room { length self.old.levels < self.old.most }
        ensures { self.new ≡ record self.old { levels = outcomes.now ∷ self.old.levels } }
    {
        self.open_level();
        let mut left = outcomes.len();
        while left > 0 {
            left -= 1;
            self.add_least(outcomes[left]);
        }
    }

    /// The least unsettled outcome of the deepest level; None exactly where there is no level or none is unsettled.
    pub fn next_open(&self) -> Option<Outcome>
        ensures none { IfNone result (NoneOpen self.now.levels) }
        ensures least { IfSome result (λ o. IsLeast o self.now.levels) }
    {
        let level = self.deepest?;
        let first = self.nodes[level].first_child?;
        Some(self.nodes[first].outcome)
    }

    /// Settles an unsettled outcome of the deepest level: the level no longer has it.
    pub fn settle(&mut self, outcome: Outcome)
        requires { IsOpen outcome self.old.levels }
        ensures settled { self.new ≡ record self.old { levels = settled outcome self.old.levels } }
        ensures least { (os : List Outcome) (rest : List (List Outcome)) → self.old.levels ≡ (outcome ∷ os) ∷ rest
            → self.new.levels ≡ os ∷ rest }
    {
        let least = self.take_least();
        if least != outcome {
            self.settle(outcome);
            self.add_least(least);
        }
    }

    /// Removes the deepest level, which has nothing unsettled.
    pub fn release(&mut self)
        requires { IsOver self.old.levels }
        ensures { self.old ≡ record self.new { levels = [] ∷ self.new.levels } }
    {
        let level = self.deepest.unwrap();
        self.deepest = self.nodes[level].parent;
        self.nodes[level].next_sibling = self.free;
        self.free = Some(level);
        self.depth -= 1;
    }

    /// How many outcomes are unsettled, in all levels.
    pub fn live(&self) -> u32
        ensures count { result ≡ unsettled self.now.levels }
        ensures bound { result ≤ 30 * self.now.most }
    {
        self.live
    }

    /// How many levels there are.
    pub fn depth(&self) -> u32
        ensures count { result ≡ length self.now.levels }
        ensures bound { result ≤ self.now.most }
        ensures ascending { EachAscends self.now.levels }
    {
        self.depth
    }

    // A new deepest level with nothing in it.
    fn open_level(&mut self)
        requires { length self.old.levels < self.old.most }
        ensures { self.new ≡ record self.old { levels = [] ∷ self.old.levels } }
    {
        let level = self.free.unwrap();
        self.free = self.nodes[level].next_sibling;
        self.nodes[level] = Node {
            outcome: Outcome::Plain,
            parent: self.deepest,
            first_child: None,
            next_sibling: None,
        };
        self.deepest = Some(level);
        self.depth += 1;
    }

    // Puts an outcome before all others of the deepest level.
    fn add_least(&mut self, outcome: Outcome)
        requires { HasRoom outcome self.old.levels }
        ensures { self.new ≡ record self.old { levels = with_least outcome self.old.levels } }
    {
        let level = self.deepest.unwrap();
        let node = self.free.unwrap();
        let first = self.nodes[level].first_child;
        self.free = self.nodes[node].next_sibling;
        self.nodes[node] = Node {
            outcome,
            parent: Some(level),
            first_child: None,
            next_sibling: first,
        };
        self.nodes[level].first_child = Some(node);
        self.live += 1;
    }

    // Takes the least outcome off the deepest level.
    fn take_least(&mut self) -> Outcome
        requires { IsSomeOpen self.old.levels }
        ensures { Takes result self.old self.new }
    {
        let level = self.deepest.unwrap();
        let node = self.nodes[level].first_child.unwrap();
        let outcome = self.nodes[node].outcome;
        self.nodes[level].first_child = self.nodes[node].next_sibling;
        self.nodes[node].next_sibling = self.free;
        self.free = Some(node);
        self.live -= 1;
        outcome
    }
}
