//! The open branches of a search, and the runs to which they belong.

ghost use Rattle.std.specs.Prelude.{ℕ, ◌<◌, ◌≤◌, List, ◌∷◌, OnOk, OnErr, IfErr};
ghost use Rattle.cc_base.specs.declared.outcomes.Outcome.{Outcome as PlainOutcome};
ghost use Rattle.search_dfs.specs.declared.open.Pending.{Pending as Kept};
ghost use Rattle.search_dfs.specs.Output.{out as told};
ghost use Rattle.search_dfs.specs.Task.{setting_of, after_of, Known};
ghost use Rattle.search_base.specs.Lines.{SinkCause};
ghost use Rattle.search_dfs.specs.Turns.{levels_of, runs_of, Fits_open, Ready, Taken, Solving, Turned_to, Went};
ghost use Rattle.search_dfs.specs.Turns.{WentSome, Turn, TurnSome};

use crate::listed::{list_run, list_spent, list_stray, list_unrun};
use crate::order::is_passed;
use crate::runs::{choices_of, last_run, leave, made_run, own_outcome};
use crate::tally::Tally;
use crate::task::Task;
use cc_model::base::{Input, Items, Outcome, PathText};
use cc_outside::Sink;
use flip_solve::{Turned, turn};
use path_tree::Tree;
use run_laws::a_run_is_lawful;
use search_base::{SearchFault, begins, prefix_of, same};
use sym_run::Trace;

/// A run with its path, whose events from number `from` on are still open.
#[derive(Drop)]
pub struct Pending {
    pub trace: Trace,
    pub path: PathText,
    pub from: u32,
}

/// What a search keeps: at each level the unsettled outcomes, the runs to which they belong, the last one at the end,
/// how many runs were made, and whether nothing more is to be solved.
#[derive(Drop)]
pub struct Open {
    pub tree: Tree,
    pub depth: u32,
    pub runs: Items<Pending>,
    pub made: u32,
    pub stopped: bool,
}

impl Open {
    /// Goes into the last run below the levels.
    pub(crate) fn go_down<K: Sink>(
        &mut self,
        task: &Task<'_>,
        sink: &mut K,
        tally: &mut Tally,
    ) -> Result<(), SearchFault>
        requires { (r : Kept) × (rs : List Kept) × Ready (setting_of task.now) self.old r rs }
        ensures ok { OnOk result ((limit : ℕ)
            → Went (setting_of task.now) (after_of task.now) limit self.old self.new
            (told (K.written sink.old) (K.faults sink.old) tally.old)
            (told (K.written sink.new) (K.faults sink.new) tally.new)) }
        ensures err { OnErr result ((limit : ℕ)
            → WentSome (setting_of task.now) (after_of task.now) limit self.old
            (told (K.written sink.old) (K.faults sink.old) tally.old)
            (told (K.written sink.new) (K.faults sink.new) tally.new)) }
        ensures sink { IfErr result (λ e. SinkCause (K.faults sink.old) (K.faults sink.new) e) }
        ensures never_falls { K.faults sink.old ≤ K.faults sink.new }
    {
        let run = last_run(&self.runs);
        if self.depth as usize == run.path.len() {
            list_run(task, run, sink, tally)?;
            leave(&mut self.runs, self.depth);
            return Ok(());
        }
        let choices = choices_of(task, run, self.depth)?;
        self.tree.push(choices.as_slice());
        self.depth += 1;
        Ok(())
    }

    /// Follows an input that was solved for: it is run, where a run may still be made.
    fn follow<K: Sink>(
        &mut self,
        task: &Task<'_>,
        sink: &mut K,
        tally: &mut Tally,
        outcome: Outcome,
        prefix: &PathText,
        input: &Input,
    ) -> Result<(), SearchFault>
        requires known { Known task.now }
        requires solving { (os : List PlainOutcome) × (ls : List (List PlainOutcome)) × (r : Kept) × (rs : List Kept)
            × Solving (setting_of task.now) (after_of task.now) self.old outcome prefix.now os ls r rs
            × Turned_to (setting_of task.now) (r.trace).input prefix.now input.now }
        requires room { self.old.made ≤ task.now.limit }
        ensures ok { OnOk result ((os : List PlainOutcome) (ls : List (List PlainOutcome)) (r : Kept) (rs : List Kept)
            → Solving (setting_of task.now) (after_of task.now) self.old outcome prefix.now os ls r rs
            → Turned_to (setting_of task.now) (r.trace).input prefix.now input.now →
            Turn (setting_of task.now) (after_of task.now) task.now.limit ((outcome ∷ os) ∷ ls)
            (r ∷ rs) self.old self.new (told (K.written sink.old) (K.faults sink.old) tally.old)
            (told (K.written sink.new) (K.faults sink.new) tally.new) × (self.new.made ≤ task.now.limit)) }
        ensures err { OnErr result ((os : List PlainOutcome) (ls : List (List PlainOutcome)) (r : Kept)
            (rs : List Kept) → Solving (setting_of task.now) (after_of task.now) self.old outcome prefix.now os ls r rs
            → Turned_to (setting_of task.now) (r.trace).input prefix.now input.now →
            TurnSome (setting_of task.now) (after_of task.now) task.now.limit ((outcome ∷ os) ∷ ls) (r ∷ rs) self.old
            (told (K.written sink.old) (K.faults sink.old) tally.old)
            (told (K.written sink.new) (K.faults sink.new) tally.new)) }
        ensures sink { IfErr result (λ e. SinkCause (K.faults sink.old) (K.faults sink.new) e) }
        ensures never_falls { K.faults sink.old ≤ K.faults sink.new }
    {
        if self.made == task.limit {
            list_unrun(task, input, prefix, sink, tally)?;
            self.stopped = true;
            return Ok(());
        }
        let fresh = made_run(task, input, self.depth)?;
        self.made += 1;
        if !begins(fresh.path.as_slice(), prefix.as_slice()) {
            return list_stray(task, &fresh, prefix, sink, tally);
        }
        self.runs.push(fresh)?;
        self.go_down(task, sink, tally)
    }

    /// Solves for an alternative that was taken off the deepest level.
    fn solve<K: Sink>(
        &mut self,
        task: &Task<'_>,
        sink: &mut K,
        tally: &mut Tally,
        outcome: Outcome,
        prefix: &PathText,
    ) -> Result<(), SearchFault>
        requires known { Known task.now }
        requires solving { (os : List PlainOutcome) × (ls : List (List PlainOutcome)) × (r : Kept) × (rs : List Kept)
            × Solving (setting_of task.now) (after_of task.now) self.old outcome prefix.now os ls r rs }
        requires room { self.old.made ≤ task.now.limit }
        ensures ok { OnOk result ((os : List PlainOutcome) (ls : List (List PlainOutcome)) (r : Kept) (rs : List Kept)
            → Solving (setting_of task.now) (after_of task.now) self.old outcome prefix.now os ls r rs →
            Turn (setting_of task.now) (after_of task.now) task.now.limit ((outcome ∷ os) ∷ ls)
            (r ∷ rs) self.old self.new (told (K.written sink.old) (K.faults sink.old) tally.old)
            (told (K.written sink.new) (K.faults sink.new) tally.new) × (self.new.made ≤ task.now.limit)) }
        ensures err { OnErr result ((os : List PlainOutcome) (ls : List (List PlainOutcome)) (r : Kept)
            (rs : List Kept) → Solving (setting_of task.now)
            (after_of task.now) self.old outcome prefix.now os ls r rs →
            TurnSome (setting_of task.now) (after_of task.now) task.now.limit ((outcome ∷ os) ∷ ls) (r ∷ rs) self.old
            (told (K.written sink.old) (K.faults sink.old) tally.old)
            (told (K.written sink.new) (K.faults sink.new) tally.new)) }
        ensures sink { IfErr result (λ e. SinkCause (K.faults sink.old) (K.faults sink.new) e) }
        ensures never_falls { K.faults sink.old ≤ K.faults sink.new }
    {
        a_run_is_lawful();
        let run = last_run(&self.runs);
        match turn(
            task.alloc,
            task.checked,
            &run.trace,
            self.depth - 1,
            outcome,
            task.bounds,
            task.budget,
        )? {
            Turned::Never => Ok(()),
            Turned::Spent => list_spent(task, prefix, sink, tally),
            Turned::Turned(input) => self.follow(task, sink, tally, outcome, prefix, &input),
        }
    }

    /// Tries an outcome that was taken off the deepest level.
    fn try_one<K: Sink>(
        &mut self,
        task: &Task<'_>,
        sink: &mut K,
        tally: &mut Tally,
        outcome: Outcome,
    ) -> Result<(), SearchFault>
        requires known { Known task.now }
        requires taken { (os : List PlainOutcome) × (ls : List (List PlainOutcome)) × (r : Kept) × (rs : List Kept)
            × Taken (setting_of task.now) self.old outcome os ls r rs }
        requires room { self.old.made ≤ task.now.limit }
        ensures ok { OnOk result ((os : List PlainOutcome) (ls : List (List PlainOutcome)) (r : Kept) (rs : List Kept)
            → Taken (setting_of task.now) self.old outcome os ls r rs →
            Turn (setting_of task.now) (after_of task.now) task.now.limit ((outcome ∷ os) ∷ ls)
            (r ∷ rs) self.old self.new (told (K.written sink.old) (K.faults sink.old) tally.old)
            (told (K.written sink.new) (K.faults sink.new) tally.new) × (self.new.made ≤ task.now.limit)) }
        ensures err { OnErr result ((os : List PlainOutcome) (ls : List (List PlainOutcome)) (r : Kept)
            (rs : List Kept) → Taken (setting_of task.now) self.old outcome os ls r rs →
            TurnSome (setting_of task.now) (after_of task.now) task.now.limit ((outcome ∷ os) ∷ ls) (r ∷ rs) self.old
            (told (K.written sink.old) (K.faults sink.old) tally.old)
            (told (K.written sink.new) (K.faults sink.new) tally.new)) }
        ensures sink { IfErr result (λ e. SinkCause (K.faults sink.old) (K.faults sink.new) e) }
        ensures never_falls { K.faults sink.old ≤ K.faults sink.new }
    {
        let run = last_run(&self.runs);
        if same(outcome, own_outcome(run, self.depth - 1)) {
            return self.go_down(task, sink, tally);
        }
        if self.stopped {
            return Ok(());
        }
        let prefix = prefix_of(task.alloc, run.path.as_slice(), self.depth - 1, outcome)?;
        if is_passed(task.after, prefix.as_slice()) {
            return Ok(());
        }
        self.solve(task, sink, tally, outcome, &prefix)
    }

    /// One turn: the least open outcome is tried, or a level that is done is released.
    pub(crate) fn step<K: Sink>(
        &mut self,
        task: &Task<'_>,
        sink: &mut K,
        tally: &mut Tally,
    ) -> Result<(), SearchFault>
        requires known { Known task.now }
        requires fits { Fits_open (setting_of task.now) self.old }
        requires more { 0 < self.old.depth }
        requires room { self.old.made ≤ task.now.limit }
        ensures ok { OnOk result (Turn (setting_of task.now) (after_of task.now) task.now.limit (levels_of self.old)
            (runs_of self.old) self.old self.new (told (K.written sink.old) (K.faults sink.old) tally.old)
            (told (K.written sink.new) (K.faults sink.new) tally.new)) }
        ensures room { OnOk result (self.new.made ≤ task.now.limit) }
        ensures err { OnErr result (TurnSome (setting_of task.now) (after_of task.now) task.now.limit
            (levels_of self.old) (runs_of self.old) self.old (told (K.written sink.old) (K.faults sink.old) tally.old)
            (told (K.written sink.new) (K.faults sink.new) tally.new)) }
        ensures sink { IfErr result (λ e. SinkCause (K.faults sink.old) (K.faults sink.new) e) }
        ensures never_falls { K.faults sink.old ≤ K.faults sink.new }
    {
        match self.tree.next_open() {
            None => {
                self.tree.release();
                self.depth -= 1;
                leave(&mut self.runs, self.depth);
                Ok(())
            }
            Some(outcome) => {
                self.tree.settle(outcome);
                self.try_one(task, sink, tally, outcome)
            }
        }
    }
}
