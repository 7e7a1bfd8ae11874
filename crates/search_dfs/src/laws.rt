//! The laws of the search hold of the tested function, and a law of what is listed, as contracts of functions that do
//! nothing.

ghost use Rattle.std.specs.Prelude.{◌≡◌, ◌↔◌, List, map, Option, None, Some};
ghost use Rattle.cc_base.specs.declared.inputs.Test.{Test};
ghost use Rattle.cc_base.specs.Limits.{Limits};
ghost use Rattle.cc_base.specs.Paths.{Path, In, Pairwise, Before};
ghost use Rattle.cc_model.specs.Core.{Program};
ghost use Rattle.cc_model.specs.Listing.{Enumerates};
ghost use Rattle.cc_model.specs.Tested.{tested};
ghost use Rattle.search_dfs.specs.Laws.{Laws};
ghost use Rattle.search_base.specs.Setting.{layer_of};
ghost use Rattle.search_dfs.specs.Task.{setting_of, Known};

use crate::task::Task;
use cc_laws::{
    conditions_are_exact, no_path_begins_another, outcomes_are_exhausted, tracing_adds_nothing,
};
use run_laws::a_run_is_lawful;

/// The tested function with what its traced runs tell keeps the laws of the search.
pub(crate) fn laws_hold(task: &Task<'_>)
    requires { Known task.now }
    ensures { Laws (layer_of (setting_of task.now)) }
{
    let _lo = task.bounds.lo();
    a_run_is_lawful();
    no_path_begins_another();
    tracing_adds_nothing();
    conditions_are_exact();
    outcomes_are_exhausted();
}

/// Two lists of tests that enumerate the same paths of a program have the same paths, in one order. And of a list that
/// enumerates all paths, the tests above a path enumerate the paths above it: so a listing that goes on after a path
/// gives the paths that the whole listing has there.
pub fn listings_agree()
    ensures agree { (p : Program) (b : Limits) (after : Option Path) (l m : List Test)
        → Enumerates after (tested p b) l → Enumerates after (tested p b) m
        → map (λ (t : Test). t.path) l ≡ map (λ (t : Test). t.path) m }
    ensures resumed { (p : Program) (b : Limits) (a : Path) (l m : List Test) → Enumerates None (tested p b) l
        → Pairwise (λ (t : Test) (u : Test). Before t.path u.path) m
        → ((t : Test) → In t m ↔ (In t l × Before a t.path)) → Enumerates (Some a) (tested p b) m }
{}
