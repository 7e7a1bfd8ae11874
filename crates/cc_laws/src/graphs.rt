//! Graphs: inputs whose blocks have any names.

ghost use Rattle.std.specs.Prelude.{◌≡◌, ℕ, List};
ghost use Rattle.cc_base.specs.declared.inputs.Input.{Input};
ghost use Rattle.cc_base.specs.Limits.{Limits};
ghost use Rattle.cc_model.specs.Core.{Cell, Program};
ghost use Rattle.cc_model.specs.Runs.{IsInput, params_of, path_at, end_at};
ghost use Rattle.cc_model.specs.Graphs.{Graph, IsGraph, IsListed, PointsToCells, Renames, graph_of, path_on, end_on};

/// Renaming the blocks of a graph changes neither the path nor the end.
pub fn renaming_keeps_runs()
    ensures path { (p : Program) (b : Limits) (g k : Graph) (r : ℕ → ℕ)
        → IsGraph p.layouts (params_of p) g → Renames g k r → path_on p b k ≡ path_on p b g }
    ensures end { (p : Program) (b : Limits) (g k : Graph) (r : ℕ → ℕ)
        → IsGraph p.layouts (params_of p) g → Renames g k r → end_on p b k ≡ end_on p b g }
{}

/// The graph of an input is a graph, where each type that a pointer cell points to has a cell.
pub fn an_input_has_a_graph()
    ensures { (p : Program) (b : Limits) (h : Input)
        → PointsToCells p.layouts (params_of p) → IsInput p b h
        → IsGraph p.layouts (params_of p) (graph_of p.layouts (params_of p) h) }
{}

/// An input has the path and the end of its graph.
pub fn an_input_runs_as_its_graph()
    ensures path { (p : Program) (b : Limits) (h : Input)
        → path_on p b (graph_of p.layouts (params_of p) h) ≡ path_at p b h }
    ensures end { (p : Program) (b : Limits) (h : Input)
        → end_on p b (graph_of p.layouts (params_of p) h) ≡ end_at p b h }
{}

/// Each graph is a renaming of exactly one list of cells that meets the rule of inputs but for the numbers' range, with
/// the same stream.
pub fn one_list_of_cells()
    ensures listed { (layouts : ℕ → List Cell) (params : List Cell) (g : Graph) → PointsToCells layouts params
        → IsGraph layouts params g
        → (h : Input) × IsListed layouts params h × (r : ℕ → ℕ) × Renames g (graph_of layouts params h) r }
    ensures only { (layouts : ℕ → List Cell) (params : List Cell) (g : Graph) → PointsToCells layouts params
        → IsGraph layouts params g
        → (h k : Input) → IsListed layouts params h → IsListed layouts params k
        → (r s : ℕ → ℕ) → Renames g (graph_of layouts params h) r → Renames g (graph_of layouts params k) s → h ≡ k }
{}
