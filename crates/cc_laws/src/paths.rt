//! Paths and ends.

ghost use Rattle.std.specs.Prelude.{◌≡◌};
ghost use Rattle.cc_base.specs.declared.inputs.Input.{Input};
ghost use Rattle.cc_base.specs.Limits.{Limits};
ghost use Rattle.cc_base.specs.Paths.{GoesOnFrom};
ghost use Rattle.cc_model.specs.Core.{Program};
ghost use Rattle.cc_model.specs.Runs.{path_at, end_at};

/// No path of a program goes on where another, under the same bounds, stops.
pub fn no_path_begins_another()
    ensures { (p : Program) (b : Limits) (g h : Input) → GoesOnFrom (path_at p b h) (path_at p b g) → ⊥ }
{}

/// Under the same bounds, inputs of one path have one end.
pub fn one_path_has_one_end()
    ensures { (p : Program) (b : Limits) (g h : Input) → path_at p b g ≡ path_at p b h → end_at p b g ≡ end_at p b h }
{}
