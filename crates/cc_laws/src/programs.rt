//! What holds of every checked program.

ghost use Rattle.std.specs.Prelude.{ℕ, Bool, List};
ghost use Rattle.cc_model.specs.declared.tokens.Token.{Token};
ghost use Rattle.cc_model.specs.declared.checked.Checked.{Checked};
ghost use Rattle.cc_model.specs.Core.{Program};
ghost use Rattle.cc_model.specs.Scopes.{Text};
ghost use Rattle.cc_model.specs.Reads.{Reads};
ghost use Rattle.cc_model.specs.CheckedProgram.{IsChecked, core_of};
ghost use Rattle.cc_model.specs.Runs.{params_of};
ghost use Rattle.cc_model.specs.Graphs.{PointsToCells};

/// In a checked program each type that a pointer cell of the parameters or of a type points to has a cell.
pub fn a_checked_program_points_to_cells()
    ensures { (text : ℕ → Text) (tokens : List Token) (entry : Text) (c : Checked) (fits : ℕ → ℕ → Bool)
        → IsChecked text tokens entry c → Reads fits tokens c.program
        → PointsToCells (core_of c).layouts (params_of (core_of c)) }
{}
