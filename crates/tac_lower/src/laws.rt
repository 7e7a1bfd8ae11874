//! Laws of the code of a program.

ghost use Rattle.std.specs.Prelude.{◌≡◌, ℕ, List};
ghost use Rattle.cc_model.specs.Core.{Program};
ghost use Rattle.cc_model.specs.Meaning.{State, Ran};
ghost use Rattle.cc_model.specs.Plain.{plain};
ghost use Rattle.cc_base.specs.Limits.{Limits};
ghost use Rattle.cc_model.specs.Runs.{fixed_of};
ghost use Rattle.cc_model.specs.Instructions.{Instruction, CodeRuns};
ghost use Rattle.cc_model.specs.FormOperations.{Forms};
ghost use Rattle.cc_model.specs.Traced.{traced};
ghost use Rattle.cc_model.specs.Compiles.{Compiles, is_zero, is_traced_zero};
ghost use Rattle.tac_lower.specs.Lowering.{code_from, first_from};

/// The code of a program does what the program does: the same events with their sites and all that they ask, the same
/// end, and steps counted alike.
pub fn code_does_what_the_program_does()
    ensures { (p : Program) → Compiles p (code_from p.line p.funcs 0) (λ f. first_from p.line p.funcs 0 f) }
{}

/// The run of a code is one: two runs of it from one state are equal. The same holds of its traced run.
pub fn a_code_has_one_run()
    ensures run { (p : Program) (b : Limits) (code : List Instruction) (first : ℕ → ℕ) (s : State plain.V plain.D)
        (r q : Ran plain.E (State plain.V plain.D) (Unit {0})) → CodeRuns plain (fixed_of p b) is_zero first code s r
        → CodeRuns plain (fixed_of p b) is_zero first code s q → r ≡ q }
    ensures traced_run { (p : Program) (f : Forms) (b : Limits) (code : List Instruction) (first : ℕ → ℕ)
        (s : State (traced f p.layouts).V (traced f p.layouts).D)
        (r q : Ran (traced f p.layouts).E (State (traced f p.layouts).V (traced f p.layouts).D) (Unit {0}))
        → CodeRuns (traced f p.layouts) (fixed_of p b) is_traced_zero first code s r
        → CodeRuns (traced f p.layouts) (fixed_of p b) is_traced_zero first code s q → r ≡ q }
{}
