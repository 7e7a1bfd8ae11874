//! The code of functions, written from its end.

ghost use Rattle.std.specs.Prelude.{List, OnOk};
ghost use Rattle.cc_model.specs.Core.{Cell};
ghost use Rattle.cc_model.specs.CheckedProgram.{cell_of};
ghost use Rattle.cc_model.specs.Resolve.{body_of};
ghost use Rattle.tac_lower.specs.Tables.{facts_of};
ghost use Rattle.tac_lower.specs.Emitted.{AddsFunc};

use crate::emit::{emit, here};
use crate::instr::Instr;
use crate::known::Known;
use cc_model::base::{CellTy, Items, NoMemory};
use cc_model::trees::Part;

impl Known<'_> {
    /// Writes the code of a function that gives such a value and has this body.
    pub fn function(
        &self,
        given: CellTy,
        body: &[Part],
        code: &mut Items<Instr>,
    ) -> Result<(), NoMemory>
        ensures { OnOk result ((params : List Cell)
            → AddsFunc self.now.checked.now (record {
              params = params;
              result = cell_of given;
              body = body_of
                  (facts_of self.now.checked.now self.now.function) body.now;
            }) code.old code.new) }
    {
        self.returned(given, &None, code)?;
        let end = here(code);
        self.parts(given, body, end, end, code)?;
        emit(code, Instr::Step)
    }
}
