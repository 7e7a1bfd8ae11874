//! The three-address code of a program.

ghost use Rattle.std.specs.Prelude.{◌≡◌, slice_get, option_and_then};
ghost use Rattle.tac_lower.specs.Flow.{site_in};

use crate::instr::Instr;
use cc_model::SiteId;
use cc_model::base::Items;

/// A function's code: where it begins, and how many parameters, temporaries and slots it has. One without a body has
/// the code of an empty one. The temporaries are all that the code of the program names.
#[derive(Clone, Copy)]
pub struct TacFunc {
    pub first: u32,
    pub params: u32,
    pub temps: u32,
    pub slots: u32,
}

/// The code of a program.
#[derive(Drop)]
pub struct Tac {
    pub funcs: Items<TacFunc>,
    /// The number of cells of the globals.
    pub globals: u32,
    pub code: Items<Instr>,
}

impl Tac {
    /// The site of the instruction at a place. None where it has none, and past the end of the code.
    pub fn site(&self, at: u32) -> Option<SiteId>
        ensures { result ≡ option_and_then site_in (slice_get self.now.code at) }
    {
        match self.code.get(at as usize) {
            Some(instruction) => site_of(*instruction),
            None => None,
        }
    }
}

/// The site of an instruction.
fn site_of(instruction: Instr) -> Option<SiteId>
    ensures { result ≡ site_in instruction }
{
    match instruction {
        Instr::Add(site, _, _, _) => Some(site),
        Instr::Sub(site, _, _, _) => Some(site),
        Instr::Mul(site, _, _, _) => Some(site),
        Instr::Quot(site, _, _, _) => Some(site),
        Instr::Rem(site, _, _, _) => Some(site),
        Instr::Divisor(site, _, _) => Some(site),
        Instr::Neg(site, _, _) => Some(site),
        Instr::Compare(site, _, _, _, _) => Some(site),
        Instr::Truth(site, _, _) => Some(site),
        Instr::Access(site, _, _) => Some(site),
        Instr::Index(site, _, _, _, _, _) => Some(site),
        _ => None,
    }
}
