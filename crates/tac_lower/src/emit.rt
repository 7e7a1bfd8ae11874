//! Single instructions, and numbers that stand in them.

ghost use Rattle.std.specs.Prelude.{◌≡◌, ◌<◌, ◌+◌, ◌++◌, ◌∷◌, [], suc, length, IfOk, OnOk};

use crate::instr::Instr;
use cc_model::base::{Items, NoMemory};

/// The next temporary.
pub fn next(n: u32) -> u32
    ensures { n < 4294967295 → result ≡ suc n }
{
    n.saturating_add(1)
}

/// The temporary that comes so many later.
pub fn later(n: u32, count: usize) -> u32
    ensures { n + count < 4294967296 → result ≡ n + count }
{
    n.saturating_add(short(count))
}

/// A length as a number of 32 bits, where it is one.
pub fn short(count: usize) -> u32
    ensures { count < 4294967296 → result ≡ count }
{
    if count <= u32::MAX as usize {
        count as u32
    } else {
        u32::MAX
    }
}

/// Puts an instruction in front of the code that was written.
pub fn emit(code: &mut Items<Instr>, instruction: Instr) -> Result<(), NoMemory>
    ensures { OnOk result (code.new ≡ code.old ++ instruction ∷ []) }
{
    code.push(instruction)?;
    Ok(())
}

/// How many instructions stand behind the place in front of the code that was written.
pub fn here(code: &Items<Instr>) -> u32
    ensures { length code.now < 4294967296 → result ≡ length code.now }
{
    short(code.len())
}

/// A length as a number of 32 bits.
pub fn counted(count: usize) -> Result<u32, NoMemory>
    ensures value { IfOk result (λ n. n ≡ count) }
    ensures small { OnOk result (count < 4294967296) }
{
    if count <= u32::MAX as usize {
        Ok(count as u32)
    } else {
        Err(NoMemory)
    }
}
