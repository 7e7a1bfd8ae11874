//! The finished code: in order, with the places that its jumps lead to.

ghost use Rattle.std.specs.Prelude.{◌≡◌, ◌<◌, ◌+◌, map, reverse, IfOk};
ghost use Rattle.tac_lower.specs.Finished.{placed, completed, named, AllBelow};

use crate::emit::counted;
use crate::instr::Instr;
use crate::tac::TacFunc;
use cc_model::base::{Items, NoMemory};
use std::alloc::Global;

/// The instruction, with the place that its jump leads to, of so many instructions in all.
fn placed(instruction: Instr, total: u32) -> Instr
    ensures { result ≡ placed total instruction }
{
    match instruction {
        Instr::Jump(behind) => Instr::Jump(total.saturating_sub(behind)),
        Instr::JumpZero(a, behind) => Instr::JumpZero(a, total.saturating_sub(behind)),
        _ => instruction,
    }
}

/// The code in order.
pub fn in_order(alloc: Global, written: &[Instr], total: u32) -> Result<Items<Instr>, NoMemory>
    ensures { IfOk result (λ l. l ≡ map (placed total) (reverse written.now)) }
{
    let mut code = Items::new(alloc);
    let mut left = written.len();
    while left > 0 {
        left -= 1;
        code.push(placed(written[left], total))?;
    }
    Ok(code)
}

/// One more than the last temporary that an instruction names; 0 where it names none.
fn named(instruction: Instr) -> usize
    ensures { result ≡ named instruction }
{
    match instruction {
        Instr::Number(n, _) => n as usize + 1,
        Instr::Nil(n) => n as usize + 1,
        Instr::Copy(n, a) => n.max(a) as usize + 1,
        Instr::Add(_, n, a, b) => n.max(a.max(b)) as usize + 1,
        Instr::Sub(_, n, a, b) => n.max(a.max(b)) as usize + 1,
        Instr::Mul(_, n, a, b) => n.max(a.max(b)) as usize + 1,
        Instr::Quot(_, n, a, b) => n.max(a.max(b)) as usize + 1,
        Instr::Rem(_, n, a, b) => n.max(a.max(b)) as usize + 1,
        Instr::Divisor(_, a, b) => a.max(b) as usize + 1,
        Instr::Neg(_, n, a) => n.max(a) as usize + 1,
        Instr::Compare(_, _, n, a, b) => n.max(a.max(b)) as usize + 1,
        Instr::Truth(_, n, a) => n.max(a) as usize + 1,
        Instr::Slot(n, _) => n as usize + 1,
        Instr::Glob(n, _) => n as usize + 1,
        Instr::Access(_, n, a) => n.max(a) as usize + 1,
        Instr::Offset(n, a, _) => n.max(a) as usize + 1,
        Instr::Index(_, n, a, i, _, _) => n.max(a.max(i)) as usize + 1,
        Instr::Load(n, a) => n.max(a) as usize + 1,
        Instr::Store(a, b) => a.max(b) as usize + 1,
        Instr::Malloc(n, _) => n as usize + 1,
        Instr::Take(a) => a as usize + 1,
        Instr::JumpZero(a, _) => a as usize + 1,
        Instr::Call(n, _, first, count) => (n as usize + 1).max(first as usize + count as usize),
        Instr::Return(a) => a as usize + 1,
        Instr::Unless(a) => a as usize + 1,
        _ => 0,
    }
}

/// How many temporaries the code has.
pub fn temporaries(code: &[Instr]) -> Result<u32, NoMemory>
    ensures { IfOk result (λ n. AllBelow n code.now) }
{
    let mut top = 0;
    let mut left = code.len();
    while left > 0 {
        left -= 1;
        top = top.max(named(code[left]));
    }
    counted(top)
}

/// The function, with the place of its first instruction and the number of temporaries.
fn completed(function: TacFunc, total: u32, temps: u32) -> TacFunc
    ensures { result ≡ completed total temps function }
{
    TacFunc {
        first: total.saturating_sub(function.first),
        params: function.params,
        temps,
        slots: function.slots,
    }
}

/// The functions in order.
pub fn all_completed(
    alloc: Global,
    written: &[TacFunc],
    total: u32,
    temps: u32,
) -> Result<Items<TacFunc>, NoMemory>
    ensures { IfOk result (λ l. l ≡ map (completed total temps) (reverse written.now)) }
{
    let mut functions = Items::new(alloc);
    let mut left = written.len();
    while left > 0 {
        left -= 1;
        functions.push(completed(written[left], total, temps))?;
    }
    Ok(functions)
}
