//! The code of small programs, and its edges.

use crate::turning::compile;
use cc_model::SiteId;
use cc_model::base::{FaultKind, Items, NoMemory};
use std::alloc::Global;
use std::test::Fail;
use tac_lower::{Comparison, Instr, Tac, TacFunc};

/// A function that returns what it is given, and one with a loop around an `if` and `else` that both call it.
const CODE: [Instr; 13] = [
    Instr::Step,
    Instr::Return(0),
    Instr::Step,
    Instr::Truth(SiteId(0), 0, 1),
    Instr::JumpZero(0, 12),
    Instr::Compare(SiteId(1), Comparison::Less, 0, 1, 2),
    Instr::JumpZero(0, 9),
    Instr::Call(1, 0, 1, 1),
    Instr::Jump(11),
    Instr::Call(1, 0, 1, 1),
    Instr::Stop(FaultKind::Abort, 3),
    Instr::Jump(3),
    Instr::Return(1),
];

const EDGES: [(u32, &[u32]); 14] = [
    (0, &[1]),
    (1, &[8, 10]),
    (2, &[3]),
    (3, &[4]),
    (4, &[5, 12]),
    (5, &[6]),
    (6, &[7, 9]),
    (7, &[0]),
    (8, &[11]),
    (9, &[0]),
    (10, &[]),
    (11, &[3]),
    (12, &[]),
    (13, &[]),
];

/// Its code with two functions, the second from instruction 2 on.
fn small(alloc: Global) -> Result<Tac, NoMemory> {
    let function = TacFunc {
        first: 0,
        params: 1,
        temps: 3,
        slots: 1,
    };
    let functions = [
        function,
        TacFunc {
            first: 2,
            ..function
        },
    ];
    Ok(Tac {
        funcs: Items::from_slice(alloc, &functions)?,
        globals: 0,
        code: Items::from_slice(alloc, &CODE)?,
    })
}

#[test]
fn edges_of_a_small_program(rt: HostRuntime) -> Result<(), NoMemory> {
    let tac = small(rt.alloc())?;
    for (at, places) in EDGES {
        let found = tac.successors(rt.alloc(), at)?;
        assert_eq!(rt; found.as_slice(), places);
    }
    Ok(())
}

#[test]
fn edges_of_outcomes(rt: HostRuntime) -> Result<(), NoMemory> {
    let tac = small(rt.alloc())?;
    assert_eq!(rt; tac.outcome_successor(3, true), Some(5));
    assert_eq!(rt; tac.outcome_successor(3, false), Some(12));
    assert_eq!(rt; tac.outcome_successor(5, true), Some(7));
    assert_eq!(rt; tac.outcome_successor(5, false), Some(9));
    assert_eq!(rt; tac.outcome_successor(4, true), None);
    assert_eq!(rt; tac.outcome_successor(13, false), None);
    Ok(())
}

#[test]
fn sites_of_instructions(rt: HostRuntime) -> Result<(), NoMemory> {
    let code = [Instr::Step, Instr::Neg(SiteId(3), 0, 0), Instr::Return(0)];
    let tac = Tac {
        funcs: Items::new(rt.alloc()),
        globals: 0,
        code: Items::from_slice(rt.alloc(), &code)?,
    };
    assert_eq!(rt; tac.site(0), None);
    assert_eq!(rt; tac.site(1), Some(SiteId(3)));
    assert_eq!(rt; tac.site(9), None);
    Ok(())
}

const LOOP: &str = "int f(int x) {
  while (x) x = 0;
  return x;
}
";

/// The test stands at 2, the body at 7, what comes behind the loop at 12.
#[test]
fn jumps_lead_to_places(rt: HostRuntime) -> Result<(), Fail> {
    let tac = compile(rt.alloc(), LOOP.as_bytes())?.tac;
    assert_eq!(rt; tac.code.len(), 18);
    assert!(rt; matches!(tac.code.get(5), Some(Instr::JumpZero(0, 12))));
    assert!(rt; matches!(tac.code.get(6), Some(Instr::Jump(7))));
    assert!(rt; matches!(tac.code.get(11), Some(Instr::Jump(2))));
    Ok(())
}

#[test]
fn temporaries_are_counted(rt: HostRuntime) -> Result<(), Fail> {
    let tac = compile(rt.alloc(), LOOP.as_bytes())?.tac;
    assert_eq!(rt; tac.funcs.get(0).map(|function| function.temps), Some(2));
    Ok(())
}
