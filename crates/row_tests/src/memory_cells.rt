//! Cells of blocks, given and made.

use cc_base::NoMemory;
use checked_memory::{Cell, Memory, Value};

const ONE: Cell = Cell {
    value: Value::Int(1),
    shadow: 0,
};

const NULL: Cell = Cell {
    value: Value::Null,
    shadow: 7,
};

#[test]
fn keeps_cells(rt: HostRuntime) -> Result<(), NoMemory> {
    let mut memory = Memory::new(rt.alloc());
    assert_eq!(rt; memory.touch(-4, &[ONE, NULL])?, 0);
    assert_eq!(rt; memory.make(&[ONE])?, 0);
    memory.write(Value::Block(-4, 1), ONE);
    memory.write(Value::Made(0, 0), NULL);
    assert_eq!(rt; memory.read(Value::Block(-4, 1)), ONE);
    assert_eq!(rt; memory.read(Value::Made(0, 0)), NULL);
    assert_eq!(rt; (memory.rank_of(-4), memory.rank_of(4)), (Some(0), None));
    assert_eq!(rt; memory.touched(), 1);
    Ok(())
}
