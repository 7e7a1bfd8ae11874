//! A tests file with a line of each form.

use crate::map_texts::two_cells;
use replay::read_tests;
use std::test::Fail;

/// One line of each form, behind the first.
const LINES: &str = "\
bounds min=-9 max=9 depth=10 objects=8 steps=100000
test ! null@3 0,0
past a! null@4294967295 3,0,0,0
stray aaaF assert@5 3,3,0,0 after ab
spent ~
spent abT
unrun 3,5,0,0,0,0 after ab
unrun 0,0/9,-9 after ~
term 1:21 product
term 18446744073709551615:0 quotient
term 1:2 index
term 1:2 wide
event 1 a 3 access
event 2 T 5 decision
event 3 . 5 fit
event 4 ! 5 divisor
event 5 + 5 index
complete paths=4 runs=4
incomplete terms=0 spent=1 steps=2 strays=3 unrun=4
ended runs=3 covered=0 of 0
replayed 6
differs 2 T return actual F return
test ~ return 0,0
test - cut 0,0
test . steps 0,0
test .F objects 0,0
test T assume 0,0/1
";

#[test]
fn every_form_is_read(rt: HostRuntime) -> Result<(), Fail> {
    let checked = two_cells(rt.alloc())?;
    let text = LINES.as_bytes();
    if text.len() > 16_777_216 {
        return Err(Fail::new("the text is too long"));
    }
    let tests = read_tests(rt.alloc(), text, &checked)?;
    assert_eq!(rt; tests.bounds.depth(), 10);
    assert_eq!(rt;
        tests.lines.as_slice(),
        [2, 3, 4, 23, 24, 25, 26, 27].as_slice()
    );
    assert_eq!(rt; tests.tests.len(), 8);
    Ok(())
}
