//! Turned events: the run of a program on an input, one of its events and another outcome there, and what is answered.

use crate::turning::{BUDGET, Row, check_rows, deep};
use cc_model::base::Bounds;
use std::test::Fail;

const TWO_CELLS: &str = "struct cell { int v; struct cell *next; };
int f(struct cell *p, struct cell *q) {
  p->v = 1;
  q->v = 2;
  assert(p->v == 1);
  return 0;
}
";

#[test]
fn two_cells(rt: HostRuntime) -> Result<(), Fail> {
    let rows = [
        ("0,0", 0, b'a', "3,0,0,0", "a!"),
        ("3,0,0,0", 0, b'!', "0,0", "!"),
        ("3,0,0,0", 1, b'a', "3,3,0,0", "aaaF"),
        ("3,0,0,0", 1, b'b', "3,5,0,0,0,0", "abaT"),
        // the first block's number is kept, the second block's is not known before its access
        ("3,5,7,0,8,0", 1, b'a', "3,3,7,0", "aaaF"),
        ("3,3,7,3", 1, b'b', "3,5,7,0,0,0", "abaT"),
    ];
    check_rows(&rt, TWO_CELLS, deep(1024), BUDGET, &rows)
}

const THREE: &str = "int f(int x) { if (x == 3) return 1; return 0; }";

#[test]
fn one_number(rt: HostRuntime) -> Result<(), Fail> {
    let rows = [("0", 0, b'T', "3", "T"), ("3", 0, b'F', "?", "F")];
    check_rows(&rt, THREE, deep(1024), BUDGET, &rows)?;
    let small = Bounds::new(i32::MIN, 2, 1024, 8, 100_000);
    check_rows(&rt, THREE, small, BUDGET, &[("0", 0, b'T', "never", "")])?;
    // one atom on one place needs two units
    check_rows(&rt, THREE, deep(1024), 2, &[("0", 0, b'T', "3", "T")])?;
    check_rows(&rt, THREE, deep(1024), 1, &[("0", 0, b'T', "spent", "")])
}

const THREE_FIFTHS: &str =
    "int f(int a, int b, int x) { if (3*a == 5*b) if (x > 0) return 1; return 0; }";

#[test]
fn slices(rt: HostRuntime) -> Result<(), Fail> {
    let rows = [
        ("0,0,0", 0, b'+', "?,0,0", "+"),
        ("0,0,0", 0, b'-', "-?,0,0", "-"),
        ("0,0,0", 1, b'+', "0,?,0", ".+"),
        ("0,0,0", 1, b'-', "0,-?,0", ".-"),
        ("0,0,0", 2, b'F', "?,?,0", "..F"),
        ("0,0,0", 3, b'T', "0,0,?", "..TT"),
        // numbers outside the slice are the run's own
        ("5,3,7", 0, b'+', "?,3,7", "+"),
        ("5,3,7", 1, b'-', "5,-?,7", ".-"),
        ("5,3,7", 2, b'F', "?,?,7", "..F"),
        ("5,3,7", 3, b'F', "5,3,?", "..TF"),
    ];
    check_rows(&rt, THREE_FIFTHS, deep(1024), BUDGET, &rows)?;
    // the slice of the last event is x alone, that of the one before has both products
    let narrow = [
        ("5,3,7", 3, b'F', "5,3,?", "..TF"),
        ("5,3,7", 2, b'F', "spent", ""),
    ];
    check_rows(&rt, THREE_FIFTHS, deep(1024), 2, &narrow)
}

const SQUARE: &str = "int f(int x) { int z; z = x*x; if (z == 0) if (x == 5) return 1; return 0; }";

#[test]
fn behind_a_term(rt: HostRuntime) -> Result<(), Fail> {
    check_rows(
        &rt,
        SQUARE,
        deep(1024),
        BUDGET,
        &[("0", 2, b'T', "5", ".F")],
    )
}

const WALK: &str = "struct cell { int v; struct cell *next; };
int f(struct cell *p) {
  while (p) p = p->next;
  return 0;
}
";

#[test]
fn lists_and_cycles(rt: HostRuntime) -> Result<(), Fail> {
    let rows = [
        ("0", 0, b'T', "2,0,0", "TaF"),
        ("2,9,0", 2, b'T', "2,9,4,0,0", "TaTbF"),
        ("2,9,4,8,0", 3, b'a', "2,9,2", "TaTaTa"),
        ("2,9,4,8,0", 4, b'T', "2,9,4,8,6,0,0", "TaTbTc"),
        ("2,9,4,8,6,7,0", 5, b'a', "2,9,4,8,2", "TaTbTa"),
        ("2,9,4,8,6,7,0", 5, b'b', "2,9,4,8,4", "TaTbTb"),
    ];
    check_rows(&rt, WALK, deep(6), BUDGET, &rows)
}

const NAMED: &str = "struct cell { int v; struct cell *next; };
int f(struct cell *p, struct cell *q) {
  if (p == q) return 1;
  return 0;
}
";

#[test]
fn blocks_that_are_never_accessed(rt: HostRuntime) -> Result<(), Fail> {
    let rows = [
        ("0,0", 0, b'F', "3,5,4,0,4,0", "F"),
        ("3,0,5,0", 0, b'T', "3,3,4,0", "T"),
    ];
    let high = Bounds::new(4, 9, 1024, 8, 100_000);
    check_rows(&rt, NAMED, high, BUDGET, &rows)
}

const SHARED: &str = "struct cell { int v; struct cell *next; };
int f(struct cell *p, struct cell *q) {
  if (p->next == q->next) return 1;
  return 0;
}
";

#[test]
fn a_block_with_two_names(rt: HostRuntime) -> Result<(), Fail> {
    let rows = [
        ("3,5,-1,0,-2,0", 2, b'F', "3,5,-1,7,-2,9,0,0,0,0", "abF"),
        ("3,5,-1,7,-2,9,0,0,0,0", 2, b'T', "3,5,-1,7,-2,7,0,0", "abT"),
        ("3,5,-1,3,-2,3", 2, b'F', "3,5,-1,7,-2,9,0,0,0,0", "abF"),
    ];
    check_rows(&rt, SHARED, deep(1024), BUDGET, &rows)
}

const TWICE: &str = "int f(int **p, int *q) {
  **p = 5;
  if (*p == q) return 1;
  return *q;
}
";

#[test]
fn pointers_to_pointers(rt: HostRuntime) -> Result<(), Fail> {
    let rows = [
        ("0,0", 0, b'a', "3,0,0", "a!"),
        ("3,0,0", 1, b'b', "3,0,4,0", "abaF!"),
        ("3,0,4,-6", 3, b'T', "3,4,4,-6", "abaT"),
        // the two pointers were asked to differ
        ("3,0,4,0", 4, b'b', "never", ""),
        ("3,0,4,-6", 4, b'c', "3,4,5,0,-6", "abaFc"),
    ];
    check_rows(&rt, TWICE, deep(1024), BUDGET, &rows)
}

const KIDS: &str = "struct node { int v; struct node *kid[2]; };
int f(struct node *n, struct node *m) {
  if (n->kid[1] == m) return 1;
  return n->kid[0]->v;
}
";

#[test]
fn arrays_of_pointers(rt: HostRuntime) -> Result<(), Fail> {
    let rows = [
        ("0,0", 0, b'a', "3,0,0,0,0", "a.T"),
        ("3,0,7,0,0", 2, b'F', "3,6,7,0,9,0,0,0,0,0,0", "a.Fa.!"),
        (
            "3,6,7,0,9,1,0,0,2,0,0",
            5,
            b'a',
            "3,6,7,3,9,0,0,0,0,0,0",
            "a.Fa.a",
        ),
        (
            "3,6,7,0,9,1,0,0,2,0,0",
            5,
            b'b',
            "3,6,7,9,12,0,0,0,0,0,0,0,0,0",
            "a.Fa.b",
        ),
        ("3,6,7,0,9,1,0,0,2,0,0", 2, b'T', "3,6,7,0,6,0,0,0", "a.T"),
    ];
    check_rows(&rt, KIDS, deep(1024), BUDGET, &rows)
}

const TAKES: &str = "int f(void) {
  int x;
  int y;
  CREST_int(x);
  if (x > 10) {
    CREST_int(y);
    if (y < x) return 1;
  }
  return 0;
}
";

#[test]
fn numbers_of_the_stream(rt: HostRuntime) -> Result<(), Fail> {
    let rows = [
        ("~", 0, b'T', "~/?", "TT"),
        ("~/11,7", 0, b'F', "~/?", "F"),
        ("~/11", 1, b'F', "~/?,?", "TF"),
        ("~/11,12", 1, b'T', "~/?,?", "TT"),
    ];
    check_rows(&rt, TAKES, deep(1024), BUDGET, &rows)
}

/// The head of a program whose parameters have the addresses 1 to 4.
const FOUR_POINTERS: &str = "struct cell { int v; struct cell *next; };
struct pair { int *a[2]; int n; };
int f(struct cell *p, struct cell *q, int **r, struct pair *t) {
";

/// Takes five numbers, and asks for two of them.
const FIVE_NUMBERS: &str = "
  int a; int b; int c; int d; int e;
  CREST_int(a); CREST_int(b); CREST_int(c); CREST_int(d); CREST_int(e);
  if (c == 5) if (a == 9) return 1;
";

/// What stands in the function, the least number, and the row.
const BUILT: [(&str, i32, Row); 9] = [
    // two parameters share a block
    (
        "if (p->v == 7) if (p == q) return 1;",
        -9,
        ("5,7,0,0,7,0,0,0", 2, b'T', "5,5,0,0,7,0", "aTT"),
    ),
    // a cycle, and one of two blocks
    (
        "if (p->next == p) return 1;",
        -9,
        ("5,0,0,0,0,0", 1, b'T', "5,0,0,0,0,5", "aT"),
    ),
    (
        "if (p->next->v == 3) if (p->next->next == p) return 1;",
        -9,
        ("5,0,0,0,0,7,3,0", 5, b'T', "5,0,0,0,0,7,3,5", "abTabT"),
    ),
    // a block is filled by a later parameter's places
    (
        "if (q->v == 7) if (p == q) return 1;",
        -9,
        ("5,7,0,0,0,0,7,0", 2, b'T', "5,5,0,0,7,0", "aTT"),
    ),
    // blocks that are not touched
    (
        "if (p == q) return 1;",
        3,
        ("5,5,0,0,3,0", 0, b'F', "5,7,0,0,3,0,3,0", "F"),
    ),
    // a cell names a parameter's block
    (
        "if (q) if (p->next == q) return 1;",
        -9,
        ("5,7,0,0,0,0,0,0", 2, b'T', "5,7,0,0,0,7,0,0", "TaT"),
    ),
    // a pointer to a pointer
    (
        "if (**r == -4) return 1;",
        -9,
        ("0,0,5,0,6,0", 3, b'T', "0,0,5,0,6,-4", "ab.T"),
    ),
    // an array of pointers
    (
        "if (t->n == 4) if (*t->a[1] == 8) if (t->a[0] == t->a[1]) return 1;",
        -9,
        (
            "0,0,0,5,8,9,4,0,8",
            10,
            b'T',
            "0,0,0,5,8,8,4,8",
            "aTa.bTa.a.T",
        ),
    ),
    // a stream ends with its last place
    (
        FIVE_NUMBERS,
        3,
        ("0,0,0,0/3,3,5,3,3", 1, b'T', "0,0,0,0/9,3,5,3,3", "TT"),
    ),
];

#[test]
fn built_inputs(rt: HostRuntime) -> Result<(), Fail> {
    for (body, lo, row) in BUILT {
        let mut source = String::from_str(rt.alloc(), FOUR_POINTERS)?;
        source.push_str(body)?;
        source.push_str(" return 0; }\n")?;
        let bounds = Bounds::new(lo, 9, 1024, 8, 100_000);
        check_rows(&rt, source.as_str(), bounds, BUDGET, &[row])?;
    }
    Ok(())
}
