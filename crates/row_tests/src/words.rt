//! Words and the commands that they are.

use cc_model::{Command, Strategy};
use command_words::read_words;
use std::alloc::{AllocError, Global};
use std::test::Fail;

/// What the words of the text, with spaces between them, are read as.
fn read_text(alloc: Global, text: &str) -> Result<Result<Command, u32>, AllocError> {
    let mut words = Vec::new(alloc);
    for word in text.split_whitespace() {
        words.push(String::from_str(alloc, word)?)?;
    }
    Ok(read_words(&words))
}

/// The number that stands first in the line, and the bad word's number of the words behind it.
fn bad_word_of(alloc: Global, line: &str) -> Result<(Option<u32>, Option<u32>), AllocError> {
    let mut wanted = None;
    let mut words = Vec::new(alloc);
    for word in line.split_whitespace() {
        if wanted.is_none() {
            wanted = word.parse::<u32>().ok();
        } else {
            words.push(String::from_str(alloc, word)?)?;
        }
    }
    Ok((wanted, read_words(&words).err()))
}

#[test]
fn takes_run(rt: HostRuntime) -> Result<(), Fail> {
    for (text, numbers, more) in [
        (
            "run t.c f 10 -dfs 1",
            (10, i32::MIN, i32::MAX, 1),
            (8, 100_000, 20_000),
        ),
        (
            "run -min -max 1000000 -dfs 1024",
            (1_000_000, i32::MIN, i32::MAX, 1024),
            (8, 100_000, 20_000),
        ),
        (
            "run t.c f 100 -dfs 9 -min 0 -max 5 -solver 1",
            (100, 0, 5, 9),
            (8, 100_000, 1),
        ),
        (
            "run t.c f 10 -dfs 5 -max 4 -min 4",
            (10, 4, 4, 5),
            (8, 100_000, 20_000),
        ),
        (
            "run t.c f 10 -dfs 5 -min -2147483648 -max -2147483648",
            (10, i32::MIN, i32::MIN, 5),
            (8, 100_000, 20_000),
        ),
        (
            "run t.c f 10 -dfs 5 -steps 1000000 -objects 25 -solver 100000000",
            (10, i32::MIN, i32::MAX, 5),
            (25, 1_000_000, 100_000_000),
        ),
        (
            "run t.c f 1 -dfs 5 -solver 3 -steps 1 -objects 1 -max 2147483647 -min -1",
            (1, -1, i32::MAX, 5),
            (1, 1, 3),
        ),
    ] {
        let command = read_text(rt.alloc(), text)?;
        let Ok(Command::Run(run)) = command else {
            return Err(Fail::from("refused"));
        };
        let bounds = run.bounds;
        assert_eq!(rt;
            (run.runs, bounds.lo(), bounds.hi(), bounds.depth()),
            numbers,
            "{text}"
        );
        assert_eq!(rt;
            (bounds.objects(), bounds.steps(), run.budget),
            more,
            "{text}"
        );
        assert_eq!(rt;
            (run.file, run.entry, run.strategy, run.seed, run.after),
            (2, 3, Strategy::Dfs, 0, None)
        );
    }
    Ok(())
}

#[test]
fn takes_a_path(rt: HostRuntime) -> Result<(), Fail> {
    for (text, after) in [
        ("run t.c f 1 -dfs 1 -after ~", Some(8)),
        ("run t.c f 1 -dfs 1 -min 1 -after TT+..az", Some(10)),
        // A low result and five objects.
        ("run t.c f 1 -dfs 1 -after -after", Some(8)),
    ] {
        let command = read_text(rt.alloc(), text)?;
        let number = match command {
            Ok(Command::Run(run)) => run.after,
            _ => None,
        };
        assert_eq!(rt; number, after, "{text}");
    }
    Ok(())
}

#[test]
fn takes_walks(rt: HostRuntime) -> Result<(), Fail> {
    for (text, strategy, seed, budget) in [
        ("run t.c f 5 -random 3", Strategy::Random, 0, 20_000),
        (
            "run t.c f 5 -uniform_random 3 -seed 18446744073709551615",
            Strategy::UniformRandom,
            u64::MAX,
            20_000,
        ),
        ("run t.c f 5 -cfg 3 -solver 7 -seed 4", Strategy::Cfg, 4, 7),
    ] {
        let command = read_text(rt.alloc(), text)?;
        let Ok(Command::Run(run)) = command else {
            return Err(Fail::from("refused"));
        };
        assert_eq!(rt;
            (run.runs, run.bounds.depth(), run.strategy),
            (5, 3, strategy),
            "{text}"
        );
        assert_eq!(rt;
            (run.seed, run.budget, run.after),
            (seed, budget, None),
            "{text}"
        );
    }
    Ok(())
}

#[test]
fn takes_make(rt: HostRuntime) -> Result<(), Fail> {
    for (text, number) in [("make 1", 1), ("make 1024", 1024)] {
        let command = read_text(rt.alloc(), text)?;
        let Ok(Command::Make(branches)) = command else {
            return Err(Fail::from("refused"));
        };
        assert_eq!(rt; branches, number, "{text}");
    }
    Ok(())
}

#[test]
fn takes_trace(rt: HostRuntime) -> Result<(), Fail> {
    for (text, numbers, more) in [
        ("trace t.c f 3", (i32::MIN, i32::MAX), (1024, 8, 100_000)),
        ("trace t.c f 3 -max 2", (i32::MIN, 2), (1024, 8, 100_000)),
        (
            "trace t.c -depth -depth -depth 1 -min 7",
            (7, i32::MAX),
            (1, 8, 100_000),
        ),
        (
            "trace t.c f 3 -steps 2 -objects 3 -depth 1024 -max 0 -min -1",
            (-1, 0),
            (1024, 3, 2),
        ),
    ] {
        let command = read_text(rt.alloc(), text)?;
        let Ok(Command::Trace(trace)) = command else {
            return Err(Fail::from("refused"));
        };
        let bounds = trace.bounds;
        assert_eq!(rt; (bounds.lo(), bounds.hi()), numbers, "{text}");
        assert_eq!(rt;
            (bounds.depth(), bounds.objects(), bounds.steps()),
            more,
            "{text}"
        );
        assert_eq!(rt; (trace.file, trace.entry, trace.map), (2, 3, 4));
    }
    Ok(())
}

/// The bad word's number, and the words.
const REFUSED: &str = "1
1 walk
2 run
3 run t.c
4 run t.c f
5 run t.c f 10
6 run t.c f 10 -dfs
4 run t.c f 0 -dfs 1
4 run t.c f 010 -dfs 1
4 run t.c f +10 -dfs 1
4 run t.c f 1000001 -dfs 1
5 run t.c f 10 -bfs 1
6 run t.c f 10 -dfs 1025
5 run t.c f 10 -uniform 5
7 run t.c f 10 -dfs 5 -seed 1
7 run t.c f 10 -random 5 -after T
8 run t.c f 10 -cfg 5 -seed -1
8 run t.c f 10 -cfg 5 -seed 01
8 run t.c f 10 -cfg 5 -seed 18446744073709551616
9 run t.c f 10 -uniform_random 5 -seed 1 -seed 1
7 run t.c f 10 -dfs 5 7
8 run t.c f 10 -dfs 5 -after
8 run t.c f 10 -dfs 5 -after TX
8 run t.c f 10 -dfs 5 -after T~
8 run t.c f 10 -dfs 5 -after ~~
8 run t.c f 10 -dfs 5 -after A
9 run t.c f 10 -dfs 5 -after T -after T
12 run t.c f 10 -dfs 5 -after !+-.FTaz -min 5 -max
2 make
2 make 0
2 make 1025
2 make 01
3 make 200 1
8 run t.c f 10 -dfs 5 -min
10 run t.c f 10 -dfs 5 -min 5 -max 4
10 run t.c f 10 -dfs 5 -max 4 -min 5
9 run t.c f 10 -dfs 5 -min 5 -min 5
9 run t.c f 10 -dfs 5 -steps 5 -steps
7 run t.c f 10 -dfs 5 -depth 5
8 run t.c f 10 -dfs 5 -min 2147483648
8 run t.c f 10 -dfs 5 -max -2147483649
8 run t.c f 10 -dfs 5 -min -0
8 run t.c f 10 -dfs 5 -min +1
8 run t.c f 10 -dfs 5 -min 01
8 run t.c f 10 -dfs 5 -max -01
8 run t.c f 10 -dfs 5 -objects 0
8 run t.c f 10 -dfs 5 -objects 26
8 run t.c f 10 -dfs 5 -steps 0 -bad
8 run t.c f 10 -dfs 5 -steps 1000001
8 run t.c f 10 -dfs 5 -solver 0
8 run t.c f 10 -dfs 5 -solver 100000001
11 run t.c f 10 -dfs 5 -objects 1 -solver 1 -bad
2 trace
3 trace t.c
4 trace t.c f
5 trace t.c f 3 -solver 5
5 trace t.c f 3 -after T
6 trace t.c f 3 -depth 0
6 trace t.c f 3 -depth 1025
9 trace t.c f 3 -depth 5 -max 1 -depth";

#[test]
fn names_the_bad_word(rt: HostRuntime) -> Result<(), Fail> {
    for line in REFUSED.lines() {
        let (wanted, bad) = bad_word_of(rt.alloc(), line)?;
        assert_eq!(rt; bad, wanted, "{line}");
    }
    Ok(())
}

#[test]
fn refuses_the_empty_word(rt: HostRuntime) -> Result<(), Fail> {
    let mut words = Vec::new(rt.alloc());
    for word in ["run", "", "", "1", "-dfs", "1", "-min", ""] {
        words.push(String::from_str(rt.alloc(), word)?)?;
    }
    assert_eq!(rt; read_words(&words).err(), Some(8));
    let mut no_name = Vec::new(rt.alloc());
    for word in ["trace", "", "", "", ""] {
        no_name.push(String::from_str(rt.alloc(), word)?)?;
    }
    assert_eq!(rt; read_words(&no_name).err(), Some(5));
    Ok(())
}
