//! The commands that the tool takes.

use cc_base::Bounds;

/// How a session chooses what to run next.
#[derive(Clone, Copy, Debug, PartialEq, Eq)]
pub enum Strategy {
    Dfs,
    Random,
    UniformRandom,
    Cfg,
}

/// `run FILE ENTRY N STRATEGY D`. Where a field names a word, it is the word's number, from 1.
#[derive(Clone, Copy)]
pub struct RunWords {
    pub file: u32,
    pub entry: u32,
    /// How many runs are made at most, 1 to 1,000,000.
    pub runs: u32,
    pub strategy: Strategy,
    pub bounds: Bounds,
    /// The work that a solve may take, 1 to 100,000,000; 20,000 where nothing is said.
    pub budget: u64,
    /// The seed of a walk; 0 where nothing is said.
    pub seed: u64,
    /// The path above which the listing goes on.
    pub after: Option<u32>,
}

/// `trace FILE ENTRY MAP`
#[derive(Clone, Copy)]
pub struct TraceWords {
    pub file: u32,
    pub entry: u32,
    pub map: u32,
    pub bounds: Bounds,
}

/// `replay FILE ENTRY TESTS`
#[derive(Clone, Copy)]
pub struct ReplayWords {
    pub file: u32,
    pub entry: u32,
    pub tests: u32,
}

/// A command.
#[derive(Clone, Copy)]
pub enum Command {
    Run(RunWords),
    Trace(TraceWords),
    Replay(ReplayWords),
    /// How many branches the made program has, 1 to 1,024.
    Make(u32),
}
