//! Tevgoral: the words of the command line, the files and the streams of the system, and one call.
#![tactic(auto)]

use cc_outside::{RealFiles, RealSink};
use concolic_cli::concolic;
use std::process::ExitCode;
use std::rt::Env;
use std::{env, io};

/// The words of the command line, without the program's name.
fn words(rt: &(impl Env + AllocGlobal)) -> io::Result<Vec<String>> {
    let mut words = Vec::new(rt.alloc());
    for word in env::args(rt)?.skip(1) {
        words.push(word)?;
    }
    Ok(words)
}

fn main(rt: HostRuntime) -> ExitCode {
    let alloc = rt.alloc();
    let Ok(words) = words(&rt) else {
        return ExitCode::from(7);
    };
    let mut out = RealSink::new(rt.stdout());
    let mut err = RealSink::new(rt.stderr());
    let mut files = RealFiles::new(rt);
    let status = concolic(alloc, &words, &mut files, &mut out, &mut err);
    ExitCode::from(status.0)
}
