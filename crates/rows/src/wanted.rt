//! What a row wants, and where what came differs.

use std::alloc::{AllocError, Global};
use std::fmt;

/// A status that is wanted: this one, or one of a source that was run.
#[derive(Clone, Copy)]
pub(crate) enum Status {
    Is(u8),
    Run,
}

impl Status {
    /// Whether it is one that is wanted.
    pub(crate) fn is_met(self, status: u8) -> bool {
        match self {
            Status::Is(wanted) => status == wanted,
            Status::Run => status <= 1 || status == 10 || status == 11,
        }
    }
}

impl fmt::Display for Status {
    fn fmt<W: fmt::Write>(&self, f: &mut fmt::Formatter<W>) -> fmt::Result {
        match self {
            Status::Is(status) => write!(f, "{status}"),
            Status::Run => write!(f, "run"),
        }
    }
}

/// A text that is wanted: its lines, and whether more may follow.
#[derive(Drop)]
pub(crate) struct Wanted {
    lines: String,
    is_open: bool,
}

impl Wanted {
    /// No lines.
    pub(crate) fn new(alloc: Global) -> Wanted {
        Wanted {
            lines: String::new(alloc),
            is_open: false,
        }
    }

    /// Takes one more line.
    pub(crate) fn push(&mut self, line: &str) -> Result<(), AllocError> {
        if line == "..." {
            self.is_open = true;
            return Ok(());
        }
        match line.strip_suffix('\\') {
            Some(head) => self.lines.push_str(head)?,
            None => {
                self.lines.push_str(line)?;
                self.lines.push('\n')?;
            }
        }
        Ok(())
    }

    /// The first line that differs: as it is wanted, and as it came.
    pub(crate) fn difference<'a>(&'a self, text: &'a str) -> Option<(&'a str, &'a str)> {
        let mut came = text.split_inclusive('\n');
        for wanted in self.lines.as_str().split_inclusive('\n') {
            let line = came.next().unwrap_or("");
            if !is_like(wanted, line) {
                return Some((wanted, line));
            }
        }
        match came.next() {
            Some(line) if !self.is_open => Some(("", line)),
            _ => None,
        }
    }
}

/// What stands behind a number.
fn behind_number(text: &[u8]) -> &[u8] {
    let digits = text
        .iter()
        .take_while(|byte| **byte == b'-' || byte.is_ascii_digit());
    text.get(digits.count()..).unwrap_or(b"")
}

/// What stands from the line's end on.
fn behind_line(text: &[u8]) -> &[u8] {
    let before = text.iter().take_while(|byte| **byte != b'\n');
    text.get(before.count()..).unwrap_or(b"")
}

/// Whether the line is that of the pattern, in which `?` stands for a number and `*` for the rest of the line.
fn is_like(pattern: &str, line: &str) -> bool {
    let mut rest = line.as_bytes();
    for wanted in pattern.bytes() {
        if wanted == b'?' {
            rest = behind_number(rest);
        } else if wanted == b'*' {
            rest = behind_line(rest);
        } else if let Some((byte, tail)) = rest.split_first()
            && *byte == wanted
        {
            rest = tail;
        } else {
            return false;
        }
    }
    rest.is_empty()
}
