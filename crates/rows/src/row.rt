//! One row: the call, and what is wanted of it.

use crate::directive::Call;
use crate::texts::Texts;
use crate::wanted::{Status, Wanted};
use anyhow::bail;
use cc_outside::{MemFiles, MemSink};
use concolic_cli::concolic;
use std::alloc::Global;
use std::fmt;
use std::fmt::Write;

/// The first parts of a file with which a row is run: its name and its bytes, and their least and greatest length.
#[derive(Drop)]
pub(crate) struct Cut {
    pub(crate) name: String,
    pub(crate) bytes: String,
    pub(crate) least: usize,
    pub(crate) greatest: usize,
}

/// A row: the line that it begins at, and its words as they stand there.
#[derive(Drop)]
pub(crate) struct Row {
    alloc: Global,
    line: u64,
    text: String,
    words: Vec<String>,
    files: MemFiles,
    out: MemSink,
    err: MemSink,
    pub(crate) report: Wanted,
    pub(crate) error: Wanted,
    pub(crate) status: Status,
    pub(crate) keep: Option<String>,
    pub(crate) cut: Option<Cut>,
    length: Option<usize>,
}

impl Row {
    /// A row of these words, with the files that they name.
    pub(crate) fn new(alloc: Global, line: u64, text: &str, texts: &Texts) -> anyhow::Result<Row> {
        let mut files = MemFiles::new(alloc);
        let mut words = Vec::new(alloc);
        for word in text.split_whitespace() {
            if let Some(file) = texts.named(word)
                && files.put(word, file.as_bytes()).is_err()
            {
                bail!("no memory");
            }
            let word = if word == "''" { "" } else { word };
            words.push(String::from_str(alloc, word)?)?;
        }
        Ok(Row {
            alloc,
            line,
            text: String::from_str(alloc, text)?,
            words,
            files,
            out: MemSink::new(alloc),
            err: MemSink::new(alloc),
            report: Wanted::new(alloc),
            error: Wanted::new(alloc),
            status: Status::Is(0),
            keep: None,
            cut: None,
            length: None,
        })
    }

    /// Makes a call of the row fail.
    pub(crate) fn fail(&mut self, call: Call) {
        match call {
            Call::Load(number) => self.files.fail_at(number),
            Call::Write(number, keep) => self.out.fail_at(number, keep),
            Call::Error(number, keep) => self.err.fail_at(number, keep),
        }
    }

    /// Begins the row anew, with this many bytes of a file.
    pub(crate) fn cut_to(&mut self, cut: &Cut, length: usize) -> anyhow::Result<()> {
        let Some(part) = cut.bytes.as_bytes().get(..length) else {
            bail!("{self}: the file has no {length} bytes");
        };
        if self.files.put(cut.name.as_str(), part).is_err() {
            bail!("no memory");
        }
        self.out = MemSink::new(self.alloc);
        self.err = MemSink::new(self.alloc);
        self.length = Some(length);
        Ok(())
    }

    /// Runs the row: its status.
    pub(crate) fn run(&mut self) -> u8 {
        concolic(
            self.alloc,
            &self.words,
            &mut self.files,
            &mut self.out,
            &mut self.err,
        )
        .0
    }

    /// The report that the row wrote.
    pub(crate) fn written(&self) -> anyhow::Result<&str> {
        Ok(str::from_utf8(self.out.bytes())?)
    }

    /// Whether what came is not what is wanted; where so, a line is added.
    pub(crate) fn tell(&self, status: u8, told: &mut String) -> anyhow::Result<bool> {
        let error = str::from_utf8(self.err.bytes())?;
        if let Some((wanted, came)) = self.report.difference(self.written()?) {
            writeln!(told, "{self}: wanted the report {wanted:?}, came {came:?}")?;
        } else if let Some((wanted, came)) = self.error.difference(error) {
            writeln!(told, "{self}: wanted the error {wanted:?}, came {came:?}")?;
        } else if !self.status.is_met(status) {
            writeln!(
                told,
                "{self}: wanted the status {}, came {status}",
                self.status
            )?;
        } else {
            return Ok(false);
        }
        Ok(true)
    }
}

impl fmt::Display for Row {
    fn fmt<W: fmt::Write>(&self, f: &mut fmt::Formatter<W>) -> fmt::Result {
        write!(f, "line {}: {}", self.line, self.text)?;
        match self.length {
            Some(length) => write!(f, ", {length} bytes"),
            None => Ok(()),
        }
    }
}
