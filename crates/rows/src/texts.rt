//! The texts and the files of a table.

use anyhow::bail;
use std::alloc::{AllocError, Global};

/// A text or a file: its lines, each with a newline, and whether it stays behind the next heading.
#[derive(Drop)]
struct Text {
    name: String,
    lines: String,
    stays: bool,
}

/// All that were named so far.
#[derive(Drop)]
pub(crate) struct Texts {
    alloc: Global,
    texts: Vec<Text>,
}

impl Texts {
    /// None.
    pub(crate) fn new(alloc: Global) -> Texts {
        Texts {
            alloc,
            texts: Vec::new(alloc),
        }
    }

    /// Begins a text or a file.
    pub(crate) fn begin(&mut self, name: &str, stays: bool) -> Result<(), AllocError> {
        let text = Text {
            name: String::from_str(self.alloc, name)?,
            lines: String::new(self.alloc),
            stays,
        };
        self.texts.push(text)?;
        Ok(())
    }

    /// Gives the one that began last so many more lines.
    pub(crate) fn push(&mut self, count: u32, line: &str) -> anyhow::Result<()> {
        let Some(text) = self.texts.last_mut() else {
            bail!("no text begins above the line {line}");
        };
        for _ in 0..count {
            text.lines.push_str(line)?;
            text.lines.push('\n')?;
        }
        Ok(())
    }

    /// Gives it a line of so many blanks.
    pub(crate) fn push_blanks(&mut self, count: u32) -> anyhow::Result<()> {
        let mut line = String::new(self.alloc);
        for _ in 0..count {
            line.push(' ')?;
        }
        self.push(1, line.as_str())
    }

    /// A file of the same lines as another text.
    pub(crate) fn copy(&mut self, name: &str, text: &str) -> anyhow::Result<()> {
        let Some(lines) = self.named(text) else {
            bail!("no text {text}");
        };
        let lines = String::from_str(self.alloc, lines)?;
        self.begin(name, false)?;
        self.push(1, lines.as_str())
    }

    /// The bytes of the one of that name that came last.
    pub(crate) fn named(&self, name: &str) -> Option<&str> {
        let mut found = None;
        for text in self.texts.as_slice() {
            if text.name.as_str() == name {
                found = Some(text.lines.as_str());
            }
        }
        Some(found?.strip_suffix('\n').unwrap_or(""))
    }

    /// Ends a group: its files are gone.
    pub(crate) fn end_group(&mut self) {
        self.texts.retain(|text| text.stays);
    }
}
