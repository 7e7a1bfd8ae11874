//! A table that is read and run line by line.

use crate::directive::{Directive, RowLine, read_line};
use crate::row::{Cut, Row};
use crate::texts::Texts;
use anyhow::bail;
use std::alloc::Global;
use std::fmt::Write;

/// What is told of a table: a line for each row that differs, and how many there were.
#[derive(Drop)]
pub(crate) struct Told {
    pub(crate) text: String,
    pub(crate) differ: u64,
}

/// Runs the rows of a table.
pub(crate) fn run_table(alloc: Global, text: &str) -> anyhow::Result<Told> {
    let mut table = Table::new(alloc);
    table.take_all(text)?;
    write!(table.told, "{} rows, {} differ", table.rows, table.differ)?;
    Ok(Told {
        text: table.told,
        differ: table.differ,
    })
}

/// What was read so far, and the row that stands open.
#[derive(Drop)]
struct Table {
    alloc: Global,
    texts: Texts,
    row: Option<Row>,
    lines: u64,
    rows: u64,
    differ: u64,
    told: String,
}

impl Table {
    /// An empty table.
    fn new(alloc: Global) -> Table {
        Table {
            alloc,
            texts: Texts::new(alloc),
            row: None,
            lines: 0,
            rows: 0,
            differ: 0,
            told: String::new(alloc),
        }
    }

    /// Takes the lines of a text.
    fn take_all(&mut self, text: &str) -> anyhow::Result<()> {
        for line in text.lines() {
            self.lines = self.lines.saturating_add(1);
            let Some(directive) = read_line(line) else {
                bail!("line {}: no such mark", self.lines);
            };
            self.take(directive)?;
        }
        self.end_row()
    }

    /// Takes the next line.
    fn take(&mut self, directive: Directive<'_>) -> anyhow::Result<()> {
        match directive {
            Directive::Comment => {}
            Directive::Empty => self.end_row()?,
            Directive::Heading => self.texts.end_group(),
            Directive::Text(name) => self.texts.begin(name, true)?,
            Directive::File(name) => self.texts.begin(name, false)?,
            Directive::Is(name, text) => self.texts.copy(name, text)?,
            Directive::Line(line) => self.texts.push(1, line)?,
            Directive::Lines(count, line) => self.texts.push(count, line)?,
            Directive::Blanks(count) => self.texts.push_blanks(count)?,
            Directive::Words(words) => self.begin_row(words)?,
            Directive::Row(line) => self.take_of_row(line)?,
        }
        Ok(())
    }

    /// Begins a row, behind the one that stands open.
    fn begin_row(&mut self, words: &str) -> anyhow::Result<()> {
        self.end_row()?;
        self.row = Some(Row::new(self.alloc, self.lines, words, &self.texts)?);
        Ok(())
    }

    /// Takes a line of the row that stands open.
    fn take_of_row(&mut self, line: RowLine<'_>) -> anyhow::Result<()> {
        let Some(row) = &mut self.row else {
            bail!("line {}: of no row", self.lines);
        };
        match line {
            RowLine::Report(line) => row.report.push(line)?,
            RowLine::Error(line) => row.error.push(line)?,
            RowLine::Status(status) => row.status = status,
            RowLine::Fail(call) => row.fail(call),
            RowLine::Keep(name) => row.keep = Some(String::from_str(self.alloc, name)?),
            RowLine::Cut(name, least, greatest) => {
                let Some(bytes) = self.texts.named(name) else {
                    bail!("line {}: no file {name}", self.lines);
                };
                row.cut = Some(Cut {
                    name: String::from_str(self.alloc, name)?,
                    bytes: String::from_str(self.alloc, bytes)?,
                    least,
                    greatest,
                });
            }
        }
        Ok(())
    }

    /// Ends the row that stands open, which is one for each first part of a file that is cut.
    fn end_row(&mut self) -> anyhow::Result<()> {
        let Some(mut row) = self.row.take() else {
            return Ok(());
        };
        let Some(cut) = row.cut.take() else {
            return self.run_row(&mut row);
        };
        for length in cut.least..=cut.greatest {
            row.cut_to(&cut, length)?;
            self.run_row(&mut row)?;
        }
        Ok(())
    }

    /// Runs a row, and tells where it differs.
    fn run_row(&mut self, row: &mut Row) -> anyhow::Result<()> {
        let status = row.run();
        self.rows = self.rows.saturating_add(1);
        if let Some(name) = &row.keep {
            self.texts.begin(name.as_str(), false)?;
            self.texts.push(1, row.written()?)?;
        }
        if row.tell(status, &mut self.told)? {
            self.differ = self.differ.saturating_add(1);
        }
        Ok(())
    }
}
