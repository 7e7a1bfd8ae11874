//! Runs the table of rows that stands on standard input: each row is one call of the tool over files and sinks in
//! memory, and what must come of it. Writes a line for each row that differs, and how many there were.
//!
//! A table is lines, each of which begins with its mark and a blank.
//!
//! ```text
//! # COMMENT           nothing
//! == HEADING          what the rows below show; the files above are gone
//!
//! text NAME           a text for all rows below, whose lines follow
//! file NAME           a file for the rows up to the next heading, whose lines follow
//! file NAME is NAME   a file that holds a text
//! | LINE              a line of the text or of the file
//! * N LINE            as many such lines
//! _ N                 a line of so many blanks
//!
//! $ WORDS             a row: the words of the call, in which '' is the empty word
//! > LINE              a line of the report
//! ! LINE              a line of the error text
//! = STATUS            the status, or `run` for one of a source that was run: 0, 1, 10 or 11
//! fail load N         load N of the row fails
//! fail write N K      write N of the report fails, and keeps K bytes
//! fail error N K      write N of the error text fails, and keeps K bytes
//! keep NAME           the report becomes a file for the rows up to the next heading
//! cut NAME A B        a row for each first part of the file, of A to B bytes, which stands in its place
//! ```
//!
//! The lines of a text are joined by newlines, so one that ends in a newline has an empty last line. A row ends at an
//! empty line. In what it wants `?` stands for a number and `*` for the rest of a line; a line that ends in `\` has no
//! newline, and behind a line `...` any lines may come. Where it says nothing, nothing is written, and the status is 0.
//! No call of a row with `cut` fails.
#![tactic(auto)]

mod directive;
mod row;
mod table;
mod texts;
mod wanted;

use anyhow::ensure;
use std::io;
use table::run_table;

fn main(rt: HostRuntime) -> anyhow::Result<()> {
    let text = io::read_to_string(rt.alloc(), rt.reader())?;
    let told = run_table(rt.alloc(), text.as_str())?;
    println!(rt; "{}", told.text)?;
    ensure!(told.differ == 0, "some rows differ");
    Ok(())
}
