//! The lines of a table.

use crate::wanted::Status;

/// What a line of a table says.
#[derive(Clone, Copy)]
pub(crate) enum Directive<'a> {
    /// Nothing.
    Comment,
    /// The row above ends.
    Empty,
    /// A group of rows begins.
    Heading,
    /// A text begins, for all rows below.
    Text(&'a str),
    /// A file begins, for the rows of its group.
    File(&'a str),
    /// A file of that name holds a text.
    Is(&'a str, &'a str),
    /// A line of what began last.
    Line(&'a str),
    /// So many lines of it.
    Lines(u32, &'a str),
    /// A line of so many blanks.
    Blanks(u32),
    /// A row begins: its words.
    Words(&'a str),
    /// What is said of the row.
    Row(RowLine<'a>),
}

/// What a line says of a row.
#[derive(Clone, Copy)]
pub(crate) enum RowLine<'a> {
    /// A line of its report.
    Report(&'a str),
    /// A line of its error text.
    Error(&'a str),
    /// Its status.
    Status(Status),
    /// A call of it that fails.
    Fail(Call),
    /// The file that its report becomes.
    Keep(&'a str),
    /// The file whose first parts it is run with, and the least and the greatest length of those.
    Cut(&'a str, usize, usize),
}

/// A call that fails: its number, from 1, and how many bytes of a write stand.
#[derive(Clone, Copy)]
pub(crate) enum Call {
    Load(u64),
    Write(u64, usize),
    Error(u64, usize),
}

/// What a line says, where it says something.
pub(crate) fn read_line(line: &str) -> Option<Directive<'_>> {
    let (mark, rest) = line.split_once(' ').unwrap_or((line, ""));
    match mark {
        "#" => Some(Directive::Comment),
        "==" => Some(Directive::Heading),
        "text" => Some(Directive::Text(rest)),
        "file" => Some(read_file(rest)),
        "|" => Some(Directive::Line(rest)),
        "*" => read_lines(rest),
        "_" => Some(Directive::Blanks(rest.parse::<u32>().ok()?)),
        "$" => Some(Directive::Words(rest)),
        _ if line.is_empty() => Some(Directive::Empty),
        _ => Some(Directive::Row(read_row_line(mark, rest)?)),
    }
}

/// What a line says of a row.
fn read_row_line<'a>(mark: &str, rest: &'a str) -> Option<RowLine<'a>> {
    match mark {
        ">" => Some(RowLine::Report(rest)),
        "!" => Some(RowLine::Error(rest)),
        "=" => Some(RowLine::Status(read_status(rest)?)),
        "fail" => Some(RowLine::Fail(read_call(rest)?)),
        "keep" => Some(RowLine::Keep(rest)),
        "cut" => read_cut(rest),
        _ => None,
    }
}

/// A file, and the text that it holds, if one is named.
fn read_file(rest: &str) -> Directive<'_> {
    match rest.split_once(" is ") {
        Some((name, text)) => Directive::Is(name, text),
        None => Directive::File(rest),
    }
}

/// A number, and a line that stands so many times.
fn read_lines(rest: &str) -> Option<Directive<'_>> {
    let (count, line) = rest.split_once(' ')?;
    Some(Directive::Lines(count.parse::<u32>().ok()?, line))
}

/// A status that is wanted.
fn read_status(rest: &str) -> Option<Status> {
    if rest == "run" {
        return Some(Status::Run);
    }
    Some(Status::Is(rest.parse::<u8>().ok()?))
}

/// A file that is cut, and where.
fn read_cut(rest: &str) -> Option<RowLine<'_>> {
    let (name, lengths) = rest.split_once(' ')?;
    let (least, greatest) = lengths.split_once(' ')?;
    Some(RowLine::Cut(
        name,
        least.parse::<usize>().ok()?,
        greatest.parse::<usize>().ok()?,
    ))
}

/// A call that is to fail.
fn read_call(rest: &str) -> Option<Call> {
    let (kind, numbers) = rest.split_once(' ')?;
    if kind == "load" {
        return Some(Call::Load(numbers.parse::<u64>().ok()?));
    }
    let (number, keep) = numbers.split_once(' ')?;
    let number = number.parse::<u64>().ok()?;
    let keep = keep.parse::<usize>().ok()?;
    match kind {
        "write" => Some(Call::Write(number, keep)),
        "error" => Some(Call::Error(number, keep)),
        _ => None,
    }
}
