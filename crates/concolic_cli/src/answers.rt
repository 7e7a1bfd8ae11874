//! What the tool says where it refuses.

ghost use Rattle.std.specs.Prelude.{◌≡◌, ◌++◌, ◌^◌, ◌<◌, ◌≤◌, IfOk, codes, true};
ghost use Rattle.cc_outside.specs.Faults.{Rose};
ghost use Rattle.concolic_cli.specs.Refusals.{bad_word_text, file_text, unread_text, tests_text, map_text_of, map_what};
ghost use Rattle.concolic_cli.specs.Refusals.{what_text, refusal_line, Says, IsAnswered, wants_memory, status_of};
ghost use Rattle.cc_model.specs.Report.{newline};
ghost use Rattle.concolic_cli.specs.Sources.{source_text, no_entry_text};
ghost use Rattle.concolic_cli.specs.Named.{names_in};

use crate::refusal::{FileWord, Refusal, Unread, Wrong};
use arrayvec::ArrayString;
use cc_model::base::NoMemory;
use cc_outside::Sink;
use input_map::MapFault;
use itoa::Buffer;
use std::alloc::Global;

/// The status with which the program ends.
#[derive(Clone, Copy)]
pub struct Status(pub u8);

/// `bad word N`, which takes no memory.
fn bad_word_line(word: u32) -> ArrayString<32>
    ensures { result.bytes ≡ bad_word_text word ++ newline }
{
    let mut number = Buffer::new();
    let mut line = ArrayString::new();
    line.push_str("bad word ");
    line.push_str(number.format(word));
    line.push_str("\n");
    line
}

/// `file NAME: WHAT`
fn file_line(alloc: Global, file: &str, what: &str) -> Result<Vec<u8>, NoMemory>
    ensures { IfOk result (λ line. line.items ≡ file_text file.now what.now ++ newline) }
{
    let mut line = Vec::from_slice(alloc, b"file ")?;
    line.extend_from_slice(file.as_bytes())?;
    line.extend_from_slice(b": ")?;
    line.extend_from_slice(what.as_bytes())?;
    line.push(b'\n')?;
    Ok(line)
}

/// Why a file was not read.
fn unread(why: Unread) -> &'static str
    ensures { result.now ≡ unread_text why }
{
    match why {
        Unread::Missing => "missing",
        Unread::TooLong => "too long",
        Unread::Failed => "failed",
    }
}

fn what(wrong: Wrong) -> &'static str
    ensures { result.now ≡ what_text wrong }
{
    match wrong {
        Wrong::BadByte => "bad byte",
        Wrong::BadNumber => "bad number",
        Wrong::OpenComment => "open comment",
        Wrong::BadDirective => "bad directive",
        Wrong::Syntax => "syntax",
        Wrong::TooDeep => "too deep",
        Wrong::UnknownName => "unknown name",
        Wrong::DeclaredTwice => "declared twice",
        Wrong::Mismatch => "type",
        Wrong::TooLarge => "too large",
    }
}

/// `source LINE: WHAT`
fn source_line(alloc: Global, line: u32, wrong: Wrong) -> Result<Vec<u8>, NoMemory>
    ensures { IfOk result (λ text. text.items ≡ source_text line (what_text wrong) ++ newline) }
{
    let mut number = Buffer::new();
    let mut text = Vec::from_slice(alloc, b"source ")?;
    text.extend_from_slice(number.format(line).as_bytes())?;
    text.extend_from_slice(b": ")?;
    text.extend_from_slice(what(wrong).as_bytes())?;
    text.push(b'\n')?;
    Ok(text)
}

/// `no entry NAME`
fn no_entry_line(alloc: Global, entry: &str) -> Result<Vec<u8>, NoMemory>
    ensures { IfOk result (λ text. text.items ≡ no_entry_text entry.now ++ newline) }
{
    let mut text = Vec::from_slice(alloc, b"no entry ")?;
    text.extend_from_slice(entry.as_bytes())?;
    text.push(b'\n')?;
    Ok(text)
}

/// `tests LINE: malformed`
fn tests_line(alloc: Global, line: u32) -> Result<Vec<u8>, NoMemory>
    ensures { IfOk result (λ text. text.items ≡ tests_text line ++ newline) }
{
    let mut number = Buffer::new();
    let mut text = Vec::from_slice(alloc, b"tests ")?;
    text.extend_from_slice(number.format(line).as_bytes())?;
    text.extend_from_slice(b": malformed\n")?;
    Ok(text)
}

/// `map: WHAT`, with a number behind it.
fn numbered_line(alloc: Global, what: &str, number: &str) -> Result<Vec<u8>, NoMemory>
    ensures { IfOk result (λ text. text.items ≡ codes "map: " ++ (what.now ++ number.now) ++ newline) }
{
    let mut text = Vec::from_slice(alloc, b"map: ")?;
    text.extend_from_slice(what.as_bytes())?;
    text.extend_from_slice(number.as_bytes())?;
    text.push(b'\n')?;
    Ok(text)
}

/// `map: WHAT`
fn map_line(alloc: Global, fault: MapFault) -> Result<Vec<u8>, NoMemory>
    ensures { IfOk result (λ text. text.items ≡ map_text_of fault ++ newline) }
{
    let mut number = Buffer::new();
    match fault {
        MapFault::Malformed(byte) => numbered_line(alloc, "malformed at ", number.format(byte)),
        MapFault::NotCanonical(address) => {
            numbered_line(alloc, "not canonical at ", number.format(address))
        }
        MapFault::Short => numbered_line(alloc, "short", ""),
        MapFault::Long(address) => numbered_line(alloc, "too long at ", number.format(address)),
        MapFault::OutOfBounds(address) => {
            numbered_line(alloc, "out of bounds at ", number.format(address))
        }
        MapFault::StreamOutOfBounds(place) => {
            numbered_line(alloc, "stream out of bounds at ", number.format(place))
        }
        MapFault::NoMemory => numbered_line(alloc, "no memory", ""),
    }
}

/// Says a line. A failure of the error sink changes nothing else.
fn say<E: Sink>(err: &mut E, line: &[u8])
    ensures { Says (E.written err.old) (E.written err.new) (E.faults err.old) (E.faults err.new) line.now }
{
    let _ = err.write(line);
}

/// The words that a text may name: FILE, ENTRY and TESTS.
#[derive(Clone, Copy)]
pub struct Named<'a> {
    pub file: &'a str,
    pub entry: &'a str,
    pub tests: &'a str,
}

/// A refusal, and the words that its text may name.
#[derive(Clone, Copy)]
pub struct Refused<'a> {
    pub refusal: Refusal,
    pub named: Named<'a>,
}

/// The line of a refusal that is not a bad word, with a newline.
fn line_of(alloc: Global, refusal: Refusal, named: Named<'_>) -> Result<Vec<u8>, NoMemory>
    requires { wants_memory refusal ≡ true }
    ensures { IfOk result (λ line. line.items ≡ refusal_line (names_in named.entry) refusal) }
{
    match refusal {
        Refusal::File(FileWord::Source, why) => file_line(alloc, named.file, unread(why)),
        Refusal::File(FileWord::Tests, why) => file_line(alloc, named.tests, unread(why)),
        Refusal::Source(line, wrong) => source_line(alloc, line, wrong),
        Refusal::NoEntry => no_entry_line(alloc, named.entry),
        Refusal::Map(fault) => map_line(alloc, fault),
        Refusal::Tests(line) => tests_line(alloc, line),
        Refusal::BadWord(_) | Refusal::OutputFailed | Refusal::NoMemory => { unreachable!() }
    }
}

/// Says a line that takes memory, or that there is none.
fn refuse_by_line<E: Sink>(
    alloc: Global,
    refusal: Refusal,
    status: u8,
    named: Named<'_>,
    err: &mut E,
) -> Status
    requires memory { wants_memory refusal ≡ true }
    requires status { status ≡ status_of refusal }
    ensures { IsAnswered (E.written err.old) (E.written err.new) (E.faults err.old) (E.faults err.new)
        (names_in named.entry) refusal result.0 }
{
    match line_of(alloc, refusal, named) {
        Ok(line) => {
            say(err, &line);
            Status(status)
        }
        Err(NoMemory) => {
            say(err, b"no memory\n");
            Status(7)
        }
    }
}

/// Says why a call is refused, and answers its status.
pub fn refuse<E: Sink>(alloc: Global, refusal: Refusal, named: Named<'_>, err: &mut E) -> Status
    ensures { IsAnswered (E.written err.old) (E.written err.new) (E.faults err.old) (E.faults err.new)
        (names_in named.entry) refusal result.0 }
{
    match refusal {
        Refusal::BadWord(word) => {
            say(err, bad_word_line(word).as_bytes());
            Status(2)
        }
        Refusal::OutputFailed => {
            say(err, b"output failed\n");
            Status(5)
        }
        Refusal::NoMemory => {
            say(err, b"no memory\n");
            Status(7)
        }
        Refusal::File(_, _) => refuse_by_line(alloc, refusal, 4, named, err),
        Refusal::Source(_, _) | Refusal::NoEntry | Refusal::Map(_) | Refusal::Tests(_) => {
            refuse_by_line(alloc, refusal, 3, named, err)
        }
    }
}
