//! Why the tool refuses, and what it says then.

ghost use Rattle.std.specs.Prelude.{◌≡◌, ◌++◌, ◌^◌, ◌<◌, ◌≤◌, IfOk, codes};

use arrayvec::ArrayString;
use cc_model::base::NoMemory;
use cc_outside::Sink;
use input_map::MapFault;
use itoa::Buffer;
use std::alloc::Global;

/// What is wrong at a line of a source.
#[derive(Clone, Copy)]
pub enum Wrong {
    /// A byte that begins no token.
    BadByte,
    /// A number that is none of C's decimal `int`s.
    BadNumber,
    /// A comment that isn't closed.
    OpenComment,
    /// A line of the preprocessor that is no `#include`.
    BadDirective,
    /// The tokens are no program.
    Syntax,
    /// A token's level is above 200.
    TooDeep,
    /// A name names nothing.
    UnknownName,
    /// A name is declared anew.
    DeclaredTwice,
    /// A type is wrong.
    Mismatch,
    /// A length, a type or the number of sites is too large.
    TooLarge,
}

/// A word that names a file.
#[derive(Clone, Copy)]
pub enum FileWord {
    /// FILE, a source of at most 1,048,576 bytes.
    Source,
    /// TESTS, of at most 16,777,216 bytes.
    Tests,
}

/// Why a file was not read.
#[derive(Clone, Copy)]
pub enum Unread {
    /// There is none of that name.
    Missing,
    /// It has more bytes than it may have.
    TooLong,
    /// The files failed.
    Failed,
}

/// Why a call is refused.
#[derive(Clone, Copy)]
pub enum Refusal {
    /// The number of the bad word, from 1.
    BadWord(u32),
    /// A file that the words name was not read: which, and why.
    File(FileWord, Unread),
    /// The line of the source, from 1, and what is wrong there.
    Source(u32, Wrong),
    /// No function with a body has the entry's name.
    NoEntry,
    /// Why the word MAP is the map text of no input within the bounds; never want of memory.
    Map(MapFault),
    /// The first line of the tests file, from 1, that is none of such a file.
    Tests(u32),
    /// The output could not be written.
    OutputFailed,
    /// Want of memory.
    NoMemory,
}
