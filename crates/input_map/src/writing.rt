//! Inputs and tests as they are written.

ghost use Rattle.std.specs.Prelude.{◌≡◌, ◌++◌, ◌∷◌, IfOk, OnOk, All};
ghost use Rattle.std.specs.Fmt.{signed_decimal};
ghost use Rattle.cc_base.specs.Outcomes.{HasByte};
ghost use Rattle.cc_base.specs.Paths.{path_text};
ghost use Rattle.cc_base.specs.Inputs.{numbers_text, cells_text, stream_text, map_text, test_text};
ghost use Rattle.input_map.specs.Commas.{comma_before};

use cc_model::base::{Input, NoMemory, Outcome, Test, Text};
use itoa::Buffer;
use sqlite_items::Items;
use std::alloc::Global;

/// Writes a number behind what is there.
fn push_number(text: &mut Vec<u8>, number: i64) -> Result<(), NoMemory>
    ensures { OnOk result (text.new.items ≡ text.old.items ++ signed_decimal number) }
{
    let mut buffer = Buffer::new();
    text.extend_from_slice(buffer.format(number).as_bytes())?;
    Ok(())
}

/// Writes a number behind what is there, and a comma in front of it where it isn't the first.
fn push_next(text: &mut Vec<u8>, at: usize, number: i64) -> Result<(), NoMemory>
    ensures { OnOk result (text.new.items ≡ (text.old.items ++ comma_before at) ++ signed_decimal number) }
{
    if at > 0 {
        text.push(b',')?;
    }
    push_number(text, number)
}

/// Writes cells behind what is there, with commas between them.
fn push_cells(text: &mut Vec<u8>, cells: &[i64]) -> Result<(), NoMemory>
    ensures { OnOk result (text.new.items ≡ text.old.items ++ numbers_text cells.now) }
{
    for (at, cell) in cells.iter().enumerate() {
        push_next(text, at, *cell)?;
    }
    Ok(())
}

/// Writes numbers of a stream behind what is there, with commas between them.
fn push_stream(text: &mut Vec<u8>, stream: &[i32]) -> Result<(), NoMemory>
    ensures { OnOk result (text.new.items ≡ text.old.items ++ numbers_text stream.now) }
{
    for (at, number) in stream.iter().enumerate() {
        push_next(text, at, i64::from(*number))?;
    }
    Ok(())
}

/// Writes an input behind what is there.
fn push_map(text: &mut Vec<u8>, input: &Input) -> Result<(), NoMemory>
    ensures { OnOk result (text.new.items ≡ text.old.items ++ map_text input.now) }
{
    if input.cells.is_empty() {
        text.push(b'~')?;
    } else {
        push_cells(text, input.cells.as_slice())?;
    }
    if !input.stream.is_empty() {
        text.push(b'/')?;
        push_stream(text, input.stream.as_slice())?;
    }
    Ok(())
}

/// The map text of an input: the cells with commas between them, `~` where there are none, and behind a `/` the numbers
/// of the stream, where there are any. A number of more than 18 digits is written too, but no such text is read.
pub fn write_map(alloc: Global, input: &Input) -> Result<Text, NoMemory>
    ensures { IfOk result (λ text. text ≡ map_text input.now) }
{
    let mut text = Vec::new(alloc);
    push_map(&mut text, input)?;
    Ok(Items::from_vec(text))
}

/// Writes a path behind what is there: the bytes of its outcomes, or `~` where it has none.
fn push_path(text: &mut Vec<u8>, path: &[Outcome]) -> Result<(), NoMemory>
    requires { All HasByte path.now }
    ensures { OnOk result (text.new.items ≡ text.old.items ++ path_text path.now) }
{
    if path.is_empty() {
        text.push(b'~')?;
        return Ok(());
    }
    for outcome in path {
        text.push(outcome.to_byte())?;
    }
    Ok(())
}

/// A test as it is written: its path, its end and its input, with a blank between them. Each object of the path has to
/// have a letter.
pub fn write_test(alloc: Global, test: &Test) -> Result<Text, NoMemory>
    requires { All HasByte (test.now).path }
    ensures { IfOk result (λ text. text ≡ test_text test.now) }
{
    let end = test.end.to_string(alloc)?;
    let mut text = Vec::new(alloc);
    push_path(&mut text, test.path.as_slice())?;
    text.push(b' ')?;
    text.extend_from_slice(end.as_bytes())?;
    text.push(b' ')?;
    push_map(&mut text, &test.input)?;
    Ok(Items::from_vec(text))
}
