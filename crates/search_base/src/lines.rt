//! The texts of lines, and writing them.

ghost use Rattle.std.specs.Prelude.{◌≡◌, ◌++◌, ◌≤◌, IfOk, IfErr, OnOk, OnErr, All, codes, map};
ghost use Rattle.cc_base.specs.Inputs.{test_text};
ghost use Rattle.cc_base.specs.Outcomes.{HasByte};
ghost use Rattle.cc_base.specs.Paths.{path_text};
ghost use Rattle.cc_model.specs.Listing.{test_item, past_item, stray_item, spent_item, unrun_item};
ghost use Rattle.cc_model.specs.Report.{newline, item_line, kind_text, term_line, term_lines};
ghost use Rattle.cc_outside.specs.Told.{appended, WritesPart};
ghost use Rattle.search_base.specs.Lines.{SinkCause, listed};
ghost use Rattle.search_base.specs.Terms.{seen_term};

use crate::fault::SearchFault;
use crate::terms::FoundTerm;
use cc_model::TermKind;
use cc_model::base::{Input, Items, NoMemory, Outcome, PathText, Test};
use cc_outside::{Sink, SinkFault};
use input_map::{write_map, write_test};
use itoa::Buffer;
use std::alloc::Global;
use sym_run::Trace;

/// Writes a line, by one write.
pub fn write_line<K: Sink>(sink: &mut K, line: &[u8]) -> Result<(), SearchFault>
    ensures sink { IfErr result (λ e. SinkCause (K.faults sink.old) (K.faults sink.new) e) }
    ensures ok { OnOk result (K.written sink.new ≡ appended (K.written sink.old) line.now) }
    ensures part { OnErr result (WritesPart (K.written sink.old) (K.written sink.new) line.now) }
    ensures never_falls { K.faults sink.old ≤ K.faults sink.new }
{
    match sink.write(line) {
        Ok(()) => Ok(()),
        Err(SinkFault::Failed) => Err(SearchFault::Sink),
        Err(SinkFault::NoMemory) => Err(SearchFault::NoMemory),
    }
}

/// A copy of an input.
fn copied(alloc: Global, input: &Input) -> Result<Input, NoMemory>
    ensures { IfOk result (λ h. h ≡ input.now) }
{
    let cells = Items::from_slice(alloc, input.cells.as_slice())?;
    let stream = Items::from_slice(alloc, input.stream.as_slice())?;
    Ok(Input { cells, stream })
}

/// The test of a run.
fn test_of(alloc: Global, trace: &Trace, path: &PathText) -> Result<Test, NoMemory>
    ensures { IfOk result (λ t. t ≡ listed trace.now path.now) }
{
    let path = Items::from_slice(alloc, path.as_slice())?;
    let input = copied(alloc, &trace.input)?;
    Ok(Test {
        path,
        end: trace.end,
        input,
    })
}

/// A word, and the test of a run.
fn word_and_test(
    alloc: Global,
    word: &[u8],
    trace: &Trace,
    path: &PathText,
) -> Result<Vec<u8>, NoMemory>
    requires { All HasByte path.now }
    ensures { IfOk result (λ line. line.items ≡ word.now ++ test_text (listed trace.now path.now)) }
{
    let test = test_of(alloc, trace, path)?;
    let text = write_test(alloc, &test)?;
    let mut line = Vec::from_slice(alloc, word)?;
    line.extend_from_slice(text.as_slice())?;
    Ok(line)
}

/// Writes a path behind what is there: the bytes of its outcomes, or `~` where it has none.
fn push_path(text: &mut Vec<u8>, path: &[Outcome]) -> Result<(), NoMemory>
    requires { All HasByte path.now }
    ensures { OnOk result (text.new.items ≡ text.old.items ++ path_text path.now) }
{
    if path.is_empty() {
        text.push(b'~')?;
        return Ok(());
    }
    for outcome in path {
        text.push(outcome.to_byte())?;
    }
    Ok(())
}

/// Writes the end of a line that names a prefix.
fn push_after(line: &mut Vec<u8>, prefix: &[Outcome]) -> Result<(), NoMemory>
    requires { All HasByte prefix.now }
    ensures { OnOk result (line.new.items ≡ line.old.items ++ (codes " after " ++ path_text prefix.now ++ newline)) }
{
    line.extend_from_slice(b" after ")?;
    push_path(line, prefix)?;
    line.push(b'\n')?;
    Ok(())
}

/// The line of a test.
pub fn test_line(alloc: Global, trace: &Trace, path: &PathText) -> Result<Vec<u8>, NoMemory>
    requires { All HasByte path.now }
    ensures { IfOk result (λ line. line.items ≡ item_line (test_item (listed trace.now path.now))) }
{
    let mut line = word_and_test(alloc, b"test ", trace, path)?;
    line.push(b'\n')?;
    Ok(line)
}

/// The line of a past run.
pub fn past_line(alloc: Global, trace: &Trace, path: &PathText) -> Result<Vec<u8>, NoMemory>
    requires { All HasByte path.now }
    ensures { IfOk result (λ line. line.items ≡ item_line (past_item (listed trace.now path.now))) }
{
    let mut line = word_and_test(alloc, b"past ", trace, path)?;
    line.push(b'\n')?;
    Ok(line)
}

/// The line of a run that left its prediction.
pub fn stray_line(
    alloc: Global,
    trace: &Trace,
    path: &PathText,
    prefix: &PathText,
) -> Result<Vec<u8>, NoMemory>
    requires path { All HasByte path.now }
    requires prefix { All HasByte prefix.now }
    ensures { IfOk result (λ line. line.items ≡ item_line (stray_item (listed trace.now path.now) prefix.now)) }
{
    let mut line = word_and_test(alloc, b"stray ", trace, path)?;
    push_after(&mut line, prefix.as_slice())?;
    Ok(line)
}

/// The line of a prefix whose solve passed the budget.
pub fn spent_line(alloc: Global, prefix: &PathText) -> Result<Vec<u8>, NoMemory>
    requires { All HasByte prefix.now }
    ensures { IfOk result (λ line. line.items ≡ item_line (spent_item prefix.now)) }
{
    let mut line = Vec::from_slice(alloc, b"spent ")?;
    push_path(&mut line, prefix.as_slice())?;
    line.push(b'\n')?;
    Ok(line)
}

/// The line of an input that is not run.
pub fn unrun_line(alloc: Global, input: &Input, prefix: &PathText) -> Result<Vec<u8>, NoMemory>
    requires { All HasByte prefix.now }
    ensures { IfOk result (λ line. line.items ≡ item_line (unrun_item input.now prefix.now)) }
{
    let text = write_map(alloc, input)?;
    let mut line = Vec::from_slice(alloc, b"unrun ")?;
    line.extend_from_slice(text.as_slice())?;
    push_after(&mut line, prefix.as_slice())?;
    Ok(line)
}

/// The word for why a run concretised.
fn kind_word(kind: TermKind) -> &'static str
    ensures { result.now ≡ kind_text kind }
{
    match kind {
        TermKind::Product => "product",
        TermKind::Quotient => "quotient",
        TermKind::Index => "index",
        TermKind::Wide => "wide",
    }
}

/// The line of a term.
fn term_line(alloc: Global, term: FoundTerm) -> Result<Vec<u8>, NoMemory>
    ensures { IfOk result (λ line. line.items ≡ term_line (seen_term term)) }
{
    let mut number = Buffer::new();
    let mut line = Vec::from_slice(alloc, b"term ")?;
    line.extend_from_slice(number.format(term.line).as_bytes())?;
    line.extend_from_slice(b":")?;
    line.extend_from_slice(number.format(term.col).as_bytes())?;
    line.extend_from_slice(b" ")?;
    line.extend_from_slice(kind_word(term.kind).as_bytes())?;
    line.push(b'\n')?;
    Ok(line)
}

/// Writes the line of a term.
fn write_term<K: Sink>(alloc: Global, term: FoundTerm, sink: &mut K) -> Result<(), SearchFault>
    ensures ok { OnOk result (K.written sink.new ≡ appended (K.written sink.old) (term_line (seen_term term))) }
    ensures part { OnErr result (WritesPart (K.written sink.old) (K.written sink.new) (term_line (seen_term term))) }
    ensures sink { IfErr result (λ e. SinkCause (K.faults sink.old) (K.faults sink.new) e) }
    ensures never_falls { K.faults sink.old ≤ K.faults sink.new }
{
    match term_line(alloc, term) {
        Ok(line) => write_line(sink, &line),
        Err(NoMemory) => Err(SearchFault::NoMemory),
    }
}

/// Writes the lines of terms, each by a write of its own.
pub fn write_terms<K: Sink>(
    alloc: Global,
    terms: &[FoundTerm],
    sink: &mut K,
) -> Result<(), SearchFault>
    ensures ok { OnOk result (K.written sink.new
        ≡ appended (K.written sink.old) (term_lines (map seen_term terms.now))) }
    ensures part { OnErr result (WritesPart (K.written sink.old) (K.written sink.new)
        (term_lines (map seen_term terms.now))) }
    ensures sink { IfErr result (λ e. SinkCause (K.faults sink.old) (K.faults sink.new) e) }
    ensures never_falls { K.faults sink.old ≤ K.faults sink.new }
{
    for term in terms {
        write_term(alloc, *term, sink)?;
    }
    Ok(())
}
