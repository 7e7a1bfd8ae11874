//! The text of a trace, and writing it.

ghost use Rattle.std.specs.Prelude.{◌≡◌, ◌≤◌, ◌<◌, ◌^◌, ◌++◌, [], ◌∷◌, IfOk, IfErr, OnOk, OnErr, All, length, map};
ghost use Rattle.std.specs.Prelude.{if◌then◌else◌};
ghost use Rattle.cc_base.specs.Outcomes.{HasByte, byte_of};
ghost use Rattle.cc_model.specs.CheckedProgram.{core_of};
ghost use Rattle.cc_model.specs.Listing.{test_item};
ghost use Rattle.cc_model.specs.Report.{item_line, is_fault};
ghost use Rattle.cc_model.specs.Runs.{run_of, end_at};
ghost use Rattle.cc_outside.specs.Told.{appended, WritesPart};
ghost use Rattle.concolic_cli.specs.Session.{WriteCause};
ghost use Rattle.concolic_cli.specs.Listings.{test_at};
ghost use Rattle.concolic_cli.specs.TraceText.{site_text, event_text, site_at, recorded_line, recorded_lines};
ghost use Rattle.concolic_cli.specs.TraceText.{trace_text};
ghost use Rattle.sym_run.specs.Traces.{ArePlain, outcome_at};

use crate::answers::Status;
use crate::lines::write_line;
use crate::listing::test_line;
use crate::refusal::Refusal;
use crate::report::{bounds_line, is_fault};
use cc_model::base::{Bounds, Input, Items, NoMemory, Outcome, Test};
use cc_model::{Checked, Site, SiteId, SiteKind};
use cc_outside::Sink;
use itoa::Buffer;
use std::alloc::Global;
use sym_run::{Event, Trace};

/// The site with this number.
fn site_at(checked: &Checked, id: SiteId) -> Site
    ensures { result ≡ site_at checked.now id.0 }
{
    match checked.sites.get(id.0 as usize) {
        Some(site) => *site,
        None => Site {
            token: 0,
            line: 0,
            col: 0,
            kind: SiteKind::Decision,
        },
    }
}

/// The line of a token; 0 where there is none.
fn line_at(checked: &Checked, token: u32) -> u32
    ensures { result ≡ (core_of checked.now).line token }
{
    match checked.lines.get(token as usize) {
        Some(line) => *line,
        None => 0,
    }
}

/// The word for what happens at a site.
fn site_word(kind: SiteKind) -> &'static str
    ensures { result.now ≡ site_text kind }
{
    match kind {
        SiteKind::Decision => "decision",
        SiteKind::Fit => "fit",
        SiteKind::Divisor => "divisor",
        SiteKind::Index => "index",
        SiteKind::Access => "access",
    }
}

/// The line of an event: its number, from 1, its outcome, its line, and what happens at its site.
fn event_line(
    alloc: Global,
    number: u64,
    outcome: Outcome,
    line: u32,
    kind: SiteKind,
) -> Result<Vec<u8>, NoMemory>
    requires { HasByte outcome }
    ensures { IfOk result (λ text. text.items ≡ event_text number outcome line kind) }
{
    let mut digits = Buffer::new();
    let mut text = Vec::from_slice(alloc, b"event ")?;
    text.extend_from_slice(digits.format(number).as_bytes())?;
    text.extend_from_slice(b" ")?;
    text.push(outcome.to_byte())?;
    text.extend_from_slice(b" ")?;
    text.extend_from_slice(digits.format(line).as_bytes())?;
    text.extend_from_slice(b" ")?;
    text.extend_from_slice(site_word(kind).as_bytes())?;
    text.push(b'\n')?;
    Ok(text)
}

/// The line of a recorded event.
fn recorded_line(
    alloc: Global,
    checked: &Checked,
    number: u64,
    event: &Event,
) -> Result<Vec<u8>, NoMemory>
    requires { HasByte (outcome_at event.now) }
    ensures { IfOk result (λ text. text.items ≡ recorded_line checked.now number event.now) }
{
    let site = site_at(checked, event.site);
    let line = line_at(checked, site.token);
    event_line(alloc, number, event.taken.outcome, line, site.kind)
}

/// Writes the line of a recorded event.
fn write_event<K: Sink>(
    alloc: Global,
    checked: &Checked,
    number: u64,
    event: &Event,
    out: &mut K,
) -> Result<(), Refusal>
    requires { HasByte (outcome_at event.now) }
    ensures output_failed { IfErr result (λ e. WriteCause (K.faults out.old) (K.faults out.new) e) }
    ensures ok { OnOk result (K.written out.new
        ≡ appended (K.written out.old) (recorded_line checked.now number event.now)) }
    ensures part { OnErr result (WritesPart (K.written out.old) (K.written out.new)
        (recorded_line checked.now number event.now)) }
    ensures never_falls { K.faults out.old ≤ K.faults out.new }
{
    match recorded_line(alloc, checked, number, event) {
        Ok(line) => write_line(out, &line),
        Err(NoMemory) => Err(Refusal::NoMemory),
    }
}

/// Writes the lines of recorded events, each by a write of its own.
fn write_events<K: Sink>(
    alloc: Global,
    checked: &Checked,
    events: &[Event],
    out: &mut K,
) -> Result<(), Refusal>
    requires { All HasByte (map outcome_at events.now) }
    ensures output_failed { IfErr result (λ e. WriteCause (K.faults out.old) (K.faults out.new) e) }
    ensures ok { OnOk result (K.written out.new
        ≡ appended (K.written out.old) (recorded_lines checked.now 1 events.now)) }
    ensures part { OnErr result (WritesPart (K.written out.old) (K.written out.new)
        (recorded_lines checked.now 1 events.now)) }
    ensures never_falls { K.faults out.old ≤ K.faults out.new }
{
    for (at, event) in events.iter().enumerate() {
        write_event(alloc, checked, at as u64 + 1, event, out)?;
    }
    Ok(())
}

/// A copy of an input.
fn copied(alloc: Global, input: &Input) -> Result<Input, NoMemory>
    ensures { IfOk result (λ h. h ≡ input.now) }
{
    let cells = Items::from_slice(alloc, input.cells.as_slice())?;
    let stream = Items::from_slice(alloc, input.stream.as_slice())?;
    Ok(Input { cells, stream })
}

/// The test of a trace.
fn test_of(alloc: Global, trace: &Trace) -> Result<Test, NoMemory>
    ensures { IfOk result (λ t. t ≡ record {
      path = map outcome_at
          (trace.now).events;
      end = (trace.now).end;
      input = (trace.now).input;
    }) }
{
    let path = trace.path(alloc)?;
    let input = copied(alloc, &trace.input)?;
    Ok(Test {
        path,
        end: trace.end,
        input,
    })
}

/// The line of the test of a trace.
fn last_line(alloc: Global, trace: &Trace) -> Result<Vec<u8>, NoMemory>
    requires { All HasByte (map outcome_at (trace.now).events) }
    ensures { IfOk result (λ line. line.items
        ≡ item_line (test_item (record {
          path = map outcome_at
              (trace.now).events;
          end = (trace.now).end;
          input = (trace.now).input;
        }))) }
{
    let test = test_of(alloc, trace)?;
    test_line(alloc, &test)
}

/// Writes the trace of a run, each line by a write of its own. The status is 1 where the run ends as a fault, else 0.
pub fn write_trace<K: Sink>(
    alloc: Global,
    checked: &Checked,
    bounds: &Bounds,
    trace: &Trace,
    out: &mut K,
) -> Result<Status, Refusal>
    requires plain { ArePlain checked.now (run_of (core_of checked.now) bounds.now (trace.now).input).log
        (trace.now).events }
    requires end { (trace.now).end ≡ end_at (core_of checked.now) bounds.now (trace.now).input }
    requires bytes { All HasByte (map outcome_at (trace.now).events) }
    ensures ok { OnOk result (K.written out.new
        ≡ appended (K.written out.old) (trace_text (core_of checked.now) bounds.now (trace.now).input)) }
    ensures status { IfOk result (λ s. s.0
        ≡ (if is_fault (end_at (core_of checked.now) bounds.now (trace.now).input) then 1 else 0)) }
    ensures part { OnErr result (WritesPart (K.written out.old) (K.written out.new)
        (trace_text (core_of checked.now) bounds.now (trace.now).input)) }
    ensures cause { IfErr result (λ e. WriteCause (K.faults out.old) (K.faults out.new) e) }
    ensures never_falls { K.faults out.old ≤ K.faults out.new }
{
    let Ok(first) = bounds_line(alloc, bounds) else {
        return Err(Refusal::NoMemory);
    };
    let Ok(last) = last_line(alloc, trace) else {
        return Err(Refusal::NoMemory);
    };
    write_line(out, &first)?;
    write_events(alloc, checked, trace.events.as_slice(), out)?;
    write_line(out, &last)?;
    Ok(Status(if is_fault(trace.end) { 1 } else { 0 }))
}
