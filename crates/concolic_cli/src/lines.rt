//! Lines of output.

ghost use Rattle.std.specs.Prelude.{◌≡◌, ◌^◌, ◌<◌, ◌≤◌, IfErr, OnOk, OnErr};
ghost use Rattle.cc_outside.specs.Told.{appended, WritesPart};
ghost use Rattle.concolic_cli.specs.Session.{WriteCause};

use crate::refusal::Refusal;
use cc_outside::{Sink, SinkFault};

/// Writes a line, by one write.
pub fn write_line<K: Sink>(out: &mut K, line: &[u8]) -> Result<(), Refusal>
    ensures output_failed { IfErr result (λ e. WriteCause (K.faults out.old) (K.faults out.new) e) }
    ensures ok { OnOk result (K.written out.new ≡ appended (K.written out.old) line.now) }
    ensures part { OnErr result (WritesPart (K.written out.old) (K.written out.new) line.now) }
    ensures never_falls { K.faults out.old ≤ K.faults out.new }
    ensures bounded { K.faults out.new < 2 ^ 64 }
{
    match out.write(line) {
        Ok(()) => Ok(()),
        Err(SinkFault::Failed) => Err(Refusal::OutputFailed),
        Err(SinkFault::NoMemory) => Err(Refusal::NoMemory),
    }
}
