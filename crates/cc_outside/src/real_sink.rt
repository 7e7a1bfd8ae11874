// Output to a stream of std.
ghost use Rattle.std.specs.Prelude.{◌≡◌, ℕ, ◌+◌, ◌^◌, ◌<◌, ◌≤◌, None, OnOk, OnErr, IfOk, IfErr, IsErrOf, length};
ghost use Rattle.std.specs.Io.KnownBytes.{Appends, Keeps, WriteAppends};
ghost use Rattle.cc_outside.specs.Faults.{Rose};
ghost use Rattle.cc_outside.specs.Streams.{AppendsPart};

use crate::writing::{Sink, SinkFault};
use std::io::{ErrorKind, Write};

/// A sink that writes to a stream of std, as standard output, and flushes it after each piece.
///
/// It tells nothing of what was written, and never answers `NoMemory`. Each failure is counted,
/// also of a flush, and also where the stream takes nothing of what is left. A write that was
/// interrupted is none, and is made again.
#[derive(Drop)]
pub struct RealSink<W: Write + Drop> {
    writer: W,
    faults: u64,
}

impl<W: Write + Drop> RealSink<W> {
    ghost use Rattle.cc_outside.specs.RealSink.{writer_of, faults_of};

    /// A sink that writes to `writer`, with no fault so far.
    pub fn new(writer: W) -> RealSink<W>
        ensures writer { writer_of result ≡ writer }
        ensures no_faults { faults_of result ≡ 0 }
    {
        RealSink { writer, faults: 0 }
    }
}

impl<W: Write + Drop> Sink for RealSink<W> {
    ghost use Rattle.cc_outside.specs.RealSink.{writer_of, faults_of};

    ghost written = { λ _. None };

    ghost faults = { faults_of };

    fn write(&mut self, piece: &[u8]) -> Result<(), SinkFault>
        ensures only_failed { IfErr result (λ e. e ≡ SinkFault.Failed) }
        ensures failed { OnErr result (Rose (faults_of self.old) (faults_of self.new)) }
        ensures never_falls { faults_of self.old ≤ faults_of self.new }
        ensures bounded { faults_of self.new < 2 ^ 64 }

        // What the stream is known to hold, at streams that say so.
        ensures whole { OnOk result (Appends
            (W.contents (writer_of self.old)) (W.contents (writer_of self.new)) piece.now) }
        ensures part { OnErr result (AppendsPart
            (W.contents (writer_of self.old)) (W.contents (writer_of self.new)) piece.now) }
    {
        let faults = self.faults;
        if write_piece(&mut self.writer, piece).is_err() {
            self.faults = faults.saturating_add(1);
            return Err(SinkFault::Failed);
        }
        Ok(())
    }
}

/// Writes the whole piece, and flushes. A stream that takes nothing of what is left has failed.
fn write_piece<W: Write>(writer: &mut W, piece: &[u8]) -> Result<(), SinkFault>
    ensures whole { OnOk result
        (Appends (W.contents writer.old) (W.contents writer.new) piece.now) }
    ensures part { OnErr result
        (AppendsPart (W.contents writer.old) (W.contents writer.new) piece.now) }
{
    let mut written = 0;
    for _ in 0..u64::MAX {
        if written == piece.len() {
            return writer.flush().map_err(|_| SinkFault::Failed);
        }
        written += write_some(writer, &piece[written..])?;
    }
    Err(SinkFault::Failed)
}

/// One write of what is left, and how much of it the stream took. That is nothing where the write
/// was interrupted.
fn write_some<W: Write>(writer: &mut W, rest: &[u8]) -> Result<usize, SinkFault>
    requires { 0 < length rest.now }
    ensures bound { IfOk result (λ n. n ≤ length rest.now) }
    ensures bytes { WriteAppends (W.contents writer.old) (W.contents writer.new) result rest.now }
{
    match writer.write(rest) {
        Ok(0) => Err(SinkFault::Failed),
        Ok(n) => Ok(n),
        Err(e) if e.kind() == ErrorKind::Interrupted => Ok(0),
        Err(_) => Err(SinkFault::Failed),
    }
}

#[cfg(test)]
mod tests {
    use super::*;
    use std::alloc::Global;
    use std::io;
    use std::test::Fail;

    #[derive(Clone, Copy)]
    enum Step {
        Takes(usize),
        Interrupted,
        Broken,
    }

    // A stream that does as it is told, and takes all once it is told no more.
    #[derive(Drop)]
    struct ToldStream<'a> {
        steps: std::slice::Iter<'a, Step>,
        taken: Vec<u8>,
        flush_fails: bool,
    }

    impl Write for ToldStream<'_> {
        fn write(&mut self, buf: &[u8]) -> io::Result<usize> {
            let most = match self.steps.next().copied() {
                Some(Step::Takes(most)) => most.min(buf.len()),
                Some(Step::Interrupted) => return Err(io::Error::from(ErrorKind::Interrupted)),
                Some(Step::Broken) => return Err(io::Error::from(ErrorKind::BrokenPipe)),
                None => buf.len(),
            };
            self.taken.extend_from_slice(&buf[..most])?;
            Ok(most)
        }

        fn flush(&mut self) -> io::Result<()> {
            if self.flush_fails {
                return Err(io::Error::from(ErrorKind::BrokenPipe));
            }
            Ok(())
        }
    }

    fn stream_of<'a>(alloc: Global, steps: &'a [Step], flush_fails: bool) -> ToldStream<'a> {
        ToldStream {
            steps: steps.iter(),
            taken: Vec::new(alloc),
            flush_fails,
        }
    }

    #[test]
    fn writes_to_memory(rt: HostRuntime) -> Result<(), Fail> {
        let mut sink = RealSink::new(Vec::new(rt.alloc()));
        sink.write(b"ab")?;
        sink.write(b"")?;
        sink.write(b"c")?;
        assert_eq!(rt; sink.writer.as_slice(), b"abc".as_slice());
        assert_eq!(rt; sink.faults, 0);
        RealSink::new(rt.stdout()).write(b"")?;
        Ok(())
    }

    #[test]
    fn fails_in_mid_stream(rt: HostRuntime) -> Result<(), Fail> {
        let steps = [
            Step::Takes(1),
            Step::Interrupted,
            Step::Takes(1),
            Step::Broken,
            Step::Takes(2),
            Step::Takes(0),
        ];
        let mut sink = RealSink::new(stream_of(rt.alloc(), &steps, false));
        assert_eq!(rt; sink.write(b"abc"), Err(SinkFault::Failed));
        assert_eq!(rt; sink.write(b"def"), Err(SinkFault::Failed));
        assert_eq!(rt; sink.write(b"ghi"), Ok(()));
        assert_eq!(rt; sink.writer.taken.as_slice(), b"abdeghi".as_slice());
        assert_eq!(rt; sink.faults, 2);
        Ok(())
    }

    #[test]
    fn fails_at_a_flush(rt: HostRuntime) {
        let mut sink = RealSink::new(stream_of(rt.alloc(), &[], true));
        assert_eq!(rt; sink.write(b"abc"), Err(SinkFault::Failed));
        assert_eq!(rt; sink.faults, 1);
    }
}
