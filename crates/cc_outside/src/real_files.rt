// Files of the file system.
ghost use Rattle.std.specs.Prelude.{◌≡◌, ◌≢◌, ◌↔◌, ◌⊎◌, ℕ, ◌^◌, ◌<◌, ◌≤◌, None, IfOk, IfErr, IfSome, IsErrOf, length};
ghost use Rattle.std.specs.Prelude.{take, vec_len};
ghost use Rattle.std.specs.IoError.{error_kind};
ghost use Rattle.cc_outside.specs.Faults.{Rose};
ghost use Rattle.cc_outside.specs.Endings.{EndsBy};

use crate::loading::{Files, LoadFault};
use std::alloc::Global;
use std::io::{ErrorKind, Read};
use std::{fs, io, rt};

/// The files of the file system, by their paths.
///
/// It tells nothing of what they hold. `Missing` comes where std finds no such file, `NoMemory`
/// where std wants memory, and `Failed` at any other failure. Each failure but a missing file is
/// counted. A read that was interrupted is none, and is made again.
#[derive(Drop)]
pub struct RealFiles<R: rt::Files + Drop> {
    runtime: R,
    faults: u64,
}

impl<R: rt::Files + Drop> RealFiles<R> {
    ghost use Rattle.cc_outside.specs.RealFiles.{faults_of};

    /// The files that `runtime` reaches, with no fault so far.
    pub fn new(runtime: R) -> RealFiles<R>
        ensures no_faults { faults_of result ≡ 0 }
    {
        RealFiles { runtime, faults: 0 }
    }
}

impl<R: rt::Files + Drop> Files for RealFiles<R> {
    ghost use Rattle.cc_outside.specs.RealFiles.{faults_of};

    ghost held = { λ _. None };

    ghost faults = { faults_of };

    fn load(&mut self, alloc: Global, name: &str, limit: usize) -> Result<Vec<u8>, LoadFault>
        ensures within_limit { IfOk result (λ v. vec_len v ≤ limit) }
        ensures failed { IsErrOf result LoadFault.Failed
            → Rose (faults_of self.old) (faults_of self.new) }
        ensures no_memory { IsErrOf result LoadFault.NoMemory
            → Rose (faults_of self.old) (faults_of self.new) }
        ensures never_falls { faults_of self.old ≤ faults_of self.new }
        ensures bounded { faults_of self.new < 2 ^ 64 }
    {
        let faults = self.faults;
        let answer = read_file(&self.runtime, alloc, name, limit);
        if matches!(answer, Err(LoadFault::Failed | LoadFault::NoMemory)) {
            self.faults = faults.saturating_add(1);
        }
        answer
    }
}

fn read_file<R: rt::Files>(
    runtime: &R,
    alloc: Global,
    name: &str,
    limit: usize,
) -> Result<Vec<u8>, LoadFault>
    ensures within_limit { IfOk result (λ v. vec_len v ≤ limit) }
{
    let file = fs::open(runtime, name).map_err(|e| open_fault(&e))?;
    read_up_to(file, alloc, limit)
}

/// Why a file was not opened.
fn open_fault(error: &io::Error) -> LoadFault
    ensures missing { (result ≡ LoadFault.Missing) ↔ (error_kind error.now ≡ ErrorKind.NotFound) }
    ensures no_memory { (result ≡ LoadFault.NoMemory)
        ↔ (error_kind error.now ≡ ErrorKind.OutOfMemory) }
    ensures never_long { result ≢ LoadFault.TooLong }
{
    match error.kind() {
        ErrorKind::NotFound => LoadFault::Missing,
        _ => read_fault(error),
    }
}

/// Why a file that is open was not read.
fn read_fault(error: &io::Error) -> LoadFault
    ensures no_memory { error_kind error.now ≡ ErrorKind.OutOfMemory → result ≡ LoadFault.NoMemory }
    ensures failed { error_kind error.now ≢ ErrorKind.OutOfMemory → result ≡ LoadFault.Failed }
    ensures cases { (result ≡ LoadFault.Failed) ⊎ (result ≡ LoadFault.NoMemory) }
{
    match error.kind() {
        ErrorKind::OutOfMemory => LoadFault::NoMemory,
        _ => LoadFault::Failed,
    }
}

/// All that the reader has left, if that is at most `limit` bytes. It reads at most one byte more.
fn read_up_to<R: Read + Drop>(reader: R, alloc: Global, limit: usize) -> Result<Vec<u8>, LoadFault>
    ensures within_limit { IfOk result (λ v. vec_len v ≤ limit) }
    ensures bytes { IfSome (R.remaining reader) (λ xs. IfOk result (λ v. v.items ≡ xs)) }
    ensures too_long { IfSome (R.remaining reader)
        (λ xs. limit < length xs → EndsBy LoadFault.TooLong result) }
    ensures too_long_only { IfSome (R.remaining reader)
        (λ xs. IsErrOf result LoadFault.TooLong → limit < length xs) }
    ensures never_missing { ¬ IsErrOf result LoadFault.Missing }
{
    let bytes = read_first(reader, alloc, (limit as u64).saturating_add(1))?;
    if bytes.len() > limit {
        return Err(LoadFault::TooLong);
    }
    Ok(bytes)
}

/// The bytes that the reader has left, up to the first `most`. A read of nothing is their end.
fn read_first<R: Read + Drop>(reader: R, alloc: Global, most: u64) -> Result<Vec<u8>, LoadFault>
    ensures first { IfSome (R.remaining reader) (λ xs. IfOk result (λ v. v.items ≡ take most xs)) }
    ensures faults { IfErr result (λ e. (e ≡ LoadFault.Failed) ⊎ (e ≡ LoadFault.NoMemory)) }
{
    let mut bytes = Vec::new(alloc);
    match reader.take(most).read_to_end(&mut bytes) {
        Ok(_) => Ok(bytes),
        Err(e) => Err(read_fault(&e)),
    }
}

#[cfg(test)]
mod tests {
    use super::*;
    use std::process;
    use std::test::Fail;

    // A reader that gives its bytes one by one, interrupted before each, and then fails.
    #[derive(Drop)]
    struct BreakingReader<'a> {
        bytes: std::slice::Iter<'a, u8>,
        is_interrupted: bool,
        end: ErrorKind,
    }

    impl Read for BreakingReader<'_> {
        fn read(&mut self, buf: &mut [u8]) -> io::Result<usize> {
            self.is_interrupted = !self.is_interrupted;
            if self.is_interrupted {
                return Err(io::Error::from(ErrorKind::Interrupted));
            }
            if buf.is_empty() {
                return Ok(0);
            }
            let Some(byte) = self.bytes.next() else {
                return Err(io::Error::from(self.end));
            };
            buf[0] = *byte;
            Ok(1)
        }
    }

    fn reader_of(bytes: &[u8], end: ErrorKind) -> BreakingReader<'_> {
        BreakingReader {
            bytes: bytes.iter(),
            is_interrupted: false,
            end,
        }
    }

    #[test]
    fn fails_in_mid_stream(rt: HostRuntime) {
        for (end, fault) in [
            (ErrorKind::Other, LoadFault::Failed),
            (ErrorKind::NotFound, LoadFault::Failed),
            (ErrorKind::OutOfMemory, LoadFault::NoMemory),
        ] {
            let read = read_up_to(reader_of(b"abc", end), rt.alloc(), 3);
            assert_eq!(rt; read.err(), Some(fault));
        }
        // The limit ends the reading before the fault comes.
        let read = read_up_to(reader_of(b"abc", ErrorKind::Other), rt.alloc(), 2);
        assert_eq!(rt; read.err(), Some(LoadFault::TooLong));
    }

    #[test]
    fn loads_files(rt: HostRuntime) -> Result<(), Fail> {
        let id = process::id(rt.process());
        let path = format!(in rt.alloc(); "/tmp/cc_outside-{id}")?;
        fs::write(&rt, path.as_str(), "abc")?;
        let mut files = RealFiles::new(rt);
        let bytes = files.load(rt.alloc(), path.as_str(), 3)?;
        assert_eq!(rt; bytes.as_slice(), b"abc".as_slice());
        let whole = files.load(rt.alloc(), path.as_str(), usize::MAX)?;
        assert_eq!(rt; whole.as_slice(), b"abc".as_slice());
        let long = files.load(rt.alloc(), path.as_str(), 2);
        assert_eq!(rt; long.err(), Some(LoadFault::TooLong));
        fs::remove_file(&rt, path.as_str())?;
        let missing = files.load(rt.alloc(), path.as_str(), 3);
        assert_eq!(rt; missing.err(), Some(LoadFault::Missing));
        assert_eq!(rt; files.faults, 0);
        // A directory is opened and can't be read.
        let failed = files.load(rt.alloc(), "/tmp", 3);
        assert_eq!(rt; failed.err(), Some(LoadFault::Failed));
        assert_eq!(rt; files.faults, 1);
        Ok(())
    }
}
