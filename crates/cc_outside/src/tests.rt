// The kinds in memory, each call once, also through a bound.
use crate::{Files, LoadFault, MemFiles, MemSink, NullSink, Sink, SinkFault};
use std::alloc::Global;
use std::test::Fail;

#[derive(Clone, Copy, Debug, PartialEq, Eq)]
enum CopyFault {
    Load(LoadFault),
    Write(SinkFault),
}

// Writes what the file of that name has to both sinks.
fn copy<F: Files, K: Sink, E: Sink>(
    files: &mut F,
    (out, errors): (&mut K, &mut E),
    alloc: Global,
    name: &str,
) -> Result<(), CopyFault> {
    let bytes = files.load(alloc, name, 4).map_err(CopyFault::Load)?;
    out.write(&bytes).map_err(CopyFault::Write)?;
    errors.write(&bytes).map_err(CopyFault::Write)
}

#[test]
fn copies(rt: HostRuntime) -> Result<(), Fail> {
    let mut files = MemFiles::new(rt.alloc());
    files.put("a", b"old")?;
    files.put("b", b"bytes")?;
    files.put("a", b"new")?;
    files.fail_at(9);
    files.fail_at(2);
    let mut out = MemSink::new(rt.alloc());
    out.fail_at(9, 0);
    out.fail_at(2, 1);
    let mut nothing = NullSink;
    for (name, want) in [
        ("a", Ok(())),
        ("a", Err(CopyFault::Load(LoadFault::Failed))),
        ("b", Err(CopyFault::Load(LoadFault::TooLong))),
        ("c", Err(CopyFault::Load(LoadFault::Missing))),
        ("a", Err(CopyFault::Write(SinkFault::Failed))),
        ("a", Ok(())),
    ] {
        let copied = copy(&mut files, (&mut out, &mut nothing), rt.alloc(), name);
        assert_eq!(rt; copied, want, "at {name}");
    }
    assert_eq!(rt; out.bytes(), b"newnnew".as_slice());
    Ok(())
}
