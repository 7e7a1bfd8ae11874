//! Words that are read, and words that are not.

use cc_base::{End, FaultKind, NoMemory};
use report_words::{end_of, is_number, natural_of, path_of, signed_of};

#[test]
fn numbers(rt: HostRuntime) {
    let _ = &rt;
    assert!(rt; is_number(b"0"));
    assert!(rt; is_number(b"18446744073709551615"));
    assert!(rt; !is_number(b"18446744073709551616"));
    assert!(rt; !is_number(b""));
    assert!(rt; !is_number(b"01"));
    assert!(rt; !is_number(b"+1"));
    assert!(rt; !is_number(b"-0"));
    assert!(rt; !is_number(b"1 "));
    assert_eq!(rt; natural_of(b"25", 25), Some(25));
    assert_eq!(rt; natural_of(b"26", 25), None);
    assert_eq!(rt; signed_of(b"-2147483648"), Some(i32::MIN));
    assert_eq!(rt; signed_of(b"-0"), None);
    assert_eq!(rt; signed_of(b"2147483648"), None);
}

#[test]
fn ends(rt: HostRuntime) {
    assert_eq!(rt; end_of(b"return"), Some(End::Return));
    assert_eq!(rt; end_of(b"steps"), Some(End::Steps));
    assert_eq!(rt;
        end_of(b"null@4294967295"),
        Some(End::Fault(FaultKind::Null, u32::MAX))
    );
    assert_eq!(rt; end_of(b"null@4294967296"), None);
    assert_eq!(rt; end_of(b"null"), None);
    assert_eq!(rt; end_of(b"return@1"), None);
    assert_eq!(rt; end_of(b"null@"), None);
    assert_eq!(rt; end_of(b"null@1@1"), None);
    assert_eq!(rt; end_of(b"returns"), None);
}

#[test]
fn paths(rt: HostRuntime) -> Result<(), NoMemory> {
    let path = path_of(rt.alloc(), b"TF.az+-!")?;
    assert!(rt; path.is_some());
    let path = path_of(rt.alloc(), b"~")?;
    assert!(rt; path.is_some_and(|p| p.is_empty()));
    let path = path_of(rt.alloc(), b"")?;
    assert!(rt; path.is_none());
    let path = path_of(rt.alloc(), b"~T")?;
    assert!(rt; path.is_none());
    let path = path_of(rt.alloc(), b"TA")?;
    assert!(rt; path.is_none());
    Ok(())
}
