//! What words encode. `tests/end_to_end.sh` tests which words encode no transaction, and why.
use plain_text::{decimal, written};
use std::alloc::Global;

#[test]
fn decimals_are_digits_alone(rt: HostRuntime) {
    for &(text, number) in &[
        ("0", Some(0)),
        ("007", Some(7)),
        ("4294967295", Some(u32::MAX)),
        ("4294967296", None),
        ("", None),
        ("+1", None),
        ("-1", None),
        ("1 ", None),
        ("1e3", None),
    ] {
        assert!(rt; decimal(text) == number, "at '{text}'");
    }
}

/// Whether a text encodes these bytes.
fn is_written(alloc: Global, text: &str, bytes: &[u8]) -> bool {
    match written(alloc, text) {
        Ok(read) => read.as_slice() == bytes,
        Err(_) => false,
    }
}

#[test]
fn transactions_are_written_byte_by_byte(rt: HostRuntime) {
    for &(text, bytes) in &[
        ("a=1", b"a=1".as_slice()),
        ("", b"".as_slice()),
        ("\\00\\2c\\5c\\ff~", b"\x00,\\\xff~".as_slice()),
        ("!\\20\\7f", b"! \x7f".as_slice()),
    ] {
        assert!(rt; is_written(rt.alloc(), text, bytes), "at '{text}'");
    }
}
