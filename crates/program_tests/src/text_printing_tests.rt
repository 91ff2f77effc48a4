//! Bytes and numbers in their printed form.
use plain_text::{Escaped, number};

/// Bytes, and their printed form.
const WRITTEN: [(&[u8], &str); 6] = [
    (b"", ""),
    (b"a=1", "a=1"),
    (b"a b", "a\\20b"),
    (b",[\\]", "\\2c\\5b\\5c\\5d"),
    (b"\x00\x0a\x7f\xff", "\\00\\0a\\7f\\ff"),
    (b"!~", "!~"),
];

#[test]
fn bytes_are_shown_as_they_are_written(rt: HostRuntime) {
    for (bytes, wanted) in &WRITTEN {
        let shown = Escaped(bytes);
        let shown = format!(in rt.alloc(); "{shown}").expect(&rt, "memory");
        assert!(rt; shown.as_str() == *wanted, "at '{wanted}'");
    }
}

/// Words, and the number that each is, if it is one.
const NUMBERS: [(&str, Option<u32>); 11] = [
    ("0", Some(0)),
    ("4294967295", Some(4_294_967_295)),
    ("10", Some(10)),
    ("", None),
    ("00", None),
    ("01", None),
    ("+1", None),
    ("-1", None),
    ("4294967296", None),
    ("1 ", None),
    ("x", None),
];

#[test]
fn numbers_have_no_needless_zeros(rt: HostRuntime) {
    for (word, wanted) in &NUMBERS {
        assert!(rt; number(word) == *wanted, "at '{word}'");
    }
}
