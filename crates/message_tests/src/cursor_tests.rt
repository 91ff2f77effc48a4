//! Numbers and bytes that are taken from a cursor, and appended to a vector.

use octets::{Cursor, put_bytes, put_u8, put_u16, put_u32};
use std::alloc::AllocError;

// the first bytes of a report: its kind, its height, and a signature's length
const BYTES: [u8; 7] = [1, 0, 0, 0x24, 0xf1, 0x09, 0x2c];

fn has_rest(cursor: &Cursor<'_>, wanted: &[u8]) -> bool {
    cursor.rest() == wanted
        && cursor.len() == wanted.len()
        && cursor.is_empty() == wanted.is_empty()
}

// Two numbers, and one that is too long for what is left.
fn reads_two(cursor: &mut Cursor<'_>) -> bool {
    cursor.take_u8().ok() == Some(1)
        && cursor.take_u32().ok() == Some(9457)
        && cursor.take_u32().is_err()
}

// The last number, and none after it.
fn reads_the_last(cursor: &mut Cursor<'_>) -> bool {
    cursor.take_u16().ok() == Some(2348) && cursor.take_u8().is_err() && cursor.take_u16().is_err()
}

#[test]
fn reads_from_the_front(rt: HostRuntime) {
    let mut cursor = Cursor::new(&BYTES);
    assert!(rt; has_rest(&cursor, &BYTES));
    assert!(rt; reads_two(&mut cursor) && has_rest(&cursor, &[9, 44]));
    assert!(rt; reads_the_last(&mut cursor) && has_rest(&cursor, &[]));
}

#[test]
fn takes_some_bytes(rt: HostRuntime) {
    let mut cursor = Cursor::new(&BYTES);
    for (count, wanted) in [
        (3, Some(&BYTES[..3])),
        (5, None),
        (4, Some(&BYTES[3..])),
        (0, Some(&[])),
    ] {
        assert!(rt; cursor.take_bytes(count).ok() == wanted, "{count}");
    }
}

// The first bytes of the report, and two letters.
fn put_each(out: &mut Vec<u8>) -> Result<(), AllocError> {
    put_u8(out, 1)?;
    put_u32(out, 9457)?;
    put_u16(out, 2348)?;
    put_bytes(out, b"ab")
}

#[test]
fn puts_at_the_end(rt: HostRuntime) {
    let mut out = Vec::new(rt.alloc());
    assert!(rt; put_each(&mut out).is_ok());
    assert!(rt; out.as_slice() == [1, 0, 0, 0x24, 0xf1, 0x09, 0x2c, b'a', b'b'].as_slice());
}
