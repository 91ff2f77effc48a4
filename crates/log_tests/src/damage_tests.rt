//! Logs that were cut or changed at each byte, and where a walk over them ends. Python computed the same endings.
use crate::vectors::RECORDS;
use crate::walks::{LogEnd, walk};
use std::alloc::{AllocError, Global};

/// Where a walk ends if the log is cut at a place: the first place, the place after the last, the number of records,
/// and what follows them.
const CUTS: [(usize, usize, usize, LogEnd); 7] = [
    (0, 1, 0, LogEnd::End),
    (1, 24, 0, LogEnd::Torn),
    (24, 25, 1, LogEnd::End),
    (25, 44, 1, LogEnd::Torn),
    (44, 45, 2, LogEnd::End),
    (45, 73, 2, LogEnd::Torn),
    (73, 74, 3, LogEnd::End),
];

/// The same, if the byte at a place is changed. A change of the last record looks like a torn write, but not a change
/// of its length.
const CHANGES: [(usize, usize, usize, LogEnd); 4] = [
    (0, 24, 0, LogEnd::Damaged),
    (24, 44, 1, LogEnd::Damaged),
    (44, 48, 2, LogEnd::Damaged),
    (48, 73, 2, LogEnd::Torn),
];

// The first bytes of the log.
fn cut(place: usize) -> &'static [u8] {
    RECORDS.get(..place).unwrap_or(&[])
}

// The first place where the log, cut there, reads otherwise.
fn wrong_cut() -> Option<usize> {
    for &(from, to, records, ending) in &CUTS {
        for place in from..to {
            if walk(cut(place)) != (records, ending) {
                return Some(place);
            }
        }
    }
    None
}

#[test]
fn cut_anywhere(rt: HostRuntime) {
    assert!(rt; wrong_cut() == None, "{:?}", wrong_cut());
}

// The log, with other bits at a place.
fn changed(place: usize, bits: u8) -> [u8; 73] {
    let mut bytes = RECORDS;
    if let Some(byte) = bytes.get_mut(place) {
        *byte ^= bits;
    }
    bytes
}

// The first place where the log, changed there by these bits, reads otherwise.
fn wrong_change(bits: u8) -> Option<usize> {
    for &(from, to, records, ending) in &CHANGES {
        for place in from..to {
            if walk(&changed(place, bits)) != (records, ending) {
                return Some(place);
            }
        }
    }
    None
}

#[test]
fn changed_anywhere(rt: HostRuntime) {
    for bits in [0x01, 0x80, 0xff] {
        assert!(rt;
            wrong_change(bits) == None,
            "{bits}: {:?}",
            wrong_change(bits)
        );
    }
}

/// A number of bytes of the log, what follows them, and where a walk over both ends.
const ENDS: [(usize, &[u8], usize, LogEnd); 9] = [
    // Zeros, of a file that grew before its bytes came.
    (73, &[0; 40], 3, LogEnd::Torn),
    (60, &[0; 13], 2, LogEnd::Torn),
    // More zeros than the cut record lacks.
    (60, &[0; 14], 2, LogEnd::Damaged),
    // Three bytes of a length, also of one that no content has.
    (73, &[0, 0, 1], 3, LogEnd::Torn),
    (73, &[0xff; 3], 3, LogEnd::Torn),
    // The length of the longest content, and lengths that no content has.
    (
        73,
        &[
            1, 0, 0, 0, 9, 9, 9, 9, 9, 9, 9, 9, 9, 9, 9, 9, 9, 9, 9, 9, 9, 9, 9,
        ],
        3,
        LogEnd::Torn,
    ),
    (
        73,
        &[
            1, 0, 0, 1, 9, 9, 9, 9, 9, 9, 9, 9, 9, 9, 9, 9, 9, 9, 9, 9, 9, 9, 9,
        ],
        3,
        LogEnd::Damaged,
    ),
    (73, &[0xff; 4], 3, LogEnd::Damaged),
    // A record of no content with another tag, and a byte after it.
    (
        73,
        &[
            0, 0, 0, 0, 9, 9, 9, 9, 9, 9, 9, 9, 9, 9, 9, 9, 9, 9, 9, 9, 9,
        ],
        3,
        LogEnd::Damaged,
    ),
];

// Where a walk over the first bytes of the log and these bytes ends.
fn walk_on(alloc: Global, place: usize, more: &[u8]) -> Result<(usize, LogEnd), AllocError> {
    let mut bytes = Vec::from_slice(alloc, cut(place))?;
    bytes.extend_from_slice(more)?;
    Ok(walk(&bytes))
}

#[test]
fn bytes_after_records(rt: HostRuntime) {
    for (index, &(place, more, records, ending)) in ENDS.iter().enumerate() {
        assert!(rt;
            walk_on(rt.alloc(), place, more).ok() == Some((records, ending)),
            "case {index}"
        );
    }
}

/// What the first record's length is overwritten with, the bits of its content's first byte that are changed, and what
/// the log then begins with. The two records after it are good.
const LENGTHS: [([u8; 4], u8, LogEnd); 5] = [
    // Lengths that no content has.
    ([0xff; 4], 0x01, LogEnd::Damaged),
    ([1, 0, 0, 1], 0x00, LogEnd::Damaged),
    ([1, 0, 0, 1], 0x01, LogEnd::Damaged),
    // The length of the longest content. With a changed content, the bytes look like a longer record that was cut off.
    ([1, 0, 0, 0], 0x00, LogEnd::Damaged),
    ([1, 0, 0, 0], 0x01, LogEnd::Torn),
];

// The log with another length of its first record, and other bits of that record's content.
fn with_length(length: [u8; 4], bits: u8) -> [u8; 73] {
    let mut bytes = changed(4, bits);
    bytes[..4].copy_from_slice(&length);
    bytes
}

#[test]
fn first_length_changed(rt: HostRuntime) {
    for (index, &(length, bits, ending)) in LENGTHS.iter().enumerate() {
        assert!(rt;
            walk(&with_length(length, bits)) == (0, ending),
            "case {index}"
        );
    }
}
