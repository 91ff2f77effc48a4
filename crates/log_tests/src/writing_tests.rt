//! What is written, compared with bytes that were computed outside.
use crate::vectors::{CONTENTS, FIRST_TAG, HEADER, LAST_TAG, RECORDS};
use crate::walks::{LogEnd, walk, walk_after};
use history_log::{MAX_CONTENT_LEN, RecordFault, Tag, put_record};
use std::alloc::{AllocError, Global};

// Appends the records, and returns the tag of the last.
fn put_contents(out: &mut Vec<u8>) -> Result<Tag, RecordFault> {
    let mut tag = Tag::first(HEADER);
    for content in CONTENTS {
        tag = put_record(out, tag, content)?;
    }
    Ok(tag)
}

#[test]
fn writes_three_records(rt: HostRuntime) {
    let mut out = Vec::new(rt.alloc());
    assert!(rt; *Tag::first(HEADER).as_bytes() == FIRST_TAG);
    assert!(rt; put_contents(&mut out).ok().map(|tag| *tag.as_bytes()) == Some(LAST_TAG));
    assert!(rt; out.as_slice() == RECORDS.as_slice());
}

#[test]
fn reads_three_records(rt: HostRuntime) {
    assert!(rt; walk(&RECORDS) == (3, LogEnd::End));
    assert!(rt; walk_after(b"another log\n", &RECORDS) == (0, LogEnd::Damaged));
}

// Appends a content of `len` zero bytes to one byte. Returns the result, and the number of bytes then.
fn put_zeros(alloc: Global, len: usize) -> Result<(bool, usize), AllocError> {
    let zeros = vec![in alloc; 0u8; len]?;
    let mut out = vec![in alloc; 7u8]?;
    let result = put_record(&mut out, Tag::first(HEADER), &zeros);
    Ok((result.err() == Some(RecordFault::TooLong), out.len()))
}

#[test]
fn refuses_a_long_content(rt: HostRuntime) {
    assert!(rt; put_zeros(rt.alloc(), MAX_CONTENT_LEN + 1).ok() == Some((true, 1)));
    assert!(rt; put_zeros(rt.alloc(), 3).ok() == Some((false, 24)));
}
