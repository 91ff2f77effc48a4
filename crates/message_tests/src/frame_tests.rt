//! Frames one by one.

use super::spellings::{
    ACK, REPORT, ack_frame, joined, lock_frame, lock_statement, long_lock_frame, report_frame,
};
use bytes::Bytes;
use signed_frames::{Frame, UnsignedFrame};
use statements::{DecodeFault, decode};
use std::alloc::{AllocError, Global};
use test_support::report_bytes;

fn parsed(alloc: Global, bytes: &[u8]) -> Option<Frame> {
    let copied = Bytes::copy_from_slice(alloc, bytes).ok()?;
    Frame::parse(alloc, copied).ok()
}

// The frame of what was built.
fn parsed_of(alloc: Global, built: Result<Vec<u8>, AllocError>) -> Option<Frame> {
    parsed(alloc, &built.ok()?)
}

// Whether the shared bytes of a frame are these.
fn shares(frame: &Frame, bytes: &[u8]) -> bool {
    match frame.share() {
        Ok(shared) => shared.as_slice() == bytes,
        Err(_) => false,
    }
}

// Whether the bytes of a frame are these, shared or not.
fn has_bytes(frame: &Frame, bytes: &[u8]) -> bool {
    frame.as_bytes() == bytes && shares(frame, bytes)
}

// Whether a frame has these bytes, those of its statement, the rest as its signature, and this signer.
fn is_whole(frame: &Frame, statement: &[u8], bytes: &[u8], signer: u8) -> bool {
    has_bytes(frame, bytes)
        && frame.statement_bytes() == statement
        && frame.signature().len() == 2348
        && frame.statement().signer().number() == signer
}

// Whether there is a frame, and it is that one.
fn shows(frame: Option<Frame>, statement: &[u8], bytes: &[u8], signer: u8) -> bool {
    let Some(frame) = frame else {
        return false;
    };
    is_whole(&frame, statement, bytes, signer)
}

// A copy of the frame.
fn copied(frame: Option<Frame>) -> Option<Frame> {
    frame?.copy().ok()
}

// The frame of a statement with these bytes, whose signature consists of bytes 7. The statement is encoded to these
// bytes before it is signed.
fn signed(alloc: Global, statement: &[u8]) -> Option<Frame> {
    let unsigned = UnsignedFrame::new(alloc, decode(alloc, statement).ok()?).ok()?;
    if unsigned.statement_bytes() != statement {
        return None;
    }
    unsigned.with_signature(&[7; 2348]).ok()
}

// Whether the frame that was built has `len` bytes, is parsed as the frame of the statement by this signer, is copied whole, and is made
// from it.
fn is_frame(
    alloc: Global,
    built: Result<Vec<u8>, AllocError>,
    len: usize,
    statement: &[u8],
    signer: u8,
) -> bool {
    let Ok(bytes) = built else {
        return false;
    };
    bytes.len() == len
        && shows(parsed(alloc, &bytes), statement, &bytes, signer)
        && shows(copied(parsed(alloc, &bytes)), statement, &bytes, signer)
        && shows(signed(alloc, statement), statement, &bytes, signer)
}

#[test]
fn parses_and_builds_each_kind(rt: HostRuntime) {
    let alloc = rt.alloc();
    assert!(rt; is_frame(alloc, report_frame(alloc), 2377, &REPORT, 0));
    assert!(rt; is_frame(alloc, ack_frame(alloc), 2369, &ACK, 2));
    let statement = lock_statement(alloc).expect(&rt, "memory");
    assert!(rt; is_frame(alloc, lock_frame(alloc), 9489, &statement, 1));
}

// Whether the frame of these bytes returns them.
fn gives_bytes(alloc: Global, bytes: &[u8]) -> Option<bool> {
    Some(parsed(alloc, bytes)?.into_bytes().as_slice() == bytes)
}

// The signer of the statement that the frame of these bytes returns.
fn signer_given(alloc: Global, bytes: &[u8]) -> Option<u8> {
    Some(parsed(alloc, bytes)?.into_statement().signer().number())
}

#[test]
fn is_taken_apart(rt: HostRuntime) {
    let ack = ack_frame(rt.alloc()).expect(&rt, "memory");
    assert!(rt; gives_bytes(rt.alloc(), &ack) == Some(true));
    assert!(rt; signer_given(rt.alloc(), &ack) == Some(2));
}

// Whether the report at this index of the lock has this signer and this signature.
fn lends(frame: &Frame, place: usize, signer: u8, signature: &[u8]) -> bool {
    let report = report_bytes(1, 1, signer, b'a');
    match frame.lent_reports().nth(place) {
        Some(lent) => {
            lent.signer().number() == signer
                && lent.message() == report.as_slice()
                && lent.signature() == signature
        }
        None => false,
    }
}

fn lends_nothing(frame: &Frame, place: usize) -> bool {
    frame.lent_reports().nth(place).is_none()
}

// The first index, if there is one, at which the frame doesn't have the report of this index, signer and signature, or
// has one although the frame has `count` reports.
fn first_wrong_report(
    frame: &Frame,
    reports: &[(usize, u8, &[u8])],
    count: usize,
) -> Option<usize> {
    for (index, signer, signature) in reports {
        if !lends(frame, *index, *signer, signature) {
            return Some(*index);
        }
    }
    for index in [count, usize::MAX] {
        if !lends_nothing(frame, index) {
            return Some(index);
        }
    }
    None
}

// The same for the frame that was built, if it is one.
fn first_wrong_of(
    alloc: Global,
    built: Result<Vec<u8>, AllocError>,
    reports: &[(usize, u8, &[u8])],
    count: usize,
) -> Option<Option<usize>> {
    let frame = parsed_of(alloc, built)?;
    Some(first_wrong_report(&frame, reports, count))
}

// Of the lock with nine reports, only the last is read.
#[test]
fn lends_the_reports_of_locks(rt: HostRuntime) {
    let alloc = rt.alloc();
    let three = [
        (0, 0, [0; 2348].as_slice()),
        (1, 2, &[2; 2348]),
        (2, 3, &[3; 2348]),
    ];
    assert_eq!(rt;
        first_wrong_of(alloc, lock_frame(alloc), &three, 3),
        Some(None)
    );
    let ninth = [(8, 8, [8, 5].as_slice())];
    assert_eq!(rt;
        first_wrong_of(alloc, long_lock_frame(alloc), &ninth, 9),
        Some(None)
    );
    assert_eq!(rt;
        first_wrong_of(alloc, report_frame(alloc), &[], 0),
        Some(None)
    );
    assert_eq!(rt; first_wrong_of(alloc, ack_frame(alloc), &[], 0), Some(None));
}

fn is_malformed(alloc: Global, bytes: &[u8]) -> Option<bool> {
    let copied = Bytes::copy_from_slice(alloc, bytes).ok()?;
    Some(Frame::parse(alloc, copied).err() == Some(DecodeFault::Malformed))
}

// The length of the first proper prefix of these bytes that isn't malformed, or of the bytes with one more if they
// aren't, if there is such a length.
fn first_well_formed(alloc: Global, bytes: &[u8]) -> Option<Option<usize>> {
    for len in 0..bytes.len() {
        if !is_malformed(alloc, &bytes[..len])? {
            return Some(Some(len));
        }
    }
    let longer = joined(alloc, &[bytes, &[0]]).ok()?;
    if is_malformed(alloc, &longer)? {
        Some(None)
    } else {
        Some(Some(longer.len()))
    }
}

#[test]
fn refuses_beginnings_and_more(rt: HostRuntime) {
    let alloc = rt.alloc();
    let report = report_frame(alloc).expect(&rt, "memory");
    assert_eq!(rt; first_well_formed(alloc, &report), Some(None));
    let lock = lock_frame(alloc).expect(&rt, "memory");
    assert_eq!(rt; first_well_formed(alloc, &lock), Some(None));
}
