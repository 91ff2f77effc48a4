//! Frames in a stream.

use super::spellings::{ack_frame, joined, lock_frame, report_frame};
use signed_frames::{Frame, FrameFault, FrameReader};
use std::alloc::{AllocError, Global};

// A reader's answer to a piece: the number of frames that it returns, or the fault; and whether it is then between two frames.
type Answer = (Result<usize, FrameFault>, bool);

fn fed(reader: &mut FrameReader, piece: &[u8]) -> Result<usize, FrameFault> {
    Ok(reader.feed(piece)?.len())
}

// The index of the first piece to which the reader gives another answer, if there is one.
fn first_wrong_answer(reader: &mut FrameReader, cases: &[(&[u8], Answer)]) -> Option<usize> {
    for (index, (piece, wanted)) in cases.iter().enumerate() {
        let answer = fed(reader, piece);
        if (answer, reader.is_between()) != *wanted {
            return Some(index);
        }
    }
    None
}

// The same for a new reader.
fn first_wrong(alloc: Global, cases: &[(&[u8], Answer)]) -> Option<usize> {
    let mut reader = FrameReader::new(alloc);
    first_wrong_answer(&mut reader, cases)
}

// The number of frames that arrive byte by byte, and whether the reader is between two frames exactly before the first
// and after each.
fn fed_singly(reader: &mut FrameReader, bytes: &[u8]) -> Result<(usize, bool), FrameFault> {
    let mut count = 0usize;
    let mut between = reader.is_between();
    for byte in bytes {
        let found = fed(reader, &[*byte])?;
        between = between && reader.is_between() == (found == 1);
        count = count.saturating_add(found);
    }
    Ok((count, between))
}

#[test]
fn reads_one_frame_byte_by_byte(rt: HostRuntime) {
    let bytes = report_frame(rt.alloc()).expect(&rt, "memory");
    let mut reader = FrameReader::new(rt.alloc());
    assert!(rt; fed_singly(&mut reader, &bytes) == Ok((1, true)));
}

// A report, the bytes `between`, an acknowledgement, and the bytes `behind`.
fn with_between(alloc: Global, between: &[u8], behind: &[u8]) -> Result<Vec<u8>, AllocError> {
    let report = report_frame(alloc)?;
    let ack = ack_frame(alloc)?;
    joined(alloc, &[&report, between, &ack, behind])
}

// A report, an acknowledgement and a lock.
fn three_frames(alloc: Global) -> Result<Vec<u8>, AllocError> {
    let lock = lock_frame(alloc)?;
    with_between(alloc, &[], &lock)
}

fn are_of(frames: &[Frame], signers: &[u8]) -> bool {
    for (frame, signer) in frames.iter().zip(signers) {
        if frame.statement().signer().number() != *signer {
            return false;
        }
    }
    frames.len() == signers.len()
}

// Whether a reader finds frames of these signers in a piece, and is then between two frames.
fn finds(alloc: Global, piece: &[u8], signers: &[u8]) -> bool {
    let mut reader = FrameReader::new(alloc);
    match reader.feed(piece) {
        Ok(frames) => are_of(&frames, signers) && reader.is_between(),
        Err(_) => false,
    }
}

// All at once; and two frames with part of the third, before the rest of it.
#[test]
fn reads_several_frames(rt: HostRuntime) {
    let bytes = three_frames(rt.alloc()).expect(&rt, "memory");
    assert!(rt; finds(rt.alloc(), &bytes, &[0, 2, 1]));
    let cut = bytes.len().saturating_sub(5);
    let cases = [
        (&bytes[..cut], (Ok(2), false)),
        (&[], (Ok(0), false)),
        (&bytes[cut..], (Ok(1), true)),
    ];
    assert_eq!(rt; first_wrong(rt.alloc(), &cases), None);
}

// The answers after a fault: each further piece fails.
const FAILED: Answer = (Err(FrameFault::Failed), false);

#[test]
fn refuses_a_long_frame(rt: HostRuntime) {
    let good = report_frame(rt.alloc()).expect(&rt, "memory");
    let cases = [
        (
            [0, 2, 0x49, 0xf1].as_slice(),
            (Err(FrameFault::TooLong), false),
        ),
        (&[], FAILED),
        (&good, FAILED),
    ];
    assert_eq!(rt; first_wrong(rt.alloc(), &cases), None);
}

#[test]
fn awaits_150000_bytes_and_refuses_an_empty_frame(rt: HostRuntime) {
    let longest = [([0, 2, 0x49, 0xf0].as_slice(), (Ok(0), false))];
    assert_eq!(rt; first_wrong(rt.alloc(), &longest), None);
    let empty = [
        ([0, 0, 0].as_slice(), (Ok(0), false)),
        (&[0], (Err(FrameFault::Malformed), false)),
        (&[0], FAILED),
    ];
    assert_eq!(rt; first_wrong(rt.alloc(), &empty), None);
}

// A reader returns `count` frames of these bytes before this fault, which then stays: for no bytes, and for a good frame.
// The index of the first of these three pieces that gets another answer, if there is one.
fn first_wrong_end(
    alloc: Global,
    bytes: &[u8],
    count: usize,
    fault: FrameFault,
) -> Option<Option<usize>> {
    let good = report_frame(alloc).ok()?;
    let cases = [
        (bytes, (Ok(count), false)),
        (&[], (Err(fault), false)),
        (&good, FAILED),
    ];
    Some(first_wrong(alloc, &cases))
}

#[test]
fn hands_out_frames_before_a_fault(rt: HostRuntime) {
    let alloc = rt.alloc();
    let long = with_between(alloc, &[], &[0xff, 0xff, 0xff, 0xff]).expect(&rt, "memory");
    assert_eq!(rt;
        first_wrong_end(alloc, &long, 2, FrameFault::TooLong),
        Some(None)
    );
    let malformed = with_between(alloc, &[0, 0, 0, 1, 9], &[]).expect(&rt, "memory");
    assert_eq!(rt;
        first_wrong_end(alloc, &malformed, 1, FrameFault::Malformed),
        Some(None)
    );
}
