//! The frames that wait for a replica.
use bytes::Bytes;
use ledger_model::Version;
use replica_turns::WaitingFrames;
use std::alloc::{AllocError, Global};
use std::test::Fail;

/// A report of height 1 and phase 1 on the batch `[a=1]`, without a signature.
const REPORT: &[u8; 29] = b"\0\0\0\x19\x01\0\0\0\x01\0\0\0\x01\0\0\x01\x03a=1\x01\x01\x03a=1\0\0\0";

/// Takes in a frame of the round after this one, and bytes that are no frame.
fn take_in_two(alloc: Global, waiting: &mut WaitingFrames, clock: u32) -> Result<(), AllocError> {
    let mut frames = Vec::with_capacity(alloc, 2)?;
    frames.push(Bytes::from_static(REPORT))?;
    frames.push(Bytes::from_static(b"x"))?;
    if waiting.room() < 2 {
        return Err(AllocError);
    }
    waiting.take_in(Version::One, alloc, clock, frames)
}

/// The number of frames that are due, and the number of frames that there is room for.
fn counts(waiting: &WaitingFrames) -> (usize, usize) {
    (waiting.due().len(), waiting.room())
}

#[test]
fn an_early_frame_is_due_in_its_round_too(rt: HostRuntime) -> Result<(), Fail> {
    let mut waiting = WaitingFrames::new(rt.alloc());
    assert_eq!(rt; counts(&waiting), (0, 64));
    take_in_two(rt.alloc(), &mut waiting, 0)?;
    assert_eq!(rt; counts(&waiting), (2, 62));
    waiting.give_up(2);
    waiting.open_round()?;
    assert_eq!(rt; counts(&waiting), (1, 63));
    take_in_two(rt.alloc(), &mut waiting, 1)?;
    waiting.open_round()?;
    assert_eq!(rt; counts(&waiting), (3, 61));
    waiting.give_up_all();
    assert_eq!(rt; counts(&waiting), (0, 64));
    Ok(())
}

/// Takes in as many frames of the next round as there is room for, and gives them up for this round.
fn fill(alloc: Global, waiting: &mut WaitingFrames) -> Result<(), AllocError> {
    let mut frames = Vec::new(alloc);
    for _frame in 0..waiting.room() {
        frames.push(Bytes::from_static(REPORT))?;
    }
    if waiting.room() < frames.len() {
        return Err(AllocError);
    }
    let count = frames.len();
    waiting.take_in(Version::One, alloc, 0, frames)?;
    waiting.give_up(count);
    Ok(())
}

/// The number of frames that are due, and of those of the next turn.
fn next_counts(waiting: &WaitingFrames) -> (usize, usize) {
    (waiting.due().len(), waiting.first_due().len())
}

// A turn has at most 64 of the frames that are due.
#[test]
fn frames_are_handed_over_in_pieces(rt: HostRuntime) -> Result<(), Fail> {
    let mut waiting = WaitingFrames::new(rt.alloc());
    fill(rt.alloc(), &mut waiting)?;
    fill(rt.alloc(), &mut waiting)?;
    assert_eq!(rt; next_counts(&waiting), (0, 0));
    waiting.open_round()?;
    assert_eq!(rt; next_counts(&waiting), (128, 64));
    waiting.give_up(100);
    assert_eq!(rt; next_counts(&waiting), (28, 28));
    Ok(())
}

/// The number of frames that wait for the next round where one arrived, whose statement starts with this byte.
fn waiting_of(alloc: Global, version: Version, first: u8) -> Result<usize, AllocError> {
    let mut bytes = *REPORT;
    bytes[4] = first;
    let mut frames = Vec::with_capacity(alloc, 1)?;
    frames.push(Bytes::copy_from_slice(alloc, &bytes)?)?;
    let mut waiting = WaitingFrames::new(alloc);
    waiting.take_in(version, alloc, 0, frames)?;
    waiting.give_up(1);
    waiting.open_round()?;
    Ok(waiting.due().len())
}

#[test]
fn frames_wait_whose_version_is_read(rt: HostRuntime) -> Result<(), Fail> {
    for (version, first, wanted) in [
        (Version::One, 0x01, 1),
        (Version::One, 0x11, 0),
        (Version::Two, 0x01, 1),
        (Version::Two, 0x11, 1),
    ] {
        let waiting = waiting_of(rt.alloc(), version, first)?;
        assert!(rt; waiting == wanted, "{version:?} {first} {waiting}");
    }
    Ok(())
}
