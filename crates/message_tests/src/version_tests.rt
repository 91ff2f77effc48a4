//! The versions of clusters, statements and frames.

use super::spellings::{ACK, REPORT, joined, lock_of};
use bytes::Bytes;
use ledger_model::{AppKind, Config, ConfigFault, Version};
use signed_frames::{Frame, FrameFault, FrameReader};
use statements::{DecodeFault, decode_in};
use std::alloc::{AllocError, Global};

// The version of a cluster's frames once they are set, or why they aren't.
fn frames_of(number: u8) -> Result<Version, ConfigFault> {
    let config = Config::new(4, 1, AppKind::KvStore)?.with_frames(number)?;
    Ok(config.frames)
}

#[test]
fn clusters_have_frames_1_or_2(rt: HostRuntime) {
    for (number, wanted) in [
        (0, Err(ConfigFault::Version)),
        (1, Ok(Version::One)),
        (2, Ok(Version::Two)),
        (3, Err(ConfigFault::Version)),
    ] {
        assert!(rt; frames_of(number) == wanted, "{number}");
    }
}

// An acknowledgement with this first byte, of a batch of `count` transactions [a].
fn ack_of(alloc: Global, first: u8, count: u8) -> Result<Vec<u8>, AllocError> {
    let mut bytes = joined(alloc, &[&[first], &ACK[1..10], &[count]])?;
    for _ in 0..count {
        bytes.extend_from_slice(&[1, 0x61])?;
    }
    Ok(bytes)
}

// A report with this first byte, of a batch of `count` transactions [a].
fn report_of(alloc: Global, first: u8, count: u8) -> Result<Vec<u8>, AllocError> {
    let mut bytes = joined(alloc, &[&[first], &REPORT[1..11], &[count]])?;
    for _ in 0..count {
        bytes.extend_from_slice(&[1, 0x61])?;
    }
    bytes.extend_from_slice(&[1, 0, 0])?;
    Ok(bytes)
}

// Whether frames of a version carry what was built.
fn is_carried(alloc: Global, version: Version, built: Result<Vec<u8>, AllocError>) -> Option<bool> {
    match decode_in(version, alloc, &built.ok()?) {
        Ok(_) => Some(true),
        Err(DecodeFault::Malformed) => Some(false),
        Err(DecodeFault::NoMemory) => None,
    }
}

// Acknowledgements by their first bytes, and whether their counts are those of a batch.
#[test]
fn counts_of_transactions(rt: HostRuntime) {
    let alloc = rt.alloc();
    for (version, first, count, wanted) in [
        (Version::One, 0x03, 16, true),
        (Version::One, 0x03, 17, false),
        (Version::One, 0x13, 16, false),
        (Version::Two, 0x03, 16, true),
        (Version::Two, 0x03, 17, false),
        (Version::Two, 0x13, 64, true),
        (Version::Two, 0x13, 65, false),
    ] {
        assert!(rt;
            is_carried(alloc, version, ack_of(alloc, first, count)) == Some(wanted),
            "{version:?} {first} {count}"
        );
    }
}

#[test]
fn counts_of_transactions_in_reports(rt: HostRuntime) {
    let alloc = rt.alloc();
    for (version, first, count, wanted) in [
        (Version::One, 0x01, 16, true),
        (Version::One, 0x01, 17, false),
        (Version::One, 0x11, 16, false),
        (Version::Two, 0x01, 17, false),
        (Version::Two, 0x11, 64, true),
        (Version::Two, 0x11, 65, false),
    ] {
        assert!(rt;
            is_carried(alloc, version, report_of(alloc, first, count)) == Some(wanted),
            "{version:?} {first} {count}"
        );
    }
}

// The frame of a lock with this first byte, without a signature, and with reports that have these first bytes.
fn lock_frame_of(alloc: Global, first: u8, reports: [u8; 3]) -> Result<Vec<u8>, AllocError> {
    let lock = lock_of(alloc, 3, &[0, 2, 3])?;
    let mut bytes = joined(alloc, &[&[0, 0, 0, 99], &lock, &[0, 0]])?;
    for (place, byte) in [
        (4, first),
        (20, reports[0]),
        (47, reports[1]),
        (74, reports[2]),
    ] {
        if let Some(old) = bytes.get_mut(place) {
            *old = byte;
        }
    }
    Ok(bytes)
}

// The version of the statement that is parsed; none if the frame is malformed.
fn parsed_version(
    alloc: Global,
    version: Version,
    built: Result<Vec<u8>, AllocError>,
) -> Option<Option<Version>> {
    let bytes = Bytes::from_vec(built.ok()?).ok()?;
    match Frame::parse_in(version, alloc, bytes) {
        Ok(frame) => Some(Some(frame.statement().version())),
        Err(DecodeFault::Malformed) => Some(None),
        Err(DecodeFault::NoMemory) => None,
    }
}

// A lock of version 2 may have reports of both versions, one of version 1 has those of version 1.
#[test]
fn locks_with_reports_of_both_versions(rt: HostRuntime) {
    let alloc = rt.alloc();
    for (version, first, reports, wanted) in [
        (Version::One, 0x02, [0x01, 0x01, 0x01], Some(Version::One)),
        (Version::One, 0x12, [0x01, 0x01, 0x01], None),
        (Version::One, 0x02, [0x01, 0x11, 0x01], None),
        (Version::Two, 0x02, [0x01, 0x01, 0x01], Some(Version::One)),
        (Version::Two, 0x02, [0x01, 0x11, 0x01], None),
        (Version::Two, 0x12, [0x01, 0x11, 0x01], Some(Version::Two)),
        (Version::Two, 0x12, [0x11, 0x11, 0x11], Some(Version::Two)),
        (Version::Two, 0x12, [0x11, 0x21, 0x11], None),
    ] {
        let frame = lock_frame_of(alloc, first, reports);
        assert!(rt;
            parsed_version(alloc, version, frame) == Some(wanted),
            "{version:?} {first} {reports:?}"
        );
    }
}

// The number of frames that a reader of a version finds in four bytes.
fn fed(alloc: Global, version: Version, length: u32) -> Result<usize, FrameFault> {
    let mut reader = FrameReader::new_in(version, alloc);
    Ok(reader.feed(&length.to_be_bytes())?.len())
}

#[test]
fn lengths_of_bodies(rt: HostRuntime) {
    for (version, length, wanted) in [
        (Version::One, 150_000, Ok(0)),
        (Version::One, 0x249f1, Err(FrameFault::TooLong)),
        (Version::Two, 0x249f1, Ok(0)),
        (Version::Two, 0x927c1, Err(FrameFault::TooLong)),
    ] {
        assert!(rt;
            fed(rt.alloc(), version, length) == wanted,
            "{version:?} {length}"
        );
    }
}
