//! Bytes of statements and frames, written by hand.

use std::alloc::{AllocError, Global};
use test_support::{lock_bytes, report_bytes};

/// The report of replica 0 on the batch [a=1] at height 1 and phase 1, with no ALL and no locks.
pub(crate) const REPORT: [u8; 23] = [
    1, 0, 0, 0, 1, 0, 0, 0, 1, 0, 0, 1, 3, 0x61, 0x3d, 0x31, 1, 1, 3, 0x61, 0x3d, 0x31, 0,
];

/// The acknowledgement of replica 2 of that batch.
pub(crate) const ACK: [u8; 15] = [3, 0, 0, 0, 1, 0, 0, 0, 1, 2, 1, 3, 0x61, 0x3d, 0x31];

/// The report of replica 9 at height 2 and phase 3: ALL, the empty batch, proper [] and [z], locked [z].
pub(crate) const ALL_REPORT: [u8; 21] = [
    1, 0, 0, 0, 2, 0, 0, 0, 3, 9, 1, 0, 2, 0, 1, 1, 0x7a, 1, 1, 1, 0x7a,
];

/// Signatures have 2348 bytes here.
const SIGNATURE_LEN: [u8; 2] = [0x09, 0x2c];

fn put_all(bytes: &mut Vec<u8>, parts: &[&[u8]]) -> Result<(), AllocError> {
    for part in parts {
        bytes.extend_from_slice(part)?;
    }
    Ok(())
}

/// These parts, one after another.
pub(crate) fn joined(alloc: Global, parts: &[&[u8]]) -> Result<Vec<u8>, AllocError> {
    let mut bytes = Vec::new(alloc);
    put_all(&mut bytes, parts)?;
    Ok(bytes)
}

// Appends the reports of these signers on [a=1] at height 1 and phase 1. Each signature consists of its signer's number and 5.
fn put_reports(bytes: &mut Vec<u8>, signers: &[u8]) -> Result<(), AllocError> {
    for signer in signers {
        bytes.extend_from_slice(&report_bytes(1, 1, *signer, b'a'))?;
        bytes.extend_from_slice(&[0, 2, *signer, 5])?;
    }
    Ok(())
}

/// The lock of replica 1 on [a=1] at height 1 and phase 1, with the reports of these signers on [a=1]. Each report's
/// signature consists of its signer's number and 5.
pub(crate) fn lock_of(alloc: Global, count: u8, signers: &[u8]) -> Result<Vec<u8>, AllocError> {
    let mut bytes = joined(alloc, &[&lock_bytes(1, 1, b'a', count)])?;
    put_reports(&mut bytes, signers)?;
    Ok(bytes)
}

/// The frame that announces this length, with a statement's bytes and a signature of bytes 7.
fn frame_of(alloc: Global, len: [u8; 4], statement: &[u8]) -> Result<Vec<u8>, AllocError> {
    joined(alloc, &[&len, statement, &SIGNATURE_LEN, &[7; 2348]])
}

pub(crate) fn report_frame(alloc: Global) -> Result<Vec<u8>, AllocError> {
    frame_of(alloc, [0, 0, 0x09, 0x45], &REPORT)
}

pub(crate) fn ack_frame(alloc: Global) -> Result<Vec<u8>, AllocError> {
    frame_of(alloc, [0, 0, 0x09, 0x3d], &ACK)
}

/// The lock with the reports of replicas 0, 2 and 3. Each report's signature consists of bytes that are its signer's number.
pub(crate) fn lock_statement(alloc: Global) -> Result<Vec<u8>, AllocError> {
    joined(
        alloc,
        &[
            &lock_bytes(1, 1, b'a', 3),
            &report_bytes(1, 1, 0, b'a'),
            &SIGNATURE_LEN,
            &[0; 2348],
            &report_bytes(1, 1, 2, b'a'),
            &SIGNATURE_LEN,
            &[2; 2348],
            &report_bytes(1, 1, 3, b'a'),
            &SIGNATURE_LEN,
            &[3; 2348],
        ],
    )
}

/// The frame of that lock.
pub(crate) fn lock_frame(alloc: Global) -> Result<Vec<u8>, AllocError> {
    frame_of(alloc, [0, 0, 0x25, 0x0d], &lock_statement(alloc)?)
}

/// The frame of the lock with the reports of replicas 0 to 8. Each report's signature consists of its signer's number and 5.
pub(crate) fn long_lock_frame(alloc: Global) -> Result<Vec<u8>, AllocError> {
    let lock = lock_of(alloc, 9, &[0, 1, 2, 3, 4, 5, 6, 7, 8])?;
    joined(alloc, &[&[0, 0, 1, 7], &lock, &[0, 2, 6, 7]])
}
