//! Names the statement of a signer that an entry accepts.
use bytes::Bytes;
use ledger_model::{Entry, Event, Lock, ReplicaId, Statement, Version};
use signed_frames::Frame;
use statements::DecodeFault;
use std::alloc::{AllocError, Global};

/// Where a statement is in a ledger, as words: `of height 1 and phase 2`.
fn place_text(alloc: Global, statement: &Statement) -> Result<String, AllocError> {
    let height = statement.height().number();
    let phase = statement.phase().number();
    format!(in alloc; "of height {height} and phase {phase}")
}

/// Whether the lock's proof has a report of the signer.
fn has_report_of(lock: &Lock, signer: ReplicaId) -> bool {
    lock.proof
        .as_slice()
        .iter()
        .any(|signed| signed.report.signer == signer)
}

/// The kind of the statement that is the signer's: the one of the frame, or a report in the proof of the frame's lock.
fn kind_text(statement: &Statement, signer: ReplicaId) -> &'static str {
    match statement {
        Statement::Report(_) => "the report",
        Statement::Ack(_) => "the acknowledgement",
        Statement::Lock(lock) if lock.signer != signer => "the report, in a lock's proof,",
        Statement::Lock(lock) if has_report_of(lock, signer) => {
            "the lock, or the report in the lock's proof,"
        }
        Statement::Lock(_) => "the lock",
    }
}

/// The statement that a frame has of the signer.
fn frame_text(alloc: Global, bytes: &Bytes, signer: ReplicaId) -> Result<String, AllocError> {
    match Frame::parse_in(Version::Two, alloc, bytes.clone()?) {
        Ok(frame) => {
            let kind = kind_text(frame.statement(), signer);
            let place = place_text(alloc, frame.statement())?;
            format!(in alloc; "{kind} {place}")
        }
        Err(DecodeFault::Malformed) => format!(in alloc; "a statement"),
        Err(DecodeFault::NoMemory) => Err(AllocError),
    }
}

/// The statement of the signer that the entry accepts, as words: `the report of height 1 and phase 2`. If the entry isn't there or
/// accepts no frame, the words name no kind and no place.
pub(crate) fn accepted_text(
    alloc: Global,
    entry: Option<&Entry>,
    signer: ReplicaId,
) -> Result<String, AllocError> {
    let Some(entry) = entry else {
        return format!(in alloc; "a statement");
    };
    match &entry.event {
        Event::Deliver(bytes) => frame_text(alloc, bytes, signer),
        _ => format!(in alloc; "a statement"),
    }
}
