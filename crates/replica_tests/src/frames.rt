//! Frames that no line of a scenario makes.
use crate::fault::Fault;
use bytes::Bytes;
use cluster_setup::{ClusterSeed, key_pair};
use ledger_model::{Entry, ReplicaId, Reply, Sent};
use locked_replica::Snapshot;
use std::alloc::{AllocError, Global};

/// The first bytes of a frame, after its length: the kind of its statement, the height and the phase.
#[derive(Clone, Copy)]
pub(crate) struct Head {
    pub(crate) kind: u8,
    pub(crate) height: u8,
    pub(crate) phase: u8,
}

/// Whether the frame starts so, given the low bytes of its height and phase.
fn has_head(frame: &[u8], head: Head) -> bool {
    match frame {
        [_, _, _, _, kind, _, _, _, height, _, _, _, phase, ..] => {
            *kind == head.kind && *height == head.height && *phase == head.phase
        }
        _ => false,
    }
}

fn among(frames: &[Sent], head: Head) -> Option<&Sent> {
    for sent in frames {
        if has_head(&sent.frame, head) {
            return Some(sent);
        }
    }
    None
}

fn sent_at(entry: &Entry, head: Head) -> Option<&Sent> {
    match &entry.reply {
        Reply::RoundEnded(Ok(end)) => among(end.frames.as_slice(), head),
        _ => None,
    }
}

/// The bytes of the first such frame that a replica sent.
pub(crate) fn frame_of(told: &Snapshot, head: Head) -> Result<Bytes, Fault> {
    for entry in told.history.entries.as_slice() {
        if let Some(sent) = sent_at(entry, head) {
            return Ok(sent.frame.clone()?);
        }
    }
    Err(Fault::NoFrame)
}

/// The frame of a statement with this signature.
fn framed(alloc: Global, statement: &[u8], signature: &[u8]) -> Result<Bytes, AllocError> {
    let len = statement
        .len()
        .saturating_add(signature.len())
        .saturating_add(2);
    let len = u32::try_from(len).unwrap_or(u32::MAX);
    let mut bytes = Vec::new(alloc);
    for part in &[&len.to_be_bytes(), statement, &[0x09, 0x2c], signature] {
        bytes.extend_from_slice(part)?;
    }
    Ok(Bytes::from_vec(bytes)?)
}

/// The first signature of replica 1.
fn signature_of(alloc: Global, cluster: &ClusterSeed, statement: &[u8]) -> Result<Vec<u8>, Fault> {
    let mut signer = key_pair(alloc, cluster, ReplicaId::new(1))?;
    Ok(signer.sign(alloc, statement)?)
}

/// The frame of a statement of replica 1, which signs it with its first leaf.
pub(crate) fn signed_by_one(
    alloc: Global,
    cluster: &ClusterSeed,
    statement: &[u8],
) -> Result<Bytes, Fault> {
    let signature = signature_of(alloc, cluster, statement)?;
    Ok(framed(alloc, statement, &signature)?)
}
