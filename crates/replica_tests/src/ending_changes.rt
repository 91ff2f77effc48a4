//! Changes round ends: their frames, and whether the replica is mute.
use crate::changing::Change;
use bytes::Bytes;
use ledger_model::{Addressee, ReplicaId, Reply, RoundEnded, Sent, SentFrames};
use std::alloc::{AllocError, Global};

/// Another addressee: one replica instead of all, and all instead of one.
fn changed_addressee(addressee: Addressee) -> Addressee {
    match addressee {
        Addressee::All => Addressee::One(ReplicaId::new(0)),
        Addressee::One(_) => Addressee::All,
    }
}

/// The bytes with the one at this index changed, if there is one.
fn changed_bytes(alloc: Global, bytes: &[u8], at: usize) -> Result<Option<Bytes>, AllocError> {
    let mut other = bytes.to_vec(alloc)?;
    let Some(byte) = other.get_mut(at) else {
        return Ok(None);
    };
    *byte ^= 1;
    Ok(Some(Bytes::from_vec(other)?))
}

/// The changed frame, if there is such a change.
fn changed_frame(alloc: Global, sent: &Sent, change: Change) -> Result<Option<Sent>, AllocError> {
    match change {
        Change::Number => Ok(Some(Sent {
            addressee: changed_addressee(sent.addressee),
            frame: sent.frame.clone()?,
        })),
        Change::Byte(at) => match changed_bytes(alloc, &sent.frame, at)? {
            Some(frame) => Ok(Some(Sent {
                addressee: sent.addressee,
                frame,
            })),
            None => Ok(None),
        },
        _ => Ok(None),
    }
}

/// Appends copies of these frames.
fn add_copies(others: &mut Vec<Sent>, frames: &[Sent]) -> Result<(), AllocError> {
    for sent in frames {
        others.push(sent.copy()?)?;
    }
    Ok(())
}

/// Appends the changed frame. Returns whether there is such a change.
fn add_changed_frame(
    others: &mut Vec<Sent>,
    alloc: Global,
    sent: &Sent,
    change: Change,
) -> Result<bool, AllocError> {
    match changed_frame(alloc, sent, change)? {
        Some(other) => {
            others.push(other)?;
            Ok(true)
        }
        None => Ok(false),
    }
}

/// Appends an empty frame to all replicas.
fn add_empty_frame(others: &mut Vec<Sent>) -> Result<(), AllocError> {
    Ok(others.push(Sent {
        addressee: Addressee::All,
        frame: Bytes::from_static(b""),
    })?)
}

/// Appends the changed frames. Returns whether there is such a change.
fn add_changed(
    others: &mut Vec<Sent>,
    alloc: Global,
    frames: &[Sent],
    change: Change,
) -> Result<bool, AllocError> {
    if let Change::More = change {
        add_copies(others, frames)?;
        add_empty_frame(others)?;
        return Ok(true);
    }
    let [first, later @ ..] = frames else {
        return Ok(false);
    };
    let is_fewer = matches!(change, Change::Fewer);
    let is_changed = is_fewer || add_changed_frame(others, alloc, first, change)?;
    add_copies(others, later)?;
    Ok(is_changed)
}

/// The reply of the round end, with its frames changed.
pub(crate) fn changed_end(
    alloc: Global,
    end: &RoundEnded,
    change: Change,
) -> Result<Option<Reply>, AllocError> {
    let mut others = Vec::new(alloc);
    if !add_changed(&mut others, alloc, end.frames.as_slice(), change)? {
        return Ok(None);
    }
    Ok(Some(Reply::RoundEnded(Ok(RoundEnded {
        mute: end.mute,
        frames: SentFrames::new(others),
    }))))
}

/// The round end with the mute flag inverted.
pub(crate) fn with_other_flag(reply: &Reply) -> Result<Option<Reply>, AllocError> {
    match reply {
        Reply::RoundEnded(Ok(end)) => Ok(Some(Reply::RoundEnded(Ok(RoundEnded {
            mute: !end.mute,
            frames: end.frames.copy()?,
        })))),
        _ => Ok(None),
    }
}
